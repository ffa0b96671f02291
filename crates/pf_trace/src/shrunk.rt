//! The text of what a shrinking found.

ghost use Rattle.std.specs.Prelude.{◌≡◌, ◌++◌, OnOk};
ghost use Rattle.pf_model.specs.Shrinking.{found};
ghost use Rattle.pf_model.specs.Text.{complete_text, found_text};
ghost use Rattle.pf_model.specs.TermText.{line};

use pf_errors::NoMemory;
use pf_text::{put, put_byte, put_schedule};

/// Puts whether no candidate of a schedule fails, on a line.
fn put_complete(out: &mut Vec<u8>, complete: bool) -> Result<(), NoMemory>
    ensures { OnOk result (out.new.items ≡ out.old.items ++ line (complete_text complete)) }
{
    if complete {
        put(out, b"complete\n")
    } else {
        put(out, b"partial\n")
    }
}

/// Puts the schedule that a shrinking found, and whether no candidate of it fails, each on a line.
pub fn put_found(out: &mut Vec<u8>, schedule: &[u32], complete: bool) -> Result<(), NoMemory>
    ensures { OnOk result (out.new.items ≡ out.old.items ++ found_text (found schedule.now complete)) }
{
    put(out, b"schedule ")?;
    put_schedule(out, schedule)?;
    put_byte(out, b'\n')?;
    put_complete(out, complete)
}
