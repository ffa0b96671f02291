//! What is reported of a hunt that stopped before its end.

ghost use Rattle.std.specs.Prelude.{◌≡◌, ◌++◌, OnOk};
ghost use Rattle.pf_cli.specs.Args.{view_of_hunt_args};
ghost use Rattle.pf_command.specs.Hunts.{front_text, may_stop, stopped_text};

use pf_cli::HuntArgs;
use pf_errors::NoMemory;
use pf_text::{put, put_number};

/// Whether a hunt may stop before its end: one for a time does.
pub(crate) fn may_stop(args: &HuntArgs) -> bool
    ensures { result ≡ may_stop (view_of_hunt_args args.now) }
{
    args.time.is_some()
}

/// Puts that a hunt stopped after n seeds.
fn put_stopped(out: &mut Vec<u8>, seeds: u64) -> Result<(), NoMemory>
    ensures { OnOk result (out.new.items ≡ out.old.items ++ stopped_text seeds) }
{
    put(out, b"stopped after ")?;
    put_number(out, seeds)?;
    put(out, b" seeds\n")
}

/// Puts that a hunt stopped after the seeds to before an end, unless these are all.
pub(crate) fn put_front(out: &mut Vec<u8>, args: &HuntArgs, end: u64) -> Result<(), NoMemory>
    ensures { OnOk result (out.new.items ≡ out.old.items ++ front_text (view_of_hunt_args args.now) end) }
{
    if end == args.end {
        Ok(())
    } else {
        put_stopped(out, end.saturating_sub(args.first))
    }
}
