//! What is printed of a term.

ghost use Rattle.std.specs.Prelude.{◌≡◌, IfErr, OnOk};
ghost use Rattle.std.specs.Io.KnownBytes.{Appends};
ghost use Rattle.pf_terms.specs.Atoms.{name_of};
ghost use Rattle.pf_terms.specs.Term.{value_of};
ghost use Rattle.pf_model.specs.TermText.{value_text};
ghost use Rattle.pf_streams.specs.Streams.{LeavesFront};

use crate::put_term;
use pf_errors::OrNoMemory;
use pf_streams::{Counted, StreamFault};
use pf_terms::{AtomTable, Term};
use std::alloc::Global;
use std::io::Write;
use std::sync::ledger::Ledger;

/// Writes the text of a term. Where a write fails, a beginning of it was written.
pub fn print<W: Write, L: Ledger>(
    alloc: Global,
    term: &Term,
    atoms: &AtomTable,
    writer: &mut Counted<W, L>,
) -> Result<(), OrNoMemory<StreamFault>>
    ensures written { OnOk result (Appends (W.contents writer.old.inner) (W.contents writer.new.inner)
        (value_text (name_of atoms.now) (value_of term.now))) }
    ensures kept { OnOk result (writer.new.failures.total ≡ writer.old.failures.total) }
    ensures fault { IfErr result (λ e. LeavesFront e (value_text (name_of atoms.now) (value_of term.now))
        (W.contents writer.old.inner) (W.contents writer.new.inner)
        writer.old.failures.total writer.new.failures.total) }
{
    let mut text = Vec::new(alloc);
    put_term(&mut text, atoms, term)?;
    writer.put(&text)?;
    Ok(())
}
