//! The work of `steps`, by the profile of the language.

ghost use Rattle.std.specs.Prelude.{◌≡◌, ◌≤◌, ℕ, List, length, IfOk, IfErr, OnOk};
ghost use Rattle.std.specs.Io.KnownBytes.{Consumes};
ghost use Rattle.pf_wire.specs.Endings.{EndsAs};
ghost use Rattle.pf_wire.specs.Steps.{SimulatesSteps, StepsLeaves};
ghost use Rattle.pf_steps.specs.Profile.{run_profile};

use pf_errors::OrNoMemory;
use pf_streams::{Counted, StreamFault};
use pf_wire::{InputEnd, MOST_BYTES};
use std::alloc::Global;
use std::hash::RandomState;
use std::io::{Read, Write};
use std::sync::ledger::Ledger;

/// Reads at most 64 MiB, piece by piece, answers each command before it waits for more, and gives the status: 2 if a
/// line is no command, after which nothing is done, and else 0. The world of four workers hashes with these keys,
/// which no answer depends on. The ending has the line that is no command, by its number, for who says why reading
/// ended.
pub fn run_steps<R: Read, W: Write, L: Ledger, M: Ledger>(
    alloc: Global,
    keys: RandomState,
    reader: &mut Counted<R, L>,
    writer: &mut Counted<W, M>,
    ending: &mut InputEnd,
) -> Result<u8, OrNoMemory<StreamFault>>
    ensures answered { IfOk result (λ status. SimulatesSteps run_profile (R.remaining reader.old.inner)
        (W.contents writer.old.inner) (W.contents writer.new.inner) status) }
    ensures taken { (bytes : List ℕ) × (length bytes ≤ MOST_BYTES)
        × Consumes (R.remaining reader.old.inner) (R.remaining reader.new.inner) bytes }
    ensures counts { OnOk result ((reader.new.failures.total ≡ reader.old.failures.total)
        × (writer.new.failures.total ≡ writer.old.failures.total)) }
    ensures fault { IfErr result (λ e. StepsLeaves run_profile e
        (R.remaining reader.old.inner) (R.remaining reader.new.inner)
        (W.contents writer.old.inner) (W.contents writer.new.inner)
        reader.old.failures.total reader.new.failures.total
        writer.old.failures.total writer.new.failures.total) }
    ensures ending { IfOk result (λ status. EndsAs (R.remaining reader.old.inner) status ending.old ending.new) }
{
    pf_wire::run_steps(alloc, keys, reader, writer, ending)
}
