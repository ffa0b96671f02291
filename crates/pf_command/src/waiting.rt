//! A text that is written by way of a buffer of a fixed size, so that it takes no memory.

ghost use Rattle.std.specs.Prelude.{◌≡◌, ◌++◌, List, ℕ, IfErr, OnErr, OnOk};
ghost use Rattle.std.specs.Fmt.{decimal};
ghost use Rattle.pf_streams.specs.Streams.{AppendsFront, CountsWrite};
ghost use Rattle.pf_command.specs.Waiting.{Adds};

use arrayvec::ArrayVec;
use itoa::Buffer;
use pf_streams::{Counted, StreamFault};
use std::io::Write;
use std::sync::ledger::Ledger;

/// How many bytes may wait.
const ROOM: usize = 4_096;

/// The bytes that wait to be written.
pub(crate) type OutputBuffer = ArrayVec<u8, ROOM>;

/// Adds a text to what waits, or has both written if there is no room for it.
pub(crate) fn add<W: Write, M: Ledger>(
    waiting: &mut OutputBuffer,
    text: &[u8],
    writer: &mut Counted<W, M>,
) -> Result<(), StreamFault>
    ensures added { OnOk result (Adds waiting.old.items text.now waiting.new.items
        (W.contents writer.old.inner) (W.contents writer.new.inner)) }
    ensures kept { OnOk result (writer.new.failures.total ≡ writer.old.failures.total) }
    ensures front { OnErr result (AppendsFront (W.contents writer.old.inner) (W.contents writer.new.inner)
        (waiting.old.items ++ text.now)) }
    ensures counted { IfErr result (λ e. CountsWrite e writer.old.failures.total writer.new.failures.total) }
{
    if waiting.try_extend_from_slice(text).is_ok() {
        return Ok(());
    }
    writer.put(waiting.as_slice())?;
    waiting.clear();
    writer.put(text)
}

/// Adds the digits of a number.
pub(crate) fn add_number<W: Write, M: Ledger>(
    waiting: &mut OutputBuffer,
    number: u64,
    writer: &mut Counted<W, M>,
) -> Result<(), StreamFault>
    ensures added { OnOk result (Adds waiting.old.items (decimal number) waiting.new.items
        (W.contents writer.old.inner) (W.contents writer.new.inner)) }
    ensures kept { OnOk result (writer.new.failures.total ≡ writer.old.failures.total) }
    ensures front { OnErr result (AppendsFront (W.contents writer.old.inner) (W.contents writer.new.inner)
        (waiting.old.items ++ decimal number)) }
    ensures counted { IfErr result (λ e. CountsWrite e writer.old.failures.total writer.new.failures.total) }
{
    let mut digits = Buffer::new();
    add(waiting, digits.format(number).as_bytes(), writer)
}
