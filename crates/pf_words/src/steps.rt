//! Commands that are answered, and what is said of them.

ghost use Rattle.std.specs.Prelude.{◌≡◌, ◌<◌, ℕ};
ghost use Rattle.pf_cli.specs.Args.{steps};
ghost use Rattle.pf_command.specs.Streams.{streams};
ghost use Rattle.pf_wire.specs.declared.steps.TheConstants as wire;
ghost use Rattle.pf_words.specs.Words.{StepsEnd, TakesAtMost, WorkEnds};

use pf_cli_messages::{line_reason, say};
use pf_errors::{NoMemory, OrNoMemory};
use pf_files::AnsweredRoot;
use pf_steps::run_steps;
use pf_streams::{Counted, StreamFault};
use pf_wire::{InputEnd, RefusedLine};
use std::alloc::{AllocGlobal, Global};
use std::hash::RandomState;
use std::io::{self, Read, Write};
use std::random::RandomSource;
use std::sync::ledger::{Blank, Ledger};

/// Keys for tables. They are random, so that no choice of projects or sources makes a table slow.
pub fn random_keys(rt: &impl RandomSource) -> Result<RandomState, OrNoMemory<StreamFault>> {
    match RandomState::new(rt) {
        Ok(keys) => Ok(keys),
        Err(_) => {
            let reason = "the system gives no random numbers";
            let error = io::Error::new(io::ErrorKind::Other, reason);
            Err(OrNoMemory::Fault(StreamFault::Read(error)))
        }
    }
}

/// Answers commands.
fn answer_commands<R: Read, W: Write, L: Ledger, M: Ledger>(
    rt: &(impl AllocGlobal + RandomSource),
    reader: &mut Counted<R, L>,
    writer: &mut Counted<W, M>,
    ending: &mut InputEnd,
) -> AnsweredRoot
    ensures ended { StepsEnd
        (streams (R.remaining reader.old.inner) (W.contents writer.old.inner)
        reader.old.failures.total writer.old.failures.total)
        (streams (R.remaining reader.new.inner) (W.contents writer.new.inner)
        reader.new.failures.total writer.new.failures.total) result }
    ensures taken { TakesAtMost wire.MOST_BYTES
        (streams (R.remaining reader.old.inner) (W.contents writer.old.inner)
        reader.old.failures.total writer.old.failures.total)
        (streams (R.remaining reader.new.inner) (W.contents writer.new.inner)
        reader.new.failures.total writer.new.failures.total) }
{
    let keys = random_keys(rt)?;
    run_steps(rt.alloc(), keys, reader, writer, ending)
}

/// Says on standard error why reading ended before the input did.
fn say_ending(rt: &(impl Eprint + AllocGlobal), ending: &InputEnd) {
    if ending.is_full {
        say(
            rt,
            "67,108,864 bytes of commands were read, and what follows them isn't",
        );
    }
    let Some(line) = &ending.refused else {
        return;
    };
    match refusal(rt.alloc(), line) {
        Ok(text) => say(rt, &text),
        Err(NoMemory) => say(rt, "a line is no command"),
    }
}

/// Why a line was refused.
fn refusal(alloc: Global, line: &RefusedLine) -> Result<String, NoMemory> {
    let number = line.number;
    let reason = line_reason(alloc, &line.text, line.is_whole)?;
    Ok(format!(in alloc;
        "command {number} is none: {reason}; those before it were answered, and nothing after it was read"
    )?)
}

/// Answers commands, and says on standard error why reading ended before the input did.
pub fn answer_steps<R: Read, W: Write, L: Ledger, M: Ledger>(
    rt: &(impl Eprint + AllocGlobal + RandomSource),
    reader: &mut Counted<R, L>,
    writer: &mut Counted<W, M>,
) -> AnsweredRoot
    ensures ended { StepsEnd
        (streams (R.remaining reader.old.inner) (W.contents writer.old.inner)
        reader.old.failures.total writer.old.failures.total)
        (streams (R.remaining reader.new.inner) (W.contents writer.new.inner)
        reader.new.failures.total writer.new.failures.total) result }
    ensures taken { TakesAtMost wire.MOST_BYTES
        (streams (R.remaining reader.old.inner) (W.contents writer.old.inner)
        reader.old.failures.total writer.old.failures.total)
        (streams (R.remaining reader.new.inner) (W.contents writer.new.inner)
        reader.new.failures.total writer.new.failures.total) }
{
    let mut ending = InputEnd::new();
    let status = answer_commands(rt, reader, writer, &mut ending)?;
    say_ending(rt, &ending);
    Ok(status)
}

/// How the commands of a file were answered, and the file after that.
#[derive(Drop)]
pub struct AnsweredFile<F> {
    pub answered: AnsweredRoot,
    pub file: F,
}

/// Answers the commands that an open file holds.
pub fn answer_file<F: Read, W: Write, L: Ledger, M: Ledger>(
    rt: &(impl Eprint + AllocGlobal + RandomSource),
    file: F,
    writer: &mut Counted<W, M>,
    reads: Blank,
) -> AnsweredFile<F>
    requires reads { reads.name ≡ L.name }
    requires read_parts { reads.parts ≡ L.parts }
    requires some_reads { 0 < reads.parts }
    ensures { (n : ℕ) × WorkEnds steps
        (streams (F.remaining file) (W.contents writer.old.inner) 0 writer.old.failures.total)
        (streams (F.remaining result.file) (W.contents writer.new.inner) n writer.new.failures.total) result.answered }
{
    let mut reader = Counted::<F, L>::new(file, reads);
    let answered = answer_steps(rt, &mut reader, writer);
    let file = reader.inner;
    AnsweredFile { answered, file }
}
