//! The work of `steps` between a reader and a writer.

ghost use Rattle.std.specs.Prelude.{◌≡◌, ◌≤◌, ◌<◌, ◌+◌, ◌^◌, ◌++◌, [], ℕ, List, Option, None, false, length};
ghost use Rattle.std.specs.Prelude.{vec_capacity, IfOk, IfErr, MatchOption, OnOk};
ghost use Rattle.std.specs.Option.{option_copied};
ghost use Rattle.std.specs.Io.KnownBytes.{Consumes};
ghost use Rattle.pf_world.specs.Chores as chores;
ghost use Rattle.pf_world.specs.Memory.{RespondsTo};
ghost use Rattle.pf_world.specs.Reported.{step_text};
ghost use Rattle.pf_world.specs.View.{view_of_step};
ghost use Rattle.pf_pool.specs.Profile.{ForRight};
ghost use Rattle.pf_world.specs.World.{new_world};
ghost use Rattle.pf_wire.specs.Endings.{EndsAs, LeadsTo, LeadsToNone};
ghost use Rattle.pf_wire.specs.Steps.{last_text, AnswersOne, SimulatesSteps, StepsLeaves};
ghost use Rattle.pf_wire.specs.Turns.{ReportsAll, ReportsUpTo, TurnsLeave};
ghost use Rattle.pf_wire.specs.Whole.{whole_text};
ghost use Rattle.pf_protocol.specs.Complete.{is_due};

use crate::ending::InputEnd;
use crate::outcome::{Requester, put_outcome};
use crate::reply::put_code;
use crate::reported::WrittenAnswer;
use crate::stream::{Gathered, Input, ROOM};
use pf_errors::{Code, NoMemory, OrNoMemory};
use pf_pool::World;
use pf_protocol::{NoCommand, is_due, read_command};
use pf_request::Step;
use pf_streams::{Counted, StreamFault};
use pf_text::{put, put_byte, put_number};
use std::alloc::Global;
use std::hash::RandomState;
use std::io::{Read, Write};
use std::sync::ledger::Ledger;

/// The most bytes that are read: 64 MiB.
pub const MOST_BYTES: usize = 67_108_864;

/// How many workers the world of `steps` has.
pub const WORKERS: u32 = 4;

/// Empties a text, and frees its block where it is larger than the gathered text may be.
fn empty(alloc: Global, text: &mut Vec<u8>)
    ensures items { text.new.items ≡ [] }
    ensures room { vec_capacity text.new ≤ ROOM }
{
    if text.capacity() > ROOM {
        *text = Vec::new(alloc);
    } else {
        text.clear();
    }
}

/// Does a step, and puts the text of its answer.
fn answer(
    alloc: Global,
    world: &mut World,
    step: Step,
    reported: &mut WrittenAnswer,
) -> Result<(), NoMemory>
    requires { reported.old.report ≡ None }
    ensures { OnOk result ((a : Option chores.Response)
        × (whole_text reported.new ≡ reported.old.text.items ++ step_text (view_of_step step) a)
        × ForRight (λ p. RespondsTo p world.old (view_of_step step) a world.new)) }
{
    let requester = Requester::of(&step);
    let outcome = world.step(alloc, step);
    put_outcome(alloc, reported, requester, outcome)?;
    Ok(())
}

/// Puts the line that says that what would be the command of this number, counted from 1, is no command.
pub fn put_no_command(alloc: Global, out: &mut Vec<u8>, number: u64) -> Result<(), NoMemory>
    ensures { OnOk result (out.new.items ≡ out.old.items ++ last_text false number) }
{
    put(out, b"command ")?;
    put_number(out, number)?;
    put(out, b" refused ")?;
    put_code(alloc, out, Code::NoCommand)?;
    put_byte(out, b'\n')
}

/// Answers the command of this number, with which the bytes begin: its answer takes the place of the one before.
/// What follows the command; nothing does if the line is none.
fn answer_front<'a>(
    alloc: Global,
    world: &mut World,
    bytes: &'a [u8],
    number: u64,
    reported: &mut WrittenAnswer,
) -> Result<Option<&'a [u8]>, NoMemory>
    ensures { IfOk result (λ rest.
        AnswersOne bytes.now number world.old (whole_text reported.new) (option_copied rest) world.new) }
{
    reported.report = None;
    empty(alloc, &mut reported.text);
    match read_command(alloc, bytes) {
        Ok((step, rest)) => {
            answer(alloc, world, step, reported)?;
            Ok(Some(rest))
        }
        Err(OrNoMemory::Fault(NoCommand)) => {
            put_no_command(alloc, &mut reported.text, number)?;
            Ok(None)
        }
        Err(OrNoMemory::NoMemory) => Err(NoMemory),
    }
}

/// What is left after the commands that were answered, and the number of the next.
#[derive(Clone, Copy)]
struct LeftInput<'a> {
    rest: &'a [u8],
    number: u64,
}

/// Answers the commands that are due, the first of which has this number, up to a line that is no command; after that
/// there is nothing left, and the ending has that line.
fn answer_due<'a, W: Write, M: Ledger>(
    alloc: Global,
    world: &mut World,
    first: u64,
    input: &'a [u8],
    is_over: bool,
    writer: &mut Counted<W, M>,
    ending: &mut InputEnd,
) -> Result<Option<LeftInput<'a>>, OrNoMemory<StreamFault>>
    requires { first + length input.now < 2 ^ 63 }
    ensures answered { IfOk result (λ left. MatchOption left
        (ForRight (λ p. ReportsAll p is_over input.now world.old first
        (W.contents writer.old.inner) (W.contents writer.new.inner)))
        (λ l. ForRight (λ p. ReportsUpTo p is_over input.now world.old first l.rest.now world.new l.number
        (W.contents writer.old.inner) (W.contents writer.new.inner))
        × (is_due is_over l.rest.now ≡ false) × (l.number + length l.rest.now ≤ first + length input.now))) }
    ensures ending { IfOk result (λ left. MatchOption left (LeadsToNone is_over input.now first ending.new)
        (λ l. LeadsTo is_over input.now l.rest.now first l.number × (ending.new ≡ ending.old))) }
    ensures kept { OnOk result (writer.new.failures.total ≡ writer.old.failures.total) }
    ensures fault { IfErr result (λ e. ForRight (λ p. TurnsLeave p e is_over input.now world.old first
        (W.contents writer.old.inner) (W.contents writer.new.inner)
        writer.old.failures.total writer.new.failures.total)) }
{
    let mut gathered = Gathered {
        text: Vec::new(alloc),
    };
    let mut reported = WrittenAnswer {
        text: Vec::new(alloc),
        report: None,
    };
    let mut rest = input;
    let mut number = first;
    while is_due(rest, is_over) {
        let follows = match answer_front(alloc, world, rest, number, &mut reported) {
            Ok(follows) => follows,
            Err(NoMemory) => {
                gathered.send(writer)?;
                return Err(OrNoMemory::NoMemory);
            }
        };
        gathered.add_reported(writer, &reported)?;
        let Some(after) = follows else {
            gathered.send(writer)?;
            ending.refuse(alloc, number, rest);
            return Ok(None);
        };
        rest = after;
        number += 1;
    }
    gathered.send(writer)?;
    Ok(Some(LeftInput { rest, number }))
}

/// Reads and answers by a new world, a piece at a time.
fn answer_pieces<R: Read, W: Write, L: Ledger, M: Ledger>(
    alloc: Global,
    world: &mut World,
    piece: &mut [u8],
    reader: &mut Counted<R, L>,
    writer: &mut Counted<W, M>,
    ending: &mut InputEnd,
) -> Result<u8, OrNoMemory<StreamFault>>
    requires is_new { world.old ≡ new_world WORKERS }
    requires room { 0 < length piece.old }
    ensures answered { IfOk result (λ status. ForRight (λ p. SimulatesSteps p (R.remaining reader.old.inner)
        (W.contents writer.old.inner) (W.contents writer.new.inner) status)) }
    ensures ending { IfOk result (λ status. EndsAs (R.remaining reader.old.inner) status ending.old ending.new) }
    ensures taken { (bytes : List ℕ) × (length bytes ≤ MOST_BYTES)
        × Consumes (R.remaining reader.old.inner) (R.remaining reader.new.inner) bytes }
    ensures counts { OnOk result ((reader.new.failures.total ≡ reader.old.failures.total)
        × (writer.new.failures.total ≡ writer.old.failures.total)) }
    ensures fault { IfErr result (λ e. ForRight (λ p. StepsLeaves p e
        (R.remaining reader.old.inner) (R.remaining reader.new.inner)
        (W.contents writer.old.inner) (W.contents writer.new.inner)
        reader.old.failures.total reader.new.failures.total
        writer.old.failures.total writer.new.failures.total)) }
{
    let mut input = Input::new(alloc);
    let mut number: u64 = 1;
    let mut is_over = false;
    while !is_over {
        is_over = input.take_piece(reader, piece)?;
        ending.is_full = input.taken == MOST_BYTES;
        if input.is_due(is_over) {
            let Some(left) = answer_due(
                alloc,
                world,
                number,
                &input.bytes,
                is_over,
                writer,
                ending,
            )?
            else {
                return Ok(2);
            };
            number = left.number;
            let rest = Vec::from_slice(alloc, left.rest)?;
            input.keep(rest);
        }
    }
    Ok(0)
}

/// Reads at most 64 MiB, piece by piece, answers each command before it waits for more, and gives the status: 2 if a
/// line is no command, after which nothing is done, and else 0. The world of four workers hashes with these keys,
/// which no answer depends on. The ending has the line that is no command, by its number, for who says why reading
/// ended.
pub fn run_steps<R: Read, W: Write, L: Ledger, M: Ledger>(
    alloc: Global,
    keys: RandomState,
    reader: &mut Counted<R, L>,
    writer: &mut Counted<W, M>,
    ending: &mut InputEnd,
) -> Result<u8, OrNoMemory<StreamFault>>
    ensures answered { IfOk result (λ status. ForRight (λ p. SimulatesSteps p (R.remaining reader.old.inner)
        (W.contents writer.old.inner) (W.contents writer.new.inner) status)) }
    ensures ending { IfOk result (λ status. EndsAs (R.remaining reader.old.inner) status ending.old ending.new) }
    ensures taken { (bytes : List ℕ) × (length bytes ≤ MOST_BYTES)
        × Consumes (R.remaining reader.old.inner) (R.remaining reader.new.inner) bytes }
    ensures counts { OnOk result ((reader.new.failures.total ≡ reader.old.failures.total)
        × (writer.new.failures.total ≡ writer.old.failures.total)) }
    ensures fault { IfErr result (λ e. ForRight (λ p. StepsLeaves p e
        (R.remaining reader.old.inner) (R.remaining reader.new.inner)
        (W.contents writer.old.inner) (W.contents writer.new.inner)
        reader.old.failures.total reader.new.failures.total
        writer.old.failures.total writer.new.failures.total)) }
{
    let mut room = vec![in alloc; 0u8; ROOM]?;
    let piece = room.as_mut_slice();
    let mut world = World::new(alloc, keys, WORKERS)?;
    answer_pieces(alloc, &mut world, piece, reader, writer, ending)
}
