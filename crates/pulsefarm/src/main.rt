//! Tests Erlang programs for races: reads words, and a source or commands, and writes what these are answered.
#![tactic(auto)]

mod args;
mod farm;
mod opening;
mod sources;
mod stack;
mod watch;

ghost use Rattle.std.specs.Prelude.{◌≡◌, ◌<◌, ◌++◌, IfOk, OnOk, map};
ghost use Rattle.std.specs.String.{string_bytes};
ghost use Rattle.pf_command.specs.Streams.{Streams, streams};
ghost use Rattle.pulsefarm.specs.Program.{Does, DoesGiven, IsStatus};
ghost use Rattle.pulsefarm.specs.Words.{words_of};

use crate::args::GivesWords;
use crate::farm::{Host, farm};
use crate::opening::Opens;
use crate::stack::{STACK_BYTES, first_thread_has_stack};
use pf_cli_messages::{Clearing, ProgressLine, REFUSED, no_memory};
use pf_errors::NoMemory;
use pf_streams::Counted;
use pf_words::{Obeyed, obey};
use std::alloc::{AllocGlobal, Global};
use std::fs::Files;
use std::io::{self, Read, Write};
use std::marker::Brand;
use std::process::ExitCode;
use std::random::RandomSource;
use std::sync::Wait;
use std::sync::ledger::{Blank, Ledger};
use std::thread::{Builder, Threads};
use std::time::Clock;

/// Adds these words.
fn push_all<'a>(words: &mut Vec<&'a str>, given: &'a [String]) -> Result<(), NoMemory>
    ensures { OnOk result (map (λ w. w.now) words.new.items
        ≡ map (λ w. w.now) words.old.items ++ map (λ s. string_bytes s) given.now) }
{
    for word in given {
        words.push(word.as_str())?;
    }
    Ok(())
}

/// The words as they are read: the program's name is first, and `help WORD` is `WORD --help`.
fn words_of<'a>(alloc: Global, given: &'a [String]) -> Result<Vec<&'a str>, NoMemory>
    ensures { IfOk result (λ v. map (λ w. w.now) v.items ≡ words_of (map (λ s. string_bytes s) given.now)) }
{
    let mut words = Vec::new(alloc);
    words.push("pulsefarm")?;
    match given {
        [first, rest @ ..] if first.as_str() == "help" => {
            push_all(&mut words, rest)?;
            words.push("--help")?;
        }
        _ => push_all(&mut words, given)?,
    }
    Ok(words)
}

/// Reads the words and does what they ask for, a farm too, between a reader and a writer; its status.
fn answer_words<R, I: Read, W: Write, L: Ledger, M: Ledger>(
    rt: &R,
    reader: &mut Counted<I, L>,
    writer: &mut Counted<W, M>,
    line: &ProgressLine,
    host: Host,
) -> Result<u8, NoMemory>
where
    R: GivesWords
        + Files
        + Opens
        + Print
        + Eprint
        + AllocGlobal
        + RandomSource
        + Clock
        + Threads
        + Wait
        + Sync,
    R::File: Drop,
    ensures { DoesGiven R.opens R.makes R.refuses R.bars R.Stream.remaining R.Stream.contents R.gives
        (streams (I.remaining reader.old.inner) (W.contents writer.old.inner)
        reader.old.failures.total writer.old.failures.total)
        (streams (I.remaining reader.new.inner) (W.contents writer.new.inner)
        reader.new.failures.total writer.new.failures.total) result }
{
    let given = rt.given_words()?;
    let words = words_of(rt.alloc(), &given)?;
    let done = obey(rt, &words, reader, writer, line)?;
    match &done {
        Obeyed::Status(status) => Ok(*status),
        Obeyed::Farm(args) => Ok(farm(rt, args, host, writer)),
    }
}

/// The same between the standard streams, of which no call has failed yet.
fn try_all<R, I: Read + Drop, W: Write + Drop, L: Ledger, M: Ledger>(
    rt: &R,
    stdin: I,
    stdout: W,
    line: &ProgressLine,
    host: Host,
    reads: Blank,
    writes: Blank,
) -> Result<u8, NoMemory>
where
    R: GivesWords
        + Files
        + Opens
        + Print
        + Eprint
        + AllocGlobal
        + RandomSource
        + Clock
        + Threads
        + Wait
        + Sync,
    R::File: Drop,
    requires reads { reads.name ≡ L.name }
    requires read_parts { reads.parts ≡ L.parts }
    requires some_reads { 0 < reads.parts }
    requires writes { writes.name ≡ M.name }
    requires write_parts { writes.parts ≡ M.parts }
    requires some_writes { 0 < writes.parts }
    ensures { (after : Streams)
        × DoesGiven R.opens R.makes R.refuses R.bars R.Stream.remaining R.Stream.contents R.gives
        (streams (I.remaining stdin) (W.contents stdout) 0 0)
        after result }
{
    let mut reader = Counted::<I, L>::new(stdin, reads);
    let mut writer = Counted::<W, M>::new(stdout, writes);
    answer_words(rt, &mut reader, &mut writer, line, host)
}

/// Does all work; before anything is written the line is emptied. Its result is the status.
fn all<R, I: Read + Drop>(rt: &R, stdin: I, host: Host) -> u8
where
    R: GivesWords
        + Files
        + Opens
        + Print
        + Eprint
        + AllocGlobal
        + RandomSource
        + Clock
        + Threads
        + Wait
        + Sync,
    R::File: Drop,
    ensures { IsStatus R.opens R.makes R.refuses R.bars R.Stream.remaining R.Stream.contents R.gives result }
{
    let line = &ProgressLine::new(host.stderr);
    let inner = io::writer(rt);
    let stdout = Clearing { line, inner };
    let (reads, writes) = (Blank::new(1), Blank::new(1));
    match try_all::<R, I, Clearing<'_, _>, Brand, Brand>(
        rt, stdin, stdout, line, host, reads, writes,
    ) {
        Ok(status) => status,
        Err(NoMemory) => no_memory(rt),
    }
}

fn main(rt: HostRuntime) -> ExitCode {
    let host = Host {
        stderr: rt.stderr(),
        has_stack: first_thread_has_stack(&rt),
    };
    if host.has_stack {
        return ExitCode::from(all(&rt, rt.stdin(), host));
    }
    let worker = Builder::new()
        .stack_size(STACK_BYTES)
        .spawn(&rt, move || all(&rt, rt.stdin(), host));
    match worker {
        Ok(worker) => ExitCode::from(worker.join(&rt)),
        Err(error) => {
            let _printed = eprintln!(rt; "pulsefarm: no thread can be started: {error}");
            ExitCode::from(REFUSED)
        }
    }
}
