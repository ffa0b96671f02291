//! `farm`: a client for each file, and workers, on one running farm.

ghost use Rattle.std.specs.Prelude.{◌≡◌, ◌<◌, ◌≤◌, IfOk, Some, option_map, vec_len};
ghost use Rattle.std.specs.String.{string_bytes};
ghost use Rattle.pf_cli.specs.Args.{view_of_farm_args};
ghost use Rattle.pulsefarm.specs.Sources.{GivesStreams, LacksStream};
ghost use Rattle.pulsefarm.specs.Farms.{FarmAnswers, FarmEnds, FarmIsDone, HasReason};

use crate::opening::Opens;
use crate::sources::{ClientPaths, sources};
use crate::watch::FarmWatch;
use pf_cli::FarmArgs;
use pf_cli_messages::{REFUSED, end, say};
use pf_clients::{Watch, run_farm};
use pf_errors::OrNoMemory;
use pf_farm::{Blanks, MOST_SEATS};
use pf_farm_accounts::{FarmNames, NewRegister};
use pf_files::AnsweredRoot;
use pf_streams::{Counted, StreamFault};
use pf_words::random_keys;
use std::alloc::AllocGlobal;
use std::io::{Stderr, Write};
use std::marker::Brand;
use std::random::RandomSource;
use std::sync::Wait;
use std::sync::ledger::{Blank, Ledger};
use std::thread::Threads;
use std::time::Clock;

/// The parts of the ledgers of claims: one for each of at most 64 workers, and one for the farm.
const WORKER_PARTS: u64 = 65;

/// The parts of the ledger of calls: one for each seat that a farm may give, and one for the farm.
const SEAT_PARTS: u64 = MOST_SEATS as u64 + 1;

/// What a farm wants to know of the process that it runs in.
#[derive(Clone, Copy)]
pub struct Host {
    pub stderr: Stderr,
    /// Whether a thread has stack enough for the deepest source.
    pub has_stack: bool,
}

/// Does what `farm` asks for; its status.
pub fn farm<R, W: Write, M: Ledger>(
    rt: &R,
    args: &FarmArgs,
    host: Host,
    writer: &mut Counted<W, M>,
) -> u8
where
    R: Opens + Print + Eprint + AllocGlobal + RandomSource + Clock + Threads + Wait + Sync,
    ensures { FarmIsDone R.opens R.makes R.refuses R.bars R.Stream.remaining R.Stream.contents
        (view_of_farm_args args.now)
        (W.contents writer.old.inner) (W.contents writer.new.inner)
        writer.old.failures.total writer.new.failures.total result }
{
    end(rt, None, None, answer(rt, args, host, writer))
}

/// Does what `farm` asks for.
fn answer<R, W: Write, M: Ledger>(
    rt: &R,
    args: &FarmArgs,
    host: Host,
    writer: &mut Counted<W, M>,
) -> AnsweredRoot
where
    R: Opens + Print + Eprint + AllocGlobal + RandomSource + Clock + Threads + Wait + Sync,
    ensures answers { FarmAnswers R.opens R.makes R.refuses R.bars R.Stream.remaining R.Stream.contents
        (view_of_farm_args args.now)
        (W.contents writer.old.inner) (W.contents writer.new.inner)
        writer.old.failures.total writer.new.failures.total result }
    ensures reason { IfOk result (HasReason R.opens R.makes R.refuses R.bars R.Stream.remaining R.Stream.contents
        host.has_stack (view_of_farm_args args.now)
        (W.contents writer.old.inner) (W.contents writer.new.inner)
        writer.old.failures.total writer.new.failures.total) }
{
    if !host.has_stack {
        say(
            rt,
            "a farm's threads have the stack that `ulimit -s` gives, and want 4 MiB of it",
        );
        return Ok(REFUSED);
    }
    let Some(sources) = sources(rt, args.replies, &args.files)? else {
        return Ok(REFUSED);
    };
    let alloc = rt.alloc();
    let blanks = Blanks {
        opened: Blank::new(WORKER_PARTS),
        ended: Blank::new(WORKER_PARTS),
        calls: Blank::new(SEAT_PARTS),
        claims: NewRegister::new(alloc)?,
        receipts: NewRegister::new(alloc)?,
        looks: NewRegister::new(alloc)?,
    };
    let watch = FarmWatch::new(rt, alloc, host.stderr, &args.files, args.summary)?;
    let answered = run_by::<Brand, R, W, M>(rt, args.workers, blanks, sources, &watch, writer);
    let status = match answered {
        Ok(status) => status,
        // The watch has said why.
        Err(OrNoMemory::Fault(StreamFault::Read(_))) => return Ok(REFUSED),
        Err(stop) => return Err(stop),
    };
    watch.end();
    Ok(status)
}

/// Runs a farm of clients that have their streams there.
fn run_by<N: FarmNames + Send + Sync, R, W: Write, M: Ledger>(
    rt: &R,
    workers: u32,
    blanks: Blanks,
    sources: Vec<ClientPaths<R>>,
    watch: &FarmWatch<R>,
    writer: &mut Counted<W, M>,
) -> AnsweredRoot
where
    R: Opens + AllocGlobal + RandomSource + Clock + Threads + Wait + Sync,
    requires opened { (blanks.opened.name ≡ N.opened) × (blanks.opened.parts ≡ N.workers) }
    requires ended { (blanks.ended.name ≡ N.ended) × (blanks.ended.parts ≡ N.workers) }
    requires calls { (blanks.calls.name ≡ N.calls) × (blanks.calls.parts ≡ N.seats) }
    requires claims { N.claims ≡ Some blanks.claims }
    requires receipts { N.receipts ≡ Some blanks.receipts }
    requires looks { N.looks ≡ Some blanks.looks }
    requires workers { (0 < workers) × (workers < N.workers) }
    requires seats { MOST_SEATS < N.seats }
    requires sources { (0 < vec_len sources) × (vec_len sources ≤ MOST_SEATS) }
    ensures { FarmEnds
        (λ k x. GivesStreams R.opens R.makes x.name.now x.file (option_map (λ s. string_bytes s) x.replies))
        (λ k x. LacksStream R.refuses R.bars x.name.now x.file (option_map (λ s. string_bytes s) x.replies))
        R.Stream.remaining R.Stream.contents sources.entry.items
        (W.contents writer.old.inner) (W.contents writer.new.inner)
        writer.old.failures.total writer.new.failures.total result }
{
    let keys = match random_keys(rt) {
        Ok(keys) => keys,
        Err(stop) => {
            if let OrNoMemory::Fault(fault) = &stop {
                watch.not_begun(fault.error());
            }
            return Err(stop);
        }
    };
    let end = run_farm::<N, R::Stream, ClientPaths<R>, W, M, R, FarmWatch<R>>(
        rt.alloc(),
        rt,
        keys,
        blanks,
        workers as usize,
        sources,
        watch,
        writer,
    )?;
    end.status
}
