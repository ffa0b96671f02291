//! Calls of clients, and the modules that they submit.

use crate::missed::Missed;
use crate::waiting::rest;
use pf_book::Reply;
use pf_check::Source;
use pf_desks::TrialStage;
use pf_farm::{ClientSeat, Floor};
use pf_farm_accounts::FarmNames;
use pf_request::{Call, Order, Request, RequestKind, RunChoices, ShortBytes};
use std::alloc::Global;
use std::sync::Wait;

/// One event.
pub(crate) const SUM: &str = "-module(m).\n-export([main/0]).\nmain() -> 1 + 2 * 3.\n";

/// 512 events: 256 processes, each of which waits.
pub(crate) const SPAWNING: &str = "-module(m).\n-export([main/0, kid/0]).\n\
main() -> loop().\n\
loop() -> spawn(m, kid, []), loop().\n\
kid() -> receive go -> ok end.\n";

/// Two senders, whose messages come in an order of the schedule.
pub(crate) const SENDERS: &str = "-module(m).\n-export([main/0, s/2]).\n\
main() -> S = self(), spawn(m, s, [S, a]), spawn(m, s, [S, b]), {take(), take(), take(), take()}.\n\
s(P, T) -> P ! {T, 1}, P ! {T, 2}.\n\
take() -> receive M -> M end.\n";

/// Thousands of events: one process sends to itself for ever.
pub(crate) const ENDLESS: &str = "-module(m).\n-export([main/0]).\n\
main() -> self() ! on, receive on -> main() end.\n";

/// Submits a module.
pub(crate) fn submit<N: FarmNames, R: Wait>(
    alloc: Global,
    rt: &R,
    floor: &Floor<N>,
    seat: &mut ClientSeat<N>,
    source: &str,
) -> Result<(), Missed> {
    let bytes = Vec::from_slice(alloc, source.as_bytes())?;
    let source = Source::new(alloc, bytes)?;
    match floor.call(alloc, rt, seat, Call::Submit(source))? {
        Reply::Module(_) => Ok(()),
        _ => Err(Missed::that("a module is refused")),
    }
}

/// Orders a run of a module by a seed; its ticket.
pub(crate) fn order<N: FarmNames, R: Wait>(
    alloc: Global,
    rt: &R,
    floor: &Floor<N>,
    seat: &mut ClientSeat<N>,
    module: u64,
    seed: u64,
    limit: u32,
) -> Result<u64, Missed> {
    let request = Request {
        root: ShortBytes::from_slice(alloc, b"main")?,
        property: ShortBytes::from_slice(alloc, b"true")?,
        kind: RequestKind::Run(RunChoices::Seed(seed)),
        limit,
    };
    match floor.call(alloc, rt, seat, Call::Order(Order { module, request }))? {
        Reply::Ticket(ticket) => Ok(ticket),
        _ => Err(Missed::that("an order is refused")),
    }
}

/// How far the trial of a ticket is.
pub(crate) fn status<N: FarmNames, R: Wait>(
    alloc: Global,
    rt: &R,
    floor: &Floor<N>,
    seat: &mut ClientSeat<N>,
    ticket: u64,
) -> Result<TrialStage, Missed> {
    match floor.call(alloc, rt, seat, Call::Status(ticket))? {
        Reply::Stage(stage) => Ok(stage),
        _ => Err(Missed::that("a status is refused")),
    }
}

/// Fetches the report of a ticket; how many steps it says.
pub(crate) fn fetch<N: FarmNames, R: Wait>(
    alloc: Global,
    rt: &R,
    floor: &Floor<N>,
    seat: &mut ClientSeat<N>,
    ticket: u64,
) -> Result<u64, Missed> {
    match floor.call(alloc, rt, seat, Call::Fetch(ticket))? {
        Reply::Result(finished) => match finished.result() {
            Some(pf_sched::JobResult::Report(report)) => Ok(u64::from(report.steps)),
            _ => Err(Missed::that("a report is of another kind")),
        },
        _ => Err(Missed::that("a report isn't there")),
    }
}

/// Drops the trial of a ticket.
pub(crate) fn give_up<N: FarmNames, R: Wait>(
    alloc: Global,
    rt: &R,
    floor: &Floor<N>,
    seat: &mut ClientSeat<N>,
    ticket: u64,
) -> Result<(), Missed> {
    match floor.call(alloc, rt, seat, Call::DropTrial(ticket))? {
        Reply::GivenUp => Ok(()),
        _ => Err(Missed::that("a drop is refused")),
    }
}

/// Waits for the trial of a ticket, which is so far then, while the farm goes on.
pub(crate) fn wait_for<N: FarmNames, R: Wait>(
    rt: &R,
    floor: &Floor<N>,
    seat: &mut ClientSeat<N>,
    ticket: u64,
    stage: Option<TrialStage>,
) -> Result<(), Missed> {
    let look = floor.wait_done(rt, seat, ticket);
    if look.ticket == ticket && look.stage == stage && !look.stops {
        Ok(())
    } else {
        Err(Missed::that("a wait ends with something else"))
    }
}

/// Waits until the trial of a ticket is done, but not for ever.
pub(crate) fn await_done<N: FarmNames, R: Wait>(
    alloc: Global,
    rt: &R,
    floor: &Floor<N>,
    seat: &mut ClientSeat<N>,
    ticket: u64,
) -> Result<(), Missed> {
    for _ in 0..5_000u32 {
        if status(alloc, rt, floor, seat, ticket)? == TrialStage::Done {
            return Ok(());
        }
        rest(20_000);
    }
    Err(Missed::that("a trial isn't done"))
}
