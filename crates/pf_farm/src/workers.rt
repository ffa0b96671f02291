//! The work of one worker.

ghost use Rattle.std.specs.Prelude.{◌≡◌, ◌<◌, true, false, length, is_some, IfOk, OnErr, OnOk};
ghost use Rattle.pf_farm.specs.Seats.{AllFree, AllIdle, IsAsBefore, IsIdle, IsNotLost, IsRing, SameEnds};

use crate::floor::Floor;
use crate::gate::{DueSlice, Gate};
use crate::held::HeldRun;
use crate::seat::WorkSeat;
use pf_errors::NoMemory;
use pf_farm_accounts::FarmNames;
use pf_farm_state::ClaimedTrial;
use pf_sched::{Scratch, Slice, start};
use std::alloc::Global;
use std::sync::Wait;
use std::thread::{Threads, for_each_mut};

/// How many events a slice has.
const TURNS: u32 = 256;

/// Works until the farm stops: takes up a run that it parked, else steals one, else claims a trial, else waits. Then it
/// hands back what it holds and has parked. A worker whose claim was refused for memory tries again.
pub fn work<N: FarmNames, G: Gate, R: Wait>(
    alloc: Global,
    rt: &R,
    floor: &Floor<N>,
    seat: &mut WorkSeat<N>,
    gate: &G,
)
    requires { seat.old.busy ≡ false }
    ensures ends { SameEnds seat.old seat.new }
    ensures idle { IsIdle seat.new }
{
    let mut scratch = Scratch::new(alloc);
    'works: for _ in rt.forever() {
        let seen = floor.moves(rt);
        if floor.is_stopping() {
            break;
        }
        match next_run(alloc, rt, floor, seat) {
            Ok(Some(run)) => run_on(alloc, rt, floor, seat, gate, &mut scratch, run),
            Ok(None) => floor.wait_past(rt, seen),
            Err(NoMemory) => {}
        }
    }
    clear(rt, floor, seat);
}

/// Has each worker work in a thread of its own until the farm stops. Where the system starts fewer threads, workers
/// work one after another, and those after the first begin once the farm stops.
pub fn work_all<N: FarmNames + Sync + Send, G: Gate + Sync, R: Threads + Wait + Sync>(
    alloc: Global,
    rt: &R,
    floor: &Floor<N>,
    seats: &mut [WorkSeat<N>],
    gate: &G,
)
    requires some { 0 < length seats.old }
    requires free { AllFree seats.old }
    ensures len { length seats.new ≡ length seats.old }
    ensures ring { IsRing seats.old → IsRing seats.new }
    ensures idle { AllIdle seats.new }
{
    let count = seats.len();
    let work_one = move |_: usize, seat: &mut WorkSeat<N>|
        requires { seat.now.busy ≡ false }
        ensures ends { SameEnds seat.entry.now seat.exit.now }
        ensures idle { IsIdle seat.exit.now }
    { work(alloc, rt, floor, seat, gate) };
    for_each_mut(rt, seats, count, &work_one);
}

/// Hands back all runs that are parked, until it is known that none is left.
fn clear<N: FarmNames, R: Wait>(rt: &R, floor: &Floor<N>, seat: &mut WorkSeat<N>)
    requires { seat.old.busy ≡ false }
    ensures ends { SameEnds seat.old seat.new }
    ensures idle { IsIdle seat.new }
{
    'clears: for _ in rt.forever() {
        if let Some(run) = seat.pop() {
            let (claim, _) = run.into_parts();
            floor.hand_back(rt, seat, claim);
        } else if seat.is_drained() {
            break;
        } else {
            seat.mark();
        }
    }
}

/// The run of a free worker: one that it parked, else one that it steals, else that of a new claim.
fn next_run<N: FarmNames, R: Wait>(
    alloc: Global,
    rt: &R,
    floor: &Floor<N>,
    seat: &mut WorkSeat<N>,
) -> Result<Option<HeldRun<N>>, NoMemory>
    requires { seat.old.busy ≡ false }
    ensures same { IsAsBefore seat.old seat.new }
    ensures busy { IfOk result (λ o. seat.new.busy ≡ is_some o) }
    ensures err { OnErr result (seat.new.busy ≡ false) }
{
    if let Some(run) = seat.pop() {
        return Ok(Some(run));
    }
    if let Some(run) = seat.steal() {
        return Ok(Some(run));
    }
    claimed_run(alloc, rt, floor, seat)
}

/// The run of a worker that parked one: that of a new claim, else one that it parked.
fn other_run<N: FarmNames, R: Wait>(
    alloc: Global,
    rt: &R,
    floor: &Floor<N>,
    seat: &mut WorkSeat<N>,
) -> Option<HeldRun<N>>
    requires { seat.old.busy ≡ false }
    ensures same { IsAsBefore seat.old seat.new }
    ensures busy { seat.new.busy ≡ is_some result }
{
    if let Ok(Some(claimed)) = floor.claim_after_park(rt, seat) {
        if let Ok(run) = begun(alloc, rt, floor, seat, claimed) {
            return Some(run);
        }
    }
    seat.pop()
}

/// The run of a new claim, before its first event.
fn claimed_run<N: FarmNames, R: Wait>(
    alloc: Global,
    rt: &R,
    floor: &Floor<N>,
    seat: &mut WorkSeat<N>,
) -> Result<Option<HeldRun<N>>, NoMemory>
    requires { seat.old.busy ≡ false }
    ensures same { IsAsBefore seat.old seat.new }
    ensures busy { IfOk result (λ o. seat.new.busy ≡ is_some o) }
    ensures err { OnErr result (seat.new.busy ≡ false) }
{
    match floor.claim(rt, seat)? {
        Some(claimed) => Ok(Some(begun(alloc, rt, floor, seat, claimed)?)),
        None => Ok(None),
    }
}

/// The run of a claim, before its first event. A claim whose run can't begin because memory is out is handed back.
fn begun<N: FarmNames, R: Wait>(
    alloc: Global,
    rt: &R,
    floor: &Floor<N>,
    seat: &mut WorkSeat<N>,
    claimed: ClaimedTrial<N>,
) -> Result<HeldRun<N>, NoMemory>
    requires { seat.old.busy ≡ true }
    ensures same { IsAsBefore seat.old seat.new }
    ensures ok { OnOk result (seat.new.busy ≡ true) }
    ensures err { OnErr result (seat.new.busy ≡ false) }
{
    let ClaimedTrial { claim, job } = claimed;
    match start(alloc, job) {
        Ok(parked) => Ok(HeldRun::new(claim, parked)),
        Err(NoMemory) => {
            floor.hand_back(rt, seat, claim);
            Err(NoMemory)
        }
    }
}

/// Goes on with a run, and with those that come after it, slice by slice: what is over is filed, and what isn't is
/// parked after the others, where there is room.
fn run_on<N: FarmNames, G: Gate, R: Wait>(
    alloc: Global,
    rt: &R,
    floor: &Floor<N>,
    seat: &mut WorkSeat<N>,
    gate: &G,
    scratch: &mut Scratch,
    run: HeldRun<N>,
)
    requires { seat.old.busy ≡ true }
    ensures ends { SameEnds seat.old seat.new }
    ensures idle { seat.new.busy ≡ false }
{
    let mut run = run;
    'goes: for _ in rt.forever() {
        if floor.is_stopping() {
            break;
        }
        match sliced(alloc, rt, floor, seat, gate, scratch, run) {
            Some(next) => run = next,
            None => return,
        }
    }
    let (claim, _) = run.into_parts();
    floor.hand_back(rt, seat, claim);
}

/// A slice of a run, and the run with which the worker goes on: the same where it can't be parked, or else another one,
/// if there is one. A run that is over is filed.
fn sliced<N: FarmNames, G: Gate, R: Wait>(
    alloc: Global,
    rt: &R,
    floor: &Floor<N>,
    seat: &mut WorkSeat<N>,
    gate: &G,
    scratch: &mut Scratch,
    run: HeldRun<N>,
) -> Option<HeldRun<N>>
    requires { seat.old.busy ≡ true }
    ensures ends { SameEnds seat.old seat.new }
    ensures busy { seat.new.busy ≡ is_some result }
    ensures kept { IsNotLost run seat.old seat.new result }
{
    let (claim, parked) = run.into_parts();
    let due = DueSlice {
        project: claim.claim().project,
        ticket: claim.claim().ticket,
        parked,
        turns: TURNS,
    };
    match gate.slice(alloc, rt, due, scratch) {
        Slice::Done(finished) => {
            floor.file(rt, seat, claim, finished);
            None
        }
        Slice::More(parked) => match seat.park(HeldRun::new(claim, parked)) {
            Ok(()) => other_run(alloc, rt, floor, seat),
            Err(run) => Some(run),
        },
    }
}
