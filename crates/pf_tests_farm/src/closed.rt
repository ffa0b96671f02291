//! What is left when a farm is closed.

ghost use Rattle.pf_sched.specs.Slices.{SimulatesSlice};

use crate::calls::{ENDLESS, SENDERS, fetch, give_up, order, submit, wait_for};
use crate::missed::Missed;
use crate::scene::{Scene, play};
use crate::waiting::GateMark;
use pf_book::{CallRefusal, Reply};
use pf_desks::TrialStage;
use pf_farm::{ClientSeat, Closing, DueSlice, Floor, Gate};
use pf_farm_accounts::{ClaimEnd, FarmNames};
use pf_quota::LimitRefusal as Limit;
use pf_request::Call;
use pf_sched::{Scratch, Slice, run_slice};
use std::alloc::Global;
use std::hash::RandomState;
use std::sync::Wait;
use std::test::Fail;

/// How many claims ended so.
fn ended_as(closing: &Closing, end: ClaimEnd) -> usize {
    closing
        .rows
        .iter()
        .filter(|row| row.end == Some(end))
        .count()
}

/// Whether the receipts of all seats of a project have the numbers of its calls, each once, and rise in each seat.
fn has_all_receipts(alloc: Global, closing: &Closing, project: u32) -> Result<bool, Fail> {
    let mut numbers = Vec::new(alloc);
    for seat in &closing.seats {
        if seat.reported.project == project {
            let mut last = 0;
            for receipt in &seat.reported.receipts {
                if receipt.number <= last || receipt.project != project {
                    return Ok(false);
                }
                last = receipt.number;
                numbers.push(receipt.number)?;
            }
        }
    }
    numbers.sort_unstable();
    let counted = numbers
        .iter()
        .zip(1u64..)
        .all(|(number, place)| *number == place);
    Ok(counted && numbers.len() as u64 == closing.call_count(project))
}

/// What is at the gate.
#[derive(Clone, Copy, PartialEq, Eq)]
enum Play {
    /// Each client orders 50 trials and fetches all.
    Trials,
    /// A client drops its trial while that is held at the gate.
    Drop,
    /// The farm stops while runs are parked.
    Stop,
    /// Each client calls until the log of its project is full.
    Full,
}

#[derive(Drop)]
struct Plays {
    play: Play,
    slices: GateMark,
    dropped: GateMark,
    /// Calls that were refused since the log is full.
    refused: GateMark,
}

impl Plays {
    fn new(play: Play) -> Plays {
        Plays {
            play,
            slices: GateMark::new(),
            dropped: GateMark::new(),
            refused: GateMark::new(),
        }
    }

    /// Calls so often that two clients of one project fill its log.
    fn calls<N: FarmNames, R: Wait>(
        &self,
        alloc: Global,
        rt: &R,
        floor: &Floor<N>,
        seat: &mut ClientSeat<N>,
    ) -> Result<(), Missed> {
        for _ in 0..6_000u32 {
            let reply = floor.call(alloc, rt, seat, Call::Log)?;
            if let Reply::Refused(CallRefusal::PastLimit(Limit::Calls)) = reply {
                self.refused.set();
            }
        }
        Ok(())
    }

    fn trials<N: FarmNames, R: Wait>(
        &self,
        alloc: Global,
        rt: &R,
        floor: &Floor<N>,
        seat: &mut ClientSeat<N>,
    ) -> Result<(), Missed> {
        submit(alloc, rt, floor, seat, SENDERS)?;
        for seed in 0..50u64 {
            order(alloc, rt, floor, seat, 1, seed, 2_000)?;
        }
        for ticket in 1..51u64 {
            wait_for(rt, floor, seat, ticket, Some(TrialStage::Done))?;
            fetch(alloc, rt, floor, seat, ticket)?;
        }
        Ok(())
    }
}

impl Gate for Plays {
    fn slice<R: Wait>(
        &self,
        alloc: Global,
        _rt: &R,
        due: DueSlice,
        scratch: &mut Scratch,
    ) -> Slice {
        self.slices.set();
        if self.play == Play::Drop {
            self.dropped.wait(1);
        }
        run_slice(alloc, due.parked, scratch, due.turns)
    }
}

impl Scene for Plays {
    fn client<N: FarmNames, R: Wait>(
        &self,
        alloc: Global,
        rt: &R,
        floor: &Floor<N>,
        seat: &mut ClientSeat<N>,
    ) -> Result<(), Missed> {
        match self.play {
            Play::Trials => self.trials(alloc, rt, floor, seat),
            Play::Drop => {
                submit(alloc, rt, floor, seat, SENDERS)?;
                let ticket = order(alloc, rt, floor, seat, 1, 1, 2_000)?;
                self.slices.wait_for("the trial doesn't begin")?;
                give_up(alloc, rt, floor, seat, ticket)?;
                self.dropped.set();
                wait_for(rt, floor, seat, ticket, None)
            }
            Play::Stop => {
                submit(alloc, rt, floor, seat, ENDLESS)?;
                for seed in 0..20u64 {
                    order(alloc, rt, floor, seat, 1, seed, 100_000)?;
                }
                if !self.slices.wait(30) {
                    return Err(Missed::that("the trials don't begin"));
                }
                floor.stop(rt);
                if floor.wait_done(rt, seat, 1).stops {
                    Ok(())
                } else {
                    Err(Missed::that("a wait doesn't see that the farm stops"))
                }
            }
            Play::Full => self.calls(alloc, rt, floor, seat),
        }
    }
}

#[test]
fn four_clients_and_four_workers_over_200_trials(rt: HostRuntime) -> Result<(), Fail> {
    let alloc = rt.alloc();
    let keys = RandomState::new(&rt)?;
    let scene = Plays::new(Play::Trials);
    let closing = play(alloc, &rt, keys, 4, &[1, 2, 3, 4], &scene)?;
    let mut all = true;
    for project in 1..5u32 {
        all &= closing.call_count(project) == 101 && has_all_receipts(alloc, &closing, project)?;
    }
    assert!(rt; all, "each call has its receipt");
    assert_eq!(rt; ended_as(&closing, ClaimEnd::Filed), 200);
    assert_eq!(rt; closing.rows.len(), 200);
    Ok(())
}

#[test]
fn two_seats_may_have_one_project(rt: HostRuntime) -> Result<(), Fail> {
    let alloc = rt.alloc();
    let keys = RandomState::new(&rt)?;
    let scene = Plays::new(Play::Full);
    let closing = play(alloc, &rt, keys, 1, &[7, 7], &scene)?;
    assert_eq!(rt; closing.call_count(7), 10_000);
    assert!(rt;
        has_all_receipts(alloc, &closing, 7)?,
        "each call has its receipt"
    );
    assert!(rt;
        closing.seats.iter().any(|seat| seat.is_full),
        "one seat met the full log"
    );
    // Of the 12,000 calls the log had room for 10,000.
    assert_eq!(rt; scene.refused.count(), 2_000);
    Ok(())
}

#[test]
fn a_trial_that_is_dropped_at_the_gate_ends_stray(rt: HostRuntime) -> Result<(), Fail> {
    let keys = RandomState::new(&rt)?;
    let scene = Plays::new(Play::Drop);
    let closing = play(rt.alloc(), &rt, keys, 1, &[1], &scene)?;
    assert_eq!(rt; closing.rows.len(), 1);
    assert_eq!(rt; ended_as(&closing, ClaimEnd::Stray), 1);
    Ok(())
}

#[test]
fn runs_that_are_parked_at_the_stop_are_handed_back(rt: HostRuntime) -> Result<(), Fail> {
    let keys = RandomState::new(&rt)?;
    let scene = Plays::new(Play::Stop);
    let closing = play(rt.alloc(), &rt, keys, 2, &[1], &scene)?;
    let filed = ended_as(&closing, ClaimEnd::Filed);
    let handed_back = ended_as(&closing, ClaimEnd::HandedBack);
    // Some trials may not have been claimed yet, and one that was handed back may be claimed again by a worker that
    // hasn't seen the end.
    assert!(rt; closing.stopped, "the farm was stopped");
    assert!(rt;
        handed_back > 0 && closing.rows.len() == filed.saturating_add(handed_back),
        "each claim has ended"
    );
    Ok(())
}
