//! Two trials of two projects run at the same time: neither ends before both have begun, and the one that began first
//! waits until the other was fetched.

ghost use Rattle.pf_sched.specs.Slices.{SimulatesSlice};

use crate::calls::{SUM, await_done, fetch, order, status, submit};
use crate::missed::Missed;
use crate::scene::{Scene, play};
use crate::waiting::GateMark;
use pf_desks::TrialStage;
use pf_farm::{ClientSeat, DueSlice, Floor, Gate};
use pf_farm_accounts::FarmNames;
use pf_sched::{Scratch, Slice, run_slice};
use std::alloc::Global;
use std::hash::RandomState;
use std::sync::Wait;
use std::test::Fail;

/// What is known of one project's trial.
#[derive(Drop)]
struct ProjectSide {
    begun: GateMark,
    answered: GateMark,
    fetched: GateMark,
}

impl ProjectSide {
    fn new() -> ProjectSide {
        ProjectSide {
            begun: GateMark::new(),
            answered: GateMark::new(),
            fetched: GateMark::new(),
        }
    }
}

#[derive(Drop)]
struct TwoTrials {
    begun: GateMark,
    first: ProjectSide,
    second: ProjectSide,
    /// Waits at the gate that lasted too long.
    late: GateMark,
}

impl TwoTrials {
    /// The side of a project, and the other one.
    fn sides(&self, project: u32) -> (&ProjectSide, &ProjectSide) {
        if project == 1 {
            (&self.first, &self.second)
        } else {
            (&self.second, &self.first)
        }
    }
}

impl Gate for TwoTrials {
    fn slice<R: Wait>(
        &self,
        alloc: Global,
        _rt: &R,
        due: DueSlice,
        scratch: &mut Scratch,
    ) -> Slice {
        let (own, other) = self.sides(due.project);
        let is_first = self.begun.set() == 0;
        own.begun.set();
        own.answered.hold(&self.late);
        if is_first {
            other.fetched.hold(&self.late);
        }
        run_slice(alloc, due.parked, scratch, due.turns)
    }
}

impl Scene for TwoTrials {
    /// Its trial is running when it is first asked for, and done later.
    fn client<N: FarmNames, R: Wait>(
        &self,
        alloc: Global,
        rt: &R,
        floor: &Floor<N>,
        seat: &mut ClientSeat<N>,
    ) -> Result<(), Missed> {
        let side = self.sides(seat.project()).0;
        submit(alloc, rt, floor, seat, SUM)?;
        let ticket = order(alloc, rt, floor, seat, 1, 1, 100)?;
        side.begun.wait_for("the trial doesn't begin")?;
        if status(alloc, rt, floor, seat, ticket)? != TrialStage::Running {
            return Err(Missed::that("the trial isn't running"));
        }
        side.answered.set();
        await_done(alloc, rt, floor, seat, ticket)?;
        fetch(alloc, rt, floor, seat, ticket)?;
        side.fetched.set();
        Ok(())
    }
}

#[test]
fn gate_two_trials(rt: HostRuntime) -> Result<(), Fail> {
    let scene = TwoTrials {
        begun: GateMark::new(),
        first: ProjectSide::new(),
        second: ProjectSide::new(),
        late: GateMark::new(),
    };
    let keys = RandomState::new(&rt)?;
    let closing = play(rt.alloc(), &rt, keys, 2, &[1, 2], &scene)?;
    assert_eq!(rt; closing.rows.len(), 2);
    assert_eq!(rt; scene.late.count(), 0);
    Ok(())
}
