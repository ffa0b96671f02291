//! A run that one worker parks goes on at another.

ghost use Rattle.pf_sched.specs.Slices.{SimulatesSlice};

use crate::calls::{SPAWNING, SUM, fetch, order, submit, wait_for};
use crate::missed::Missed;
use crate::scene::{Scene, play};
use crate::waiting::GateMark;
use pf_desks::TrialStage;
use pf_farm::{ClientSeat, DueSlice, Floor, Gate};
use pf_farm_accounts::FarmNames;
use pf_sched::{Scratch, Slice, run_slice};
use std::alloc::Global;
use std::hash::RandomState;
use std::sync::Wait;
use std::test::Fail;

/// The trial of project 1 is long, those of projects 2 and 3 are short. The first and the third are held in their first
/// slices until the second is ordered. The second is held until the first was fetched, and the third until the second
/// has begun: so the first was parked by one worker, and went on at the other.
#[derive(Drop)]
struct OneIsStolen {
    first_slices: GateMark,
    third_begun: GateMark,
    second_ordered: GateMark,
    second_begun: GateMark,
    first_fetched: GateMark,
    out_of_order: GateMark,
    /// Waits at the gate that lasted too long.
    late: GateMark,
}

impl Gate for OneIsStolen {
    fn slice<R: Wait>(
        &self,
        alloc: Global,
        _rt: &R,
        due: DueSlice,
        scratch: &mut Scratch,
    ) -> Slice {
        match due.project {
            1 => {
                if self.first_slices.set() == 0 {
                    self.second_ordered.hold(&self.late);
                } else if self.second_begun.count() == 0 {
                    self.out_of_order.set();
                }
            }
            2 => {
                self.second_begun.set();
                self.first_fetched.hold(&self.late);
            }
            _ => {
                self.third_begun.set();
                self.second_begun.hold(&self.late);
            }
        }
        run_slice(alloc, due.parked, scratch, due.turns)
    }
}

impl OneIsStolen {
    /// The long trial, which is fetched while the second is held.
    fn first<N: FarmNames, R: Wait>(
        &self,
        alloc: Global,
        rt: &R,
        floor: &Floor<N>,
        seat: &mut ClientSeat<N>,
    ) -> Result<(), Missed> {
        submit(alloc, rt, floor, seat, SPAWNING)?;
        let ticket = order(alloc, rt, floor, seat, 1, 1, 2_000)?;
        wait_for(rt, floor, seat, ticket, Some(TrialStage::Done))?;
        fetch(alloc, rt, floor, seat, ticket)?;
        self.first_fetched.set();
        Ok(())
    }
}

impl Scene for OneIsStolen {
    fn client<N: FarmNames, R: Wait>(
        &self,
        alloc: Global,
        rt: &R,
        floor: &Floor<N>,
        seat: &mut ClientSeat<N>,
    ) -> Result<(), Missed> {
        let project = seat.project();
        if project == 1 {
            return self.first(alloc, rt, floor, seat);
        }
        submit(alloc, rt, floor, seat, SUM)?;
        if project == 2 {
            self.third_begun.wait_for("the third trial doesn't begin")?;
        } else {
            self.first_slices.wait_for("the long trial doesn't begin")?;
        }
        let ticket = order(alloc, rt, floor, seat, 1, 1, 100)?;
        if project == 2 {
            self.second_ordered.set();
        }
        wait_for(rt, floor, seat, ticket, Some(TrialStage::Done))?;
        fetch(alloc, rt, floor, seat, ticket)?;
        Ok(())
    }
}

#[test]
fn gate_steal(rt: HostRuntime) -> Result<(), Fail> {
    let scene = OneIsStolen {
        first_slices: GateMark::new(),
        third_begun: GateMark::new(),
        second_ordered: GateMark::new(),
        second_begun: GateMark::new(),
        first_fetched: GateMark::new(),
        out_of_order: GateMark::new(),
        late: GateMark::new(),
    };
    let keys = RandomState::new(&rt)?;
    let closing = play(rt.alloc(), &rt, keys, 2, &[1, 2, 3], &scene)?;
    assert_eq!(rt; closing.rows.len(), 3);
    assert!(rt;
        scene.first_slices.count() > 1,
        "the long trial has several slices"
    );
    assert_eq!(rt; scene.out_of_order.count(), 0);
    assert_eq!(rt; scene.late.count(), 0);
    Ok(())
}
