//! A worked list of steps: one run goes from worker to worker.

use pf_check::Source;
use pf_pool::{Response, World};
use pf_request::{Call, Chore, Order, Request, RequestKind, RunChoices, ShortBytes, Step};
use std::alloc::Global;
use std::hash::RandomState;
use std::test::Fail;

/// A run of five events.
const ECHO: &[u8] =
    b"-module(m).\n-export([main/0]).\nmain() -> self() ! on, receive on -> ok end.\n";

/// Each chore about trial 1 of project 7, and its worker. All can be done.
const CHORES: [(u32, Chore); 11] = [
    (0, Chore::Claim),
    (0, Chore::Slice { turns: 2 }),
    (0, Chore::Park),
    (0, Chore::TakeUp),
    (0, Chore::Slice { turns: 1 }),
    (0, Chore::Park),
    (63, Chore::Steal { from: 0 }),
    (63, Chore::HandBack),
    (3, Chore::Claim),
    (3, Chore::Slice { turns: 100 }),
    (3, Chore::File),
];

/// Project 7 submits the module and orders its run.
fn order(alloc: Global, world: &mut World) -> Result<(), Fail> {
    let source = Source::new(alloc, Vec::from_slice(alloc, ECHO)?)?;
    drop(world.call(alloc, 7, Call::Submit(source))?);
    let request = Request {
        root: ShortBytes::from_slice(alloc, b"main")?,
        property: ShortBytes::from_slice(alloc, b"returns")?,
        kind: RequestKind::Run(RunChoices::Seed(1)),
        limit: 1000,
    };
    let call = Call::Order(Order { module: 1, request });
    drop(world.step(alloc, Step::Call { project: 7, call })?);
    Ok(())
}

fn is_done(response: Response) -> bool {
    matches!(response, Response::Done)
}

/// The index of the first chore that isn't done.
fn first_undone(alloc: Global, world: &mut World) -> Result<Option<usize>, Fail> {
    for (index, &(worker, chore)) in CHORES.iter().enumerate() {
        let step = Step::Chore {
            worker,
            project: 7,
            ticket: 1,
            chore,
        };
        if !is_done(world.step(alloc, step)?) {
            return Ok(Some(index));
        }
    }
    Ok(None)
}

/// The same in a world of 64 workers in which the run is ordered.
fn undone(alloc: Global, keys: RandomState) -> Result<Option<usize>, Fail> {
    let mut world = World::new(alloc, keys, 64)?;
    order(alloc, &mut world)?;
    first_undone(alloc, &mut world)
}

#[test]
fn a_run_goes_from_worker_to_worker(rt: HostRuntime) -> Result<(), Fail> {
    assert_eq!(rt; undone(rt.alloc(), RandomState::new(&rt)?)?, None);
    Ok(())
}
