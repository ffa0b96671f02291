//! One step of a process, and the room that it leaves.

use crate::points::begun;
use pf_nodes::Pool;
use pf_stepper::PlainInbox;
use std::test::Fail;

#[test]
fn a_step_is_made_and_room_is_left(rt: HostRuntime) -> Result<(), Fail> {
    let alloc = rt.alloc();
    let mut inbox = PlainInbox {
        messages: Vec::new(alloc),
    };
    let mut pool = Pool::new(alloc);
    let mut machine = begun(alloc, "g() -> 1. f() -> g().")?;
    let _did = machine.advance(alloc, &mut inbox, &mut pool)?;
    assert!(rt; machine.into_room().is_some());
    Ok(())
}
