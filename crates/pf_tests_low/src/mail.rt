//! A mailbox and its pool of spare nodes, and each item dropped once.

use pf_nodes::{MailList, Pool};
use std::alloc::Global;
use std::cell::Cell;
use std::test::Fail;

/// An item that counts its drops.
struct CountedDrop<'a> {
    drops: &'a Cell<u32>,
}

impl Drop for CountedDrop<'_> {
    fn drop(self) {
        self.drops.set(self.drops.get().wrapping_add(1));
        let CountedDrop { drops: _ } = self;
    }
}

/// Puts n items at the end.
fn add<'a>(
    list: &mut MailList<CountedDrop<'a>>,
    pool: &mut Pool<CountedDrop<'a>>,
    drops: &'a Cell<u32>,
    count: u32,
) -> Result<(), Fail> {
    for _ in 0..count {
        if list.push_back(pool, CountedDrop { drops }).is_err() {
            return Err(Fail::from("no memory"));
        }
    }
    Ok(())
}

/// Passes over the first item and takes the second one. It gives the mark and the length before the mark goes back to
/// the front.
fn take_second<'a>(
    list: &mut MailList<CountedDrop<'a>>,
    pool: &mut Pool<CountedDrop<'a>>,
) -> Option<(usize, usize)> {
    list.marked()?;
    list.pass();
    list.marked()?;
    drop(list.take_marked(pool));
    let place = (list.mark(), list.len());
    list.reset_mark();
    Some(place)
}

/// How many items are dropped and how many nodes are spare, where one of 1,030 is taken, where the others are drained,
/// where two more are put in, and where the list is dropped.
fn drops_and_spare(alloc: Global) -> Result<[(u32, usize); 4], Fail> {
    let drops = Cell::new(0);
    let mut pool = Pool::new(alloc);
    let mut list = MailList::new(alloc);
    add(&mut list, &mut pool, &drops, 1_030)?;
    if take_second(&mut list, &mut pool) != Some((1, 1_029)) {
        return Err(Fail::from("the second item isn't taken"));
    }
    let taken = (drops.get(), pool.len());
    list.drain_into(&mut pool);
    let drained = (drops.get(), pool.len());
    add(&mut list, &mut pool, &drops, 2)?;
    let filled = (drops.get(), pool.len());
    drop(list);
    Ok([taken, drained, filled, (drops.get(), pool.len())])
}

#[test]
fn items_are_dropped_once_and_nodes_are_spared(rt: HostRuntime) -> Result<(), Fail> {
    let wanted = [(1, 1), (1_030, 1_024), (1_030, 1_022), (1_032, 1_022)];
    assert_eq!(rt; drops_and_spare(rt.alloc())?, wanted);
    Ok(())
}
