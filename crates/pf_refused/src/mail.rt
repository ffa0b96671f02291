//! A mail list that holds more items than its pool keeps nodes, and is dropped while it holds some.

use crate::Stop;
use pf_nodes::{MailList, Pool};
use std::alloc::Global;

/// How many items the list gets first: six more than a pool keeps nodes.
const ITEMS: u32 = 1030;

/// Puts an item at the end, and looks at what comes back where that is refused.
fn push(list: &mut MailList<u32>, pool: &mut Pool<u32>, item: u32) -> Result<(), Stop> {
    let len = list.len();
    match list.push_back(pool, item) {
        Ok(()) => Ok(()),
        Err(back) => {
            if back == item && list.len() == len && list.mark() == 0 {
                Err(Stop::Refused)
            } else {
                Err(Stop::Changed)
            }
        }
    }
}

/// Fills a list, drains it, fills it again from the pool's nodes and drops it. The answer is how many nodes the pool
/// kept from the first time.
pub fn spare_after(alloc: Global) -> Result<usize, Stop> {
    let mut pool = Pool::new(alloc);
    let mut list = MailList::new(alloc);
    for item in 0..ITEMS {
        push(&mut list, &mut pool, item)?;
    }
    list.drain_into(&mut pool);
    let spare = pool.len();
    for item in 0..8 {
        push(&mut list, &mut pool, item)?;
    }
    Ok(spare)
}
