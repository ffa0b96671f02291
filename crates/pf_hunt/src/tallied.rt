//! Each outcome that is met by the seeds in their order.

ghost use Rattle.std.specs.Prelude.{IfOk};
ghost use Rattle.pf_hunt.specs.Known.{TalliesAll};

use crate::leak::{Leak, earlier, leak_at};
use crate::row::OutcomeRow;
use crate::seeded::{Hunt, judged_by_seed};
use crate::tally::Tally;
use pf_errors::NoMemory;
use pf_sched::Scratch;
use std::alloc::Global;

/// The rows of the runs by the seeds before an end, and the least of these whose root returned while processes still
/// waited.
#[derive(Drop)]
pub struct Tallied {
    pub tally: Tally,
    pub leak: Option<Leak>,
    pub end: u64,
}

/// The rows of the runs by the seeds from a first to before an end, by the runs of this worker.
pub fn tally_in(
    alloc: Global,
    hunt: &Hunt,
    worker: u64,
    from: u64,
    end: u64,
) -> Result<Tallied, NoMemory>
    ensures { IfOk result (TalliesAll hunt.now from end) }
{
    let mut scratch = Scratch::new(alloc);
    let mut tally = Tally::new(alloc);
    let mut leak = None;
    for seed in from..end {
        let judged = judged_by_seed(alloc, hunt, worker, &mut scratch, seed)?.judged;
        leak = earlier(leak, leak_at(seed, judged.waiting));
        tally.add(OutcomeRow::met(seed, judged))?;
    }
    Ok(Tallied { tally, leak, end })
}
