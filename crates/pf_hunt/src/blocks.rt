//! Hunts over ranges of any length, block by block, so that they end soon if a run fails.

ghost use Rattle.std.specs.Prelude.{◌≡◌, ◌≤◌, ◌<◌, IfOk, OnErr, option_map};
ghost use Rattle.pf_hunt.specs.Hunts.{SearchedTo};
ghost use Rattle.pf_hunt.specs.Known.{TalliesAll, FindsFailure};
ghost use Rattle.pf_hunt.specs.Notices.{CutNotices, EndsHunt, HasFailures, Hears, HearsSome, SearchNotices, Searches};
ghost use Rattle.pf_hunt.specs.Notices.{TallyNotices};
ghost use Rattle.pf_hunt.specs.Notices.{has_none, leak_notice, stops};
ghost use Rattle.pf_hunt.specs.Views.{failure_of, leak_of};

use crate::failure::Searched;
use crate::leak::{Leak, earlier};
use crate::observer::HuntObserver;
use crate::pace::Pace;
use crate::range::HuntRange;
use crate::seeded::Hunt;
use crate::tallied::Tallied;
use crate::tally::Tally;
use crate::workers::{Team, first_of_block, tally_of_block};
use pf_errors::NoMemory;
use std::alloc::Global;
use std::thread::Threads;

/// How many seeds of a block each worker has at most.
const MOST: u64 = 2_048;

/// Where a block ends that begins here, in which each worker has `each` seeds.
fn block_end(from: u64, end: u64, each: u64, workers: u64) -> u64
    requires { from < end }
    ensures { (from < result) × (result ≤ end) }
{
    let size = each.saturating_mul(workers).max(1);
    from + size.min(end - from)
}

/// How many seeds each worker has in the next block: twice as many, up to a bound, if blocks grow.
fn next_size(each: u64, pace: Pace) -> u64 {
    match pace {
        Pace::Longer => each.saturating_mul(2).min(MOST),
        Pace::Same | Pace::Stop => each,
    }
}

/// Whether this answer ends a hunt that has seeds left.
fn stops(may_stop: bool, pace: Pace) -> bool
    ensures { result ≡ stops may_stop pace }
{
    match pace {
        Pace::Stop => may_stop,
        Pace::Longer | Pace::Same => false,
    }
}

/// Reports a leak to an observer, if there is one.
fn notify_leak<O: HuntObserver>(leak: Option<Leak>, observer: &mut O)
    ensures { Hears O.Heard observer.old (leak_notice (option_map leak_of leak)) observer.new }
{
    if let Some(leak) = leak {
        observer.leak(leak);
    }
}

/// The least seed that fails, block by block.
fn search_blocks<R: Threads + Sync, O: HuntObserver>(
    rt: &R,
    alloc: Global,
    hunt: &Hunt,
    range: HuntRange,
    observer: &mut O,
) -> Result<Searched, NoMemory>
    ensures known { IfOk result (λ s. FindsFailure hunt.now range.first s.end s) }
    ensures reach { IfOk result (λ s. SearchedTo range.may_stop range.first range.end s.end) }
    ensures heard { IfOk result (λ s. HearsSome O.Heard observer.old
        (Searches range.may_stop range.first range.end s.end (option_map failure_of s.failure)) observer.new) }
    ensures cut { OnErr result (HearsSome O.Heard observer.old
        (CutNotices has_none range.may_stop range.first range.end) observer.new) }
{
    let team = Team {
        first: 0,
        size: range.workers,
    };
    let mut leak = None;
    let mut at = range.first;
    let mut each = 1;
    while at < range.end {
        let next = block_end(at, range.end, each, range.workers);
        let block = first_of_block(rt, alloc, hunt, at, next, team)?;
        leak = earlier(leak, block.leak);
        let failure = block.failure;
        if failure.is_some() {
            observer.progress(next - range.first, 1);
            let end = range.end;
            return Ok(Searched { failure, leak, end });
        }
        let pace = observer.progress(next - range.first, 0);
        if next < range.end && stops(range.may_stop, pace) {
            let end = next;
            return Ok(Searched { failure, leak, end });
        }
        at = next;
        each = next_size(each, pace);
    }
    let failure = None;
    let end = range.end;
    Ok(Searched { failure, leak, end })
}

/// The least of the seeds that a hunt goes over whose run fails, and the least of those up to it whose root returned
/// while processes still waited, which the observer receives. It receives, too, how far the hunt got; if the hunt may
/// stop, it does so once the observer says it, and what is known is returned.
pub fn first_failing<R: Threads + Sync, O: HuntObserver>(
    rt: &R,
    alloc: Global,
    hunt: &Hunt,
    range: HuntRange,
    observer: &mut O,
) -> Result<Searched, NoMemory>
    ensures known { IfOk result (λ s. FindsFailure hunt.now range.first s.end s) }
    ensures reach { IfOk result (λ s. SearchedTo range.may_stop range.first range.end s.end) }
    ensures heard { IfOk result (λ s. HearsSome O.Heard observer.old
        (SearchNotices hunt.now.strategy hunt.now.job.asked range.may_stop range.first range.end s.end
        (option_map failure_of s.failure)) observer.new) }
    ensures cut { OnErr result (HearsSome O.Heard observer.old
        (CutNotices has_none range.may_stop range.first range.end) observer.new) }
{
    let searched = search_blocks(rt, alloc, hunt, range, observer)?;
    notify_leak(searched.leak, observer);
    Ok(searched)
}

/// The rows, block by block.
fn tally_blocks<R: Threads + Sync, O: HuntObserver>(
    rt: &R,
    alloc: Global,
    hunt: &Hunt,
    range: HuntRange,
    observer: &mut O,
) -> Result<Tallied, NoMemory>
    ensures known { IfOk result (λ t. TalliesAll hunt.now range.first t.end t) }
    ensures reach { IfOk result (λ t. SearchedTo range.may_stop range.first range.end t.end) }
    ensures heard { IfOk result (λ t. HearsSome O.Heard observer.old
        (EndsHunt (HasFailures hunt.now.strategy hunt.now.job.asked range.first) range.may_stop range.first range.end
        t.end) observer.new) }
    ensures cut { OnErr result (HearsSome O.Heard observer.old
        (CutNotices (HasFailures hunt.now.strategy hunt.now.job.asked range.first) range.may_stop range.first
        range.end) observer.new) }
{
    let team = Team {
        first: 0,
        size: range.workers,
    };
    let mut tally = Tally::new(alloc);
    let mut leak = None;
    let mut at = range.first;
    let mut each = 1;
    while at < range.end {
        let next = block_end(at, range.end, each, range.workers);
        let block = tally_of_block(rt, alloc, hunt, at, next, team)?;
        leak = earlier(leak, block.leak);
        tally.join(block.tally)?;
        let pace = observer.progress(next - range.first, tally.failures());
        if next < range.end && stops(range.may_stop, pace) {
            return Ok(Tallied {
                tally,
                leak,
                end: next,
            });
        }
        at = next;
        each = next_size(each, pace);
    }
    let end = range.end;
    Ok(Tallied { tally, leak, end })
}

/// The rows of the runs by the seeds that a hunt goes over, and the least of these whose root returned while processes
/// still waited, which the observer receives. It receives, too, how far the hunt got; if the hunt may stop, it does so
/// once the observer says it, and the rows are those of the seeds that were run.
pub fn tally_all<R: Threads + Sync, O: HuntObserver>(
    rt: &R,
    alloc: Global,
    hunt: &Hunt,
    range: HuntRange,
    observer: &mut O,
) -> Result<Tallied, NoMemory>
    ensures known { IfOk result (λ t. TalliesAll hunt.now range.first t.end t) }
    ensures reach { IfOk result (λ t. SearchedTo range.may_stop range.first range.end t.end) }
    ensures heard { IfOk result (λ t. HearsSome O.Heard observer.old
        (TallyNotices hunt.now.strategy hunt.now.job.asked range.may_stop range.first range.end t.end)
        observer.new) }
    ensures cut { OnErr result (HearsSome O.Heard observer.old
        (CutNotices (HasFailures hunt.now.strategy hunt.now.job.asked range.first) range.may_stop range.first
        range.end) observer.new) }
{
    let tallied = tally_blocks(rt, alloc, hunt, range, observer)?;
    notify_leak(tallied.leak, observer);
    Ok(tallied)
}
