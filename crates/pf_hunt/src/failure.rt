//! The least seed whose run fails.

ghost use Rattle.std.specs.Prelude.{◌≡◌, List, IfOk};
ghost use Rattle.pf_model.specs.Meaning.{Report as ReportOf};
ghost use Rattle.pf_model.specs.Properties.{Property};
ghost use Rattle.pf_verdicts.specs.Judging.{IsJudgedBy};
ghost use Rattle.pf_hunt.specs.Hunts.{fails};
ghost use Rattle.pf_hunt.specs.Known.{FindsFailure};

use crate::leak::{Leak, earlier, leak_at};
use crate::seeded::{Hunt, judged_by_seed, run_by_seed};
use pf_errors::NoMemory;
use pf_model::report::Report;
use pf_sched::Scratch;
use pf_verdicts::JudgedSeed;
use std::alloc::Global;

/// A seed whose run fails, and the report of that run.
#[derive(Drop)]
pub struct FailingSeed {
    pub seed: u64,
    pub report: Report,
}

/// What is known of the seeds before an end: the least whose run fails, if any; and, up to and with that one, the least
/// whose root returned while processes still waited.
#[derive(Drop)]
pub struct Searched {
    pub failure: Option<FailingSeed>,
    pub leak: Option<Leak>,
    pub end: u64,
}

/// Whether a run fails: its property does, or a further one; or, if leaks are failures too, processes still wait though
/// its root returned.
fn fails(leaks: bool, seed: &JudgedSeed) -> bool
    ensures { (ps : List Property) (r : ReportOf) → IsJudgedBy ps r seed.now
        → result ≡ fails (record { further = ps; leaks = leaks }) r }
{
    let judged = &seed.judged;
    matches!(judged.verdict, Some(false)) || seed.fails_further || (leaks && judged.waiting > 0)
}

/// The least seed from a first to before an end whose run fails, with the report of that run, which is made once more
/// for it; by the runs of this worker.
pub fn first_in(
    alloc: Global,
    hunt: &Hunt,
    worker: u64,
    from: u64,
    end: u64,
) -> Result<Searched, NoMemory>
    ensures { IfOk result (FindsFailure hunt.now from end) }
{
    let mut scratch = Scratch::new(alloc);
    let mut leak = None;
    for seed in from..end {
        let judged = judged_by_seed(alloc, hunt, worker, &mut scratch, seed)?;
        leak = earlier(leak, leak_at(seed, judged.judged.waiting));
        if fails(hunt.leaks, &judged) {
            let report = run_by_seed(alloc, hunt, &mut scratch, seed)?;
            let failure = Some(FailingSeed { seed, report });
            return Ok(Searched { failure, leak, end });
        }
    }
    let failure = None;
    Ok(Searched { failure, leak, end })
}
