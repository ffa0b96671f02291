//! What is around a run: tokens of its source, quotas of its project, and the search for a small schedule.

use pf_quota::{Charge, Holding, LimitRefusal, Usage, trial_steps};
use pf_shrink::ShrinkingSearch;
use pf_tokens::tokens;
use std::alloc::Global;
use std::test::Fail;

/// How many tokens a source has, and where the last of them is.
fn last_of(alloc: Global, source: &[u8]) -> Result<(usize, usize, usize), Fail> {
    let found = tokens(alloc, source)?;
    match found.last() {
        Some(last) => Ok((found.len(), last.start, last.end)),
        None => Ok((0, 0, 0)),
    }
}

/// Sources of which each token is as long as it can be.
const SOURCES: [(&[u8], (usize, usize, usize)); 9] = [
    (b" \t\r\n% a\r'\xff\n%", (0, 0, 0)),
    (b"-module(m).", (6, 10, 11)),
    (b"12ab", (2, 2, 4)),
    (b"$a1", (2, 2, 3)),
    (b"a.%", (2, 1, 2)),
    (b"?MODULE(", (2, 7, 8)),
    (b"ends _x 'a\\s\\'\\\\'", (3, 8, 17)),
    (b"=:==/=--<-", (4, 8, 10)),
    (b"\"\" \"a\\\"'\nb\"", (2, 3, 11)),
];

#[test]
fn tokens_are_as_long_as_they_can_be(rt: HostRuntime) -> Result<(), Fail> {
    for (source, wanted) in SOURCES {
        assert_eq!(rt; last_of(rt.alloc(), source)?, wanted);
    }
    Ok(())
}

/// What a project uses that made a call, holds a module and a trial, and dropped another of each.
fn lessened() -> Result<Usage, LimitRefusal> {
    let mut usage = Usage::new();
    usage.charge(1, Charge::Call)?;
    usage.charge(1, Charge::Module { bytes: 16_384 })?;
    usage.charge(1, Charge::Module { bytes: 9 })?;
    let steps = trial_steps(1_000, 20);
    usage.charge(1, Charge::Trial { steps })?;
    usage.charge(1, Charge::Trial { steps: 500 })?;
    usage.refund(Holding::Module { bytes: 16_384 });
    usage.refund(Holding::Trial { steps });
    Ok(usage)
}

#[test]
fn what_is_given_up_is_refunded(rt: HostRuntime) -> Result<(), Fail> {
    let wanted = Usage {
        modules: 1,
        bytes: 9,
        trials: 1,
        steps: 500,
        calls: 1,
    };
    assert_eq!(rt; lessened()?, wanted);
    Ok(())
}

/// The schedules that are run of 0, 0, 0, 3, where exactly those of two numbers at least fail whose last is not 0.
const STEPS: [(&[u32], bool); 11] = [
    (&[0, 0, 0, 3], true),
    (&[0, 0, 0], false),
    (&[0, 0, 3], true),
    (&[0, 0], false),
    (&[0, 3], true),
    (&[0], false),
    (&[3], false),
    (&[0, 1], true),
    (&[0], false),
    (&[1], false),
    (&[0, 0], false),
];

/// Goes by such steps as long as they give the next schedule, and says how many did.
fn go(hunt: &mut ShrinkingSearch, steps: &[(&[u32], bool)]) -> usize {
    for (taken, (schedule, fails)) in steps.iter().enumerate() {
        match hunt.next() {
            Some(next) if next == *schedule => {}
            _ => return taken,
        }
        hunt.reported(*fails);
    }
    steps.len()
}

#[test]
fn a_search_ends_where_no_candidate_fails(rt: HostRuntime) -> Result<(), Fail> {
    let mut hunt = ShrinkingSearch::new(vec![in rt.alloc(); 0, 0, 0, 3]?, 12);
    let gone = go(&mut hunt, &STEPS);
    assert!(rt; gone == 11 && hunt.next().is_none() && hunt.found() == Some((&[0, 1], true)));
    Ok(())
}
