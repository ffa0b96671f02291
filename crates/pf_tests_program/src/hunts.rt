//! What single words of a hunt ask for.

use crate::readings::{WantedReading, come_to};
use pf_cli::{Args, HuntArgs, HuntGoal, Roots};

/// What a word of a hunt asks for beside the defaults.
#[derive(Clone, Copy)]
pub enum Named {
    /// Every root.
    Roots,
    /// Each outcome, by one property.
    Outcomes,
    /// That a run evaluates to `true`, and nothing else.
    Property,
    /// The least seed that fails, whose schedule is shrunk within 7 runs.
    Shrinking,
    /// The seeds from the first to before the second, for so many seconds if any.
    Span(u64, u64, Option<u64>),
}

const CASES: [(&str, Named); 12] = [
    ("--all-roots", Named::Roots),
    ("--all", Named::Outcomes),
    ("--property=true", Named::Property),
    ("--shrink=7", Named::Shrinking),
    ("--seeds=7..1000", Named::Span(7, 1000, None)),
    ("--seeds=5..=5", Named::Span(5, 6, None)),
    (
        "--seeds=0..=18446744073709551614",
        Named::Span(0, u64::MAX, None),
    ),
    (
        "--seeds=18446744073709551615",
        Named::Span(0, u64::MAX, None),
    ),
    ("--for=90s", Named::Span(0, u64::MAX, Some(90))),
    ("--for=5m", Named::Span(0, u64::MAX, Some(300))),
    ("--for=2h", Named::Span(0, u64::MAX, Some(7200))),
    (
        "--for=4294967295h",
        Named::Span(0, u64::MAX, Some(15461882262000)),
    ),
];

/// Whether a hunt has what a word names.
fn has(hunt: &HuntArgs, named: Named) -> bool {
    match named {
        Named::Roots => matches!(hunt.roots, Roots::Every),
        Named::Outcomes => { matches!(hunt.sought, HuntGoal::Outcomes) && hunt.further.is_empty() }
        Named::Property => {
            hunt.request.property.as_slice() == b"true".as_slice() && hunt.further.is_empty()
        }
        Named::Shrinking => matches!(hunt.sought, HuntGoal::Failure { runs: Some(7) }),
        Named::Span(first, end, time) => {
            hunt.first == first && hunt.end == end && hunt.time == time
        }
    }
}

/// Whether it is a hunt that has what a word names.
pub fn hunts(args: &Args, named: Named) -> bool {
    matches!(args, Args::Hunt(hunt) if has(hunt, named))
}

#[test]
fn hunts_have_what_one_word_names(rt: HostRuntime) {
    for (word, named) in CASES {
        let words = ["pulsefarm", "hunt", "a", word];
        assert!(rt; come_to(rt.alloc(), &words, WantedReading::Hunt(named)));
    }
}
