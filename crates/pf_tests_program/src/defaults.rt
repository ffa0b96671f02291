//! What the words of each command ask for that name no more than it wants.

use crate::readings::{WantedReading, come_to};
use pf_cli::{Args, CliCommand, Edition, ExploreArgs, Format, HuntArgs, HuntGoal, Roots, RunArgs};
use pf_request::{Request, RequestKind, RunChoices};
use pf_strategy::{Sampling, Strategy};

/// Words of each command.
const WORDS: [&[&str]; 8] = [
    &[
        "pulsefarm",
        "run",
        "--root=main",
        "--limit=100000",
        "--seed=3",
    ],
    &["pulsefarm", "chart", "--seed=3"],
    &[
        "pulsefarm",
        "shrink",
        "--root=main",
        "--limit=100000",
        "--schedule=none",
        "--property=returns",
        "--runs=9",
    ],
    &["pulsefarm", "hunt"],
    &["pulsefarm", "explore"],
    &["pulsefarm", "check"],
    &["pulsefarm", "steps", "-"],
    &["pulsefarm", "farm", "a", "--workers=1"],
];

/// Whether it is a request of `main` that wants it to return within 100,000 steps.
fn is_of_defaults(request: &Request) -> bool {
    request.root.as_slice() == b"main".as_slice()
        && request.property.as_slice() == b"returns".as_slice()
        && request.limit == 100_000
}

/// Whether it is a run, or a shrinking, of the first edition by its own choices.
fn is_plain_run(run: &RunArgs) -> bool {
    is_of_defaults(&run.request) && matches!(run.edition, Edition::First) && run.by_seed.is_none()
}

fn is_plain_hunt(hunt: &HuntArgs) -> bool {
    is_of_defaults(&hunt.request)
        && matches!(hunt.request.kind, RequestKind::Run(RunChoices::Seed(0)))
        && matches!(hunt.edition, Edition::First)
        && hunt.more.is_empty()
        && (hunt.first, hunt.end) == (0, 10_000)
        && hunt.time.is_none()
        && hunt.workers.is_none()
        && hunt.strategy
            == (Strategy {
                sampling: Sampling::Priorities,
                last: None,
            })
        && !hunt.fail_fast
        && matches!(hunt.further.as_slice(), ["nocrash", "nodeadlock"])
        && !hunt.leaks
        && matches!(hunt.roots, Roots::Main)
        && matches!(hunt.sought, HuntGoal::Failure { runs: None })
}

fn is_plain_exploration(explore: &ExploreArgs) -> bool {
    is_of_defaults(&explore.request)
        && matches!(explore.edition, Edition::First)
        && explore.reach.budget == 2_000_000
        && explore.reach.time.is_none()
        && explore.reach.deviations.is_none()
        && explore.last.is_none()
        && explore.runs.is_none()
}

/// Whether nothing is asked for but what the command wants and its defaults.
fn has_defaults(args: &Args) -> bool {
    match args {
        Args::Run(run) | Args::Shrink(run) => is_plain_run(run),
        Args::Chart(chart) => is_plain_run(&chart.run) && !chart.compact && chart.page == 1,
        Args::Hunt(hunt) => is_plain_hunt(hunt),
        Args::Explore(explore) => is_plain_exploration(explore),
        Args::Check(check) => !check.explain,
        Args::Steps(_) => true,
        Args::Farm(farm) => farm.workers == 1 && !farm.summary,
    }
}

/// Whether these are the defaults of a command, whose file is the standard input, which reports in text and explains no
/// more.
pub fn is_plain(asked: &CliCommand) -> bool {
    has_defaults(&asked.args)
        && asked.args.file().is_none()
        && matches!(asked.format, Format::Text)
        && !asked.explain
}

#[test]
fn commands_have_their_defaults(rt: HostRuntime) {
    for words in WORDS {
        assert!(rt; come_to(rt.alloc(), words, WantedReading::Defaults));
    }
}
