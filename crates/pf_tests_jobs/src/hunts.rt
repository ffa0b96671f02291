//! Hunts by workers in threads, over modules of their own, and what their observer is notified of.

use pf_check::{ReadModule, Source};
use pf_hunt::{Hunt, HuntObserver, HuntRange, Leak, Pace, first_failing, tally_all};
use pf_request::{Request, RequestKind, RunChoices, ShortBytes};
use pf_sched::Job;
use pf_strategy::{Sampling, Strategy};
use pf_verdicts::{FailureCause, HuntAsked, cause_of, further_properties, worker_jobs};
use std::alloc::Global;
use std::test::Fail;
use std::thread::Threads;

/// Two workers add one to a counter, each by reading it and writing back one more.
const LOST_UPDATE: &str = "-module(m).\n-export([main/0, counter/1, worker/2]).\n\
main() -> C = spawn(m, counter, [0]), A = spawn(m, worker, [C, self()]), B = spawn(m, worker, [C, self()]),\n\
receive {done, A} -> ok end, receive {done, B} -> ok end, read(C) == 2.\n\
worker(C, M) -> N = read(C), C ! {write, N + 1, self()}, receive written -> M ! {done, self()} end.\n\
read(C) -> C ! {read, self()}, receive {value, N} -> N end.\n\
counter(N) -> receive {read, P} -> P ! {value, N}, counter(N);\n\
{write, M, P} -> P ! written, counter(M) end.\n";

/// Of five processes two wait for ever: the root returned, one ended, and one is killed, which is a crash.
const TWO_WAIT: &str = "-module(m).\n-export([main/0, waits/0, ends/0]).\n\
main() -> spawn(m, waits, []), spawn_monitor(m, waits, []), spawn(m, ends, []), P = spawn(m, waits, []), exit(P, kill), ok.\n\
waits() -> receive never -> ok end.\n\
ends() -> ok.\n";

/// The module of a source.
fn module_of(alloc: Global, source: &str) -> Result<ReadModule, Fail> {
    let mut bytes = Vec::new(alloc);
    bytes.extend_from_slice(source.as_bytes())?;
    Ok(ReadModule::read(alloc, &Source::new(alloc, bytes)?)?)
}

/// The request of a run from `main`.
fn request_of(alloc: Global, property: &str) -> Result<Request, Fail> {
    Ok(Request {
        root: ShortBytes::from_slice(alloc, b"main")?,
        property: ShortBytes::from_slice(alloc, property.as_bytes())?,
        kind: RequestKind::Run(RunChoices::Seed(0)),
        limit: 2000,
    })
}

/// The hunt of a request of a module, with a module for each of three workers.
fn hunt_in(
    alloc: Global,
    module: &ReadModule,
    request: &Request,
    further: &[&str],
    sampling: Sampling,
    leaks: bool,
) -> Result<Hunt, Fail> {
    let job = Job::new(alloc, module.share()?, request, 1)?;
    let asked = HuntAsked {
        module,
        request,
        further,
        workers: 3,
    };
    let further = further_properties(alloc, module, further)?;
    let jobs = worker_jobs(alloc, &job, &further, &asked)?;
    Ok(Hunt {
        job,
        jobs,
        strategy: Strategy {
            sampling,
            last: None,
        },
        further,
        leaks,
    })
}

/// The hunt of a source by the first of these properties and by those after it.
fn hunt_of(
    alloc: Global,
    source: &str,
    properties: (&str, &[&str]),
    sampling: Sampling,
    leaks: bool,
) -> Result<Hunt, Fail> {
    let (first, further) = properties;
    let request = request_of(alloc, first)?;
    let module = module_of(alloc, source)?;
    hunt_in(alloc, &module, &request, further, sampling, leaks)
}

/// How many seeds a hunt reported at last; the leak that it reported, by its seed and its processes, and how often. It
/// is to stop after twenty seeds.
#[derive(Drop)]
struct HeardHunt {
    done: u64,
    leak: (u64, u32),
    leaks: u64,
}

/// Nothing is reported yet.
const NOTHING: HeardHunt = HeardHunt {
    done: 0,
    leak: (0, 0),
    leaks: 0,
};

impl HuntObserver for HeardHunt {
    fn progress(&mut self, done: u64, _failures: u64) -> Pace {
        self.done = done;
        if done < 20 { Pace::Longer } else { Pace::Stop }
    }

    fn leak(&mut self, leak: Leak) {
        self.leak = (leak.seed, leak.processes);
        self.leaks = self.leaks.saturating_add(1);
    }
}

/// Forty seeds, by three workers.
const FORTY: HuntRange = HuntRange {
    first: 0,
    end: 40,
    may_stop: false,
    workers: 3,
};

/// The seed that fails of forty, with the verdict of its report and why it fails, by three workers.
fn failing<R: Threads + Sync>(
    rt: &R,
    alloc: Global,
    hunt: &Hunt,
) -> Result<Option<(u64, Option<bool>, FailureCause)>, Fail> {
    let mut watch = NOTHING;
    let searched = first_failing(rt, alloc, hunt, FORTY, &mut watch)?;
    match &searched.failure {
        Some(failure) => {
            let cause = cause_of(&failure.report, &hunt.further);
            Ok(Some((failure.seed, failure.report.verdict, cause)))
        }
        None => Ok(None),
    }
}

/// A hunt by its source, its properties and its strategy, and whether leaks are failures; the verdict of the seed 0,
/// which fails for this cause; and how many of its three workers keep no events of several properties.
#[derive(Clone, Copy)]
struct WantedFailure {
    source: &'static str,
    properties: (&'static str, &'static [&'static str]),
    sampling: Sampling,
    leaks: bool,
    verdict: bool,
    cause: FailureCause,
    watched: usize,
}

const HUNTS: [WantedFailure; 7] = [
    WantedFailure {
        source: LOST_UPDATE,
        properties: ("true", &[]),
        sampling: Sampling::Uniform,
        leaks: false,
        verdict: false,
        cause: FailureCause::Property,
        watched: 0,
    },
    WantedFailure {
        source: TWO_WAIT,
        properties: ("nodeadlock", &[]),
        sampling: Sampling::Uniform,
        leaks: true,
        verdict: true,
        cause: FailureCause::Leak,
        watched: 0,
    },
    WantedFailure {
        source: TWO_WAIT,
        properties: ("nodeadlock", &[]),
        sampling: Sampling::Priorities,
        leaks: true,
        verdict: true,
        cause: FailureCause::Leak,
        watched: 0,
    },
    WantedFailure {
        source: TWO_WAIT,
        properties: ("returns", &["nodeadlock", "nocrash"]),
        sampling: Sampling::Uniform,
        leaks: false,
        verdict: true,
        cause: FailureCause::Further(1),
        watched: 3,
    },
    WantedFailure {
        source: TWO_WAIT,
        properties: ("nodeadlock", &["true", "nocrash"]),
        sampling: Sampling::Priorities,
        leaks: true,
        verdict: true,
        cause: FailureCause::Further(0),
        watched: 3,
    },
    WantedFailure {
        source: TWO_WAIT,
        properties: ("nocrash", &["true"]),
        sampling: Sampling::Priorities,
        leaks: false,
        verdict: false,
        cause: FailureCause::Property,
        watched: 3,
    },
    WantedFailure {
        source: TWO_WAIT,
        properties: ("nodeadlock", &["never:{done, _}", "nocrash"]),
        sampling: Sampling::Uniform,
        leaks: false,
        verdict: true,
        cause: FailureCause::Further(1),
        watched: 0,
    },
];

#[test]
fn three_workers_find_the_least_seed_that_fails(rt: HostRuntime) -> Result<(), Fail> {
    let alloc = rt.alloc();
    for wanted in HUNTS {
        let hunt = hunt_of(
            alloc,
            wanted.source,
            wanted.properties,
            wanted.sampling,
            wanted.leaks,
        )?;
        assert_eq!(rt;
            (failing(&rt, alloc, &hunt)?, hunt.jobs.watched.len()),
            (
                Some((0, Some(wanted.verdict), wanted.cause)),
                wanted.watched
            )
        );
    }
    Ok(())
}

#[test]
fn a_text_that_is_no_property_is_refused(rt: HostRuntime) -> Result<(), Fail> {
    let alloc = rt.alloc();
    let module = module_of(alloc, TWO_WAIT)?;
    assert!(rt; further_properties(alloc, &module, &["nocrash", "fine"]).is_err());
    assert_eq!(rt;
        further_properties(alloc, &module, &["nocrash", "true"])?.len(),
        2
    );
    Ok(())
}

/// The seeds from 10 to before 60, by two workers.
fn fifty(may_stop: bool) -> HuntRange {
    HuntRange {
        first: 10,
        end: 60,
        may_stop,
        workers: 2,
    }
}

/// How far a hunt over the seeds from 10 to before 60 gets by two workers, where none fails; and what it reported.
fn searched<R: Threads + Sync>(
    rt: &R,
    alloc: Global,
    hunt: &Hunt,
    may_stop: bool,
) -> Result<(u64, u64, (u64, u32), u64), Fail> {
    let mut watch = NOTHING;
    let searched = first_failing(rt, alloc, hunt, fifty(may_stop), &mut watch)?;
    if searched.failure.is_some() {
        return Err(Fail::from("a seed fails"));
    }
    Ok((searched.end, watch.done, watch.leak, watch.leaks))
}

/// The same of each outcome, of which there is one, with as many seeds as it reported.
fn tallied<R: Threads + Sync>(
    rt: &R,
    alloc: Global,
    hunt: &Hunt,
    may_stop: bool,
) -> Result<(u64, u64, (u64, u32), u64), Fail> {
    let mut watch = NOTHING;
    let tallied = tally_all(rt, alloc, hunt, fifty(may_stop), &mut watch)?;
    match tallied.tally.rows.as_slice() {
        [row] if (row.verdict, row.least) == (Some(true), 10) => {
            Ok((tallied.end, row.count, watch.leak, watch.leaks))
        }
        _ => Err(Fail::from("there is no such row")),
    }
}

/// Whether a hunt may stop, up to where it comes, and how many seeds it has then: blocks of 2, 4, 8 and 16, and where
/// it goes on of 16 and 4.
const ENDS: [(bool, u64, u64); 2] = [(true, 40, 30), (false, 60, 50)];

#[test]
fn a_hunt_stops_where_it_is_asked_to_and_reports_its_leak_once(
    rt: HostRuntime,
) -> Result<(), Fail> {
    let alloc = rt.alloc();
    let properties: (&str, &[&str]) = ("nodeadlock", &[]);
    let hunt = hunt_of(alloc, TWO_WAIT, properties, Sampling::Uniform, false)?;
    assert_eq!(rt; hunt.jobs.others.len(), 2);
    for (may_stop, end, seeds) in ENDS {
        let wanted = (end, seeds, (10, 2), 1);
        assert_eq!(rt; searched(&rt, alloc, &hunt, may_stop)?, wanted);
        assert_eq!(rt; tallied(&rt, alloc, &hunt, may_stop)?, wanted);
    }
    Ok(())
}
