//! Reports that are made by hand.

use pf_model::Signal;
use pf_terms::{AtomId, Term};
use pf_trace::{Actor, Event, Label, Outcome, Report, Suffix};
use std::alloc::Global;
use std::test::Fail;

/// What a process does, or what a signal does.
pub(crate) enum Did {
    Spawns(u32),
    SpawnsLinked(u32),
    SpawnsWatched(u32),
    Links(u32),
    /// A `demonitor` of reference 0 that flushes.
    Flushes,
    Sends(u32, i64),
    Takes(i64),
    TakesAtom(AtomId),
    Waits,
    Ends(AtomId),
    Delivers(i64),
    Drops(i64),
    /// The link arrives at a process that has ended.
    MissesLink,
    LinkComes,
    /// An exit by link becomes a message.
    ExitComes,
    /// The down by reference 0 comes.
    DownComes,
}

/// How a run ends.
pub(crate) enum RunEnd {
    AtLimit,
    WithoutMemory,
    With(AtomId),
    InDeadlock(&'static [u32]),
}

/// A report: of each event its choice, who acts and what is reported, and after these so many references that the root
/// makes.
pub(crate) struct ReportScene {
    pub(crate) events: &'static [(u32, Actor, Did)],
    pub(crate) references: u64,
    pub(crate) ends: RunEnd,
}

fn label(did: &Did) -> Label {
    match did {
        Did::Spawns(pid) => Label::Spawns {
            linked: false,
            pid: *pid,
        },
        Did::SpawnsLinked(pid) => Label::Spawns {
            linked: true,
            pid: *pid,
        },
        Did::SpawnsWatched(pid) => Label::SpawnsWatched {
            pid: *pid,
            reference: 0,
        },
        Did::Links(pid) => Label::Links(*pid),
        Did::Flushes => Label::Demonitors {
            flushes: true,
            reference: 0,
        },
        Did::Sends(to, number) => Label::Sends {
            to: *to,
            message: Term::Int(*number),
        },
        Did::Takes(number) => Label::Takes(Term::Int(*number)),
        Did::TakesAtom(atom) => Label::Takes(Term::Atom(*atom)),
        Did::Waits => Label::Waits,
        Did::Ends(reason) => Label::Ends(Term::Atom(*reason)),
        _ => comes(did),
    }
}

/// What a signal does.
fn comes(did: &Did) -> Label {
    let (signal, suffix) = match did {
        Did::Delivers(number) => (Signal::Message(Term::Int(*number)), Suffix::TookEffect),
        Did::Drops(number) => (Signal::Message(Term::Int(*number)), Suffix::Dropped),
        Did::MissesLink => (Signal::Link, Suffix::NoProcess),
        Did::DownComes => (
            Signal::Down(0, Term::Atom(AtomId::NORMAL)),
            Suffix::TookEffect,
        ),
        Did::ExitComes => {
            let reason = Term::Atom(AtomId::KILL);
            let by_link = true;
            (Signal::Exit { by_link, reason }, Suffix::AsMessage)
        }
        _ => (Signal::Link, Suffix::TookEffect),
    };
    Label::Delivers(signal, suffix)
}

fn events(alloc: Global, reported: &ReportScene) -> Result<Vec<Event>, Fail> {
    let mut events = Vec::new(alloc);
    for (choice, actor, did) in reported.events {
        events.push(Event {
            choice: *choice,
            count: 3,
            actor: *actor,
            label: label(did),
        })?;
    }
    Ok(events)
}

/// Adds so many references that the root makes.
fn add_references(events: &mut Vec<Event>, count: u64) -> Result<(), Fail> {
    for number in 0..count {
        events.push(Event {
            choice: 0,
            count: 1,
            actor: Actor::Process(0),
            label: Label::MakesReference(number),
        })?;
    }
    Ok(())
}

fn outcome(alloc: Global, ends: &RunEnd) -> Result<Outcome, Fail> {
    Ok(match ends {
        RunEnd::AtLimit => Outcome::Limit,
        RunEnd::WithoutMemory => Outcome::Memory,
        RunEnd::With(atom) => Outcome::Finished(Term::Atom(*atom)),
        RunEnd::InDeadlock(waiting) => Outcome::Deadlock(Vec::from_slice(alloc, *waiting)?),
    })
}

pub(crate) fn report(alloc: Global, reported: &ReportScene) -> Result<Report, Fail> {
    let outcome = outcome(alloc, &reported.ends)?;
    let mut events = events(alloc, reported)?;
    add_references(&mut events, reported.references)?;
    Ok(Report {
        events,
        outcome,
        steps: 1,
        verdict: None,
    })
}
