//! Channels and ties: each public call once.

use pf_channels::Channels;
use pf_model::Signal;
use pf_terms::{AtomId, Term};
use pf_ties::{Fate, Ties};
use std::alloc::Global;
use std::test::Fail;

/// Opens two senders, and sends 4 and 5 from the first to the second.
fn send_two(alloc: Global, channels: &mut Channels) -> Result<(), Fail> {
    for _ in 0..2 {
        if channels.senders() < 2 {
            channels.open(alloc)?;
        }
    }
    for n in [4, 5] {
        if channels.senders() > 0 {
            channels.send(alloc, 0, 1, Signal::Message(Term::Int(n)))?;
        }
    }
    Ok(())
}

/// The number of the message that is delivered from the first sender to the second.
fn next(channels: &mut Channels) -> Option<i64> {
    match channels.deliver(0, 1)? {
        Signal::Message(Term::Int(n)) => Some(n),
        _ => None,
    }
}

#[test]
fn signals_of_a_pair_keep_their_order(rt: HostRuntime) -> Result<(), Fail> {
    let mut channels = Channels::new(rt.alloc());
    send_two(rt.alloc(), &mut channels)?;
    let mut heads = Vec::new(rt.alloc());
    channels.put_heads(&mut heads)?;
    assert!(rt;
        channels.len() == 1 && channels.head(0) == (0, 1) && heads.as_slice() == [(0, 1)].as_slice()
    );
    assert!(rt;
        (
            next(&mut channels),
            next(&mut channels),
            next(&mut channels)
        ) == (Some(4), Some(5), None)
    );
    Ok(())
}

/// The name that is given.
const NAME: AtomId = AtomId(100);

/// A call that one process makes of another, or a signal that comes from one to another.
#[derive(Clone, Copy)]
enum TieCall {
    Open,
    OpenWatched,
    MakeReference,
    Link,
    Unlink,
    Monitor,
    Demonitor,
    SetFlag,
    Register,
    Whereis,
    Unregister,
    Lives,
    OnLink,
    OnUnlink,
    OnMonitor,
    OnDemonitor,
    OnDown,
    OnExit,
    End,
}

/// Whether a call gives what is wanted: yes, this process and this reference.
fn ask(
    ties: &mut Ties,
    alloc: Global,
    call: TieCall,
    ends: (u32, u32),
    number: u64,
) -> Result<bool, Fail> {
    let (from, to) = ends;
    if from as usize >= ties.len() || ties.len() >= 1_024 || ties.next_reference() >= 1_000 {
        return Err(Fail::from("no such process"));
    }
    Ok(match call {
        TieCall::Open => ties.open(alloc, Some(from))? == to,
        TieCall::OpenWatched => ties.open_watched(alloc, from)? == (to, number),
        TieCall::MakeReference => ties.make_reference() == number,
        TieCall::Link => ties.link(alloc, from, to)?,
        TieCall::Unlink => ties.unlink(from, to),
        TieCall::Monitor => ties.monitor(alloc, from, to)? == number,
        TieCall::Demonitor => ties.demonitor(from, number) == Some(to),
        TieCall::SetFlag => !ties.set_flag(from, true),
        TieCall::Register => ties.register(alloc, NAME, from).is_ok(),
        TieCall::Whereis => ties.whereis(NAME) == Some(from),
        TieCall::Unregister => ties.unregister(NAME).is_ok(),
        TieCall::Lives => ties.lives(from),
        _ => return meet(ties, alloc, call, ends, number),
    })
}

/// The same of a signal that comes, of which an exit becomes a message, and of an end, where so many signals are sent.
fn meet(
    ties: &mut Ties,
    alloc: Global,
    call: TieCall,
    ends: (u32, u32),
    number: u64,
) -> Result<bool, Fail> {
    let (from, to) = ends;
    if to as usize >= ties.len() {
        return Err(Fail::from("no such process"));
    }
    match call {
        TieCall::OnLink => ties.on_link(alloc, from, to)?,
        TieCall::OnUnlink => ties.on_unlink(from, to),
        TieCall::OnMonitor => ties.on_monitor(alloc, from, to, number)?,
        TieCall::OnDemonitor => ties.on_demonitor(to, number),
        TieCall::OnDown => return Ok(ties.on_down(to, number)),
        TieCall::End => {
            let reported = ties.ended(alloc, to, &Term::Atom(AtomId::KILL))?;
            return Ok(reported.len() as u64 == number);
        }
        _ => {
            let fate = ties.on_exit_signal(from, to, true, Term::Atom(AtomId::KILL));
            return Ok(matches!(fate, Fate::Message));
        }
    }
    Ok(true)
}

/// Calls among two processes and those that they open, with what each gives.
const CALLS: [(TieCall, (u32, u32), u64); 24] = [
    (TieCall::Open, (0, 2), 0),
    (TieCall::OpenWatched, (1, 3), 0),
    (TieCall::MakeReference, (0, 0), 1),
    (TieCall::Link, (0, 1), 0),
    (TieCall::OnLink, (0, 1), 0),
    (TieCall::Monitor, (0, 1), 2),
    (TieCall::OnMonitor, (0, 1), 2),
    (TieCall::Monitor, (0, 2), 3),
    (TieCall::OnMonitor, (0, 2), 3),
    (TieCall::Demonitor, (0, 2), 3),
    (TieCall::OnDemonitor, (0, 2), 3),
    (TieCall::SetFlag, (0, 0), 0),
    (TieCall::Register, (1, 1), 0),
    (TieCall::Whereis, (1, 1), 0),
    (TieCall::Lives, (1, 1), 0),
    // An exit by the link, and a down by reference 2.
    (TieCall::End, (1, 1), 2),
    (TieCall::OnExit, (1, 0), 0),
    (TieCall::OnDown, (1, 0), 2),
    (TieCall::Register, (0, 0), 0),
    (TieCall::Unregister, (0, 0), 0),
    (TieCall::Unlink, (0, 2), 0),
    (TieCall::OnUnlink, (0, 2), 0),
    (TieCall::End, (2, 2), 0),
    // The down of who was watched from its begin.
    (TieCall::End, (3, 3), 1),
];

/// The first of the calls that gives something else.
fn first_other(ties: &mut Ties, alloc: Global) -> Result<Option<usize>, Fail> {
    for (at, (call, ends, number)) in CALLS.iter().enumerate() {
        if !ask(ties, alloc, *call, *ends, *number)? {
            return Ok(Some(at));
        }
    }
    Ok(None)
}

#[test]
fn ties_are_made_and_given_up(rt: HostRuntime) -> Result<(), Fail> {
    let mut ties = Ties::new(rt.alloc());
    ties.open(rt.alloc(), None)?;
    ties.open(rt.alloc(), None)?;
    assert_eq!(rt; first_other(&mut ties, rt.alloc())?, None);
    Ok(())
}
