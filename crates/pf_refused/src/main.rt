//! Makes values, names of atoms, a mail list and a mailbox, and says so in four lines. Where an allocation fails it
//! says `NoMemory` and ends with status 2, once it has seen that what it failed in is as it was; else it ends with
//! status 3. The script under tests/faults/refused runs it with each allocation failing in turn.
#![tactic(auto)]

mod mail;
mod mailbox;

use pf_errors::{NoMemory, OrNoMemory};
use pf_terms::{AtomId, AtomTable, List, Term, TooLarge, copy, list_of, nodes, tuple_of};
use std::alloc::Global;
use std::io;
use std::process::ExitCode;

/// Why a run of calls did not end.
#[derive(Clone, Copy, PartialEq, Eq)]
enum Stop {
    Refused,
    /// A refused call changed its value.
    Changed,
}

/// What the calls made: nodes of a value, spare nodes of a pool, pairs that were taken from a mailbox and messages that
/// it kept.
struct Made {
    nodes: u32,
    spare: usize,
    mail: (u32, usize),
}

impl From<NoMemory> for Stop {
    fn from(_refused: NoMemory) -> Stop {
        Stop::Refused
    }
}

impl From<OrNoMemory<TooLarge>> for Stop {
    fn from(fault: OrNoMemory<TooLarge>) -> Stop {
        match fault {
            OrNoMemory::NoMemory => Stop::Refused,
            OrNoMemory::Fault(TooLarge) => Stop::Changed,
        }
    }
}

/// Enters a name, and looks at the table where that is refused.
fn enter(alloc: Global, atoms: &mut AtomTable, name: &[u8]) -> Result<AtomId, Stop> {
    let len = atoms.len();
    if len > 99 {
        return Err(Stop::Changed);
    }
    match atoms.enter(alloc, name) {
        Ok(atom) => Ok(atom),
        Err(NoMemory) => {
            if atoms.len() == len && atoms.find(name).is_none() {
                Err(Stop::Refused)
            } else {
                Err(Stop::Changed)
            }
        }
    }
}

fn pair(alloc: Global, first: Term, second: Term) -> Result<Term, Stop> {
    let Ok(items) = vec![in alloc; first, second] else {
        return Err(Stop::Refused);
    };
    Ok(tuple_of(alloc, items)?)
}

fn make(alloc: Global) -> Result<u32, Stop> {
    let mut atoms = AtomTable::new(alloc)?;
    let m = enter(alloc, &mut atoms, b"m")?;
    let kid = enter(alloc, &mut atoms, b"a kid with a longer name")?;
    let first = pair(alloc, Term::Atom(m), Term::Int(7))?;
    let second = pair(alloc, Term::Atom(kid), copy(&first)?)?;
    let Ok(items) = vec![in alloc; first, second] else {
        return Err(Stop::Refused);
    };
    let list = list_of(alloc, items)?;
    let longer = List::cons(alloc, Term::Pid(0), list.share()?)?;
    Ok(nodes(&Term::List(longer)))
}

fn made_all(alloc: Global) -> Result<Made, Stop> {
    Ok(Made {
        nodes: make(alloc)?,
        spare: mail::spare_after(alloc)?,
        mail: mailbox::taken_and_left(alloc)?,
    })
}

fn main(rt: HostRuntime) -> io::Result<ExitCode> {
    match made_all(rt.alloc()) {
        Ok(made) => {
            let Made { nodes, spare, mail } = made;
            let (pairs, left) = mail;
            println!(rt; "made {nodes} nodes")?;
            println!(rt; "kept {spare} nodes")?;
            println!(rt; "took {pairs} pairs")?;
            println!(rt; "kept {left} messages")?;
            Ok(ExitCode::SUCCESS)
        }
        Err(Stop::Refused) => {
            println!(rt; "NoMemory")?;
            Ok(ExitCode::from(2))
        }
        Err(Stop::Changed) => {
            println!(rt; "changed")?;
            Ok(ExitCode::from(3))
        }
    }
}
