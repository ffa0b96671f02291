//! A mailbox that messages are placed in and taken from, and that is packed and unpacked.

use crate::{Stop, pair};
use pf_errors::NoMemory;
use pf_mailbox::Mailbox;
use pf_nodes::Pool;
use pf_stepper::Inbox;
use pf_syntax::{Clause, Guard, Module, Operand, PatternNode};
use pf_terms::{AtomId, AtomTable, Term};
use std::alloc::Global;

/// `receive {exit, X} -> X end`, in a module of its own.
#[derive(Drop)]
struct ReceiveModule {
    module: Module,
    clauses: Vec<Clause>,
}

fn receive_pair(alloc: Global) -> Result<ReceiveModule, Stop> {
    let mut module = Module::new(alloc, AtomId::UNDEFINED, AtomTable::new(alloc)?);
    let first = module.add_pattern(PatternNode::Atom(AtomId::EXIT))?;
    let second = module.add_pattern(PatternNode::New)?;
    let Ok(parts) = vec![in alloc; first, second] else {
        return Err(Stop::Refused);
    };
    let pattern = module.add_pattern(PatternNode::Tuple(parts))?;
    let clause = Clause {
        pattern,
        guard: Guard {
            alternatives: Vec::new(alloc),
        },
        body: Operand::Slot(0),
    };
    let Ok(clauses) = vec![in alloc; clause] else {
        return Err(Stop::Refused);
    };
    Ok(ReceiveModule { module, clauses })
}

/// Places a message, and looks at the mailbox where that is refused.
fn deliver(mailbox: &mut Mailbox, pool: &mut Pool<Term>, message: Term) -> Result<(), Stop> {
    let before = (mailbox.len(), mailbox.mark(), mailbox.tests(), pool.len());
    match mailbox.deliver(pool, message) {
        Ok(()) => Ok(()),
        Err(NoMemory) => {
            if (mailbox.len(), mailbox.mark(), mailbox.tests(), pool.len()) == before {
                Err(Stop::Refused)
            } else {
                Err(Stop::Changed)
            }
        }
    }
}

/// Takes a pair, if there is one, and looks at the mailbox where that is refused.
fn take(
    alloc: Global,
    mailbox: &mut Mailbox,
    pool: &mut Pool<Term>,
    wanted: &ReceiveModule,
) -> Result<bool, Stop> {
    let before = (mailbox.len(), pool.len());
    mailbox.reset_mark();
    let mut bound = Vec::new(alloc);
    let mut message = Term::Int(0);
    let ReceiveModule { module, clauses } = wanted;
    let clauses = clauses.as_slice();
    match mailbox.select(alloc, pool, module, clauses, &mut bound, 0, 0, &mut message) {
        Ok(picked) => Ok(picked.is_some()),
        Err(NoMemory) => {
            if (mailbox.len(), pool.len()) == before {
                Err(Stop::Refused)
            } else {
                Err(Stop::Changed)
            }
        }
    }
}

/// An atom and `{exit, NUMBER}`, four times.
fn filled(alloc: Global, pool: &mut Pool<Term>) -> Result<Mailbox, Stop> {
    let mut mailbox = Mailbox::new(alloc);
    for number in 0..4i64 {
        deliver(&mut mailbox, pool, Term::Atom(AtomId::KILL))?;
        let wanted = pair(alloc, Term::Atom(AtomId::EXIT), Term::Int(number))?;
        deliver(&mut mailbox, pool, wanted)?;
    }
    Ok(mailbox)
}

/// The mailbox over nodes of another pool.
fn moved(alloc: Global, mailbox: Mailbox, pool: &mut Pool<Term>) -> Result<Mailbox, Stop> {
    let packed = mailbox.pack(pool, alloc)?;
    let mut other = Pool::new(alloc);
    Ok(Mailbox::unpack(&mut other, alloc, packed)?)
}

/// How many pairs were taken, and how many messages are left.
pub fn taken_and_left(alloc: Global) -> Result<(u32, usize), Stop> {
    let mut pool = Pool::new(alloc);
    let mailbox = filled(alloc, &mut pool)?;
    let mut mailbox = moved(alloc, mailbox, &mut pool)?;
    let wanted = receive_pair(alloc)?;
    let mut pairs = 0u32;
    for _ in 0..6u8 {
        if take(alloc, &mut mailbox, &mut pool, &wanted)? {
            pairs = pairs.wrapping_add(1);
        }
    }
    Ok((pairs, mailbox.len()))
}
