//! A process that waits beside a message, has its mailbox packed and unpacked, and is woken.

ghost use Rattle.std.specs.Prelude.{◌≡◌, IfOk};
ghost use Rattle.pf_stepper.specs.Turns.{CanMove};

use pf_check::read;
use pf_errors::NoMemory;
use pf_mailbox::Mailbox;
use pf_nodes::Pool;
use pf_stepper::{Machine, MachineRoom, Move};
use pf_syntax::FunctionId;
use pf_terms::Term;
use smallvec::SmallVec;
use std::alloc::Global;
use std::sync::Arc;
use std::test::Fail;

/// A process at the call of a function that waits for a number above 2.
fn begun(alloc: Global) -> Result<Machine, Fail>
    ensures { IfOk result (λ m. CanMove m.standing) }
{
    let module = read(
        alloc,
        b"-module(m). main() -> receive N when N > 2 -> N end.",
    )?;
    let module = Arc::new(alloc, module)?;
    let args = SmallVec::new(alloc);
    Ok(Machine::new(0, module, FunctionId(0), args, MachineRoom::new(alloc))?)
}

/// The same mailbox, packed and unpacked.
fn repacked(alloc: Global, mailbox: Mailbox, pool: &mut Pool<Term>) -> Result<Mailbox, NoMemory>
    ensures { IfOk result (λ m. m ≡ mailbox) }
{
    let packed = mailbox.pack(pool, alloc)?;
    Mailbox::unpack(pool, alloc, packed)
}

/// Whether a process that waits beside 1 takes the 3 that wakes it, how many messages are left, and how many were
/// tested.
fn woken(
    alloc: Global,
    machine: &mut Machine,
    pool: &mut Pool<Term>,
) -> Result<(bool, usize, u64), Fail>
    requires { CanMove machine.old.standing }
{
    let mut mailbox = Mailbox::new(alloc);
    mailbox.deliver(pool, Term::Int(1))?;
    let mut did = Move::Pure;
    machine.run(alloc, &mut mailbox, pool, 100, &mut did)?;
    match did {
        Move::Wait => {}
        _ => return Err(Fail::from("the process doesn't wait")),
    }
    let mut mailbox = repacked(alloc, mailbox, pool)?;
    mailbox.deliver(pool, Term::Int(3))?;
    machine.run(alloc, &mut mailbox, pool, 100, &mut did)?;
    let takes = matches!(did, Move::Take(Term::Int(3)));
    Ok((takes, mailbox.len(), mailbox.tests()))
}

#[test]
fn a_woken_process_tests_what_is_new(rt: HostRuntime) -> Result<(), Fail> {
    let alloc = rt.alloc();
    let mut machine = begun(alloc)?;
    let reported = woken(alloc, &mut machine, &mut Pool::new(alloc))?;
    assert_eq!(rt; reported, (true, 1, 2));
    Ok(())
}
