//! The messages that signals become.

ghost use Rattle.std.specs.Prelude.{◌≡◌, Err, IfOk, OnOk};
ghost use Rattle.pf_terms.specs.Value.{IsWithinLimits};
ghost use Rattle.pf_terms.specs.Term.{value_of};
ghost use Rattle.pf_terms.specs.Faults.{past_limits};
ghost use Rattle.pf_model.specs.Deliveries.{down_message, exit_message};
ghost use Rattle.pf_system.specs.Messages.{down_tuple, exit_tuple};

use pf_errors::{NoMemory, OrNoMemory};
use pf_terms::{AtomId, Term, TooLarge, copy, tuple_of};
use std::alloc::Global;

fn down_tuple(
    alloc: Global,
    reference: u64,
    from: u32,
    reason: Term,
) -> Result<Term, OrNoMemory<TooLarge>>
    ensures made { IfOk result (λ t. value_of t ≡ down_tuple reference from (value_of reason)) }
    ensures within { OnOk result (IsWithinLimits (down_tuple reference from (value_of reason))) }
    ensures too_large { result ≡ Err past_limits
        → ¬ IsWithinLimits (down_tuple reference from (value_of reason)) }
{
    let items = vec![in alloc;
        Term::Atom(AtomId::DOWN),
        Term::Ref(reference),
        Term::Atom(AtomId::PROCESS),
        Term::Pid(from),
        reason,
    ]?;
    tuple_of(alloc, items)
}

fn exit_tuple(alloc: Global, from: u32, reason: Term) -> Result<Term, OrNoMemory<TooLarge>>
    ensures made { IfOk result (λ t. value_of t ≡ exit_tuple from (value_of reason)) }
    ensures within { OnOk result (IsWithinLimits (exit_tuple from (value_of reason))) }
    ensures too_large { result ≡ Err past_limits
        → ¬ IsWithinLimits (exit_tuple from (value_of reason)) }
{
    let items = vec![in alloc; Term::Atom(AtomId::EXIT), Term::Pid(from), reason]?;
    tuple_of(alloc, items)
}

/// `{'DOWN', Reference, process, Pid, Reason}`. Where it would be too large, `system_limit` stands for the reason.
pub(crate) fn down_message(
    alloc: Global,
    reference: u64,
    from: u32,
    reason: &Term,
) -> Result<Term, NoMemory>
    ensures { IfOk result (λ t. value_of t ≡ down_message reference from (value_of reason.now)) }
{
    match down_tuple(alloc, reference, from, copy(reason)?) {
        Ok(term) => Ok(term),
        Err(OrNoMemory::NoMemory) => Err(NoMemory),
        Err(OrNoMemory::Fault(TooLarge)) => {
            let smaller = Term::Atom(AtomId::SYSTEM_LIMIT);
            down_tuple(alloc, reference, from, smaller).map_err(|_| NoMemory)
        }
    }
}

/// `{'EXIT', Pid, Reason}`. Where it would be too large, `system_limit` stands for the reason.
pub(crate) fn exit_message(alloc: Global, from: u32, reason: &Term) -> Result<Term, NoMemory>
    ensures { IfOk result (λ t. value_of t ≡ exit_message from (value_of reason.now)) }
{
    match exit_tuple(alloc, from, copy(reason)?) {
        Ok(term) => Ok(term),
        Err(OrNoMemory::NoMemory) => Err(NoMemory),
        Err(OrNoMemory::Fault(TooLarge)) => {
            let smaller = Term::Atom(AtomId::SYSTEM_LIMIT);
            exit_tuple(alloc, from, smaller).map_err(|_| NoMemory)
        }
    }
}
