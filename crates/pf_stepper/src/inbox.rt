//! Where a process finds its messages.

ghost use Rattle.std.specs.Prelude.{◌≡◌, ◌≤◌, List, length, map, IfOk, IfSome, MatchOption, OnErr};
ghost use Rattle.pf_terms.specs.Value.{Value};
ghost use Rattle.pf_terms.specs.Term.{value_of};
ghost use Rattle.pf_syntax.specs.Over.{clauses_over};
ghost use Rattle.pf_stepper.specs.Readiness.{IsReadyForAll, Receive, receive_in};
ghost use Rattle.pf_stepper.specs.Selected.{TakesMessage, TakesNothing};

use crate::clauses::choose;
use pf_errors::NoMemory;
use pf_nodes::Pool;
use pf_syntax::{Clause, Module, Operand};
use pf_terms::Term;
use std::alloc::Global;

/// The mailbox of a process, as a `receive` uses it (Erlang Reference Manual, "Receive").
pub trait Inbox {
    ghost messages: { Self → List Value };

    /// The messages that this inbox passes over fit no clause of this `receive`.
    ghost IsReady: { Self → Receive → Type 0 };

    /// Takes the oldest message that some clause fits with its guard, by the first such clause, in the process of this
    /// pid: the body of that clause, whose bindings are pushed onto the activation that begins at `base`. The message
    /// is written to `taken`, and its node, where it has one, goes to the pool. The others stay in order. The inbox is
    /// ready for this `receive`, and stays so; where a message is taken it is ready for whatever comes.
    fn select(
        &mut self,
        alloc: Global,
        pool: &mut Pool<Term>,
        code: &Module,
        clauses: &[Clause],
        env: &mut Vec<Term>,
        base: usize,
        own: u32,
        taken: &mut Term,
    ) -> Result<Option<Operand>, NoMemory>
        requires slots { base ≤ length env.old.items }
        requires ready { IsReady self.old (receive_in code.now own base env.old.items clauses.now) }
        ensures selected { IfOk result (λ o. MatchOption o
            (TakesNothing code.now own base env.old.items env.new.items
            (clauses_over code.now.tables clauses.now) (messages self.old) (messages self.new))
            (λ body. TakesMessage code.now own base env.old.items env.new.items
            (clauses_over code.now.tables clauses.now) (messages self.old) (messages self.new) body taken.new)) }
        ensures still { IsReady self.new (receive_in code.now own base env.old.items clauses.now) }
        ensures again { IfOk result (λ o. IfSome o (λ _. IsReadyForAll (IsReady self.new))) }
        ensures refused { OnErr result (messages self.new ≡ messages self.old) };
}

/// Messages in a vector, the oldest first. A `receive` tests them from the front each time.
#[derive(Drop)]
pub struct PlainInbox {
    pub messages: Vec<Term>,
}

impl Inbox for PlainInbox {
    ghost messages = { λ m. map value_of m.messages.items };

    ghost IsReady = { λ _ _. Unit {0} };

    fn select(
        &mut self,
        alloc: Global,
        _pool: &mut Pool<Term>,
        code: &Module,
        clauses: &[Clause],
        env: &mut Vec<Term>,
        base: usize,
        own: u32,
        taken: &mut Term,
    ) -> Result<Option<Operand>, NoMemory> {
        for at in 0..self.messages.len() {
            if let Some(body) = choose(alloc, code, clauses, &self.messages[at], env, base, own)? {
                *taken = self.messages.remove(at);
                return Ok(Some(body));
            }
        }
        Ok(None)
    }
}
