//! The test of one message, which is where tests are counted.

ghost use Rattle.std.specs.Prelude.{◌≡◌, ◌+◌, ◌-◌, ◌^◌, ◌<◌, ◌≤◌, None, length, IfOk, OnErr, OnOk};
ghost use Rattle.pf_mailbox.specs.Searches.{TestsMarked, mark_after};

use pf_errors::NoMemory;
use pf_nodes::MailList;
use pf_stepper::choose;
use pf_syntax::{Clause, Module, Operand};
use pf_terms::Term;
use std::alloc::Global;

/// Tests the message at the mark against the clauses, and counts the test. Where a clause picks the message the mark
/// stays, and the bindings come onto the activation that begins at `base`; else the mark passes the message, which so
/// is tested once. A test that runs out of memory isn't counted. Nothing else in this crate calls `choose`.
#[inline(always)]
pub(crate) fn test_marked(
    list: &mut MailList<Term>,
    made: &mut usize,
    alloc: Global,
    code: &Module,
    clauses: &[Clause],
    env: &mut Vec<Term>,
    base: usize,
    own: u32,
) -> Result<Option<Operand>, NoMemory>
    requires slots { base ≤ length env.old.items }
    requires room { made.old < 2 ^ 64 - 1 }
    requires there { list.old.mark < length list.old.items }
    ensures counted { OnOk result (made.new ≡ made.old + 1) }
    ensures items { list.new.items ≡ list.old.items }
    ensures mark { IfOk result (λ o. list.new.mark ≡ mark_after o list.old.mark) }
    ensures tested { IfOk result
        (TestsMarked code.now own base env.old.items clauses.now env.new.items list.old) }
    ensures stays { IfOk result (λ o. o ≡ None → env.new.items ≡ env.old.items) }
    ensures stopped { OnErr result ((made.new ≡ made.old) × (list.new ≡ list.old)) }
{
    let Some(message) = list.marked() else {
        unreachable!();
    };
    let picked = choose(alloc, code, clauses, message, env, base, own)?;
    *made += 1;
    if picked.is_none() {
        list.pass();
    }
    Ok(picked)
}
