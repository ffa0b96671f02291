//! The search for a message that a `receive` takes, from the mark on.

ghost use Rattle.std.specs.Prelude.{◌≡◌, ◌-◌, ◌≤◌, length, IfOk};
ghost use Rattle.pf_mailbox.specs.Searches.{PassesOver, SearchedMail, test_count};
ghost use Rattle.pf_mailbox.specs.Tests.{awaited_clauses};

use crate::testing::test_marked;
use pf_errors::NoMemory;
use pf_nodes::MailList;
use pf_syntax::{Clause, Module, Operand};
use pf_terms::Term;
use std::alloc::Global;

/// Moves the mark to the first message that some clause picks, and answers the body of that clause, whose bindings come
/// onto the activation that begins at `base`. Each test that is made counts, and so a message that is tested twice
/// counts twice.
pub(crate) fn search(
    list: &mut MailList<Term>,
    made: &mut usize,
    alloc: Global,
    code: &Module,
    clauses: &[Clause],
    env: &mut Vec<Term>,
    base: usize,
    own: u32,
) -> Result<Option<Operand>, NoMemory>
    requires slots { base ≤ length env.old.items }
    requires none_made { made.old ≡ 0 }
    ensures items { list.new.items ≡ list.old.items }
    ensures passed { PassesOver code.now own
        (awaited_clauses code.now base env.old.items clauses.now) list.old list.new.mark }
    ensures sought { IfOk result
        (SearchedMail code.now own base env.old.items clauses.now env.new.items list.new) }
    ensures counted { made.new ≡ test_count result (list.new.mark - list.old.mark) }
{
    // There are no more messages than a count has room for.
    let _all = list.len();
    while list.marked().is_some() {
        if let Some(body) = test_marked(list, made, alloc, code, clauses, env, base, own)? {
            return Ok(Some(body));
        }
    }
    Ok(None)
}
