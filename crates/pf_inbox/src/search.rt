//! The search for a message that a `receive` takes, from the mark on.

ghost use Rattle.std.specs.Prelude.{◌≡◌, ◌-◌, ◌≤◌, IfOk, OnErr, if◌then◌else◌};
ghost use Rattle.pf_heap.specs.Heap.{Keeps};
ghost use Rattle.pf_loop.specs.View.{AreWords};
ghost use Rattle.pf_inbox.specs.Received.{AtEachReceive};
ghost use Rattle.pf_inbox.specs.Searches.{IsMarkAfter, SearchedInbox, test_count};

use crate::testing::test_marked;
use pf_errors::NoMemory;
use pf_heap::Heap;
use pf_loop::Setting;
use pf_nodes::MailList;
use pf_terms::Term;
use pf_turns::{Process, Status};

/// Moves the mark to the first message that some clause picks, and answers whether there is one; then the process is in
/// the body of that clause. Each test that is made counts, and so a message that is tested twice counts twice.
pub(crate) fn search(
    list: &mut MailList<Term>,
    made: &mut usize,
    process: &mut Process,
    heap: &mut Heap,
    setting: &Setting,
) -> Result<bool, NoMemory>
    requires words { AreWords heap.old process.old.machine.stack.words.items }
    requires constants { AreWords heap.old setting.now.constants.now }
    requires none_made { made.old ≡ 0 }
    ensures words { AreWords heap.new process.new.machine.stack.words.items }
    ensures keeps { Keeps heap.old heap.new }
    ensures status { IfOk result (λ taken. process.new.status
        ≡ (if taken then Status.Goes else process.old.status)) }
    ensures items { list.new.items ≡ list.old.items }
    ensures on { list.old.mark ≤ list.new.mark }
    ensures there { IfOk result (λ taken. IsMarkAfter taken list.new) }
    ensures counted { made.new ≡ test_count result (list.new.mark - list.old.mark) }
    ensures sought { IfOk result (λ taken. AtEachReceive heap.old setting.now process.old (λ m code d fs ks.
        SearchedInbox m setting.now.own code d fs ks list.old list.new heap.new process.new.machine taken)) }
    ensures err { OnErr result (process.new.status ≡ process.old.status) }
{
    // There are no more messages than a count has room for.
    let _all = list.len();
    'messages: while let Some(_message) = list.marked() {
        let taken = test_marked(list, made, process, heap, setting)?;
        if taken {
            return Ok(true);
        }
    }
    Ok(false)
}
