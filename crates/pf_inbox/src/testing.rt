//! The test of one message, which is where tests are counted.

ghost use Rattle.std.specs.Prelude.{◌≡◌, ◌+◌, ◌-◌, ◌^◌, ◌<◌, length, IfOk, OnErr, OnOk, if◌then◌else◌};
ghost use Rattle.pf_heap.specs.Heap.{Keeps};
ghost use Rattle.pf_loop.specs.View.{AreWords};
ghost use Rattle.pf_inbox.specs.Received.{AtEachReceive};
ghost use Rattle.pf_inbox.specs.Searches.{TestsMarked, mark_after};

use pf_errors::NoMemory;
use pf_heap::Heap;
use pf_loop::Setting;
use pf_nodes::MailList;
use pf_terms::Term;
use pf_turns::{Process, Status};

/// Tests the message at the mark against the clauses of the `receive` at which the process is, and counts the test.
/// Where a clause picks the message the mark stays; else the mark passes the message, which so is tested once. A test
/// that runs out of memory isn't counted. Nothing else in this crate tests a message.
pub(crate) fn test_marked(
    list: &mut MailList<Term>,
    made: &mut usize,
    process: &mut Process,
    heap: &mut Heap,
    setting: &Setting,
) -> Result<bool, NoMemory>
    requires words { AreWords heap.old process.old.machine.stack.words.items }
    requires constants { AreWords heap.old setting.now.constants.now }
    requires room { made.old < 2 ^ 64 - 1 }
    requires there { list.old.mark < length list.old.items }
    ensures words { AreWords heap.new process.new.machine.stack.words.items }
    ensures keeps { Keeps heap.old heap.new }
    ensures status { IfOk result (λ taken. process.new.status
        ≡ (if taken then Status.Goes else process.old.status)) }
    ensures counted { OnOk result (made.new ≡ made.old + 1) }
    ensures items { list.new.items ≡ list.old.items }
    ensures mark { IfOk result (λ taken. list.new.mark ≡ mark_after taken list.old.mark) }
    ensures tested { IfOk result (λ taken. AtEachReceive heap.old setting.now process.old (λ m code d fs ks.
        TestsMarked m setting.now.own code d fs ks list.old heap.new process.new.machine taken)) }
    ensures stopped { OnErr result ((made.new ≡ made.old) × (list.new ≡ list.old)) }
    ensures err { OnErr result (process.new.status ≡ process.old.status) }
{
    let Some(message) = list.marked() else {
        unreachable!();
    };
    let word = heap.lower(setting.alloc, message)?;
    let taken = process.test(heap, setting, word)?;
    *made += 1;
    if taken {
        return Ok(true);
    }
    list.pass();
    Ok(false)
}
