//! The reason with which a process ends that raised something.

ghost use Rattle.std.specs.Prelude.{◌≡◌, IfOk};
ghost use Rattle.pf_ops.specs.Reasons as reasons;
ghost use Rattle.pf_heap.specs.Heap.{word_value, IsWordOf, Keeps};

use pf_errors::{NoMemory, OrNoMemory};
use pf_heap::{Heap, Word};
use pf_terms::{AtomId, TooLarge};

/// `{E, []}`; where it would be too large, `system_limit` takes the place of E.
pub(crate) fn ending_reason(heap: &mut Heap, raised: Word) -> Result<Word, NoMemory>
    requires { IsWordOf heap.old raised }
    ensures made { IfOk result (λ w. word_value heap.new w
        ≡ reasons.ending_reason (word_value heap.old raised)) }
    ensures word { IfOk result (IsWordOf heap.new) }
    ensures keeps { Keeps heap.old heap.new }
{
    match heap.tuple(&[raised, Word::Nil]) {
        Ok(pair) => Ok(pair),
        Err(OrNoMemory::NoMemory) => Err(NoMemory),
        Err(OrNoMemory::Fault(TooLarge)) => {
            let limit = Word::Atom(u64::from(AtomId::SYSTEM_LIMIT.0));
            heap.tuple(&[limit, Word::Nil]).map_err(|_| NoMemory)
        }
    }
}
