//! A flush: the oldest message about a reference is taken out of a list.

ghost use Rattle.std.specs.Prelude.{◌≡◌, map};
ghost use Rattle.std.specs.List.{list_any};
ghost use Rattle.pf_terms.specs.Term.{value_of};
ghost use Rattle.pf_model.specs.Flush.{flushed, reports_of};

use pf_nodes::{MailList, Pool};
use pf_terms::Term;

/// Whether a message is about a reference: a tuple of five elements, the second of which it is.
fn reports_of(message: &Term, reference: u64) -> bool
    ensures { result ≡ reports_of reference (value_of message.now) }
{
    let Term::Tuple(elements) = message else {
        return false;
    };
    let items = elements.as_slice();
    if items.len() != 5 {
        return false;
    }
    match &items[1] {
        Term::Ref(other) => reference == *other,
        _ => false,
    }
}

/// Takes out the first message about a reference, where the mark is at the front, and leaves it there; whether there
/// was one.
pub(crate) fn take_reported(
    list: &mut MailList<Term>,
    pool: &mut Pool<Term>,
    reference: u64,
) -> bool
    requires { list.old.mark ≡ 0 }
    ensures flushed { map value_of list.new.items ≡ flushed reference (map value_of list.old.items) }
    ensures mark { list.new.mark ≡ 0 }
    ensures reported { result ≡ list_any (reports_of reference) (map value_of list.old.items) }
{
    while let Some(message) = list.marked() {
        if reports_of(message, reference) {
            let _message = list.take_marked(pool);
            list.reset_mark();
            return true;
        }
        list.pass();
    }
    list.reset_mark();
    false
}
