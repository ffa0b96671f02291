//! Strings, as lists of their character codes.

ghost use Rattle.std.specs.Prelude.{◌≡◌, IfOk, MatchOption, pos};
ghost use Rattle.pf_terms.specs.Value.{int, IsWithinLimits};
ghost use Rattle.pf_terms.specs.Term.{value_of, values_of};
ghost use Rattle.pf_syntax.specs.Naming as spec;
ghost use Rattle.pf_syntax.specs.Naming.{characters};

use pf_errors::{NoMemory, OrNoMemory};
use pf_terms::{Term, TooLarge, list_of};
use std::alloc::Global;

/// A code, as an integer.
fn integer(code: u8) -> Term
    ensures { value_of result ≡ int (pos code) }
{
    Term::Int(i64::from(code))
}

fn integers(alloc: Global, codes: &[u8]) -> Result<Vec<Term>, NoMemory>
    ensures { IfOk result (λ terms. values_of terms.items ≡ characters codes.now) }
{
    let mut terms = Vec::new(alloc);
    for code in codes {
        terms.push(integer(*code))?;
    }
    Ok(terms)
}

/// The list of these codes; none where it is too large for a value.
pub(crate) fn string(alloc: Global, codes: &[u8]) -> Result<Option<Term>, NoMemory>
    ensures { IfOk result (λ made. MatchOption made (¬ IsWithinLimits (spec.string codes.now))
        (λ t. value_of t ≡ spec.string codes.now)) }
{
    match list_of(alloc, integers(alloc, codes)?) {
        Ok(list) => Ok(Some(Term::List(list))),
        Err(OrNoMemory::Fault(TooLarge)) => Ok(None),
        Err(OrNoMemory::NoMemory) => Err(NoMemory),
    }
}
