//! Outcomes with their hashes, by which they are distinguished before they are compared.

ghost use Rattle.std.specs.Prelude.{◌≡◌};
ghost use Rattle.pf_terms.specs.Term.{elements_of, value_of, values_of};
ghost use Rattle.pf_model.specs.Reports.{view_of_outcome};
ghost use Rattle.pf_hunt.specs.Hashes as hashes;
ghost use Rattle.pf_hunt.specs.Hashes.{numbers_hash, outcome_hash, value_hash, values_hash};
ghost use Rattle.pf_hunt.specs.Rows as rows;

use pf_model::report::Outcome;
use pf_terms::{List, Term, equal};
use std::marker::Model;

/// An outcome with its hash.
#[derive(Drop)]
pub struct HashedOutcome {
    outcome: Outcome,
    hash: u64,
}

impl Model for HashedOutcome {
    ghost use Rattle.std.specs.Prelude.{◌≡◌};
    ghost use Rattle.pf_model.specs.Properties as properties;
    ghost use Rattle.pf_model.specs.Reports.{view_of_outcome};
    ghost use Rattle.pf_request.specs.ReportEncoding.{coded_outcome};
    ghost use Rattle.pf_hunt.specs.Hashes.{outcome_hash};

    ghost Value = { properties.Outcome };

    ghost coded = { coded_outcome };

    ghost view = { λ o. view_of_outcome o.outcome };

    ghost invariant = { λ o. o.hash ≡ outcome_hash (view_of_outcome o.outcome) };
}

/// A hash with one number more.
fn mixed(hash: u64, number: u64) -> u64
    ensures { result ≡ hashes.mixed hash number }
{
    hash.wrapping_mul(11_400_714_819_323_198_485)
        .wrapping_add(number)
}

/// A hash with one value more.
#[cycle(hashing)]
fn with_term(hash: u64, term: &Term) -> u64
    ensures { result ≡ value_hash hash (value_of term.now) }
{
    match term {
        Term::Int(number) => mixed(hash, number.cast_unsigned()),
        Term::Atom(atom) => mixed(hash, u64::from(atom.0)),
        Term::Ref(reference) => mixed(hash, *reference),
        Term::Pid(pid) => mixed(hash, u64::from(*pid)),
        Term::Tuple(elements) => with_elements(mixed(hash, 1), elements.as_slice()),
        Term::List(list) => with_list(mixed(hash, 2), list),
    }
}

/// A hash with the elements of a tuple.
#[cycle(hashing)]
fn with_elements(mut hash: u64, elements: &[Term]) -> u64
    ensures { result ≡ values_hash hash (values_of elements.now) }
{
    let mut rest = elements;
    while let Some((first, after)) = rest.split_first() {
        hash = with_term(hash, first);
        rest = after;
    }
    hash
}

/// A hash with the elements of a list.
#[cycle(hashing)]
fn with_list(mut hash: u64, list: &List) -> u64
    ensures { result ≡ values_hash hash (elements_of list.now) }
{
    let mut rest = list;
    while let Some((first, after)) = rest.split() {
        hash = with_term(hash, first);
        rest = after;
    }
    hash
}

/// A hash with more pids.
fn with_pids(mut hash: u64, pids: &[u32]) -> u64
    ensures { result ≡ numbers_hash hash pids.now }
{
    let mut rest = pids;
    while let Some((first, after)) = rest.split_first() {
        hash = mixed(hash, u64::from(*first));
        rest = after;
    }
    hash
}

/// The hash of an outcome.
pub(crate) fn hash_of(outcome: &Outcome) -> u64
    ensures { result ≡ outcome_hash (view_of_outcome outcome.now) }
{
    match outcome {
        Outcome::Finished(value) => with_term(1, value),
        Outcome::Ended(reason) => with_term(2, reason),
        Outcome::Deadlock(pids) => with_pids(3, pids.as_slice()),
        Outcome::Limit => 4,
        Outcome::Memory => 5,
    }
}

/// Whether two outcomes are one.
fn same_outcome(a: &Outcome, b: &Outcome) -> bool
    ensures { result ≡ rows.same_outcome (view_of_outcome a.now) (view_of_outcome b.now) }
{
    match (a, b) {
        (Outcome::Finished(v), Outcome::Finished(w)) => equal(v, w),
        (Outcome::Ended(v), Outcome::Ended(w)) => equal(v, w),
        (Outcome::Deadlock(ps), Outcome::Deadlock(qs)) => ps.as_slice() == qs.as_slice(),
        (Outcome::Limit, Outcome::Limit) => true,
        (Outcome::Memory, Outcome::Memory) => true,
        _ => false,
    }
}

impl HashedOutcome {
    pub(crate) fn new(outcome: Outcome) -> HashedOutcome
        ensures { result ≡ view_of_outcome outcome }
    {
        HashedOutcome {
            hash: hash_of(&outcome),
            outcome,
        }
    }

    /// The outcome.
    pub fn get(&self) -> &Outcome
        ensures { view_of_outcome result.now ≡ self.now }
    {
        &self.outcome
    }

    /// Its hash.
    pub(crate) fn hash(&self) -> u64
        ensures { result ≡ outcome_hash self.now }
    {
        self.hash
    }

    /// Whether it is this outcome.
    pub fn is(&self, other: &HashedOutcome) -> bool
        ensures { result ≡ rows.same_outcome self.now other.now }
    {
        self.hash == other.hash && same_outcome(&self.outcome, &other.outcome)
    }
}
