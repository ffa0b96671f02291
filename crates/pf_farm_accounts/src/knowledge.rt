//! What the holders of a register know of it, and the steps by which they learn it.

use crossbeam_deque::protocol::{Join, Lesson, Protocol, Split};
use std::collections::LinkedList;
use std::marker::{Brand, PhantomData};

/// What one holder knows: the register all entries and the places that came back, a token the places that it bears and
/// the entries that it saw. No value of it is made.
pub struct Knowledge<T> {
    pub is_register: bool,
    pub entries: LinkedList<T>,
    pub returned: LinkedList<u64>,
    pub borne: LinkedList<u64>,
    pub seen: LinkedList<T>,
}

/// The rule of a register: each place is borne by one token, or came back, once.
pub struct EachBorneOnce;

impl<T> Protocol<(), Knowledge<T>> for EachBorneOnce {
    ghost use Rattle.pf_farm_accounts.specs.Knowing.{first_knowledge, no_knowledge, IsBorneOnce};

    ghost holds = { IsBorneOnce };

    ghost first = { first_knowledge };

    ghost guest = { no_knowledge };
}

/// What is entered.
pub trait IsEntered<T> {
    ghost use Rattle.std.specs.Prelude.{Option};

    ghost entry: { Option T };
}

impl<T> IsEntered<T> for Brand {
    ghost use Rattle.std.specs.Prelude.{None};

    ghost entry = { None };
}

/// An entry is entered: the register has it, and bears its place.
pub struct Entering<E> {
    entered: PhantomData<E>,
}

impl<T, E: IsEntered<T>> Split<Knowledge<T>> for Entering<E> {
    ghost use Rattle.pf_farm_accounts.specs.Knowing.{with_entry, no_knowledge};

    ghost left = { λ v. with_entry v E.entry };

    ghost right = { λ v. no_knowledge };
}

/// A token that knows nothing is split off.
pub struct Blank;

impl<T> Split<Knowledge<T>> for Blank {
    ghost use Rattle.pf_farm_accounts.specs.Knowing.{no_knowledge};

    ghost left = { λ v. v };

    ghost right = { λ v. no_knowledge };
}

/// A token is lent to the register, which bears its places meanwhile.
pub struct Lent;

impl<T> Join<Knowledge<T>> for Lent {
    ghost use Rattle.pf_farm_accounts.specs.Knowing.{lent, no_knowledge};

    ghost both = { lent };

    ghost spent = { no_knowledge };
}

/// A token is handed out again: it bears what the register bore meanwhile, and has seen all entries.
pub struct AllSeen;

impl<T> Split<Knowledge<T>> for AllSeen {
    ghost use Rattle.pf_farm_accounts.specs.Knowing.{without_places, with_all_seen};

    ghost left = { without_places };

    ghost right = { with_all_seen };
}

/// A token comes back for good.
pub struct Returned;

impl<T> Join<Knowledge<T>> for Returned {
    ghost use Rattle.pf_farm_accounts.specs.Knowing.{returned, no_knowledge};

    ghost both = { returned };

    ghost spent = { no_knowledge };
}

/// The places that the register bears are places of entries, each at most once.
pub struct OwnBorne;

impl<T> Lesson<(), Knowledge<T>> for OwnBorne {
    ghost use Rattle.std.specs.Prelude.{length};
    ghost use Rattle.pf_farm_accounts.specs.Places.{AreBelow};

    ghost fact = { λ v items. AreBelow v.borne (length v.entries) };
}

/// The places that came back are places of entries, each at most once.
pub struct AllReturned;

impl<T> Lesson<(), Knowledge<T>> for AllReturned {
    ghost use Rattle.std.specs.Prelude.{length};
    ghost use Rattle.pf_farm_accounts.specs.Places.{AreBelow};

    ghost fact = { λ v items. AreBelow v.returned (length v.entries) };
}

/// What was seen is how the entries begin.
pub struct SeenSoFar;

impl<T> Lesson<(), Knowledge<T>> for SeenSoFar {
    ghost use Rattle.pf_farm_accounts.specs.Places.{StartsWith};

    ghost fact = { λ v items. StartsWith v.entries v.seen };
}
