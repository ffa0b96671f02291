//! The part that the holder of a deque's end has in it, and the steps that change it.

use crossbeam_deque::protocol::{Join, Lesson, Outcome, Protocol, Split};
use std::collections::LinkedList;

/// What a holder may do, whether it pushed a mark, whether it knows that nothing is left, and what it pushed, popped
/// and stole. No value of it is made.
pub struct HolderPart<T> {
    pub owns: bool,
    pub steals: bool,
    pub sealed: bool,
    pub drained: bool,
    pub pushed: LinkedList<T>,
    pub popped: LinkedList<T>,
    pub stolen: LinkedList<T>,
}

/// The rule of a deque: what was pushed is what was popped or stolen, in order, and then what is held.
pub struct InOrder;

impl<T> Protocol<Option<T>, HolderPart<T>> for InOrder {
    ghost use Rattle.pf_farm_accounts.specs.DequeParts.{first_part, no_part, IsInOrder};

    ghost holds = { IsInOrder };

    ghost first = { first_part };

    ghost guest = { no_part };
}

/// The owner pushed an item, or a mark.
pub struct Pushed;

impl<T> Outcome<Option<T>, HolderPart<T>> for Pushed {
    ghost use Rattle.pf_farm_accounts.specs.DequeParts.{HasPushed};

    ghost then = { HasPushed };
}

/// The owner popped an item, or a mark, or found nothing.
pub struct Popped;

impl<T> Outcome<Option<T>, HolderPart<T>> for Popped {
    ghost use Rattle.pf_farm_accounts.specs.DequeParts.{FindsNothing, HasPopped};

    ghost then = { HasPopped };

    ghost empty = { FindsNothing };
}

/// The thief stole an item, or a mark.
pub struct Stolen;

impl<T> Outcome<Option<T>, HolderPart<T>> for Stolen {
    ghost use Rattle.pf_farm_accounts.specs.DequeParts.{HasStolen};

    ghost then = { HasStolen };
}

/// What whoever has both ends knows of a drained deque.
pub struct Spent;

impl<T> Lesson<Option<T>, HolderPart<T>> for Spent {
    ghost use Rattle.pf_farm_accounts.specs.DequeParts.{IsSpent};

    ghost fact = { IsSpent };
}

/// The two ends part, or come together again.
pub struct PartedEnds;

impl<T> Split<HolderPart<T>> for PartedEnds {
    ghost use Rattle.pf_farm_accounts.specs.DequeParts.{owner_part, thief_part};

    ghost left = { owner_part };

    ghost right = { λ v. thief_part v.stolen };
}

impl<T> Join<HolderPart<T>> for PartedEnds {
    ghost use Rattle.pf_farm_accounts.specs.DequeParts.{no_part, both_parts};

    ghost both = { both_parts };

    ghost spent = { no_part };
}
