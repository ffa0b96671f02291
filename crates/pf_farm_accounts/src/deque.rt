//! The two ends of a deque.

ghost use Rattle.std.specs.Prelude.{◌≡◌, ◌⊎◌, ◌∷◌, ◌++◌, [], true, false, IfOk, IfSome, IfNone, IfErr, OnOk};
ghost use Rattle.pf_farm_accounts.specs.DequeParts.{IsDealt};
ghost use Rattle.pf_farm_accounts.specs.DequeViews.{FoundEmpty, IsThiefOf, TakesFirst, new_owner, new_thief, stolen_by};
ghost use Rattle.pf_farm_accounts.specs.DequeViews.{with_popped, with_pushed};

use crate::deque_part::{HolderPart, InOrder, PartedEnds, Popped, Pushed, Spent, Stolen};
use crossbeam_deque::{Pass, Steal, Stealer, Worker};
use pf_errors::NoMemory;
use std::alloc::Global;
use std::marker::Model;

/// The end of the worker whose deque it is. Contracts see which deque it is of and whether that has no thief, what was
/// pushed, what was popped, and whether it is known that nothing is left.
#[derive(Drop)]
pub struct Owner<T: Drop> {
    deque: Worker<Option<T>, Global, HolderPart<T>, InOrder>,
    sealed: bool,
    drained: bool,
}

impl<T: Drop> Model for Owner<T> {
    ghost use Rattle.std.specs.Prelude.{◌≡◌, true, []};
    ghost use Rattle.crossbeam_deque.specs.Handles.{worker_deque, worker_view, worker_flavor};
    ghost use Rattle.pf_farm_accounts.specs.DequeViews.{OwnerView};

    ghost Value = { OwnerView T };

    ghost view = { λ o. record {
      deque = worker_deque o.deque;
      is_alone = (worker_view o.deque).steals;
      pushed = (worker_view o.deque).pushed;
      popped = (worker_view o.deque).popped;
      drained = (worker_view o.deque).drained;
    } };

    ghost invariant = { λ o. ((worker_view o.deque).owns ≡ true)
        × ((worker_view o.deque).stolen ≡ [])
        × ((worker_view o.deque).sealed ≡ o.sealed)
        × ((worker_view o.deque).drained ≡ o.drained)
        × (worker_flavor o.deque ≡ 0) };
}

/// The end of the one worker who steals. Contracts see which deque it is of, and what was stolen.
#[derive(Drop)]
pub struct Thief<T: Drop> {
    stealer: Stealer<Option<T>, Global, HolderPart<T>, InOrder>,
    pass: Pass<Option<T>, HolderPart<T>>,
}

impl<T: Drop> Model for Thief<T> {
    ghost use Rattle.std.specs.Prelude.{◌≡◌};
    ghost use Rattle.crossbeam_deque.specs.Handles.{stealer_deque, stealer_flavor, IsPassOf};
    ghost use Rattle.pf_farm_accounts.specs.DequePasses.{IsThief, stolen_by};
    ghost use Rattle.pf_farm_accounts.specs.DequeViews.{ThiefView};

    ghost Value = { ThiefView T };

    ghost view = { λ t. record { deque = stealer_deque t.stealer; stolen = stolen_by t.pass } };

    ghost invariant = { λ t. IsPassOf (stealer_deque t.stealer) t.pass × IsThief t.pass
        × (stealer_flavor t.stealer ≡ 0) };
}

/// A deque with room for so many at first, as its two ends.
pub fn open_deque<T: Drop>(alloc: Global, capacity: usize) -> Result<(Owner<T>, Thief<T>), NoMemory>
    ensures { IfOk result (λ r. (r.0 ≡ new_owner r.0.deque false) × (r.1 ≡ new_thief r.0.deque)) }
{
    let mut deque: Worker<Option<T>, Global, HolderPart<T>, InOrder> = Worker::fifo_as(
        alloc, capacity,
    )?;
    let stealer = deque.stealer()?;
    let pass = deque.another::<PartedEnds>();
    let owner = Owner {
        deque,
        sealed: false,
        drained: true,
    };
    Ok((owner, Thief { stealer, pass }))
}

/// A deque with room for so many at first, of which nobody steals.
pub fn open_deque_alone<T: Drop>(alloc: Global, capacity: usize) -> Result<Owner<T>, NoMemory>
    ensures { IfOk result (λ r. r ≡ new_owner r.deque true) }
{
    let deque: Worker<Option<T>, Global, HolderPart<T>, InOrder> = Worker::fifo_as(
        alloc, capacity,
    )?;
    Ok(Owner {
        deque,
        sealed: false,
        drained: true,
    })
}

impl<T: Drop> Owner<T> {
    /// Pushes an item after all others. One that is refused, because there is no room or a mark was pushed, comes back.
    pub fn push(&mut self, item: T) -> Result<(), T>
        ensures ok { OnOk result (self.new ≡ with_pushed self.old item) }
        ensures err { IfErr result (λ x. (x ≡ item) × (self.new ≡ self.old)) }
    {
        if self.sealed {
            return Err(item);
        }
        match self.deque.push_as::<Pushed>(Some(item)) {
            Ok(()) => {
                self.drained = false;
                Ok(())
            }
            Err(Some(item)) => Err(item),
            Err(None) => unreachable!(),
        }
    }

    /// Pops the first item, if there is one. Where it meets a mark instead the deque is drained.
    pub fn pop(&mut self) -> Option<T>
        ensures some { IfSome result (λ x. (self.new ≡ with_popped self.old x) × TakesFirst self.old x) }
        ensures none { IfNone result (FoundEmpty self.old
            × ((self.new ≡ self.old) ⊎ (self.new ≡ record self.old { drained = true }))) }
    {
        match self.deque.pop_as::<Popped>() {
            Some(Some(item)) => Some(item),
            Some(None) => {
                self.drained = true;
                None
            }
            None => None,
        }
    }

    /// Pushes a mark after all items, if there is room. No item is pushed from then on, so when the owner pops a mark
    /// nothing is left. A thief may take a mark: then it takes another.
    pub fn mark(&mut self)
        ensures { self.new ≡ self.old }
    {
        if self.deque.push_as::<Pushed>(None).is_ok() {
            self.sealed = true;
        }
    }

    /// Whether it is known that nothing is left.
    pub fn is_drained(&self) -> bool
        ensures { result ≡ self.now.drained }
    {
        self.drained
    }

    /// Gives up a drained deque with its thief, if it has one: what was pushed was popped or stolen, each in order.
    pub fn close(self, thief: Option<Thief<T>>)
        requires drained { self.drained ≡ true }
        requires thief { IsThiefOf thief self }
        ensures { IsDealt self.pushed self.popped (stolen_by thief) }
    {
        let Owner {
            mut deque,
            sealed: _,
            drained: _,
        } = self;
        if let Some(thief) = thief {
            let Thief { stealer, pass } = thief;
            deque.absorb::<PartedEnds>(pass);
            drop(stealer);
        }
        deque.len_as::<Spent>();
    }
}

impl<T: Drop> Thief<T> {
    /// Steals the first item, if there is one and the owner doesn't take it at the same moment.
    pub fn steal(&mut self) -> Option<T>
        ensures some { IfSome result (λ x. self.new ≡ record self.old { stolen = self.old.stolen ++ x ∷ [] }) }
        ensures none { IfNone result (self.new ≡ self.old) }
    {
        match self.stealer.steal_as::<Stolen>(&mut self.pass) {
            Steal::Success(item) => item,
            _ => None,
        }
    }
}
