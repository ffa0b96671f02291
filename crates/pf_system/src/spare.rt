//! What runs leave for the next.

ghost use Rattle.std.specs.Prelude.{◌≡◌, []};

use crate::slot::{Life, Slot};
use pf_nodes::Pool;
use pf_sorted::SortedSet;
use pf_stepper::MachineRoom;
use pf_terms::Term;
use std::alloc::Global;
use std::mem;
use std::mem::size_of;

/// The most rooms of machines that are kept.
const MOST_ROOMS: usize = 256;

/// How many slots a vector may have room for that is kept, of 64 KiB in all.
const MOST_SLOTS: usize = 64 * 1024 / size_of::<Slot>();

/// What runs leave for the next: spare nodes of mailboxes, rooms of machines, and vectors for slots and for pids. What
/// a run means depends on none of them.
#[derive(Drop)]
pub struct Spare {
    pub(crate) pool: Pool<Term>,
    rooms: Vec<MachineRoom>,
    slots: Vec<Slot>,
    ready: SortedSet,
}

impl Spare {
    /// Nothing yet. It takes no memory.
    pub fn new(alloc: Global) -> Spare {
        Spare {
            pool: Pool::new(alloc),
            rooms: Vec::new(alloc),
            slots: Vec::new(alloc),
            ready: SortedSet::new(alloc),
        }
    }

    /// The room of a machine that begins.
    #[inline(always)]
    pub(crate) fn room(&mut self, alloc: Global) -> MachineRoom {
        match self.rooms.pop() {
            Some(room) => room,
            None => MachineRoom::new(alloc),
        }
    }

    /// Keeps the room of a process that is gone, unless it is too large or there are enough.
    #[inline(always)]
    pub(crate) fn keep(&mut self, slot: Slot) {
        if self.rooms.len() >= MOST_ROOMS {
            return;
        }
        let Slot { life, mailbox: _ } = slot;
        if let Life::Lives { machine, waits: _ } = life {
            if let Some(room) = machine.into_room() {
                // Where memory is short the room is given back.
                let _kept = self.rooms.push(room);
            }
        }
    }

    /// No slot, in a vector that may have room for some.
    pub(crate) fn take_slots(&mut self, alloc: Global) -> Vec<Slot>
        ensures { result.items ≡ [] }
    {
        let mut slots = mem::replace(&mut self.slots, Vec::new(alloc));
        slots.clear();
        slots
    }

    /// No pid, in a set that may have room for some.
    pub(crate) fn take_ready(&mut self, alloc: Global) -> SortedSet
        ensures { result ≡ [] }
    {
        let ready = mem::replace(&mut self.ready, SortedSet::new(alloc));
        if ready.as_slice().is_empty() {
            ready
        } else {
            SortedSet::new(alloc)
        }
    }

    /// Keeps the rooms of all processes of a run that is over, and its vectors.
    pub(crate) fn keep_all(&mut self, slots: Vec<Slot>, ready: SortedSet) {
        let mut slots = slots;
        while let Some(slot) = slots.pop() {
            self.keep(slot);
        }
        if slots.capacity() <= MOST_SLOTS {
            self.slots = slots;
        }
        self.ready = ready;
    }
}
