//! Which clients wait for their trials, so that nobody is woken in vain.

ghost use Rattle.std.specs.Prelude.{◌≡◌, ◌<◌, All, IfSome, Some, option_map, slice_get, slice_set};
ghost use Rattle.pf_farm.specs.Waits.{awaits, entered, left};

/// How many conditions clients wait on. Projects share them, by their numbers.
pub(crate) const SLOTS: usize = 16;

/// Those who wait in a slot: how many, and for which ticket if there is one who waits; 0, which is no ticket,
/// means any.
#[derive(Clone, Copy)]
pub(crate) struct WaitingSlot {
    count: u32,
    ticket: u64,
}

/// The clients that wait, by slot.
#[derive(Clone, Copy)]
pub(crate) struct WaitingClients {
    slots: [WaitingSlot; SLOTS],
}

/// The slot of a project.
pub(crate) fn slot_of(project: u32) -> usize
    ensures { result < SLOTS }
{
    project as usize % SLOTS
}

impl WaitingClients {
    /// None waits.
    pub(crate) fn new() -> WaitingClients
        ensures { All (λ slot. slot.count ≡ 0) result.slots }
    {
        WaitingClients {
            slots: [WaitingSlot {
                count: 0,
                ticket: 0,
            }; SLOTS],
        }
    }

    /// One more waits in a slot, for this ticket.
    pub(crate) fn enter(&mut self, slot: usize, ticket: u64)
        requires { slot < SLOTS }
        ensures { IfSome (slice_get self.old.slots slot) (λ was.
            self.new.slots ≡ slice_set self.old.slots slot (entered was ticket)) }
    {
        let WaitingSlot { count, .. } = self.slots[slot];
        let ticket = if count == 0 { ticket } else { 0 };
        self.slots[slot] = WaitingSlot {
            count: count.saturating_add(1),
            ticket,
        };
    }

    /// One of them waits no more.
    pub(crate) fn leave(&mut self, slot: usize)
        requires { slot < SLOTS }
        ensures { IfSome (slice_get self.old.slots slot) (λ was.
            self.new.slots ≡ slice_set self.old.slots slot (left was)) }
    {
        let WaitingSlot { count, .. } = self.slots[slot];
        self.slots[slot] = WaitingSlot {
            count: count.saturating_sub(1),
            ticket: 0,
        };
    }

    /// Whether somebody in a slot may wait for this ticket.
    pub(crate) fn is_awaited(&self, slot: usize, ticket: u64) -> bool
        requires { slot < SLOTS }
        ensures { option_map (λ s. awaits s ticket) (slice_get self.now.slots slot) ≡ Some result }
    {
        let WaitingSlot {
            count,
            ticket: awaited,
        } = self.slots[slot];
        count > 0 && (awaited == 0 || awaited == ticket)
    }
}
