//! Which message each `receive` took: the oldest in the mailbox of its process that is this value.

ghost use Rattle.std.specs.Prelude.{◌≡◌, ◌+◌, ℕ, IfOk, IfSome, List, OnOk, Some, map, slice_get};
ghost use Rattle.pf_terms.specs.Term.{value_of};
ghost use Rattle.pf_model.specs.Channels.{message};
ghost use Rattle.pf_model.specs.Labels.{delivers, took_effect};
ghost use Rattle.pf_model.specs.Meaning as meaning;
ghost use Rattle.pf_model.specs.Reports.{label_of, view_of_event};
ghost use Rattle.pf_chart.specs.Receipts.{AreMailboxes, IsOfValue, IsTakenBy, IsWaiting};
ghost use Rattle.pf_chart.specs.declared.columns.Column.{Column};
ghost use Rattle.pf_chart.specs.Origins.{IsColumnOf};
ghost use Rattle.pf_chart.specs.Signals.{AreReceipts, marked};

use crate::columns::{Column, column_of};
use pf_errors::NoMemory;
use pf_model::Signal;
use pf_model::report::{Actor, Event, Label, Suffix};
use pf_terms::{Term, equal};
use std::alloc::Global;

/// The messages in the mailboxes, and which were taken. A message goes by the event that delivered it, a mailbox by the
/// column of its process.
#[derive(Drop)]
struct Mailboxes {
    waiting: Vec<Vec<usize>>,
    /// Of each event that delivers a message, the event that takes it.
    taken: Vec<Option<usize>>,
}

/// The message that an event delivers into a mailbox.
fn message_in(event: &Event) -> Option<&Term>
    ensures { IfSome result (λ v. label_of event.now.label ≡ delivers (message (value_of v.now)) took_effect) }
{
    match &event.label {
        Label::Delivers(Signal::Message(message), Suffix::TookEffect) => Some(message),
        _ => None,
    }
}

/// The column of the process whose mailbox an event changes: of who acts, or of the receiver of a signal.
fn mailbox_of(columns: &[Column], actor: Actor) -> Option<usize>
    ensures { IfSome result (λ i. IsColumnOf columns.now (marked actor) i) }
{
    let (Actor::Process(pid) | Actor::Channel { to: pid, .. }) = actor;
    column_of(columns, pid)
}

/// Which of these deliveries is the first of this value.
fn first_of(events: &[Event], deliveries: &[usize], value: &Term) -> Option<usize>
    ensures { IfSome result (λ k. (d : ℕ) × (slice_get deliveries.now k ≡ Some d)
        × IsOfValue (map view_of_event events.now) (value_of value.now) d) }
{
    for (place, delivery) in deliveries.iter().enumerate() {
        let event = events.get(*delivery)?;
        if equal(message_in(event)?, value) {
            return Some(place);
        }
    }
    None
}

impl Mailboxes {
    fn new(alloc: Global, columns: usize, events: usize) -> Result<Mailboxes, NoMemory>
        ensures { IfOk result (λ m. (es : List meaning.Event) → (cs : List Column) → AreMailboxes es cs 0 m) }
    {
        let mut waiting = Vec::new(alloc);
        for _ in 0..columns {
            waiting.push(Vec::new(alloc))?;
        }
        let mut taken = Vec::new(alloc);
        for _ in 0..events {
            taken.push(None)?;
        }
        Ok(Mailboxes { waiting, taken })
    }

    /// A message comes into the mailbox of a column.
    fn put(&mut self, column: usize, delivery: usize) -> Result<(), NoMemory>
        ensures { OnOk result ((es : List meaning.Event) → (cs : List Column) → (n : ℕ)
            → IsWaiting es cs n column delivery → AreMailboxes es cs n self.old → AreMailboxes es cs n self.new) }
    {
        if let Some(mailbox) = self.waiting.get_mut(column) {
            mailbox.push(delivery)?;
        }
        Ok(())
    }

    /// A process takes a message of this value out of its mailbox; one that came of another signal isn't there.
    fn take(&mut self, events: &[Event], column: usize, value: &Term, row: usize)
        ensures { (cs : List Column) → IsTakenBy (map view_of_event events.now) cs column (value_of value.now) row
            → AreMailboxes (map view_of_event events.now) cs row self.old
            → AreMailboxes (map view_of_event events.now) cs row self.new }
    {
        let Some(mailbox) = self.waiting.get_mut(column) else {
            return;
        };
        let Some(place) = first_of(events, mailbox, value) else {
            return;
        };
        if place >= mailbox.len() {
            return;
        }
        let delivery = mailbox.remove(place);
        if let Some(taken) = self.taken.get_mut(delivery) {
            *taken = Some(row);
        }
    }

    fn event(&mut self, events: &[Event], columns: &[Column], row: usize) -> Result<(), NoMemory>
        ensures { OnOk result (AreMailboxes (map view_of_event events.now) columns.now row self.old
            → AreMailboxes (map view_of_event events.now) columns.now (row + 1) self.new) }
    {
        let Some(event) = events.get(row) else {
            return Ok(());
        };
        let Some(column) = mailbox_of(columns, event.actor) else {
            return Ok(());
        };
        match &event.label {
            Label::Takes(value) => {
                self.take(events, column, value, row);
                Ok(())
            }
            _ if message_in(event).is_some() => self.put(column, row),
            _ => Ok(()),
        }
    }
}

/// Of each event that delivers a message, the event that takes it.
pub(crate) fn receipts_of(
    alloc: Global,
    events: &[Event],
    columns: &[Column],
) -> Result<Vec<Option<usize>>, NoMemory>
    ensures { IfOk result (λ receipts. AreReceipts (map view_of_event events.now) receipts.items) }
{
    let mut mailboxes = Mailboxes::new(alloc, columns.len(), events.len())?;
    for row in 0..events.len() {
        mailboxes.event(events, columns, row)?;
    }
    Ok(mailboxes.taken)
}
