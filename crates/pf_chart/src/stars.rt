//! Which events have a star. The order in which those who may go are listed says nothing of a race; that another went
//! where the process that ran before could have gone on does.

ghost use Rattle.std.specs.Prelude.{◌≡◌};
ghost use Rattle.pf_model.specs.Reports.{label_of, suffix_of, view_of_event};
ghost use Rattle.pf_model.specs.Signals.{signal_of};
ghost use Rattle.pf_chart.specs.Stars.{
  after_delivery,
  after_event,
  after_signal,
  after_turn,
  is_mail,
  is_passed_over,
  is_process,
  is_starred,
  woken,
};

use pf_model::Signal;
use pf_model::report::{Actor, Event, Label, Suffix};

/// The process that ran last, by its pid, and whether it may go on.
#[derive(Clone, Copy)]
pub(crate) enum Runner {
    /// None ran, or it has ended.
    Nobody,
    Waiting(u32),
    Ready(u32),
}

/// Who ran last after a turn of this process.
fn after_turn(pid: u32, label: &Label) -> Runner
    ensures { result ≡ after_turn pid (label_of label.now) }
{
    match label {
        Label::Waits => Runner::Waiting(pid),
        Label::Ends(_) => Runner::Nobody,
        _ => Runner::Ready(pid),
    }
}

/// Whether a delivery puts a message into a mailbox.
fn is_mail(signal: &Signal, suffix: &Suffix) -> bool
    ensures { result ≡ is_mail (signal_of signal.now) (suffix_of suffix.now) }
{
    match suffix {
        Suffix::TookEffect => matches!(signal, Signal::Message(_) | Signal::Down(..)),
        Suffix::AsMessage => true,
        _ => false,
    }
}

impl Runner {
    fn is_process(self, pid: u32) -> bool
        ensures { result ≡ is_process self pid }
    {
        match self {
            Runner::Nobody => false,
            Runner::Waiting(own) | Runner::Ready(own) => own == pid,
        }
    }

    fn woken(self) -> Runner
        ensures { result ≡ woken self }
    {
        match self {
            Runner::Waiting(pid) => Runner::Ready(pid),
            other => other,
        }
    }

    /// Once a signal came to it.
    fn after_signal(self, signal: &Signal, suffix: &Suffix) -> Runner
        ensures { result ≡ after_signal self (signal_of signal.now) (suffix_of suffix.now) }
    {
        match suffix {
            Suffix::EndingWith(_) => Runner::Nobody,
            _ if is_mail(signal, suffix) => self.woken(),
            _ => self,
        }
    }

    fn after_delivery(self, to: u32, label: &Label) -> Runner
        ensures { result ≡ after_delivery self to (label_of label.now) }
    {
        match label {
            Label::Delivers(signal, suffix) if self.is_process(to) => self.after_signal(
                signal, suffix,
            ),
            _ => self,
        }
    }

    /// Who ran last after an event more.
    pub(crate) fn after(self, event: &Event) -> Runner
        ensures { result ≡ after_event self event.now.actor (label_of event.now.label) }
    {
        match event.actor {
            Actor::Process(pid) => after_turn(pid, &event.label),
            Actor::Channel { to, .. } => self.after_delivery(to, &event.label),
        }
    }

    /// Whether it may go on, and another goes.
    fn is_passed_over(self, actor: Actor) -> bool
        ensures { result ≡ is_passed_over self actor }
    {
        match (self, actor) {
            (Runner::Ready(pid), Actor::Process(other)) => other != pid,
            (Runner::Ready(_), Actor::Channel { .. }) => true,
            _ => false,
        }
    }

    /// Whether an event that is next has a star.
    pub(crate) fn has_star(self, event: &Event) -> bool
        ensures { result ≡ is_starred self (view_of_event event.now) }
    {
        event.choice > 0 && self.is_passed_over(event.actor)
    }
}
