//! Signals as arrows.

ghost use Rattle.std.specs.Prelude.{◌≡◌, IsTrue};
ghost use Rattle.pf_model.specs.Signals.{signal_of};
ghost use Rattle.pf_chart.specs.Sheets.{event_of_reach, event_of_start};
ghost use Rattle.pf_chart.specs.Traffic.{kind_of, signal_kind_number};
ghost use Rattle.pf_chart.specs.Words.{is_phrase};

use pf_model::Signal;

/// What kind of signal it is.
#[derive(Clone, Copy)]
pub(crate) enum SignalKind {
    Message,
    Link,
    Unlink,
    Monitor,
    Demonitor,
    Down,
    Exit,
}

impl SignalKind {
    pub(crate) fn of(signal: &Signal) -> SignalKind
        ensures { result ≡ kind_of (signal_of signal.now) }
    {
        match signal {
            Signal::Message(_) => SignalKind::Message,
            Signal::Link => SignalKind::Link,
            Signal::Unlink => SignalKind::Unlink,
            Signal::Monitor(_) => SignalKind::Monitor,
            Signal::Demonitor(_) => SignalKind::Demonitor,
            Signal::Down(..) => SignalKind::Down,
            Signal::Exit { .. } => SignalKind::Exit,
        }
    }

    /// Which kind it is, as a number.
    pub(crate) fn number(self) -> u8
        ensures { result ≡ signal_kind_number self }
    {
        match self {
            SignalKind::Message => 0,
            SignalKind::Link => 1,
            SignalKind::Unlink => 2,
            SignalKind::Monitor => 3,
            SignalKind::Demonitor => 4,
            SignalKind::Down => 5,
            SignalKind::Exit => 6,
        }
    }

    pub(crate) fn word(self) -> &'static str
        ensures { IsTrue (is_phrase result.now) }
    {
        match self {
            SignalKind::Message => "message",
            SignalKind::Link => "link",
            SignalKind::Unlink => "unlink",
            SignalKind::Monitor => "monitor",
            SignalKind::Demonitor => "demonitor",
            SignalKind::Down => "down",
            SignalKind::Exit => "exit",
        }
    }
}

/// Where an arrow begins: in the row of the event that sent the signal, or, if no event shows it, just above its
/// delivery.
#[derive(Clone, Copy)]
pub(crate) enum ArrowStart {
    In(usize),
    Above(usize),
}

/// Where an arrow ends: nowhere, or at the delivery, at which the signal may have been dropped. In a compact chart a
/// message that comes into a mailbox ends at the event that takes it, or nowhere if none does.
#[derive(Clone, Copy)]
pub(crate) enum ArrowEnd {
    Nowhere,
    Taken(usize),
    Dropped(usize),
    Received(usize),
    Unread,
}

/// A signal, from one column to another.
#[derive(Clone, Copy)]
pub(crate) struct Arrow {
    pub(crate) kind: SignalKind,
    pub(crate) from: usize,
    pub(crate) to: usize,
    pub(crate) start: ArrowStart,
    pub(crate) reach: ArrowEnd,
    /// Whether a delivery that has no row of its own was a choice above 0.
    pub(crate) chosen: bool,
}

impl Arrow {
    /// The event in which it begins.
    pub(crate) fn beginning(&self) -> usize
        ensures { result ≡ event_of_start self.now.start }
    {
        let (ArrowStart::In(event) | ArrowStart::Above(event)) = self.start;
        event
    }

    /// The event in which it ends, if it does.
    pub(crate) fn end(&self) -> Option<usize>
        ensures { result ≡ event_of_reach self.now.reach }
    {
        match self.reach {
            ArrowEnd::Taken(event) | ArrowEnd::Dropped(event) | ArrowEnd::Received(event) => Some(
                event,
            ),
            ArrowEnd::Nowhere | ArrowEnd::Unread => None,
        }
    }
}
