//! The signals of a run: who sent each, and where it was delivered.
//!
//! A signal is sent by the event that shows it. One that no event shows is sent by the end of a process (exits to who
//! is linked, downs to who watches) or by a delivery to a process that has ended (the answer to a link or a monitor).
//! Each delivery takes the oldest signal of its kind that is on its way between its two processes.

ghost use Rattle.std.specs.Prelude.{◌≡◌, ◌++◌, ◌∷◌, [], IfOk, OnOk, length};
ghost use Rattle.pf_model.specs.Reports.{suffix_of};
ghost use Rattle.pf_model.specs.Signals.{signal_of};
ghost use Rattle.pf_chart.specs.Traffic.{
  AreWaiting,
  IsDelivered,
  IsEnded,
  KeepsOthers,
  Sends,
  answer_to,
  with_return_arrow,
  kind_of,
  reach_of,
  open_arrow,
  unreported,
  waiting_signals,
  way_of,
};
ghost use Rattle.pf_chart.specs.declared.traffic.Traffic.{Traffic};

use crate::arrows::{Arrow, ArrowEnd, ArrowStart, SignalKind};
use crate::on_way::OnWay;
use crate::peers::Peers;
use pf_errors::NoMemory;
use pf_model::Signal;
use pf_model::report::{Label, Suffix};
use std::alloc::Global;
use std::collections::BTreeSet;

/// The arrows so far, of those on their way which are the oldest, and what the system keeps of processes.
#[derive(Drop)]
pub(crate) struct Traffic {
    pub(crate) arrows: Vec<Arrow>,
    on_way: OnWay,
    pub(crate) peers: Peers,
}

/// How a signal ends that is delivered in this row.
fn reach_of(suffix: &Suffix, row: usize) -> ArrowEnd
    ensures { result ≡ reach_of (suffix_of suffix.now) row }
{
    match suffix {
        Suffix::NoProcess | Suffix::Dropped => ArrowEnd::Dropped(row),
        Suffix::TookEffect | Suffix::AsMessage | Suffix::EndingWith(_) => ArrowEnd::Taken(row),
    }
}

/// What goes back to the sender of a signal that is delivered so, if anything does.
fn answer_to(signal: &Signal, suffix: &Suffix) -> Option<SignalKind>
    ensures { result ≡ answer_to (signal_of signal.now) (suffix_of suffix.now) }
{
    match (signal, suffix) {
        (Signal::Link, Suffix::NoProcess) => Some(SignalKind::Exit),
        (Signal::Monitor(_), Suffix::NoProcess) => Some(SignalKind::Down),
        _ => None,
    }
}

impl Traffic {
    pub(crate) fn new(alloc: Global, columns: usize) -> Result<Traffic, NoMemory>
        ensures arrows { IfOk result (λ t. t.arrows.items ≡ []) }
        ensures waiting { IfOk result AreWaiting }
    {
        Ok(Traffic {
            arrows: Vec::new(alloc),
            on_way: OnWay::new(alloc),
            peers: Peers::new(alloc, columns)?,
        })
    }

    /// A signal is sent.
    fn send(&mut self, row: usize, from: usize, to: usize, kind: SignalKind) -> Result<(), NoMemory>
        ensures arrow { OnOk result (self.new.arrows.items ≡ self.old.arrows.items
            ++ open_arrow row from to kind ∷ []) }
        ensures last { OnOk result (waiting_signals self.new.on_way (way_of from to kind)
            ≡ waiting_signals self.old.on_way (way_of from to kind) ++ length self.old.arrows.items ∷ []) }
        ensures others { OnOk result (KeepsOthers (way_of from to kind) self.old.on_way self.new.on_way) }
        ensures sends { OnOk result (Sends row from self.old self.new) }
    {
        let index = self.arrows.len();
        self.arrows.push(Arrow {
            kind,
            from,
            to,
            start: ArrowStart::In(row),
            reach: ArrowEnd::Nowhere,
            chosen: false,
        })?;
        self.on_way.put((from, to, kind.number()), index)
    }

    /// A signal is sent if so.
    fn send_if(
        &mut self,
        goes: bool,
        row: usize,
        from: usize,
        to: usize,
        kind: SignalKind,
    ) -> Result<(), NoMemory>
        ensures { OnOk result (Sends row from self.old self.new) }
    {
        if goes {
            self.send(row, from, to, kind)
        } else {
            Ok(())
        }
    }

    /// A link signal is sent if the link is new, and isn't to oneself.
    fn link(&mut self, row: usize, a: usize, b: usize) -> Result<(), NoMemory>
        ensures { OnOk result (Sends row a self.old self.new) }
    {
        if a == b {
            return Ok(());
        }
        let is_new = self.peers.tie(a, b)?;
        self.send_if(is_new, row, a, b, SignalKind::Link)
    }

    /// An unlink signal is sent if there was a link.
    fn unlink(&mut self, row: usize, a: usize, b: usize) -> Result<(), NoMemory>
        ensures { OnOk result (Sends row a self.old self.new) }
    {
        let was_there = self.peers.untie(a, b);
        self.send_if(was_there, row, a, b, SignalKind::Unlink)
    }

    /// What a process does to another. No signal is sent to a child that is linked or watched at once.
    pub(crate) fn act(
        &mut self,
        row: usize,
        a: usize,
        b: usize,
        label: &Label,
    ) -> Result<(), NoMemory>
        ensures { OnOk result (Sends row a self.old self.new) }
    {
        match label {
            Label::Sends { .. } => self.send(row, a, b, SignalKind::Message),
            Label::Exits { .. } => self.send(row, a, b, SignalKind::Exit),
            Label::Spawns { linked: true, .. } => {
                self.peers.tie(a, b)?;
                self.peers.tie(b, a)?;
                Ok(())
            }
            Label::SpawnsWatched { reference, .. } => {
                self.peers.activate(*reference, a, b)?;
                self.peers.watch(b, *reference, a)
            }
            Label::Links(_) => self.link(row, a, b),
            Label::Unlinks(_) => self.unlink(row, a, b),
            Label::Monitors { reference, .. } => {
                self.peers.activate(*reference, a, b)?;
                self.send(row, a, b, SignalKind::Monitor)
            }
            _ => Ok(()),
        }
    }

    /// A demonitor signal is sent if the reference is active.
    pub(crate) fn demonitor(&mut self, row: usize, a: usize, reference: u64) -> Result<(), NoMemory>
        ensures { OnOk result (Sends row a self.old self.new) }
    {
        match self.peers.deactivate(reference, a) {
            Some(b) => self.send(row, a, b, SignalKind::Demonitor),
            None => Ok(()),
        }
    }

    /// An arrow ends.
    fn reach(&mut self, index: usize, reach: ArrowEnd)
        ensures arrows { IsEnded index reach self.old.arrows.items self.new.arrows.items }
        ensures on_way { self.new.on_way ≡ self.old.on_way }
    {
        if index < self.arrows.len() {
            self.arrows[index].reach = reach;
        }
    }

    /// A signal was sent just above its delivery.
    fn show(
        &mut self,
        row: usize,
        from: usize,
        to: usize,
        kind: SignalKind,
        reach: ArrowEnd,
    ) -> Result<(), NoMemory>
        ensures { OnOk result ((self.new.arrows.items ≡ self.old.arrows.items ++ unreported row from to kind reach ∷ [])
            × (self.new.on_way ≡ self.old.on_way)) }
    {
        self.arrows.push(Arrow {
            kind,
            from,
            to,
            start: ArrowStart::Above(row),
            reach,
            chosen: false,
        })?;
        Ok(())
    }

    /// The oldest signal ends; if there is none, it was sent just above.
    fn arrive(
        &mut self,
        row: usize,
        from: usize,
        to: usize,
        kind: SignalKind,
        reach: ArrowEnd,
    ) -> Result<(), NoMemory>
        ensures { OnOk result (IsDelivered (way_of from to kind)
            (unreported row from to kind reach) self.old self.new) }
    {
        match self.on_way.take((from, to, kind.number())) {
            Some(index) => {
                self.reach(index, reach);
                Ok(())
            }
            None => self.show(row, from, to, kind, reach),
        }
    }

    /// What goes back of a delivery, and what it changes among links and watchers.
    fn settle(
        &mut self,
        row: usize,
        from: usize,
        to: usize,
        signal: &Signal,
        suffix: &Suffix,
    ) -> Result<(), NoMemory>
        ensures answered { OnOk result (self.new.arrows.items
            ≡ with_return_arrow row to from (answer_to (signal_of signal.now) (suffix_of suffix.now))
            self.old.arrows.items) }
        ensures sends { OnOk result (Sends row to self.old self.new) }
    {
        match answer_to(signal, suffix) {
            Some(kind) => self.send(row, to, from, kind),
            None => {
                self.peers.settle(from, to, signal, suffix)?;
                Ok(())
            }
        }
    }

    /// A signal is delivered, and what goes back of it is sent.
    pub(crate) fn deliver(
        &mut self,
        row: usize,
        from: usize,
        to: usize,
        signal: &Signal,
        suffix: &Suffix,
    ) -> Result<(), NoMemory>
        ensures { OnOk result ((t : Traffic) × IsDelivered (way_of from to (kind_of (signal_of signal.now)))
            (unreported row from to (kind_of (signal_of signal.now)) (reach_of (suffix_of suffix.now) row)) self.old t
            × (self.new.arrows.items ≡ with_return_arrow row to from
            (answer_to (signal_of signal.now) (suffix_of suffix.now)) t.arrows.items)
            × Sends row to t self.new) }
    {
        self.arrive(row, from, to, SignalKind::of(signal), reach_of(suffix, row))?;
        self.settle(row, from, to, signal, suffix)
    }

    /// An exit goes to each that is linked.
    fn send_exits(&mut self, row: usize, a: usize, links: &BTreeSet<usize>) -> Result<(), NoMemory>
        ensures { OnOk result (Sends row a self.old self.new) }
    {
        for linked in links.iter() {
            self.send(row, a, *linked, SignalKind::Exit)?;
        }
        Ok(())
    }

    /// A process ends: an exit goes to each that is linked, and then a down to each that watches.
    pub(crate) fn end(&mut self, alloc: Global, row: usize, a: usize) -> Result<(), NoMemory>
        ensures { OnOk result (Sends row a self.old self.new) }
    {
        let Some((links, watchers)) = self.peers.end(alloc, a) else {
            return Ok(());
        };
        self.send_exits(row, a, &links)?;
        for watcher in watchers.values() {
            self.send(row, a, *watcher, SignalKind::Down)?;
        }
        Ok(())
    }
}
