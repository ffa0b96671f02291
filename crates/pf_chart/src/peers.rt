//! What the system keeps of processes for the signals that it sends by itself: links and monitors.

use pf_errors::NoMemory;
use pf_model::Signal;
use pf_model::report::Suffix;
use std::alloc::Global;
use std::collections::{BTreeMap, BTreeSet};
use std::mem;

/// To whom a process is linked, and who watches it by which reference.
#[derive(Drop)]
struct Peer {
    links: BTreeSet<usize>,
    watchers: BTreeMap<u64, usize>,
}

/// The links and watchers of all processes, and the active references: who watches whom. Processes go by their columns.
#[derive(Drop)]
pub(crate) struct Peers {
    peers: Vec<Peer>,
    active: BTreeMap<u64, (usize, usize)>,
}

fn lone(alloc: Global) -> Peer {
    Peer {
        links: BTreeSet::new(alloc),
        watchers: BTreeMap::new(alloc),
    }
}

impl Peers {
    pub(crate) fn new(alloc: Global, count: usize) -> Result<Peers, NoMemory> {
        let mut peers = Vec::new(alloc);
        for _ in 0..count {
            peers.push(lone(alloc))?;
        }
        Ok(Peers {
            peers,
            active: BTreeMap::new(alloc),
        })
    }

    /// Enters b among the links of a, and returns whether it is new there.
    pub(crate) fn tie(&mut self, a: usize, b: usize) -> Result<bool, NoMemory> {
        match self.peers.get_mut(a) {
            Some(peer) => Ok(peer.links.insert(b)?),
            None => Ok(false),
        }
    }

    /// Takes b out of the links of a, and returns whether it was there.
    pub(crate) fn untie(&mut self, a: usize, b: usize) -> bool {
        match self.peers.get_mut(a) {
            Some(peer) => peer.links.remove(&b),
            None => false,
        }
    }

    /// From now on a reference of a is to watch b.
    pub(crate) fn activate(&mut self, reference: u64, a: usize, b: usize) -> Result<(), NoMemory> {
        self.active.insert(reference, (a, b))?;
        Ok(())
    }

    /// Where a reference is active in a, it is no more, and that is who it watched.
    pub(crate) fn deactivate(&mut self, reference: u64, a: usize) -> Option<usize> {
        let (owner, watched) = *self.active.get(&reference)?;
        if owner != a {
            return None;
        }
        self.active.remove(&reference);
        Some(watched)
    }

    /// Enters a among the watchers of b.
    pub(crate) fn watch(&mut self, b: usize, reference: u64, a: usize) -> Result<(), NoMemory> {
        if let Some(peer) = self.peers.get_mut(b) {
            peer.watchers.insert(reference, a)?;
        }
        Ok(())
    }

    /// Takes a reference out of the watchers of b.
    pub(crate) fn unwatch(&mut self, b: usize, reference: u64) {
        if let Some(peer) = self.peers.get_mut(b) {
            peer.watchers.remove(&reference);
        }
    }

    /// What a delivery changes.
    pub(crate) fn settle(
        &mut self,
        from: usize,
        to: usize,
        signal: &Signal,
        suffix: &Suffix,
    ) -> Result<(), NoMemory> {
        match (signal, suffix) {
            (Signal::Link, Suffix::TookEffect) => {
                self.tie(to, from)?;
            }
            (Signal::Monitor(reference), Suffix::TookEffect) => {
                self.watch(to, *reference, from)?;
            }
            (Signal::Unlink, _) | (Signal::Exit { by_link: true, .. }, _) => {
                self.untie(to, from);
            }
            (Signal::Demonitor(reference), _) => self.unwatch(to, *reference),
            (Signal::Down(reference, _), _) => {
                self.deactivate(*reference, to);
            }
            _ => {}
        }
        Ok(())
    }

    /// Takes all links and watchers of a process that ends: who was linked, and who watched.
    pub(crate) fn end(
        &mut self,
        alloc: Global,
        a: usize,
    ) -> Option<(BTreeSet<usize>, BTreeMap<u64, usize>)> {
        let Peer { links, watchers } = mem::replace(self.peers.get_mut(a)?, lone(alloc));
        Some((links, watchers))
    }
}
