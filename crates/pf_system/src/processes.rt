//! All processes of a run, and what is between them.

use crate::shared::Shared;
use crate::slot::Slot;
use crate::spare::Spare;
use pf_sorted::SortedSet;
use pf_syntax::Module;
use std::sync::Arc;

/// What a run is based on: the module that its processes run, and how many of them there may be.
#[derive(Drop)]
pub(crate) struct Basis {
    pub(crate) module: Arc<Module>,
    pub(crate) most: u32,
}

/// Module and limit, the slot of each process by its pid, ties and signals, the processes that can go by rising pid,
/// and what is spare.
#[derive(Drop)]
pub(crate) struct Processes {
    pub(crate) basis: Basis,
    pub(crate) slots: Vec<Slot>,
    pub(crate) shared: Shared,
    pub(crate) ready: SortedSet,
    pub(crate) spare: Spare,
}
