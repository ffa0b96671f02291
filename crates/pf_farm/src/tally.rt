//! What a worker did, counted for whoever wants to see how work was shared.

/// How often a worker claimed a trial, stole a run, parked one, and handed a trial back. A count stays at 2^64 - 1.
#[derive(Clone, Copy, Debug, Default, PartialEq, Eq)]
pub struct WorkTally {
    pub claims: u64,
    pub steals: u64,
    pub parks: u64,
    pub hand_backs: u64,
}
