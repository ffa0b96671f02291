//! What a hunt goes over.

/// The seeds that a hunt goes over, from a first to before an end; whether it may stop before that; and how many
/// workers
/// share them.
#[derive(Drop, Clone, Copy)]
pub struct HuntRange {
    pub first: u64,
    pub end: u64,
    pub may_stop: bool,
    pub workers: u64,
}
