//! How a hunt goes on.

/// How a hunt goes on.
#[derive(Drop, Clone, Copy)]
pub enum Pace {
    /// Its blocks grow.
    Longer,
    /// Its blocks are as long as they were.
    Same,
    /// It ends, if it may stop before its end.
    Stop,
}
