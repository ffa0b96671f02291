//! How a spawned process is tied to the one that asks for it.

/// The two are linked, or the one that asks watches the other, or neither.
#[derive(Clone, Copy, Debug, PartialEq, Eq)]
pub enum Bond {
    Unbound,
    Linking,
    Watching,
}
