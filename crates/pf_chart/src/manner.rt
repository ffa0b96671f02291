//! How a chart is drawn.

/// How a chart is drawn.
#[derive(Drop, Clone, Copy)]
pub struct Manner {
    /// Without rows for waits and for messages that go into a mailbox.
    pub compact: bool,
    /// Which page of the rows, counted from 1; the last where there are fewer.
    pub page: u32,
}
