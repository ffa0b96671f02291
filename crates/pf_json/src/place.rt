//! What comes next in a text.

/// What the next line is.
#[derive(Drop, Clone, Copy)]
pub enum LinePlace {
    /// A line that reports facts.
    Report,
    /// The line of the source that a refusal is about.
    Source,
    /// The caret below it.
    Caret,
    /// What is said of it.
    Advice,
}
