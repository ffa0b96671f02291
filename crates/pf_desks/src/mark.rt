//! What a file bears.

/// What a file bears: the whole of what the job means, or that memory ran out.
#[derive(Clone, Copy, Debug, PartialEq, Eq)]
pub enum FileMark {
    Whole,
    Memory,
}
