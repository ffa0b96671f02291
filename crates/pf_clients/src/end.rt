//! How the lines of a client's file end.

use pf_wire::RefusedLine;
use std::io::Error;

/// How the lines of a file ended.
#[derive(Drop)]
pub enum FileEnd {
    /// All were answered.
    Answered,
    /// One was no command, and none after it was answered.
    NoCommand(RefusedLine),
    /// The file can't be read any more.
    Unread(Error),
    /// A reply can't be written.
    Unwritten(Error),
    /// Memory ran out.
    NoMemory,
}
