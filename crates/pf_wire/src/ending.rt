//! Where reading ended before the input did, for whoever says why.

ghost use Rattle.std.specs.Prelude.{◌≡◌, None, Some, false};
ghost use Rattle.pf_protocol.specs.Commands.{first_line};
ghost use Rattle.pf_wire.specs.Endings.{IsKept, ReportsLine};

use pf_protocol::first_line;
use std::alloc::Global;

/// How much of a line that is no command is kept.
const MOST_OF_LINE: usize = 65_536;

/// A line that is no command.
#[derive(Drop)]
pub struct RefusedLine {
    /// The number of the command that it would be, counted from 1.
    pub number: u64,
    /// The line, or its beginning if it is long or memory is short.
    pub text: Vec<u8>,
    /// Whether that is all of it.
    pub is_whole: bool,
}

/// Where reading ended.
#[derive(Drop)]
pub struct InputEnd {
    /// The line that is no command, if one is.
    pub refused: Option<RefusedLine>,
    /// Whether as many bytes were taken as may be.
    pub is_full: bool,
}

/// What is kept of a line, and whether that is all of it.
fn kept(alloc: Global, line: &[u8]) -> (Vec<u8>, bool)
    ensures { IsKept result.0.items result.1 line.now }
{
    let end = line.len().min(MOST_OF_LINE);
    match Vec::from_slice(alloc, &line[..end]) {
        Ok(text) => (text, line.len() <= MOST_OF_LINE),
        Err(_) => (Vec::new(alloc), false),
    }
}

impl RefusedLine {
    /// The first line of some bytes, which would be the command of this number.
    pub fn of(alloc: Global, number: u64, bytes: &[u8]) -> RefusedLine
        ensures { ReportsLine (Some result) number (first_line bytes.now).text }
    {
        let (text, is_whole) = kept(alloc, first_line(bytes).text);
        RefusedLine {
            number,
            text,
            is_whole,
        }
    }
}

impl InputEnd {
    /// Nothing was read yet.
    pub fn new() -> InputEnd
        ensures refused { result.refused ≡ None }
        ensures full { result.is_full ≡ false }
    {
        InputEnd {
            refused: None,
            is_full: false,
        }
    }

    /// Notes that the first line of some bytes, which would be the command of this number, is no command.
    pub(crate) fn refuse(&mut self, alloc: Global, number: u64, bytes: &[u8])
        ensures line { ReportsLine self.new.refused number (first_line bytes.now).text }
        ensures full { self.new.is_full ≡ self.old.is_full }
    {
        self.refused = Some(RefusedLine::of(alloc, number, bytes));
    }
}
