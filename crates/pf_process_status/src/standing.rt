//! The status of a process when its run is over.

use pf_stepper::Point;
use pf_syntax::FunctionId;

/// The status of a process when its run is over.
#[derive(Clone, Copy, Debug, PartialEq, Eq)]
pub enum ProcessFate {
    /// It ended with the reason `normal`, as one does whose function returns.
    Normal,
    /// It ended by itself with another reason, in the event of this number from 0, at this point; one that never began
    /// has none.
    Failed { event: usize, point: Option<Point> },
    /// An exit signal of this process ended it.
    Killed(u32),
    /// It waits at this point.
    Waits(Point),
    /// It may go on from this point.
    Goes(Point),
}

/// A process when its run is over.
#[derive(Clone, Copy, Debug, PartialEq, Eq)]
pub struct ProcessStatus {
    pub pid: u32,
    /// The function in whose call it began.
    pub begun: Option<FunctionId>,
    pub fate: ProcessFate,
}
