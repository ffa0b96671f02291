//! How far a trial is.

/// How far a trial is.
#[derive(Clone, Copy, Debug, PartialEq, Eq)]
pub enum TrialStage {
    /// It waits for a worker.
    Queued,
    /// A worker has it.
    Running,
    /// Its result is filed.
    Done,
}
