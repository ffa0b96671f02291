//! How a seed chooses.

/// How the words of a seed choose who goes.
#[derive(Clone, Copy, Debug, PartialEq, Eq, Drop)]
pub enum Sampling {
    /// By each word in turn, among all alike or by weights.
    Uniform,
    /// Each who may go has a priority, which the seed's words give, and keeps it until it goes; the highest goes.
    Priorities,
}

/// How the seed of a run chooses who goes.
#[derive(Clone, Copy, Debug, PartialEq, Eq, Drop)]
pub struct Strategy {
    pub sampling: Sampling,
    /// The process that is chosen, with its signals to itself, only where nobody else may go, where one is named.
    pub last: Option<u32>,
}

/// A seed that chooses in a run, and how it does.
#[derive(Clone, Copy, Debug, PartialEq, Eq, Drop)]
pub struct SeedChoice {
    pub seed: u64,
    pub strategy: Strategy,
}
