//! What is asked for of a source whose schedules are explored, and its answer.

ghost use Rattle.std.specs.Prelude.{◌≡◌, ◌<◌, IfSome};
ghost use Rattle.pf_explore_answer.specs.Answers.{most_of};

use pf_request::Request;

/// What is asked for: a run, in whose place those by its schedules go, in an edition; how many runs there may be, and
/// how often one may deviate from the first choice, if that is said.
#[derive(Clone, Copy)]
pub struct Exploration<'a> {
    pub request: &'a Request,
    /// The edition of each run, 1 or 2.
    pub edition: u32,
    /// The process that goes last in each run, if one is named.
    pub last: Option<u32>,
    /// The most runs.
    pub budget: u64,
    /// The most deviations of a run; as many as it can have where none are named.
    pub deviations: Option<u32>,
}

/// The answer to a source: a text, the status that the program ends with, and the schedule that was found to fail, if
/// one was.
#[derive(Drop)]
pub struct ExploreAnswer {
    pub text: Vec<u8>,
    pub status: u8,
    pub found: Option<Vec<u32>>,
}

/// The most deviations of a run where none are named: more than a run has events.
const MOST_DEVIATIONS: u32 = 4_294_967_294;

/// The most deviations of a run.
pub(crate) fn most_of(deviations: Option<u32>) -> u32
    requires { IfSome deviations (λ k. k < 4294967295) }
    ensures most { result ≡ most_of deviations }
    ensures few { result < 4294967295 }
{
    match deviations {
        Some(most) => most,
        None => MOST_DEVIATIONS,
    }
}
