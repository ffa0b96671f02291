//! The choices of a run, opened.

ghost use Rattle.std.specs.Prelude.{◌≡◌, true, IfOk};
ghost use Rattle.pf_model.specs.Meaning as model;
ghost use Rattle.pf_request.specs.Request.{may_weigh};
ghost use Rattle.pf_request.specs.View.{view_of_choices};
ghost use Rattle.pf_sched.specs.Traces.{Makes};

use pf_choice::Choices;
use pf_errors::NoMemory;
use pf_request::RunChoices;
use std::alloc::Global;

/// The choices from the first on.
pub(crate) fn open(alloc: Global, choices: &RunChoices) -> Result<Choices, NoMemory>
    requires { may_weigh (view_of_choices choices.now) ≡ true }
    ensures { IfOk result (λ q. Makes (view_of_choices choices.now) q) }
{
    match choices {
        RunChoices::Seed(seed) => Ok(Choices::seed(*seed)),
        RunChoices::Weighted { seed, run, deliver } => {
            Ok(Choices::weighted(*seed, *run as u8, *deliver as u8))
        }
        RunChoices::Schedule(numbers) => {
            Ok(Choices::schedule(Vec::from_slice(alloc, numbers.as_slice())?))
        }
    }
}

/// Those of a schedule.
pub(crate) fn of_schedule(alloc: Global, numbers: &[u32]) -> Result<Choices, NoMemory>
    ensures { IfOk result (λ q. Makes (model.schedule numbers.now) q) }
{
    Ok(Choices::schedule(Vec::from_slice(alloc, numbers)?))
}
