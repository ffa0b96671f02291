//! What a project uses of its limits: what one more call, module or trial adds, when it is refused,
//! and what is given back.
#![tactic(auto)]

mod charges;
mod refusals;
mod usage;

pub use charges::{Charge, Holding, trial_steps};
pub use refusals::{
    LimitRefusal, MOST_CALLS, MOST_MODULE_BYTES, MOST_MODULES, MOST_MODULES_FIRST,
    MOST_TRIAL_STEPS, MOST_TRIALS, limits_are,
};
pub use usage::{Usage, limits_hold, most_modules, usage_follows_held};
