//! Laws of all schedules of a job: what a closed set of configurations says of each, and how the reports of two differ.
//! Functions with empty bodies, whose contracts are the laws.
#![tactic(auto)]

mod places;
mod schedules;

pub use places::{
    bounded_configurations_hold, closed_places_hold, closed_places_hold_of_jobs,
    closed_places_hold_within, closed_places_hold_within_of_jobs, more_steps_change_nothing,
};
pub use schedules::{
    all_is_within_the_limit, choices_are_by_schedule, choices_are_made, choices_part,
    no_chooser_fails, no_chooser_fails_last, no_chooser_fails_within, no_seed_fails, nobody_last,
};
