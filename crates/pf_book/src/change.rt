//! The changes of what a desk holds, for which there is room: they take no memory.

ghost use Rattle.std.specs.Prelude.{◌≡◌, ◌+◌, ◌-◌, ◌<◌, ◌≤◌, ◌^◌, length, slice_index, slice_set};
ghost use Rattle.std.specs.Vec.{vec_len, vec_capacity};
ghost use Rattle.pf_model.specs.Limits.{IsEdition};
ghost use Rattle.pf_book.specs.Plans.{with_change, CanChange};
ghost use Rattle.pf_book.specs.Users.{holding, CountUsers};

use crate::numbers::give_up;
use crate::plan::DeskChange;
use crate::trial::Trial;
use pf_check::ReadModule;

/// Changes what a desk holds, with the counts of the held trials that use each module, or its edition.
pub(crate) fn carry_out(
    edition: &mut u32,
    modules: &mut Vec<Option<ReadModule>>,
    trials: &mut Vec<Option<Trial>>,
    users: &mut Vec<u64>,
    change: DeskChange,
)
    requires modules { vec_len modules.old < vec_capacity modules.old }
    requires trials { vec_len trials.old < vec_capacity trials.old }
    requires users { vec_len users.old < vec_capacity users.old }
    requires edition { IsEdition edition.old }
    requires counts { CountUsers users.old.items modules.old.items trials.old.items }
    requires can { CanChange (holding edition.old modules.old.items trials.old.items) change }
    ensures held { holding edition.new modules.new.items trials.new.items
        ≡ with_change (holding edition.old modules.old.items trials.old.items) change }
    ensures edition { IsEdition edition.new }
    ensures counts { CountUsers users.new.items modules.new.items trials.new.items }
{
    match change {
        DeskChange::Nothing => {}
        DeskChange::Module(module) => {
            modules.push_reserved(Some(module));
            users.push_reserved(0);
        }
        DeskChange::Trial(number, job) => {
            trials.push_reserved(Some(Trial::new(number, job)));
            one_more(users, number);
        }
        DeskChange::DropTrial(ticket) => {
            if let Some(trial) = give_up(trials, ticket) {
                one_less(users, trial.module_number());
            }
        }
        DeskChange::Withdraw(number) => {
            give_up(modules, number);
        }
        DeskChange::Edition(new) => *edition = new,
    }
}

/// One trial more uses the module of a number.
fn one_more(users: &mut Vec<u64>, number: u64)
    requires from { 1 ≤ number }
    requires to { number ≤ length users.old.items }
    requires fits { slice_index users.old.items (number - 1) + 1 < 2 ^ 64 }
    ensures { users.new.items
        ≡ slice_set users.old.items (number - 1) (slice_index users.old.items (number - 1) + 1) }
{
    users[number as usize - 1] += 1;
}

/// One trial less uses the module of a number.
fn one_less(users: &mut Vec<u64>, number: u64)
    requires from { 1 ≤ number }
    requires to { number ≤ length users.old.items }
    requires used { 1 ≤ slice_index users.old.items (number - 1) }
    ensures { users.new.items
        ≡ slice_set users.old.items (number - 1) (slice_index users.old.items (number - 1) - 1) }
{
    users[number as usize - 1] -= 1;
}
