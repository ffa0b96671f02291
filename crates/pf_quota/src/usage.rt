//! [`Usage`]: the sums over what a project holds, and its logged calls.

ghost use Rattle.std.specs.Prelude.{◌≡◌, ◌≤◌, ◌<◌, ◌+◌, ℕ, List, [], ◌∷◌, ◌++◌, Some, None};
ghost use Rattle.std.specs.Prelude.{IfOk, IfErr, OnOk, OnErr, MatchResult};
ghost use Rattle.pf_quota.specs.declared.charges.Charge.{Charge};
ghost use Rattle.pf_quota.specs.declared.charges.Holding.{Holding};
ghost use Rattle.pf_quota.specs.declared.usage.Usage.{Usage};
ghost use Rattle.pf_quota.specs.Usage.{usage_of, charged, refunded, Covers, charge_of};
ghost use Rattle.pf_quota.specs.Checks.{most_modules, refusal_of, IsWithinLimits};

use crate::charges::{Charge, Holding};
use crate::refusals::{
    LimitRefusal, MOST_CALLS, MOST_MODULE_BYTES, MOST_MODULES, MOST_MODULES_FIRST,
    MOST_TRIAL_STEPS, MOST_TRIALS,
};

/// What a project uses of its limits.
#[derive(Clone, Copy, Debug, Default, PartialEq, Eq)]
pub struct Usage {
    /// The modules that it holds.
    pub modules: u64,
    /// The bytes of source of those modules.
    pub bytes: u64,
    /// The trials that it holds, in any state.
    pub trials: u64,
    /// The steps of those trials.
    pub steps: u64,
    /// The client calls that it has logged.
    pub calls: u64,
}

impl Usage {
    /// The usage of a project that holds nothing and has logged no call.
    pub fn new() -> Usage
        ensures { result ≡ usage_of [] 0 }
    {
        Usage::default()
    }

    /// Adds what a charge takes, if each sum stays within its limit. The checks are, in this order,
    /// for a call that of the calls, for a module those of the modules and the bytes, for a trial
    /// those of the trials and the steps. How many modules there may be, the edition of the desk says. A refused
    /// charge changes nothing.
    pub fn charge(&mut self, edition: u32, charge: Charge) -> Result<(), LimitRefusal>
        ensures refusal { MatchResult result (λ _. refusal_of edition self.old charge ≡ None)
            (λ refusal. refusal_of edition self.old charge ≡ Some refusal) }
        ensures ok { OnOk result (self.new ≡ charged self.old charge) }
        ensures err { OnErr result (self.new ≡ self.old) }
    {
        match charge {
            Charge::Call => self.calls = sum_within(
                self.calls,
                1,
                MOST_CALLS,
                LimitRefusal::Calls,
            )?,
            Charge::Module { bytes } => {
                let modules = sum_within(
                    self.modules,
                    1,
                    most_modules(edition),
                    LimitRefusal::Modules,
                )?;
                self.bytes = sum_within(self.bytes, bytes, MOST_MODULE_BYTES, LimitRefusal::Bytes)?;
                self.modules = modules;
            }
            Charge::Trial { steps } => {
                let trials = sum_within(self.trials, 1, MOST_TRIALS, LimitRefusal::Trials)?;
                self.steps = sum_within(self.steps, steps, MOST_TRIAL_STEPS, LimitRefusal::Steps)?;
                self.trials = trials;
            }
        }
        Ok(())
    }

    /// Gives back what a thing that the project held took: one module and its bytes, or one trial
    /// and its steps. Calls are never given back.
    pub fn refund(&mut self, held: Holding)
        requires { Covers self.old held }
        ensures { self.new ≡ refunded self.old held }
    {
        match held {
            Holding::Module { bytes } => {
                self.modules -= 1;
                self.bytes -= bytes;
            }
            Holding::Trial { steps } => {
                self.trials -= 1;
                self.steps -= steps;
            }
        }
    }
}

/// How many modules a project may hold, by the edition of its desk.
pub fn most_modules(edition: u32) -> u64
    ensures { result ≡ most_modules edition }
{
    if edition == 1 {
        MOST_MODULES_FIRST
    } else {
        MOST_MODULES
    }
}

// The sum of what is used and what is added, or this refusal where the sum passes the limit.
fn sum_within(used: u64, added: u64, limit: u64, refusal: LimitRefusal) -> Result<u64, LimitRefusal>
    ensures ok { IfOk result (λ sum. (sum ≡ used + added) × (sum ≤ limit)) }
    ensures err { IfErr result (λ e. (e ≡ refusal) × (limit < used + added)) }
{
    match used.checked_add(added) {
        Some(sum) if sum <= limit => Ok(sum),
        _ => Err(refusal),
    }
}

/// The law that usage is the sums over what is held, wherever in the list a thing is; it has no
/// code. Charging a thing gives the usage with it. Giving it back is allowed where it is held, and
/// gives the usage without it.
pub fn usage_follows_held()
    ensures call { (held : List Holding) (calls : ℕ)
        → charged (usage_of held calls) Charge.Call ≡ usage_of held (calls + 1) }
    ensures charge { (before after : List Holding) (thing : Holding) (calls : ℕ) → charged
        (usage_of (before ++ after) calls) (charge_of thing) ≡ usage_of (before ++ thing ∷ after) calls }
    ensures covers { (before after : List Holding) (thing : Holding) (calls : ℕ)
        → Covers (usage_of (before ++ thing ∷ after) calls) thing }
    ensures refund { (before after : List Holding) (thing : Holding) (calls : ℕ)
        → refunded (usage_of (before ++ thing ∷ after) calls) thing ≡ usage_of (before ++ after) calls }
{}

/// The law that the limits hold: at first, after each charge that is not refused, after each refund, and in an edition
/// that isn't below. It has no code.
pub fn limits_hold()
    ensures at_first { (edition : ℕ) → IsWithinLimits edition (usage_of [] 0) }
    ensures charge { (edition : ℕ) (usage : Usage) (charge : Charge) → IsWithinLimits edition usage
        → refusal_of edition usage charge ≡ None → IsWithinLimits edition (charged usage charge) }
    ensures refund { (edition : ℕ) (usage : Usage) (thing : Holding) → IsWithinLimits edition usage
        → IsWithinLimits edition (refunded usage thing) }
    ensures edition { (low high : ℕ) (usage : Usage) → low ≤ high → 1 ≤ low → IsWithinLimits low usage
        → IsWithinLimits high usage }
{}
