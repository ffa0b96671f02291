//! The least seed whose root returned while processes still waited.

ghost use Rattle.std.specs.Prelude.{◌≡◌, ◌≤◌, ◌+◌, ℕ, option_map};
ghost use Rattle.pf_model.specs.Meaning.{Job, Report};
ghost use Rattle.pf_sched.specs.Waiting.{waiting_in};
ghost use Rattle.pf_strategy.specs.Strategies.{MeansBySeed};
ghost use Rattle.pf_strategy.specs.declared.strategy.Strategy.{Strategy};
ghost use Rattle.pf_hunt.specs.Hunts.{FirstLeaking};
ghost use Rattle.pf_hunt.specs.Views.{leak_of};

/// A seed whose root returned while processes still waited, and how many did.
#[derive(Drop, Clone, Copy)]
pub struct Leak {
    pub seed: u64,
    pub processes: u32,
}

/// What is known by the one run of a seed, at whose end so many processes still wait though its root returned.
pub(crate) fn leak_at(seed: u64, processes: u32) -> Option<Leak>
    ensures { (w : Strategy) (j : Job) (r : Report) → MeansBySeed w j seed r → processes ≡ waiting_in r
        → FirstLeaking w j seed (seed + 1) (option_map leak_of result) }
{
    if processes > 0 {
        Some(Leak { seed, processes })
    } else {
        None
    }
}

/// What is known of the seeds of two parts, of which the second comes after the first.
pub(crate) fn earlier(first: Option<Leak>, second: Option<Leak>) -> Option<Leak>
    ensures { (w : Strategy) (j : Job) (a c b : ℕ) → a ≤ c → c ≤ b
        → FirstLeaking w j a c (option_map leak_of first) → FirstLeaking w j c b (option_map leak_of second)
        → FirstLeaking w j a b (option_map leak_of result) }
{
    match first {
        Some(leak) => Some(leak),
        None => second,
    }
}
