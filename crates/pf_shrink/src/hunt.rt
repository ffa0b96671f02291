//! [`ShrinkingSearch`]: the search for a small schedule that fails.

ghost use Rattle.std.specs.Prelude.{◌≡◌, ◌<◌, ◌-◌, ℕ, suc, Bool, List, [], IsSome, IsNone, option_map};
ghost use Rattle.pf_model.specs.Shrinking.{shrunk, found as found_at};
ghost use Rattle.pf_shrink.specs.Hunts.{begins, next_of, after_answer, found_of, search_result, IsAnswerOf};
ghost use Rattle.pf_shrink.specs.Hunts.{NextIsSmaller};
ghost use Rattle.pf_shrink.specs.Standing.{standing, IsRoundOf};

use crate::round::Round;
use std::marker::Model;

/// The most runs that may be asked for. A search itself goes with any number of them.
pub const MOST_RUNS: u32 = 1_000;

/// How far a search is.
#[derive(Clone, Copy)]
enum Phase {
    /// The given schedule is to be run.
    Given,
    /// A search goes on, or ended where no candidate fails.
    Search,
    /// The runs were used up while candidates were left.
    Partial,
    /// The given schedule doesn't fail.
    Nothing,
}

/// The search for a small schedule that fails, within n runs. It runs nothing: it gives the schedule
/// that is to be run next, and is answered whether it fails.
#[derive(Drop)]
pub struct ShrinkingSearch {
    round: Round,
    phase: Phase,
    runs: u32,
}

impl Model for ShrinkingSearch {
    ghost use Rattle.pf_shrink.specs.Hunts.{Hunting};

    ghost Value = { Hunting };

    ghost use Rattle.pf_shrink.specs.Standing.{standing, IsRoundOf};

    ghost view = { λ h. standing h.runs h.phase h.round };

    ghost invariant = { λ h. IsRoundOf h.runs h.phase h.round };
}

impl ShrinkingSearch {
    /// The search from this schedule, within n runs. The run of the schedule is the first of them.
    pub fn new(schedule: Vec<u32>, runs: u32) -> ShrinkingSearch
        requires { 0 < runs }
        ensures begins { result ≡ begins (runs - 1) schedule.items }
        ensures leads_to { (fails : List ℕ → Bool)
            → search_result fails result ≡ shrunk fails runs schedule.items }
    {
        ShrinkingSearch {
            round: Round::new(schedule),
            phase: Phase::Given,
            runs,
        }
    }

    /// The schedule that is to be run next; none at the end of the search.
    pub fn next(&self) -> Option<&[u32]>
        ensures next { option_map (λ s. s.now) result ≡ next_of self.now }
        ensures smaller { NextIsSmaller self.now }
    {
        match self.phase {
            Phase::Given => Some(self.round.schedule()),
            Phase::Search => self.round.next(),
            Phase::Partial | Phase::Nothing => None,
        }
    }

    /// Takes the answer whether the next schedule fails. It takes no memory.
    pub fn reported(&mut self, fails: bool)
        requires { IsSome (next_of self.old) }
        ensures reported { self.new ≡ after_answer fails self.old }
        ensures leads_to { (f : List ℕ → Bool) → IsAnswerOf f fails self.old
            → search_result f self.new ≡ search_result f self.old }
    {
        self.phase = answered(&mut self.round, self.phase, fails);
        self.runs -= 1;
        if self.runs == 0 {
            self.phase = cut_off(&mut self.round, self.phase);
        }
    }

    /// What was found, at the end of the search: the schedule, and whether no candidate of it fails. None where
    /// the given schedule doesn't fail.
    pub fn found(&self) -> Option<(&[u32], bool)>
        requires { IsNone (next_of self.now) }
        ensures found { option_map (λ f. found_at f.0.now f.1) result ≡ found_of self.now }
        ensures leads_to { (fails : List ℕ → Bool)
            → option_map (λ f. found_at f.0.now f.1) result ≡ search_result fails self.now }
    {
        match self.phase {
            Phase::Search => Some((self.round.schedule(), true)),
            Phase::Partial => Some((self.round.schedule(), false)),
            Phase::Given | Phase::Nothing => None,
        }
    }
}

// What an answer makes of a round and a phase, before the run is counted.
fn answered(round: &mut Round, phase: Phase, fails: bool) -> Phase
    requires is_there { IsRoundOf 1 phase round.old }
    requires next { IsSome (next_of (standing 1 phase round.old)) }
    ensures reported { (k : ℕ) → standing k result round.new ≡ after_answer fails (standing (suc k) phase round.old) }
    ensures is_there { (k : ℕ) → IsRoundOf (suc k) result round.new }
{
    if fails {
        round.take();
        return Phase::Search;
    }
    match phase {
        Phase::Search => {
            round.pass();
            Phase::Search
        }
        Phase::Given | Phase::Partial | Phase::Nothing => Phase::Nothing,
    }
}

// The phase where no run is left: a search that has candidates left is partial, and leaves them.
fn cut_off(round: &mut Round, phase: Phase) -> Phase
    requires { IsRoundOf 1 phase round.old }
    ensures same { standing 0 result round.new ≡ standing 0 phase round.old }
    ensures is_there { IsRoundOf 0 result round.new }
{
    match phase {
        Phase::Search if round.next().is_some() => {
            round.give_up();
            Phase::Partial
        }
        Phase::Search => Phase::Search,
        Phase::Partial => Phase::Partial,
        Phase::Given | Phase::Nothing => Phase::Nothing,
    }
}
