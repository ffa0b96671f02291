//! The limits of runs and of shrinkings.

ghost use Rattle.std.specs.Prelude.{◌≡◌, ◌↔◌, ◌≤◌, ℕ, List, true};
ghost use Rattle.pf_model.specs.Limits.{is_in_range, most_processes};
ghost use Rattle.pf_model.specs.Meaning.{weighted_seed};
ghost use Rattle.pf_request.specs.Request.{may_shrink, may_weigh, shrink};

/// How many processes a run may have, the ended ones counted, by its edition.
pub fn process_limits_are()
    ensures first { most_processes 1 ≡ 256 }
    ensures second { most_processes 2 ≡ 1024 }
{}

/// What may be asked for: a run within 1 to 100,000 steps, by a schedule of at most 100,000 numbers or by weights from
/// 1 to 9; a shrinking within 1 to 1,000 runs.
pub fn run_limits_are()
    ensures range { (limit choices : ℕ) → (is_in_range limit choices ≡ true)
        ↔ ((1 ≤ limit) × (limit ≤ 100000) × (choices ≤ 100000)) }
    ensures runs { (schedule : List ℕ) (runs : ℕ) → (may_shrink (shrink schedule runs) ≡ true)
        ↔ ((1 ≤ runs) × (runs ≤ 1000)) }
    ensures weights { (seed run deliver : ℕ) → (may_weigh (weighted_seed seed run deliver) ≡ true)
        ↔ ((1 ≤ run) × (run ≤ 9) × (1 ≤ deliver) × (deliver ≤ 9)) }
{}
