//! What is charged to a project, and what it then holds.

ghost use Rattle.std.specs.Prelude.{◌≡◌};
ghost use Rattle.pf_quota.specs.Charges.{steps_of_trial};

/// What is charged to a project.
#[derive(Clone, Copy, Debug, PartialEq, Eq)]
pub enum Charge {
    /// One client call, which is logged. It is charged before what the call asks for.
    Call,
    /// One module with n bytes of source.
    Module { bytes: u64 },
    /// One trial with n steps, as [`trial_steps`] counts them.
    Trial { steps: u64 },
}

/// What a project holds, until it is given up.
#[derive(Clone, Copy, Debug, PartialEq, Eq)]
pub enum Holding {
    /// A module with n bytes of source.
    Module { bytes: u64 },
    /// A trial with n steps.
    Trial { steps: u64 },
}

/// The steps of a trial with this step limit. A trial that is a shrinking counts its limit once for
/// each of its runs; any other has 0 runs here, and counts its limit once.
pub fn trial_steps(limit: u32, runs: u32) -> u64
    ensures { result ≡ steps_of_trial limit runs }
{
    u64::from(limit) * u64::from(runs.max(1))
}
