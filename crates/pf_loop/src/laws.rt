//! Laws of a machine over sound code: functions with empty bodies, whose contracts are the laws.

ghost use Rattle.pf_loop.specs.Reached.{CutsAreSteps, RunsReach, SoundCodeGoesOn};

/// Where the next instruction has more contractions than are left, the process makes exactly those that are left.
pub fn cuts_are_steps()
    ensures { CutsAreSteps }
{}

/// What a machine reports of a run over sound code, its process reaches by the contractions of the run.
pub fn runs_reach()
    ensures { RunsReach }
{}

/// Sound code has an instruction wherever a process is.
pub fn sound_code_goes_on()
    ensures { SoundCodeGoesOn }
{}
