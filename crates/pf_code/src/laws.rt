//! Laws of sound code: functions with empty bodies, whose contracts are the laws.

ghost use Rattle.pf_code.specs.Simulation.{CallsBeginAtEntries, InstructionsAreSteps, MessagesAreTested, NoneIsTested};
ghost use Rattle.pf_code.specs.Simulation.{ReceivesGoOn, RunsAreSteps};

/// Whatever an instruction of sound code does, the process does by its contractions.
pub fn instructions_are_steps()
    ensures { InstructionsAreSteps }
{}

/// What instructions do one after the other, the process does by their contractions together.
pub fn runs_are_steps()
    ensures { RunsAreSteps }
{}

/// Instructions test a message as the clauses of its `receive` do.
pub fn messages_are_tested()
    ensures { MessagesAreTested }
{}

/// Where no clause picked a message, the process waits for the next one.
pub fn receives_go_on()
    ensures { ReceivesGoOn }
{}

/// No contraction of a process leads into the tests of a message.
pub fn none_is_tested()
    ensures { NoneIsTested }
{}

/// A process that begins with a call reaches the entry of the function by one contraction.
pub fn calls_begin_at_entries()
    ensures { CallsBeginAtEntries }
{}
