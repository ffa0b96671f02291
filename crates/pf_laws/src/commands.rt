//! Laws of the definitions: functions with empty bodies, whose contracts are the laws.

ghost use Rattle.std.specs.Prelude.{◌≡◌};
ghost use Rattle.pf_command.specs.declared.serving.TheConstants as command;
ghost use Rattle.pf_farm.specs.declared.farm.TheConstants.{MOST_SEATS};
ghost use Rattle.pf_wire.specs.declared.steps.TheConstants.{MOST_BYTES, WORKERS};

/// How many bytes of a source's file the commands of one source read: one more than a source may have.
pub fn command_limits_are()
    ensures { command.MOST_BYTES ≡ 65537 }
{}

/// How many bytes `steps` reads, as `farm` does of each file, and how many workers it has.
pub fn steps_limits_are()
    ensures bytes { MOST_BYTES ≡ 67108864 }
    ensures workers { WORKERS ≡ 4 }
{}

/// How many seats a running farm gives.
pub fn farm_limits_are()
    ensures { MOST_SEATS ≡ 4096 }
{}
