//! Laws of the definitions: functions with empty bodies, whose contracts are the laws.

ghost use Rattle.pf_laws.specs.ReadModules.{ReadModulesAreClosed};

/// Each module that is read is closed, and so is each configuration that its runs reach, whatever chooses: no variable
/// lacks a value, no call its function, and no built-in function has another number of arguments.
pub fn read_modules_are_closed<S>()
    ensures { ReadModulesAreClosed S }
{}
