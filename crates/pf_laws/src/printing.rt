//! Laws of the definitions: functions with empty bodies, whose contracts are the laws.

ghost use Rattle.pf_laws.specs.Printable.{ReadModulesPrintVisibly};

/// Whatever a run of a module that is read results in, its report has line ends and the bytes 32 to 126 alone, and each
/// value, event and outcome prints on one line.
pub fn read_modules_print_visibly()
    ensures { ReadModulesPrintVisibly }
{}
