//! Laws of texts: functions with an empty body, whose contract is the law.

ghost use Rattle.pf_termtext.specs.Texts.{NoTextOfTwo, PrintedIsReadBack};

/// In a table that has no name twice, no text is of two values.
pub fn no_text_of_two()
    ensures { NoTextOfTwo }
{}

/// What is printed of a value is of this value alone, so what reads it gives the value back.
pub fn printed_is_read_back()
    ensures { PrintedIsReadBack }
{}
