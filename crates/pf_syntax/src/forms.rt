//! Which forms of the language a guard holds.

ghost use Rattle.std.specs.Prelude.{◌≡◌};
ghost use Rattle.pf_syntax.specs.Forms as forms;

use crate::Builtin;
use crate::builtins::is_pure;

/// A form of a body that a guard doesn't hold, but for the calls of some built-in functions.
#[derive(Clone, Copy, Debug, PartialEq, Eq)]
pub enum Form {
    /// `++`.
    Appending,
    /// `case`.
    Deciding,
    /// `if`.
    Choosing,
    /// `receive`.
    Receiving,
    /// `!`.
    Sending,
    /// A call of a built-in function.
    Calling(Builtin),
}

/// Whether this form is allowed in a guard, or else in a body, which holds all of them.
pub fn may_be_there(guard: bool, form: Form) -> bool
    ensures { result ≡ forms.may_be_there guard form }
{
    match form {
        Form::Calling(builtin) if guard => is_pure(builtin),
        _ => !guard,
    }
}
