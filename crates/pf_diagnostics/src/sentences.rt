//! What each refusal of a source means, and how to fix it.

ghost use Rattle.std.specs.Prelude.{◌≡◌};
ghost use Rattle.pf_diagnostics.specs.Sentences.{sentence_of};

use pf_errors::Code;

/// What is said of the codes that no source is refused with.
const OF_NO_SOURCE: &str = "This code answers calls and commands: no source is refused with it.";

/// One sentence: what is wrong, and how to fix it.
pub fn sentence(code: Code) -> &'static str
    ensures { result.now ≡ sentence_of code }
{
    match code {
        Code::UnexpectedByte => {
            "This byte begins no token or may not stand here, like `#`, `:`, an unknown escape or a byte past 126: take it out."
        }
        Code::Unfinished => {
            "A quoted text, or a `$` and its character, begins here and isn't finished at the end of the source: close it."
        }
        Code::IntegerTooLarge => {
            "This integer is above 9223372036854775807, the largest that there is: write a smaller one."
        }
        Code::NoHead => {
            "The first form must be `-module(Name).`, where the name is an atom: begin the source with it."
        }
        Code::NotGrammar => {
            "No rule of the grammar goes on like this: fix what is missing, too much or too deep here, or isn't in this language."
        }
        Code::Unbound => {
            "This variable has no value here, or is `_`, which never has one: bind it in a pattern before, or as an argument."
        }
        Code::Unsafe => {
            "Bind the value of the whole `case`, as in `X = case .. end`: a variable that only some clauses bind, or that every clause binds, is unsafe after `end` here."
        }
        Code::Undefined => {
            "No function of this name with as many arguments is defined or built in here: define it, or fix the call."
        }
        Code::DefinedTwice => {
            "An earlier function, or a built-in one, has this name with as many arguments: rename this one, or take it out."
        }
        Code::ExportOfNothing => {
            "The module defines no function of this name with as many arguments: define it, or take it out of the exports."
        }
        Code::SourceTooLong => {
            "A source has at most 65,536 bytes, and this one has more: shorten it."
        }
        Code::HeadsDiffer => {
            "The clauses of a function have one name and one number of arguments: fix this head, or end the clause before by a dot."
        }
        Code::NoModule
        | Code::NoRoot
        | Code::NoTrial
        | Code::ModuleInUse
        | Code::NotDone
        | Code::OutOfRange
        | Code::WeightsOutOfRange
        | Code::NoEdition
        | Code::EditionTooLow
        | Code::NoProperty
        | Code::NoCommand
        | Code::Stray
        | Code::NotNow
        | Code::TooManyModules
        | Code::TooManyBytes
        | Code::TooManyTrials
        | Code::TooManySteps
        | Code::TooManyCalls
        | Code::NothingFails
        | Code::TooLarge => OF_NO_SOURCE,
    }
}
