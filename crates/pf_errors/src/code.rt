//! The one table of refusals.

use std::fmt;

/// What is refused, by its code. It prints as the code, like `E6`.
#[derive(Clone, Copy, Debug, PartialEq, Eq)]
pub enum Code {
    /// `E1`: a byte begins no token, or isn't allowed there.
    UnexpectedByte,
    /// `E2`: a quoted text, or a `$` and its character, goes on past the end.
    Unfinished,
    /// `E3`: an integer is above 9223372036854775807.
    IntegerTooLarge,
    /// `E4`: the first form isn't `-module(Atom).`
    NoHead,
    /// `E5`: no rule of the grammar allows what is there.
    NotGrammar,
    /// `E6`: a variable is unbound.
    Unbound,
    /// `E7`: a variable is unsafe.
    Unsafe,
    /// `E8`: an undefined function is called.
    Undefined,
    /// `E9`: a function is defined twice, or named as a built-in one with its number of arguments.
    DefinedTwice,
    /// `E10`: a function is exported that the module doesn't define.
    ExportOfNothing,
    /// `E11`: the source is longer than 65,536 bytes.
    SourceTooLong,
    /// `E12`: a clause of a function has another name or number of arguments than the first.
    HeadsDiffer,
    /// `B1`: the project has no module of this number.
    NoModule,
    /// `B2`: the module exports no function of this name without arguments.
    NoRoot,
    /// `B3`: the project has no trial of this ticket.
    NoTrial,
    /// `B4`: a trial that is held uses the module.
    ModuleInUse,
    /// `B5`: the trial has no report yet.
    NotDone,
    /// `B6`: the limit, the number of runs or the schedule is out of range.
    OutOfRange,
    /// `B7`: a weight isn't from 1 to 9.
    WeightsOutOfRange,
    /// `B8`: there is no such edition.
    NoEdition,
    /// `B9`: the desk has a later edition.
    EditionTooLow,
    /// `P1`: there is no such property.
    NoProperty,
    /// `C1`: the line is no command.
    NoCommand,
    /// `N1`: the trial isn't what the worker takes it for.
    Stray,
    /// `N2`: the worker can't do this now.
    NotNow,
    /// `Q1`: the project would hold too many modules.
    TooManyModules,
    /// `Q2`: the sources of the project's modules would have too many bytes.
    TooManyBytes,
    /// `Q3`: the project would hold too many trials.
    TooManyTrials,
    /// `Q4`: the limits of the project's trials would add up to too many steps.
    TooManySteps,
    /// `Q5`: the project has made too many calls.
    TooManyCalls,
    /// `S1`: the schedule that is to be shrunk doesn't fail.
    NothingFails,
    /// `T1`: a value would have more than 4,096 nodes or be deeper than 64.
    TooLarge,
}

impl Code {
    ghost use Rattle.std.specs.Prelude.{◌≡◌};
    ghost use Rattle.pf_errors.specs.Codes.{family_of, number_of, rank_of};

    /// The letter that it begins with, and the number after that.
    fn parts(self) -> (&'static str, u8)
        ensures family { result.0.now ≡ family_of self }
        ensures number { result.1 ≡ number_of self }
    {
        match self {
            Code::UnexpectedByte => ("E", 1),
            Code::Unfinished => ("E", 2),
            Code::IntegerTooLarge => ("E", 3),
            Code::NoHead => ("E", 4),
            Code::NotGrammar => ("E", 5),
            Code::Unbound => ("E", 6),
            Code::Unsafe => ("E", 7),
            Code::Undefined => ("E", 8),
            Code::DefinedTwice => ("E", 9),
            Code::ExportOfNothing => ("E", 10),
            Code::SourceTooLong => ("E", 11),
            Code::HeadsDiffer => ("E", 12),
            Code::NoModule => ("B", 1),
            Code::NoRoot => ("B", 2),
            Code::NoTrial => ("B", 3),
            Code::ModuleInUse => ("B", 4),
            Code::NotDone => ("B", 5),
            Code::OutOfRange => ("B", 6),
            Code::WeightsOutOfRange => ("B", 7),
            Code::NoEdition => ("B", 8),
            Code::EditionTooLow => ("B", 9),
            Code::NoProperty => ("P", 1),
            Code::NoCommand => ("C", 1),
            Code::Stray => ("N", 1),
            Code::NotNow => ("N", 2),
            Code::TooManyModules => ("Q", 1),
            Code::TooManyBytes => ("Q", 2),
            Code::TooManyTrials => ("Q", 3),
            Code::TooManySteps => ("Q", 4),
            Code::TooManyCalls => ("Q", 5),
            Code::NothingFails => ("S", 1),
            Code::TooLarge => ("T", 1),
        }
    }

    /// How many codes come before it in the table.
    pub fn rank(self) -> u8
        ensures { result ≡ rank_of self }
    {
        self as u8
    }

    /// The number after the letter.
    pub fn number(self) -> u8
        ensures { result ≡ number_of self }
    {
        self.parts().1
    }
}

impl fmt::Display for Code {
    ghost use Rattle.std.specs.Prelude.{Some};
    ghost use Rattle.pf_errors.specs.Codes.{code_text};

    ghost output = { λ code. Some (code_text code) };

    fn fmt<W: fmt::Write>(&self, f: &mut fmt::Formatter<W>) -> fmt::Result {
        let (family, number) = self.parts();
        write!(f, "{family}{number}")
    }
}
