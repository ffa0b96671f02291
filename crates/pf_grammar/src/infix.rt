//! Infixes: what is between two operands (Erlang Reference Manual, "Operator Precedence").

ghost use Rattle.std.specs.Prelude.{◌≡◌, option_map};
ghost use Rattle.pf_grammar.specs.Grammar.{binding_of, infix_of, infix_is_there, left_level, level_of, right_level};
ghost use Rattle.pf_grammar.specs.Parse.{infix_fits};
ghost use Rattle.pf_tokens.specs.NumberedTokens as NumberedTokens;
ghost use Rattle.pf_tokens.specs.View.{kind_of};

use pf_syntax::{Form, Operator, may_be_there};
use pf_tokens::{NumberedKind, Reserved, TokenMark};

/// What is between two operands.
#[derive(Clone, Copy, Debug, PartialEq, Eq)]
pub enum Infix {
    Operator(Operator),
    AndAlso,
    OrElse,
    Send,
}

/// How the infixes of a level group.
#[derive(Clone, Copy, Debug, PartialEq, Eq)]
pub enum Grouping {
    Leftwards,
    Rightwards,
    Alone,
}

/// How tightly an infix binds, and how it groups. Level 0 is a part that no infix opens, and 1 such a part after a
/// minus.
#[derive(Clone, Copy, Debug, PartialEq, Eq)]
pub struct Binding {
    pub level: u32,
    pub grouping: Grouping,
}

/// The infix that a mark is.
fn mark_infix(mark: TokenMark) -> Option<Infix>
    ensures { result ≡ infix_of (NumberedTokens.mark mark) }
{
    match mark {
        TokenMark::Times => Some(Infix::Operator(Operator::Times)),
        TokenMark::Plus => Some(Infix::Operator(Operator::Plus)),
        TokenMark::Minus => Some(Infix::Operator(Operator::Minus)),
        TokenMark::Append => Some(Infix::Operator(Operator::Append)),
        TokenMark::Equal | TokenMark::ExactlyEqual => Some(Infix::Operator(Operator::Equal)),
        TokenMark::Unequal | TokenMark::ExactlyUnequal => Some(Infix::Operator(Operator::Unequal)),
        TokenMark::Less => Some(Infix::Operator(Operator::Less)),
        TokenMark::AtMost => Some(Infix::Operator(Operator::AtMost)),
        TokenMark::Greater => Some(Infix::Operator(Operator::Greater)),
        TokenMark::AtLeast => Some(Infix::Operator(Operator::AtLeast)),
        TokenMark::Send => Some(Infix::Send),
        _ => None,
    }
}

/// The infix that a kind of token is.
pub fn infix_of(kind: NumberedKind<'_>) -> Option<Infix>
    ensures { result ≡ infix_of (kind_of kind.entry) }
{
    match kind {
        NumberedKind::Mark(mark) => mark_infix(mark),
        NumberedKind::Reserved(Reserved::Div) => Some(Infix::Operator(Operator::Quotient)),
        NumberedKind::Reserved(Reserved::Rem) => Some(Infix::Operator(Operator::Remainder)),
        NumberedKind::Reserved(Reserved::Andalso) => Some(Infix::AndAlso),
        NumberedKind::Reserved(Reserved::Orelse) => Some(Infix::OrElse),
        _ => None,
    }
}

/// The binding of this level and grouping.
fn binds(level: u32, grouping: Grouping) -> Binding
    ensures level { result.level ≡ level }
    ensures grouping { result.grouping ≡ grouping }
{
    Binding { level, grouping }
}

impl Infix {
    /// How tightly it binds, and how it groups. Level 1 is a part after a minus or not.
    pub fn binding(self) -> Binding
        ensures { result ≡ binding_of self }
    {
        match self {
            Infix::Operator(Operator::Times) => binds(2, Grouping::Leftwards),
            Infix::Operator(Operator::Quotient) => binds(2, Grouping::Leftwards),
            Infix::Operator(Operator::Remainder) => binds(2, Grouping::Leftwards),
            Infix::Operator(Operator::Plus) => binds(3, Grouping::Leftwards),
            Infix::Operator(Operator::Minus) => binds(3, Grouping::Leftwards),
            Infix::Operator(Operator::Append) => binds(4, Grouping::Rightwards),
            Infix::Operator(Operator::Equal) => binds(5, Grouping::Alone),
            Infix::Operator(Operator::Unequal) => binds(5, Grouping::Alone),
            Infix::Operator(Operator::Less) => binds(5, Grouping::Alone),
            Infix::Operator(Operator::AtMost) => binds(5, Grouping::Alone),
            Infix::Operator(Operator::Greater) => binds(5, Grouping::Alone),
            Infix::Operator(Operator::AtLeast) => binds(5, Grouping::Alone),
            Infix::AndAlso => binds(6, Grouping::Rightwards),
            Infix::OrElse => binds(7, Grouping::Rightwards),
            Infix::Send => binds(8, Grouping::Rightwards),
        }
    }

    /// Its level.
    pub fn level(self) -> u32
        ensures { result ≡ level_of self }
    {
        self.binding().level
    }

    /// The greatest level of its left operand.
    pub fn left_level(self) -> u32
        ensures { result ≡ left_level self }
    {
        let binding = self.binding();
        match binding.grouping {
            Grouping::Leftwards => binding.level,
            Grouping::Rightwards | Grouping::Alone => binding.level.saturating_sub(1),
        }
    }

    /// The greatest level of its right operand.
    pub fn right_level(self) -> u32
        ensures { result ≡ right_level self }
    {
        let binding = self.binding();
        match binding.grouping {
            Grouping::Rightwards => binding.level,
            Grouping::Leftwards | Grouping::Alone => binding.level.saturating_sub(1),
        }
    }

    /// Whether it is allowed, in a guard where the flag says so.
    pub fn is_there(self, guard: bool) -> bool
        ensures { result ≡ infix_is_there guard self }
    {
        match self {
            Infix::Operator(Operator::Append) => may_be_there(guard, Form::Appending),
            Infix::Send => may_be_there(guard, Form::Sending),
            _ => true,
        }
    }

    /// Whether it is allowed after a left operand of the level `floor`, in an expression of this level.
    pub fn fits(self, guard: bool, floor: u32, level: u32) -> bool
        ensures { result ≡ infix_fits guard floor level self }
    {
        self.is_there(guard) && floor <= self.left_level() && self.level() <= level
    }
}
