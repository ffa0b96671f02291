//! The signs by which a source says where its nodes are.

ghost use Rattle.std.specs.Prelude.{◌≡◌};
ghost use Rattle.pf_positions.specs.Signs.{sign_number, operator_sign};

use pf_syntax::Operator;

/// What a token shows: a reserved word, an operator, a brace, or a name before a parenthesis.
#[derive(Clone, Copy, Debug)]
pub(crate) enum Sign {
    Receive,
    Case,
    If,
    AndAlso,
    OrElse,
    /// `!`.
    Send,
    /// `=`.
    Match,
    /// The name of a call or of a built-in function, or that in the head of a clause.
    Name,
    /// `{`, of a tuple or of the pattern of one.
    Brace,
    Plus,
    /// Between two operands, before one, or before the integer of a pattern.
    Minus,
    Times,
    /// `div`.
    Quotient,
    /// `rem`.
    Remainder,
    Append,
    Equal,
    Unequal,
    Less,
    AtMost,
    Greater,
    AtLeast,
    /// That of a list and of a comma: no token shows for certain of which node it is.
    Unwritten,
}

/// How many signs there are.
pub(crate) const SIGNS: u8 = 22;

impl Sign {
    /// The number of a sign.
    pub(crate) fn number(self) -> u8
        ensures { result ≡ sign_number self }
    {
        match self {
            Sign::Receive => 0,
            Sign::Case => 1,
            Sign::If => 2,
            Sign::AndAlso => 3,
            Sign::OrElse => 4,
            Sign::Send => 5,
            Sign::Match => 6,
            Sign::Name => 7,
            Sign::Brace => 8,
            Sign::Plus => 9,
            Sign::Minus => 10,
            Sign::Times => 11,
            Sign::Quotient => 12,
            Sign::Remainder => 13,
            Sign::Append => 14,
            Sign::Equal => 15,
            Sign::Unequal => 16,
            Sign::Less => 17,
            Sign::AtMost => 18,
            Sign::Greater => 19,
            Sign::AtLeast => 20,
            Sign::Unwritten => 21,
        }
    }

    /// The sign of an operator.
    pub(crate) fn of_operator(operator: Operator) -> Sign
        ensures { result ≡ operator_sign operator }
    {
        match operator {
            Operator::Plus => Sign::Plus,
            Operator::Minus => Sign::Minus,
            Operator::Times => Sign::Times,
            Operator::Quotient => Sign::Quotient,
            Operator::Remainder => Sign::Remainder,
            Operator::Append => Sign::Append,
            Operator::Equal => Sign::Equal,
            Operator::Unequal => Sign::Unequal,
            Operator::Less => Sign::Less,
            Operator::AtMost => Sign::AtMost,
            Operator::Greater => Sign::Greater,
            Operator::AtLeast => Sign::AtLeast,
        }
    }
}
