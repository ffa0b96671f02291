//! The reserved words, and the value of digits.
ghost use Rattle.std.specs.Prelude.{◌≡◌, ◌∷◌, List, ℕ, option_map};
ghost use Rattle.std.specs.List.{AllPass, find};
ghost use Rattle.std.specs.Str.{bytes_eq};
ghost use Rattle.pf_tokens.specs.Bytes.{is_digit};
ghost use Rattle.pf_tokens.specs.TokenKinds.{reserved_text, reserved_of, decimal, checked};

use crate::token::Integer;

/// A word that is no atom, unless it is quoted.
#[derive(Clone, Copy, Debug, PartialEq, Eq)]
pub enum Reserved {
    After,
    And,
    Andalso,
    Band,
    Begin,
    Bnot,
    Bor,
    Bsl,
    Bsr,
    Bxor,
    Case,
    Catch,
    Cond,
    Div,
    End,
    Fun,
    If,
    Let,
    Not,
    Of,
    Or,
    Orelse,
    Receive,
    Rem,
    Try,
    When,
    Xor,
}

impl Reserved {
    /// How the word is written.
    pub fn text(self) -> &'static [u8]
        ensures { result.now ≡ reserved_text self }
    {
        match self {
            Reserved::After => b"after",
            Reserved::And => b"and",
            Reserved::Andalso => b"andalso",
            Reserved::Band => b"band",
            Reserved::Begin => b"begin",
            Reserved::Bnot => b"bnot",
            Reserved::Bor => b"bor",
            Reserved::Bsl => b"bsl",
            Reserved::Bsr => b"bsr",
            Reserved::Bxor => b"bxor",
            Reserved::Case => b"case",
            Reserved::Catch => b"catch",
            Reserved::Cond => b"cond",
            Reserved::Div => b"div",
            Reserved::End => b"end",
            Reserved::Fun => b"fun",
            Reserved::If => b"if",
            Reserved::Let => b"let",
            Reserved::Not => b"not",
            Reserved::Of => b"of",
            Reserved::Or => b"or",
            Reserved::Orelse => b"orelse",
            Reserved::Receive => b"receive",
            Reserved::Rem => b"rem",
            Reserved::Try => b"try",
            Reserved::When => b"when",
            Reserved::Xor => b"xor",
        }
    }
}

/// The reserved words that begin with a byte.
fn beginning_with(first: u8) -> &'static [Reserved]
    ensures { (others : List ℕ) → find (λ r. bytes_eq (reserved_text r) (first ∷ others)) result.now
        ≡ reserved_of (first ∷ others) }
{
    match first {
        b'a' => &[Reserved::After, Reserved::And, Reserved::Andalso],
        b'b' => &[
            Reserved::Band,
            Reserved::Begin,
            Reserved::Bnot,
            Reserved::Bor,
            Reserved::Bsl,
            Reserved::Bsr,
            Reserved::Bxor,
        ],
        b'c' => &[Reserved::Case, Reserved::Catch, Reserved::Cond],
        b'd' => &[Reserved::Div],
        b'e' => &[Reserved::End],
        b'f' => &[Reserved::Fun],
        b'i' => &[Reserved::If],
        b'l' => &[Reserved::Let],
        b'n' => &[Reserved::Not],
        b'o' => &[Reserved::Of, Reserved::Or, Reserved::Orelse],
        b'r' => &[Reserved::Receive, Reserved::Rem],
        b't' => &[Reserved::Try],
        b'w' => &[Reserved::When],
        b'x' => &[Reserved::Xor],
        _ => &[],
    }
}

/// The reserved word that the bytes write, if they write one.
pub fn reserved_of(word: &[u8]) -> Option<Reserved>
    ensures { result ≡ reserved_of word.now }
{
    let [first, _, ..] = word else {
        return None;
    };
    beginning_with(*first)
        .iter()
        .copied()
        .find(|reserved| reserved.text() == word)
}

const LIMIT: u64 = 9_223_372_036_854_775_807;

/// The value of the digits, unless it is above 9223372036854775807.
pub fn integer_of(digits: &[u8]) -> Option<Integer>
    requires { AllPass is_digit digits.now }
    ensures { option_map (λ n. n.value) result ≡ checked (decimal digits.now) }
{
    let mut value: u64 = 0;
    for digit in digits {
        let digit = u64::from(*digit - b'0');
        if value > (LIMIT - digit) / 10 {
            return None;
        }
        value = 10 * value + digit;
    }
    Some(Integer { value })
}
