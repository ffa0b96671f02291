//! The marks: punctuation and operators. The longest one at an offset is taken.
ghost use Rattle.std.specs.Prelude.{◌≡◌};
ghost use Rattle.pf_tokens.specs.TokenKinds.{mark_text, longest_mark};

/// A mark.
#[derive(Clone, Copy, Debug, PartialEq, Eq)]
pub enum TokenMark {
    /// `=:=`
    ExactlyEqual,
    /// `=/=`
    ExactlyUnequal,
    /// `->`
    Arrow,
    /// `++`
    Append,
    /// `==`
    Equal,
    /// `/=`
    Unequal,
    /// `=<`
    AtMost,
    /// `>=`
    AtLeast,
    /// `--`
    Subtract,
    /// `<-`
    Generator,
    /// `(`
    OpenParenthesis,
    /// `)`
    CloseParenthesis,
    /// `{`
    OpenBrace,
    /// `}`
    CloseBrace,
    /// `[`
    OpenBracket,
    /// `]`
    CloseBracket,
    /// `,`
    Comma,
    /// `;`
    Semicolon,
    /// `|`
    Bar,
    /// `=`
    Match,
    /// `!`
    Send,
    /// `+`
    Plus,
    /// `-`
    Minus,
    /// `*`
    Times,
    /// `/`
    Slash,
    /// `<`
    Less,
    /// `>`
    Greater,
}

// The longer ones first.
const MARKS: [TokenMark; 27] = [
    TokenMark::ExactlyEqual,
    TokenMark::ExactlyUnequal,
    TokenMark::Arrow,
    TokenMark::Append,
    TokenMark::Equal,
    TokenMark::Unequal,
    TokenMark::AtMost,
    TokenMark::AtLeast,
    TokenMark::Subtract,
    TokenMark::Generator,
    TokenMark::OpenParenthesis,
    TokenMark::CloseParenthesis,
    TokenMark::OpenBrace,
    TokenMark::CloseBrace,
    TokenMark::OpenBracket,
    TokenMark::CloseBracket,
    TokenMark::Comma,
    TokenMark::Semicolon,
    TokenMark::Bar,
    TokenMark::Match,
    TokenMark::Send,
    TokenMark::Plus,
    TokenMark::Minus,
    TokenMark::Times,
    TokenMark::Slash,
    TokenMark::Less,
    TokenMark::Greater,
];

impl TokenMark {
    /// How the mark is written.
    pub fn text(self) -> &'static [u8]
        ensures { result.now ≡ mark_text self }
    {
        match self {
            TokenMark::ExactlyEqual => b"=:=",
            TokenMark::ExactlyUnequal => b"=/=",
            TokenMark::Arrow => b"->",
            TokenMark::Append => b"++",
            TokenMark::Equal => b"==",
            TokenMark::Unequal => b"/=",
            TokenMark::AtMost => b"=<",
            TokenMark::AtLeast => b">=",
            TokenMark::Subtract => b"--",
            TokenMark::Generator => b"<-",
            TokenMark::OpenParenthesis => b"(",
            TokenMark::CloseParenthesis => b")",
            TokenMark::OpenBrace => b"{",
            TokenMark::CloseBrace => b"}",
            TokenMark::OpenBracket => b"[",
            TokenMark::CloseBracket => b"]",
            TokenMark::Comma => b",",
            TokenMark::Semicolon => b";",
            TokenMark::Bar => b"|",
            TokenMark::Match => b"=",
            TokenMark::Send => b"!",
            TokenMark::Plus => b"+",
            TokenMark::Minus => b"-",
            TokenMark::Times => b"*",
            TokenMark::Slash => b"/",
            TokenMark::Less => b"<",
            TokenMark::Greater => b">",
        }
    }
}

/// The longest mark at the front, if there is one.
pub fn longest_mark(bytes: &[u8]) -> Option<TokenMark>
    ensures { result ≡ longest_mark bytes.now }
{
    MARKS
        .iter()
        .copied()
        .find(|mark| bytes.starts_with(mark.text()))
}
