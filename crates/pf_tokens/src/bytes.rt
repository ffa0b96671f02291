//! The classes of bytes, and how far a run of one class goes.
ghost use Rattle.std.specs.Prelude.{◌≡◌, ◌≤◌, length, not, ◌==◌};
ghost use Rattle.std.specs.List.{prefix_len};
ghost use Rattle.pf_tokens.specs.Bytes.{
  is_blank,
  is_digit,
  is_lower,
  is_upper,
  is_word_byte,
  is_visible,
  is_quotable,
  is_comment,
  is_joined,
  ends,
  kind_class_of,
  class_of,
};

/// What a piece of the text can be, by its first byte.
#[derive(Clone, Copy)]
pub enum Class {
    Blank,
    Percent,
    Digit,
    Lower,
    Upper,
    Dollar,
    Quote,
    DoubleQuote,
    Question,
    Dot,
    Other,
}

/// A tabulator, a line end, a carriage return or a space.
pub fn is_blank(byte: u8) -> bool
    ensures { result ≡ is_blank byte }
{
    byte == b'\t' || byte == b'\n' || byte == b'\r' || byte == b' '
}

/// A decimal digit.
pub fn is_digit(byte: u8) -> bool
    ensures { result ≡ is_digit byte }
{
    byte >= b'0' && byte <= b'9'
}

/// A letter from `a` to `z`.
pub fn is_lower(byte: u8) -> bool
    ensures { result ≡ is_lower byte }
{
    byte >= b'a' && byte <= b'z'
}

/// A letter from `A` to `Z`, or `_`.
pub fn is_upper(byte: u8) -> bool
    ensures { result ≡ is_upper byte }
{
    byte >= b'A' && byte <= b'Z' || byte == b'_'
}

/// A letter, a digit, `_` or `@`.
pub fn is_word(byte: u8) -> bool
    ensures { result ≡ is_word_byte byte }
{
    is_lower(byte) || is_upper(byte) || is_digit(byte) || byte == b'@'
}

/// A byte from the space to `~`.
pub fn is_visible(byte: u8) -> bool
    ensures { result ≡ is_visible byte }
{
    byte >= b' ' && byte <= b'~'
}

/// A byte that quotes may contain: from the space to `~`, a tabulator or a line end.
pub fn is_quotable(byte: u8) -> bool
    ensures { result ≡ is_quotable byte }
{
    is_visible(byte) || byte == b'\t' || byte == b'\n'
}

/// What begins with the byte.
pub fn class_of(byte: u8) -> Class
    ensures { result ≡ class_of byte }
{
    if is_blank(byte) {
        Class::Blank
    } else if byte == b'%' {
        Class::Percent
    } else if is_digit(byte) {
        Class::Digit
    } else if is_lower(byte) {
        Class::Lower
    } else if is_upper(byte) {
        Class::Upper
    } else {
        kind_class_of(byte)
    }
}

/// What begins with a byte that is no blank, `%`, letter, digit or `_`.
fn kind_class_of(byte: u8) -> Class
    ensures { result ≡ kind_class_of byte }
{
    if byte == b'$' {
        Class::Dollar
    } else if byte == b'\'' {
        Class::Quote
    } else if byte == b'"' {
        Class::DoubleQuote
    } else if byte == b'?' {
        Class::Question
    } else if byte == b'.' {
        Class::Dot
    } else {
        Class::Other
    }
}

/// How many digits are at the front.
pub fn digits_length(bytes: &[u8]) -> usize
    ensures length { result ≡ prefix_len is_digit bytes.now }
    ensures within { result ≤ length bytes.now }
{
    bytes.iter().take_while(|b| is_digit(**b)).count()
}

/// How many letters, digits, `_` and `@` are at the front.
pub fn word_length(bytes: &[u8]) -> usize
    ensures length { result ≡ prefix_len is_word_byte bytes.now }
    ensures within { result ≤ length bytes.now }
{
    bytes.iter().take_while(|b| is_word(**b)).count()
}

/// How many bytes are before the first line end.
pub fn line_length(bytes: &[u8]) -> usize
    ensures length { result ≡ prefix_len is_comment bytes.now }
    ensures within { result ≤ length bytes.now }
{
    bytes.iter().take_while(|b| **b != b'\n').count()
}

/// Whether the text ends here, or goes on with a byte that prolongs no word.
pub fn ends_word(rest: &[u8]) -> bool
    ensures { result ≡ ends is_word_byte rest.now }
{
    match rest.split_first() {
        None => true,
        Some((first, _)) => !is_word(*first),
    }
}

/// Whether the text ends here, or goes on with a blank or a comment.
pub fn ends_form(rest: &[u8]) -> bool
    ensures { result ≡ ends is_joined rest.now }
{
    match rest.split_first() {
        None => true,
        Some((first, _)) => is_blank(*first) || *first == b'%',
    }
}
