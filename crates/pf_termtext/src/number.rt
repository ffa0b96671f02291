//! Integers in a text.

ghost use Rattle.std.specs.Prelude.{◌≡◌, ◌<◌, ◌^◌, MatchOption, true};
ghost use Rattle.std.specs.List.{list_all};
ghost use Rattle.pf_tokens.specs.Bytes.{is_digit};
ghost use Rattle.pf_tokens.specs.TokenKinds.{decimal};
ghost use Rattle.pf_terms.specs.Term.{value_of};
ghost use Rattle.pf_termtext.specs.Reading.{Gives, integer_at, integer_of_digits, signed};

use crate::bytes::split_word;
use crate::fault::{Fault, no_term};
use pf_terms::Term;
use pf_text::is_numeral;

/// The greatest value that an integer has without its sign.
const LIMIT: u64 = 1 << 63;

/// The value of the digits, unless it is greater than that of any integer.
fn magnitude(digits: &[u8]) -> Option<u64>
    requires { list_all is_digit digits.now ≡ true }
    ensures { MatchOption result (2 ^ 63 < decimal digits.now) (λ n. n ≡ decimal digits.now) }
{
    let mut value: u64 = 0;
    for digit in digits {
        let digit = u64::from(*digit - b'0');
        if value > (LIMIT - digit) / 10 {
            return None;
        }
        value = 10 * value + digit;
    }
    Some(value)
}

/// The integer of this value, with a minus sign or without. Zero has no sign.
fn signed(is_negative: bool, magnitude: u64) -> Option<i64>
    ensures { result ≡ signed is_negative magnitude }
{
    if !is_negative {
        return i64::try_from(magnitude).ok();
    }
    let beyond = i64::try_from(magnitude.checked_sub(1)?).ok()?;
    Some(-1 - beyond)
}

/// The integer that the digits are, with a minus sign or without.
fn integer_of(is_negative: bool, digits: &[u8]) -> Option<i64>
    ensures { result ≡ integer_of_digits is_negative digits.now }
{
    if !is_numeral(digits) {
        return None;
    }
    signed(is_negative, magnitude(digits)?)
}

/// Reads the integer whose digits are at the front.
pub fn read_integer(is_negative: bool, text: &[u8]) -> Result<(Term, &[u8]), Fault>
    ensures { Gives (λ p. (value_of p.0, p.1.now)) result (integer_at is_negative text.now) }
{
    let (digits, rest) = split_word(text);
    match integer_of(is_negative, digits) {
        Some(integer) => Ok((Term::Int(integer), rest)),
        None => Err(no_term()),
    }
}
