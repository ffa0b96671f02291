//! Numbers and schedules in words, and schedules that are written.

ghost use Rattle.std.specs.Prelude.{◌≡◌, ◌==◌, ◌++◌, IfOk, OnOk, codes, flat_map, option_map, true};
ghost use Rattle.std.specs.Fmt.{decimal as digits_of};
ghost use Rattle.std.specs.List.{list_all, slice_split};
ghost use Rattle.pf_tokens.specs.Bytes.{is_digit};
ghost use Rattle.pf_tokens.specs.TokenKinds.{decimal};
ghost use Rattle.pf_text.specs.Schedules.{schedule_text};
ghost use Rattle.pf_text.specs.Numbers.{is_numeral, long, long_number_of, number_of_digits, numbers_of_texts};
ghost use Rattle.pf_text.specs.Numbers.{schedule_of};

use crate::text::{put, put_number};
use pf_errors::NoMemory;
use pf_tokens::is_digit;
use std::alloc::{AllocError, Global};

fn are_digits(text: &[u8]) -> bool
    ensures { result ≡ list_all is_digit text.now }
{
    text.iter().all(|byte| is_digit(*byte))
}

/// Whether a text is a number without a zero before other digits.
pub fn is_numeral(text: &[u8]) -> bool
    ensures { result ≡ is_numeral text.now }
{
    match text {
        [] => false,
        [digit] => is_digit(*digit),
        [first, ..] => *first != b'0' && are_digits(text),
    }
}

/// The value of the digits, where it is below 18,446,744,073,709,551,616.
fn value_of(digits: &[u8]) -> Option<u64>
    requires { list_all is_digit digits.now ≡ true }
    ensures { result ≡ long (decimal digits.now) }
{
    let mut value: u64 = 0;
    for digit in digits {
        let digit = u64::from(*digit - b'0');
        if value > (u64::MAX - digit) / 10 {
            return None;
        }
        value = 10 * value + digit;
    }
    Some(value)
}

/// The number that a text is, from 0 to 18,446,744,073,709,551,615, without a sign or a zero before other digits.
pub fn long_number_of(text: &[u8]) -> Option<u64>
    ensures { result ≡ long_number_of text.now }
{
    if !is_numeral(text) {
        return None;
    }
    value_of(text)
}

/// The number that a text is, from 0 to 4,294,967,295, without a sign or a zero before other digits.
pub fn number_of(text: &[u8]) -> Option<u32>
    ensures { result ≡ number_of_digits text.now }
{
    let number = long_number_of(text)?;
    u32::try_from(number).ok()
}

/// The numbers of a text with commas between them, where each piece is one.
fn numbers_of(alloc: Global, text: &[u8]) -> Result<Option<Vec<u32>>, AllocError>
    ensures { IfOk result (λ ns. option_map (λ v. v.items) ns ≡ numbers_of_texts
        (slice_split (λ b. b == 44) text.now)) }
{
    let mut numbers = Vec::new(alloc);
    for piece in text.split(|byte| *byte == b',') {
        match number_of(piece) {
            Some(number) => numbers.push(number)?,
            None => return Ok(None),
        }
    }
    Ok(Some(numbers))
}

/// The numbers of a schedule: none of `none`, and else those with commas between them.
pub fn schedule_of(alloc: Global, text: &[u8]) -> Result<Option<Vec<u32>>, AllocError>
    ensures { IfOk result (λ ns. option_map (λ v. v.items) ns ≡ schedule_of text.now) }
{
    if text == b"none".as_slice() {
        return Ok(Some(Vec::new(alloc)));
    }
    numbers_of(alloc, text)
}

/// Puts numbers after another, each after a comma.
fn put_others(out: &mut Vec<u8>, others: &[u32]) -> Result<(), NoMemory>
    ensures { OnOk result (out.new.items ≡ out.old.items ++ flat_map (λ n. codes "," ++ digits_of n) others.now) }
{
    for number in others {
        put(out, b",")?;
        put_number(out, u64::from(*number))?;
    }
    Ok(())
}

/// Puts the numbers of a schedule with commas between them, or `none`.
pub fn put_schedule(out: &mut Vec<u8>, numbers: &[u32]) -> Result<(), NoMemory>
    ensures { OnOk result (out.new.items ≡ out.old.items ++ schedule_text numbers.now) }
{
    let Some((first, others)) = numbers.split_first() else {
        return put(out, b"none");
    };
    put_number(out, u64::from(*first))?;
    put_others(out, others)
}
