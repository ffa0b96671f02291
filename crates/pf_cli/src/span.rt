//! For how long a hunt or an exploration goes on.

ghost use Rattle.std.specs.Prelude.{◌≡◌, ◌≤◌, ◌⊎◌, IfOk, IfErr, IfSome, Some, None};
ghost use Rattle.clap.specs.Words.{kind_of, rows_of, found_of};
ghost use Rattle.pf_cli.specs.Args.{time_in};
ghost use Rattle.pf_cli.specs.Span.{seconds_of, time_of, unit_of};

use crate::refusals::{Valued, refuse_value};
use crate::values::value;
use clap::error::ErrorKind;
use clap::{ArgMatches, Error};
use pf_text::number_of;
use std::alloc::Global;

/// What a time has to be.
const TIMES: &str =
    "a number of seconds, minutes or hours above 0, without leading zeros, as 90s, 5m or 2h";

/// How many seconds a unit of time has.
fn unit_of(unit: &[u8]) -> Option<u64>
    ensures is { result ≡ unit_of unit.now }
    ensures within { IfSome result (λ u. u ≤ 3600) }
{
    match unit {
        [b's'] => Some(1),
        [b'm'] => Some(60),
        [b'h'] => Some(3_600),
        _ => None,
    }
}

/// The seconds of a time.
fn seconds_of(number: Option<u32>, unit: Option<u64>) -> Option<u64>
    requires { IfSome unit (λ u. u ≤ 3600) }
    ensures { result ≡ seconds_of number unit }
{
    match (number, unit) {
        (Some(number @ 1..), Some(unit)) => Some(u64::from(number) * unit),
        _ => None,
    }
}

/// The seconds of the time that a word names.
fn time_of(word: &str) -> Option<u64>
    ensures { result ≡ time_of word.now }
{
    let text = word.as_bytes();
    let (number, unit) = text.split_at(text.len().saturating_sub(1));
    seconds_of(number_of(number), unit_of(unit))
}

/// For how many seconds a hunt or an exploration goes on at most, if a time is named.
pub(crate) fn time(alloc: Global, valued: Valued, rows: &ArgMatches) -> Result<Option<u64>, Error>
    ensures ok { IfOk result (λ t. time_in (rows_of (found_of rows.now)) ≡ Some t) }
    ensures err { IfErr result (λ e. (kind_of e ≡ ErrorKind.OutOfMemory)
        ⊎ ((kind_of e ≡ ErrorKind.InvalidValue) × (time_in (rows_of (found_of rows.now)) ≡ None))) }
{
    let Some(word) = value(rows, "for") else {
        return Ok(None);
    };
    match time_of(word) {
        Some(seconds) => Ok(Some(seconds)),
        None => Err(refuse_value(alloc, valued, "for <T>", word, TIMES)),
    }
}
