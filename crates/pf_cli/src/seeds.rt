//! The seeds of a hunt.

ghost use Rattle.std.specs.Prelude.{◌≡◌, ◌⊎◌, IfOk, IfErr, Some, None};
ghost use Rattle.clap.specs.Words.{kind_of, rows_of, found_of};
ghost use Rattle.pf_cli.specs.Args.{seeds_in};
ghost use Rattle.pf_cli.specs.Seeds.{after_dot, range_end, seeds_between, seeds_of};

use crate::refusals::{Valued, refuse_value};
use crate::values::value;
use clap::error::ErrorKind;
use clap::{ArgMatches, Error};
use pf_text::long_number_of;
use std::alloc::Global;

/// What seeds have to be.
const SEEDS: &str =
    "A..B, A..=B or N, numbers from 0 to 18446744073709551615 without leading zeros: the seeds from A to before B, up to B, or from 0 to before N";

/// The seeds from a first to before an end above it.
fn seeds_between(first: Option<u64>, end: Option<u64>) -> Option<(u64, u64)>
    ensures { result ≡ seeds_between first end }
{
    match (first, end) {
        (Some(first), Some(end)) if first < end => Some((first, end)),
        _ => None,
    }
}

/// The end of seeds that is written `B`, or `=B`, which has B before it.
fn end_of(text: &[u8]) -> Option<u64>
    ensures { result ≡ range_end text.now }
{
    match text {
        [b'=', last @ ..] => long_number_of(last)?.checked_add(1),
        end => long_number_of(end),
    }
}

/// The end of seeds after one more dot.
fn after_dot(text: &[u8]) -> Option<u64>
    ensures { result ≡ after_dot text.now }
{
    match text {
        [b'.', end @ ..] => end_of(end),
        _ => None,
    }
}

/// The seeds that a text names: the first, and the one before which they end.
fn seeds_of(text: &str) -> Option<(u64, u64)>
    ensures { result ≡ seeds_of text.now }
{
    match text.split_once('.') {
        Some((front, back)) => {
            seeds_between(long_number_of(front.as_bytes()), after_dot(back.as_bytes()))
        }
        None => seeds_between(Some(0), long_number_of(text.as_bytes())),
    }
}

/// The seeds of a hunt; where none are named the first 10,000, and beside a time all but the greatest.
pub(crate) fn seeds(alloc: Global, rows: &ArgMatches) -> Result<(u64, u64), Error>
    ensures ok { IfOk result (λ s. seeds_in (rows_of (found_of rows.now)) ≡ Some s) }
    ensures err { IfErr result (λ e. (kind_of e ≡ ErrorKind.OutOfMemory)
        ⊎ ((kind_of e ≡ ErrorKind.InvalidValue) × (seeds_in (rows_of (found_of rows.now)) ≡ None))) }
{
    let word = match (value(rows, "for"), value(rows, "seeds")) {
        (_, Some(word)) => word,
        (Some(_), None) => return Ok((0, u64::MAX)),
        (None, None) => return Ok((0, 10_000)),
    };
    match seeds_of(word) {
        Some(seeds) => Ok(seeds),
        None => Err(refuse_value(alloc, Valued::Hunt, "seeds <A..B>", word, SEEDS)),
    }
}
