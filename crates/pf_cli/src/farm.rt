//! What the words of `farm` ask for.

ghost use Rattle.std.specs.Prelude.{◌≡◌, ◌≤◌, ◌⊎◌, IfOk, IfErr, Some, None, codes, map, option_and_then, vec_len};
ghost use Rattle.clap.specs.Words.{all_of, kind_of, rows_of, found_of};
ghost use Rattle.pf_cli.specs.Args.{as_files, as_workers, farm_of, option_number, view_of_farm_args};

use crate::args::FarmArgs;
use crate::refusals::{Valued, mistake, refuse_file, refuse_number};
use crate::values::{WORKERS, as_workers, is_given, value, values};
use clap::error::ErrorKind;
use clap::{ArgMatches, Error};
use std::alloc::Global;

/// What is said of a file too many.
const FILES: &str = "'<FILE>...': it wants at most 64 files, and this is the 65th";

/// How many workers there are.
fn workers(alloc: Global, rows: &ArgMatches) -> Result<u32, Error>
    ensures ok { IfOk result (λ n.
        option_and_then as_workers (option_number (codes "workers") (rows_of (found_of rows.now))) ≡ Some n) }
    ensures within { IfOk result (λ n. (1 ≤ n) × (n ≤ 64)) }
    ensures err { IfErr result (λ e. (kind_of e ≡ ErrorKind.OutOfMemory)
        ⊎ ((kind_of e ≡ ErrorKind.InvalidValue)
        × (option_and_then as_workers (option_number (codes "workers") (rows_of (found_of rows.now))) ≡ None))) }
{
    let Some(word) = value(rows, "workers") else {
        return Err(mistake(alloc, "--workers is missing"));
    };
    match as_workers(word) {
        Some(number) => Ok(number),
        None => Err(refuse_number(alloc, Valued::Farm, "workers", word, WORKERS)),
    }
}

/// The files of the clients.
fn files<'a>(alloc: Global, rows: &ArgMatches<'a>) -> Result<Vec<&'a str>, Error>
    ensures ok { IfOk result (λ v.
        option_and_then as_files (all_of (codes "files") (rows_of (found_of rows.now)))
        ≡ Some (map (λ s. s.now) v.items)) }
    ensures within { IfOk result (λ v. (1 ≤ vec_len v) × (vec_len v ≤ 64)) }
    ensures err { IfErr result (λ e. (kind_of e ≡ ErrorKind.OutOfMemory)
        ⊎ ((kind_of e ≡ ErrorKind.InvalidValue)
        × (option_and_then as_files (all_of (codes "files") (rows_of (found_of rows.now))) ≡ None))) }
{
    let Some(named) = values(rows, "files") else {
        return Err(mistake(alloc, "a file is missing"));
    };
    if named.is_empty() {
        return Err(mistake(alloc, "a file is missing"));
    }
    if let Some(extra) = named.get(64) {
        return Err(refuse_file(alloc, Valued::Farm, extra, FILES));
    }
    match Vec::from_slice(alloc, named) {
        Ok(files) => Ok(files),
        Err(e) => Err(Error::from(e)),
    }
}

/// The farm that the values of the options ask for.
pub(crate) fn farm_args<'a>(alloc: Global, rows: &ArgMatches<'a>) -> Result<FarmArgs<'a>, Error>
    ensures ok { IfOk result (λ a. farm_of (rows_of (found_of rows.now)) ≡ Some (view_of_farm_args a)) }
    ensures err { IfErr result (λ e. (kind_of e ≡ ErrorKind.OutOfMemory)
        ⊎ ((kind_of e ≡ ErrorKind.InvalidValue) × (farm_of (rows_of (found_of rows.now)) ≡ None))) }
{
    let workers = match workers(alloc, rows) {
        Ok(workers) => workers,
        Err(e) => return Err(e),
    };
    match files(alloc, rows) {
        Ok(files) => Ok(FarmArgs {
            workers,
            files,
            replies: value(rows, "replies"),
            summary: is_given(rows, "summary"),
        }),
        Err(e) => Err(e),
    }
}
