//! What the words of `explore` ask for.

ghost use Rattle.std.specs.Prelude.{◌≡◌, ◌≤◌, ◌⊎◌, IfOk, IfErr, IfSome, Some, None, codes, option_and_then, option_map};
ghost use Rattle.clap.specs.Words.{first_of, kind_of, rows_of, found_of};
ghost use Rattle.pf_text.specs.Numbers.{number_of_digits};
ghost use Rattle.pf_cli.specs.Args.{explore_of, explore_reach_in, file_named, view_of_explore_args, view_of_reach};
ghost use Rattle.pf_cli.specs.Explore.{as_deviations, as_runs, budget_named, deviations_named, runs_named};

use crate::args::{ExploreArgs, ExploreReach};
use crate::parse::request;
use crate::refusals::{Valued, refuse_number, refuse_value};
use crate::span::time;
use crate::strategy::last;
use crate::values::{RUNS, bounds, named_file, named_property, named_root, value};
use clap::error::ErrorKind;
use clap::{ArgMatches, Error};
use pf_request::{RequestKind, RunChoices};
use pf_text::{long_number_of, number_of};
use std::alloc::Global;

/// What a budget has to be.
const BUDGETS: &str = "a number of runs from 1 to 18446744073709551615, without leading zeros";

/// What deviations have to be.
const DEVIATIONS: &str = "a number of deviations from 0 to 100000, without leading zeros";

/// The most runs; 2,000,000 where none are named.
fn budget(alloc: Global, rows: &ArgMatches) -> Result<u64, Error>
    ensures ok { IfOk result (λ n. budget_named (first_of (codes "budget") (rows_of (found_of rows.now))) ≡ Some n) }
    ensures err { IfErr result (λ e. (kind_of e ≡ ErrorKind.OutOfMemory)
        ⊎ ((kind_of e ≡ ErrorKind.InvalidValue)
        × (budget_named (first_of (codes "budget") (rows_of (found_of rows.now))) ≡ None))) }
{
    let Some(word) = value(rows, "budget") else {
        return Ok(2_000_000);
    };
    match long_number_of(word.as_bytes()) {
        Some(budget @ 1..) => Ok(budget),
        _ => Err(refuse_number(alloc, Valued::Explore, "budget", word, BUDGETS)),
    }
}

/// The number of deviations that a word names.
fn as_deviations(word: &str) -> Option<u32>
    ensures number { result ≡ option_and_then as_deviations (number_of_digits word.now) }
    ensures few { IfSome result (λ k. k ≤ 100000) }
{
    match number_of(word.as_bytes()) {
        Some(deviations @ ..=100_000) => Some(deviations),
        _ => None,
    }
}

/// The most deviations of a run, if any are named.
fn deviations(alloc: Global, rows: &ArgMatches) -> Result<Option<u32>, Error>
    ensures ok { IfOk result (λ k.
        deviations_named (first_of (codes "deviations") (rows_of (found_of rows.now))) ≡ Some k) }
    ensures few { IfOk result (λ k. IfSome k (λ most. most ≤ 100000)) }
    ensures err { IfErr result (λ e. (kind_of e ≡ ErrorKind.OutOfMemory)
        ⊎ ((kind_of e ≡ ErrorKind.InvalidValue)
        × (deviations_named (first_of (codes "deviations") (rows_of (found_of rows.now))) ≡ None))) }
{
    let Some(word) = value(rows, "deviations") else {
        return Ok(None);
    };
    match as_deviations(word) {
        Some(deviations) => Ok(Some(deviations)),
        None => Err(refuse_value(alloc, Valued::Explore, "deviations <K>", word, DEVIATIONS)),
    }
}

/// How far an exploration goes.
fn explore_reach(alloc: Global, rows: &ArgMatches) -> Result<ExploreReach, Error>
    ensures ok { IfOk result (λ r. explore_reach_in (rows_of (found_of rows.now)) ≡ Some (view_of_reach r)) }
    ensures err { IfErr result (λ e. (kind_of e ≡ ErrorKind.OutOfMemory)
        ⊎ ((kind_of e ≡ ErrorKind.InvalidValue) × (explore_reach_in (rows_of (found_of rows.now)) ≡ None))) }
{
    let budget = match budget(alloc, rows) {
        Ok(budget) => budget,
        Err(e) => return Err(e),
    };
    let time = match time(alloc, Valued::Explore, rows) {
        Ok(time) => time,
        Err(e) => return Err(e),
    };
    match deviations(alloc, rows) {
        Ok(deviations) => Ok(ExploreReach {
            budget,
            time,
            deviations,
        }),
        Err(e) => Err(e),
    }
}

/// The runs of a shrinking that a word names.
fn as_runs(word: &str) -> Option<u32>
    ensures { result ≡ option_and_then as_runs (number_of_digits word.now) }
{
    match number_of(word.as_bytes()) {
        Some(runs @ 1..=1_000) => Some(runs),
        _ => None,
    }
}

/// Within how many runs a schedule that fails is shrunk, if it is.
fn runs(alloc: Global, rows: &ArgMatches) -> Result<Option<u32>, Error>
    ensures ok { IfOk result (λ n. runs_named (first_of (codes "shrink") (rows_of (found_of rows.now))) ≡ Some n) }
    ensures err { IfErr result (λ e. (kind_of e ≡ ErrorKind.OutOfMemory)
        ⊎ ((kind_of e ≡ ErrorKind.InvalidValue)
        × (runs_named (first_of (codes "shrink") (rows_of (found_of rows.now))) ≡ None))) }
{
    let Some(word) = value(rows, "shrink") else {
        return Ok(None);
    };
    match as_runs(word) {
        Some(runs) => Ok(Some(runs)),
        None => Err(refuse_number(alloc, Valued::Explore, "shrink", word, RUNS)),
    }
}

/// The exploration that the values of the options ask for.
pub(crate) fn explore_args<'a>(
    alloc: Global,
    rows: &ArgMatches<'a>,
) -> Result<ExploreArgs<'a>, Error>
    ensures ok { IfOk result (λ a. explore_of (rows_of (found_of rows.now)) ≡ Some (view_of_explore_args a)) }
    ensures file { IfOk result (λ a. option_map (λ s. s.now) a.file
        ≡ file_named (first_of (codes "file") (rows_of (found_of rows.now)))) }
    ensures err { IfErr result (λ e. (kind_of e ≡ ErrorKind.OutOfMemory)
        ⊎ ((kind_of e ≡ ErrorKind.InvalidValue) × (explore_of (rows_of (found_of rows.now)) ≡ None))) }
{
    let (limit, edition) = match bounds(alloc, Valued::Explore, rows) {
        Ok(bounds) => bounds,
        Err(e) => return Err(e),
    };
    let last = match last(alloc, Valued::Explore, rows) {
        Ok(last) => last,
        Err(e) => return Err(e),
    };
    let reach = match explore_reach(alloc, rows) {
        Ok(reach) => reach,
        Err(e) => return Err(e),
    };
    let runs = match runs(alloc, rows) {
        Ok(runs) => runs,
        Err(e) => return Err(e),
    };
    let kind = RequestKind::Run(RunChoices::Seed(0));
    match request(alloc, named_root(rows), named_property(rows), kind, limit) {
        Ok(request) => Ok(ExploreArgs {
            file: named_file(rows),
            request,
            edition,
            last,
            reach,
            runs,
        }),
        Err(e) => Err(e),
    }
}
