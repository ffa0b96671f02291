//! How a seed chooses: the strategy, and the process that goes last.

ghost use Rattle.std.specs.Prelude.{◌≡◌, ◌⊎◌, IfOk, IfErr, Some, None, codes, option_map};
ghost use Rattle.clap.specs.Words.{kind_of, first_of, rows_of, found_of};
ghost use Rattle.pf_request.specs.View.{view_of_choices};
ghost use Rattle.pf_cli.specs.Args.{guided_by, guided_in, hunt_sampling, hunt_strategy, last_in, sampling_named};
ghost use Rattle.pf_cli.specs.Args.{sampling_of, weights_by};
ghost use Rattle.pf_cli.specs.Pids.{is_enclosed, unenclosed};

use crate::args::WeightArgs;
use crate::refusals::{Valued, refuse_value};
use crate::values::value;
use clap::error::ErrorKind;
use clap::{ArgMatches, Error};
use pf_request::RunChoices;
use pf_strategy::{Sampling, SeedChoice, Strategy};
use pf_text::number_of;
use std::alloc::Global;

/// What a strategy has to be.
const STRATEGIES: &str = "`pos` or `uniform`; `pos` needs a seed, and no weights";

/// What the process that goes last has to be.
const PIDS: &str = "a process by its number, as 3 or <3>; it needs a seed";

/// The same of an exploration, which has no seed.
const PIDS_EXPLORED: &str = "a process by its number, as 3 or <3>";

/// Whether a text is between `<` and `>`.
fn is_enclosed(text: &[u8]) -> bool
    ensures { result ≡ is_enclosed text.now }
{
    text.len() >= 2 && text[0] == b'<' && text[text.len() - 1] == b'>'
}

/// What is between them; else the whole text.
fn unenclosed(text: &[u8]) -> &[u8]
    ensures { result.now ≡ unenclosed text.now }
{
    if is_enclosed(text) {
        &text[1..text.len() - 1]
    } else {
        text
    }
}

/// What the process that goes last has to be, of a command.
fn pids_of(valued: Valued) -> &'static str {
    match valued {
        Valued::Explore => PIDS_EXPLORED,
        _ => PIDS,
    }
}

/// The process that goes last, if one is named.
pub(crate) fn last(alloc: Global, valued: Valued, rows: &ArgMatches) -> Result<Option<u32>, Error>
    ensures ok { IfOk result (λ p. last_in (rows_of (found_of rows.now)) ≡ Some p) }
    ensures err { IfErr result (λ e. (kind_of e ≡ ErrorKind.OutOfMemory)
        ⊎ ((kind_of e ≡ ErrorKind.InvalidValue) × (last_in (rows_of (found_of rows.now)) ≡ None))) }
{
    let Some(word) = value(rows, "last") else {
        return Ok(None);
    };
    match number_of(unenclosed(word.as_bytes())) {
        Some(pid) => Ok(Some(pid)),
        None => Err(refuse_value(alloc, valued, "last <PID>", word, pids_of(valued))),
    }
}

/// An error that names the strategy.
fn refuse_strategy(alloc: Global, valued: Valued, word: Option<&str>) -> Error
    ensures { (kind_of result ≡ ErrorKind.OutOfMemory) ⊎ (kind_of result ≡ ErrorKind.InvalidValue) }
{
    let word = word.unwrap_or("");
    refuse_value(alloc, valued, "strategy <S>", word, STRATEGIES)
}

/// An error that names the strategy of a run, or the process that goes last beside choices of no seed.
fn refuse_guided(alloc: Global, valued: Valued, rows: &ArgMatches) -> Error
    ensures { (kind_of result ≡ ErrorKind.OutOfMemory) ⊎ (kind_of result ≡ ErrorKind.InvalidValue) }
{
    let word = value(rows, "strategy");
    match (sampling_named(Sampling::Uniform, word), value(rows, "last")) {
        (Some(Sampling::Uniform), Some(last)) => {
            refuse_value(alloc, valued, "last <PID>", last, PIDS)
        }
        _ => refuse_strategy(alloc, valued, word),
    }
}

/// The strategy that a word names.
fn sampling_of(word: &str) -> Option<Sampling>
    ensures { result ≡ sampling_of word.now }
{
    if word == "pos" {
        Some(Sampling::Priorities)
    } else if word == "uniform" {
        Some(Sampling::Uniform)
    } else {
        None
    }
}

/// The strategy that is named, or else this one.
fn sampling_named(sampling: Sampling, word: Option<&str>) -> Option<Sampling>
    ensures { result ≡ sampling_named sampling (option_map (λ s. s.now) word.entry) }
{
    match word {
        Some(word) => sampling_of(word),
        None => Some(sampling),
    }
}

/// The seed by which a run goes in place of its choices, if any, by its strategy and the process that goes last.
fn guided_by(
    sampling: Option<Sampling>,
    last: Option<u32>,
    choices: &RunChoices,
) -> Option<Option<SeedChoice>>
    ensures { result ≡ guided_by sampling last (view_of_choices choices.now) }
{
    let sampling = sampling?;
    let seed = match (sampling, last, choices) {
        (Sampling::Uniform, None, _) => return Some(None),
        (_, _, RunChoices::Seed(seed)) => *seed,
        (Sampling::Uniform, Some(_), RunChoices::Weighted { seed, .. }) => *seed,
        _ => return None,
    };
    let strategy = Strategy { sampling, last };
    Some(Some(SeedChoice { seed, strategy }))
}

/// The seed by which a run with these choices goes in place of them, if any.
pub(crate) fn guided(
    alloc: Global,
    valued: Valued,
    rows: &ArgMatches,
    choices: &RunChoices,
) -> Result<Option<SeedChoice>, Error>
    ensures ok { IfOk result (λ p.
        guided_in (Some (view_of_choices choices.now)) (rows_of (found_of rows.now)) ≡ Some p) }
    ensures err { IfErr result (λ e. (kind_of e ≡ ErrorKind.OutOfMemory)
        ⊎ ((kind_of e ≡ ErrorKind.InvalidValue)
        × (guided_in (Some (view_of_choices choices.now)) (rows_of (found_of rows.now)) ≡ None))) }
{
    let last = match last(alloc, valued, rows) {
        Ok(last) => last,
        Err(e) => return Err(e),
    };
    let word = value(rows, "strategy");
    match guided_by(sampling_named(Sampling::Uniform, word), last, choices) {
        Some(by_seed) => Ok(by_seed),
        None => Err(refuse_guided(alloc, valued, rows)),
    }
}

/// The strategy of a hunt with these weights, if any are named.
fn hunt_sampling(weights: Option<WeightArgs>, word: Option<&str>) -> Option<Sampling>
    ensures { result ≡ hunt_sampling (option_map weights_by weights) (option_map (λ s. s.now) word.entry) }
{
    if weights.is_none() {
        return sampling_named(Sampling::Priorities, word);
    }
    match sampling_named(Sampling::Uniform, word) {
        Some(Sampling::Uniform) => Some(Sampling::Uniform),
        _ => None,
    }
}

/// The strategy of a hunt.
pub(crate) fn strategy(
    alloc: Global,
    rows: &ArgMatches,
    weights: Option<WeightArgs>,
) -> Result<Strategy, Error>
    ensures ok { IfOk result (λ s. hunt_strategy (last_in (rows_of (found_of rows.now)))
        (hunt_sampling (option_map weights_by weights) (first_of (codes "strategy") (rows_of (found_of rows.now))))
        ≡ Some s) }
    ensures err { IfErr result (λ e. (kind_of e ≡ ErrorKind.OutOfMemory)
        ⊎ ((kind_of e ≡ ErrorKind.InvalidValue)
        × (hunt_strategy (last_in (rows_of (found_of rows.now)))
        (hunt_sampling (option_map weights_by weights) (first_of (codes "strategy") (rows_of (found_of rows.now))))
        ≡ None))) }
{
    let last = match last(alloc, Valued::Hunt, rows) {
        Ok(last) => last,
        Err(e) => return Err(e),
    };
    let word = value(rows, "strategy");
    match hunt_sampling(weights, word) {
        Some(sampling) => Ok(Strategy { sampling, last }),
        None => Err(refuse_strategy(alloc, Valued::Hunt, word)),
    }
}
