//! The values of options.

ghost use Rattle.std.specs.Prelude.{◌≡◌, ◌≤◌, ◌⊎◌, true, IfOk, IfErr, IfSome, Some, None, codes, map, option_map};
ghost use Rattle.std.specs.Prelude.{option_and_then};
ghost use Rattle.clap.specs.Words.{all_of, kind_of, first_of, rows_of, found_of};
ghost use Rattle.pf_model.specs.Meaning.{schedule};
ghost use Rattle.pf_text.specs.Numbers.{long_number_of, number_of_digits, schedule_of};
ghost use Rattle.pf_request.specs.Request.{may_weigh};
ghost use Rattle.pf_request.specs.View.{view_of_choices};
ghost use Rattle.pf_cli.specs.Args.{as_edition, as_workers, bounds_in, choices_in, edition_named, edition_number};
ghost use Rattle.pf_cli.specs.Args.{file_at, file_named, in_place, is_given};
ghost use Rattle.pf_cli.specs.Args.{limit_named, option_number, schedule_numbers, page_named, property_named};
ghost use Rattle.pf_cli.specs.Args.{root_named, run_fault, schedule_in, seeded_by, sought_in, weight_of_word};
ghost use Rattle.pf_cli.specs.Args.{weights_by, weights_in, weights_of, workers_in};

use crate::args::{Edition, HuntGoal, WeightArgs};
use crate::refusals::{Valued, mistake, refuse, refuse_number, refuse_value};
use clap::error::ErrorKind;
use clap::{ArgMatches, Error};
use pf_errors::NoMemory;
use pf_request::RunChoices;
use pf_text::{long_number_of, number_of, schedule_of};
use std::alloc::{AllocError, Global};
use std::sync::Arc;

/// The value of an option or a word.
pub(crate) fn value<'a>(rows: &ArgMatches<'a>, name: &str) -> Option<&'a str>
    ensures { option_map (λ s. s.now) result ≡ first_of name.now (rows_of (found_of rows.now)) }
{
    rows.get_str(name)
}

/// The values of a word that may occur several times.
pub(crate) fn values<'m, 'a>(rows: &'m ArgMatches<'a>, name: &str) -> Option<&'m [&'a str]>
    ensures { option_map (λ s. map (λ v. v.now) s.now) result ≡ all_of name.now (rows_of (found_of rows.now)) }
{
    rows.get_raw(name)
}

/// Whether a flag is given.
pub(crate) fn is_given(rows: &ArgMatches, name: &str) -> bool
    ensures { result ≡ is_given (first_of name.now (rows_of (found_of rows.now))) }
{
    match value(rows, name) {
        Some(value) => value == "true",
        None => false,
    }
}

/// The file that the words name; `-` is the standard input.
pub(crate) fn named_file<'a>(rows: &ArgMatches<'a>) -> Option<&'a str>
    ensures { option_map (λ s. s.now) result
        ≡ file_named (first_of (codes "file") (rows_of (found_of rows.now))) }
{
    match value(rows, "file") {
        Some(name) if name == "-" => None,
        file => file,
    }
}

/// What a limit has to be.
const STEPS: &str = "a number of steps from 1 to 100000, without leading zeros";

/// What the number of runs has to be.
pub(crate) const RUNS: &str = "a number of runs from 1 to 1000, without leading zeros";

/// What weights have to be.
const WEIGHTS: &str = "two numbers R:D from 1 to 9, R of a process and D of a channel";

/// What an edition has to be.
const EDITIONS: &str = "1 or 2";

/// What a page has to be.
const PAGES: &str = "a number from 1 to 4294967295, without leading zeros";

/// What the number of workers has to be.
pub(crate) const WORKERS: &str = "a number of threads from 1 to 64, without leading zeros";

/// The value, as a number, of an option that its command requires.
pub(crate) fn number(
    alloc: Global,
    valued: Valued,
    rows: &ArgMatches,
    name: &str,
    wants: &str,
) -> Result<u32, Error>
    ensures ok { IfOk result (λ n. option_number name.now (rows_of (found_of rows.now)) ≡ Some n) }
    ensures err { IfErr result (λ e. (kind_of e ≡ ErrorKind.OutOfMemory)
        ⊎ ((kind_of e ≡ ErrorKind.InvalidValue)
        × (option_number name.now (rows_of (found_of rows.now)) ≡ None))) }
{
    let Some(word) = value(rows, name) else {
        return Err(mistake(alloc, "an option is missing"));
    };
    match number_of(word.as_bytes()) {
        Some(number) => Ok(number),
        None => Err(refuse_number(alloc, valued, name, word, wants)),
    }
}

/// The edition that a word names.
fn as_edition(word: &str) -> Option<Edition>
    ensures { option_map edition_number result ≡ option_and_then as_edition (number_of_digits word.now) }
{
    match number_of(word.as_bytes()) {
        Some(1) => Some(Edition::First),
        Some(2) => Some(Edition::Second),
        _ => None,
    }
}

/// The edition that is named; the first where none is.
fn edition(alloc: Global, valued: Valued, rows: &ArgMatches) -> Result<Edition, Error>
    ensures ok { IfOk result (λ e. edition_named (first_of (codes "edition") (rows_of (found_of rows.now)))
        ≡ Some (edition_number e)) }
    ensures err { IfErr result (λ e. (kind_of e ≡ ErrorKind.OutOfMemory)
        ⊎ ((kind_of e ≡ ErrorKind.InvalidValue)
        × (edition_named (first_of (codes "edition") (rows_of (found_of rows.now))) ≡ None))) }
{
    let Some(word) = value(rows, "edition") else {
        return Ok(Edition::First);
    };
    match as_edition(word) {
        Some(edition) => Ok(edition),
        None => Err(refuse_value(alloc, valued, "edition <E>", word, EDITIONS)),
    }
}

/// The limit that is named; the largest where none is.
fn limit(alloc: Global, valued: Valued, rows: &ArgMatches) -> Result<u32, Error>
    ensures ok { IfOk result (λ n.
        limit_named (first_of (codes "limit") (rows_of (found_of rows.now))) ≡ Some n) }
    ensures err { IfErr result (λ e. (kind_of e ≡ ErrorKind.OutOfMemory)
        ⊎ ((kind_of e ≡ ErrorKind.InvalidValue)
        × (limit_named (first_of (codes "limit") (rows_of (found_of rows.now))) ≡ None))) }
{
    let Some(word) = value(rows, "limit") else {
        return Ok(100_000);
    };
    match number_of(word.as_bytes()) {
        Some(limit) => Ok(limit),
        None => Err(refuse_number(alloc, valued, "limit", word, STEPS)),
    }
}

/// The limit of steps and the edition.
pub(crate) fn bounds(
    alloc: Global,
    valued: Valued,
    rows: &ArgMatches,
) -> Result<(u32, Edition), Error>
    ensures ok { IfOk result (λ b. bounds_in (rows_of (found_of rows.now)) ≡ Some (b.0, edition_number b.1)) }
    ensures err { IfErr result (λ e. (kind_of e ≡ ErrorKind.OutOfMemory)
        ⊎ ((kind_of e ≡ ErrorKind.InvalidValue) × (bounds_in (rows_of (found_of rows.now)) ≡ None))) }
{
    let limit = match limit(alloc, valued, rows) {
        Ok(limit) => limit,
        Err(e) => return Err(e),
    };
    match edition(alloc, valued, rows) {
        Ok(edition) => Ok((limit, edition)),
        Err(e) => Err(e),
    }
}

/// The weight that a word names.
fn weight_of(word: &str) -> Option<u32>
    ensures { result ≡ weight_of_word word.now }
{
    match number_of(word.as_bytes()) {
        Some(number @ 1..=9) => Some(number),
        _ => None,
    }
}

/// The weights that a text names: that of a process and that of a channel.
fn weights_of(text: &str) -> Option<WeightArgs>
    ensures { option_map weights_by result ≡ weights_of text.now }
{
    let (front, back) = text.split_once(':')?;
    let run = weight_of(front)?;
    let deliver = weight_of(back)?;
    Some(WeightArgs { run, deliver })
}

/// The weights that are named, if any are.
pub(crate) fn weights(
    alloc: Global,
    valued: Valued,
    rows: &ArgMatches,
) -> Result<Option<WeightArgs>, Error>
    ensures ok { IfOk result (λ w.
        weights_in (rows_of (found_of rows.now)) ≡ Some (option_map weights_by w)) }
    ensures err { IfErr result (λ e. (kind_of e ≡ ErrorKind.OutOfMemory)
        ⊎ ((kind_of e ≡ ErrorKind.InvalidValue) × (weights_in (rows_of (found_of rows.now)) ≡ None))) }
{
    let Some(word) = value(rows, "weights") else {
        return Ok(None);
    };
    match weights_of(word) {
        Some(weights) => Ok(Some(weights)),
        None => Err(refuse_value(alloc, valued, "weights <R:D>", word, WEIGHTS)),
    }
}

/// The choices of the seed that a word names, by the weights that are named.
fn choices_by_seed(
    alloc: Global,
    valued: Valued,
    rows: &ArgMatches,
    word: &str,
) -> Result<RunChoices, Error>
    ensures ok { IfOk result (λ cs. seeded_by (weights_in (rows_of (found_of rows.now))) (long_number_of word.now)
        ≡ Some (view_of_choices cs)) }
    ensures weighs { IfOk result (λ cs. may_weigh (view_of_choices cs) ≡ true) }
    ensures err { IfErr result (λ e. (kind_of e ≡ ErrorKind.OutOfMemory)
        ⊎ ((kind_of e ≡ ErrorKind.InvalidValue)
        × (seeded_by (weights_in (rows_of (found_of rows.now))) (long_number_of word.now) ≡ None))) }
{
    let weights = match weights(alloc, valued, rows) {
        Ok(weights) => weights,
        Err(e) => return Err(e),
    };
    match long_number_of(word.as_bytes()) {
        Some(seed) => Ok(WeightArgs::seeded(weights, seed)),
        None => {
            let wants = "a number from 0 to 18446744073709551615, without leading zeros";
            Err(refuse_value(alloc, valued, "seed <N>", word, wants))
        }
    }
}

/// The file that the word of a schedule names: `@FILE`.
fn file_at(word: &str) -> Option<&str>
    ensures { option_map (λ s. s.now) result ≡ file_at word.now }
{
    word.strip_prefix('@')
}

/// The file that the words name for a schedule.
pub(crate) fn named_schedule<'a>(rows: &ArgMatches<'a>) -> Option<&'a str>
    ensures { option_map (λ s. s.now) result
        ≡ option_and_then file_at (first_of (codes "schedule") (rows_of (found_of rows.now))) }
{
    match value(rows, "schedule") {
        Some(word) => file_at(word),
        None => None,
    }
}

/// The text of a schedule: that of the file that its word names, where it is known, or else the word.
fn in_place<'a>(text: Option<&'a str>, word: &'a str) -> &'a str
    ensures { result.now ≡ in_place (option_map (λ s. s.now) text.entry) word.now }
{
    match (text, file_at(word)) {
        (Some(text), Some(_)) => text,
        _ => word,
    }
}

/// The numbers of the schedule that a word names, with a text in place of the file that it names.
fn numbers(alloc: Global, valued: Valued, text: Option<&str>, word: &str) -> Result<Vec<u32>, Error>
    ensures ok { IfOk result (λ v. schedule_numbers (option_map (λ s. s.now) text.entry) word.now ≡ Some v.items) }
    ensures err { IfErr result (λ e. (kind_of e ≡ ErrorKind.OutOfMemory)
        ⊎ ((kind_of e ≡ ErrorKind.InvalidValue)
        × (schedule_numbers (option_map (λ s. s.now) text.entry) word.now ≡ None))) }
{
    match schedule_of(alloc, in_place(text, word).as_bytes()) {
        Ok(Some(numbers)) => Ok(numbers),
        Ok(None) => {
            let wants = "`none`, or numbers from 0 to 4294967295 with commas between them";
            Err(refuse_value(alloc, valued, "schedule <L>", word, wants))
        }
        Err(e) => Err(Error::from(e)),
    }
}

/// The choices of the schedule that a word names, with a text in place of the file that it names.
fn choices_by_schedule(
    alloc: Global,
    valued: Valued,
    text: Option<&str>,
    word: &str,
) -> Result<RunChoices, Error>
    ensures ok { IfOk result (λ cs.
        option_map schedule (schedule_numbers (option_map (λ s. s.now) text.entry) word.now)
        ≡ Some (view_of_choices cs)) }
    ensures weighs { IfOk result (λ cs. may_weigh (view_of_choices cs) ≡ true) }
    ensures err { IfErr result (λ e. (kind_of e ≡ ErrorKind.OutOfMemory)
        ⊎ ((kind_of e ≡ ErrorKind.InvalidValue)
        × (schedule_numbers (option_map (λ s. s.now) text.entry) word.now ≡ None))) }
{
    let numbers = match numbers(alloc, valued, text, word) {
        Ok(numbers) => numbers,
        Err(e) => return Err(e),
    };
    match RunChoices::schedule(alloc, numbers) {
        Ok(choices) => Ok(choices),
        Err(NoMemory) => Err(Error::from(AllocError)),
    }
}

/// The choices of a seed or of a schedule, of which one is given, with a text in place of the schedule's file; weights
/// are given beside a seed alone.
pub(crate) fn choices(
    alloc: Global,
    valued: Valued,
    rows: &ArgMatches,
    text: Option<&str>,
) -> Result<RunChoices, Error>
    ensures ok { IfOk result (λ cs.
        choices_in (option_map (λ s. s.now) text.entry) (rows_of (found_of rows.now))
        ≡ Some (view_of_choices cs)) }
    ensures weighs { IfOk result (λ cs. may_weigh (view_of_choices cs) ≡ true) }
    ensures err { IfErr result (λ e. (kind_of e ≡ ErrorKind.OutOfMemory)
        ⊎ ((kind_of e ≡ run_fault (rows_of (found_of rows.now)))
        × (choices_in (option_map (λ s. s.now) text.entry) (rows_of (found_of rows.now)) ≡ None))) }
{
    match (
        value(rows, "seed"),
        value(rows, "weights"),
        value(rows, "schedule"),
    ) {
        (Some(word), _, None) => choices_by_seed(alloc, valued, rows, word),
        (None, None, Some(word)) => choices_by_schedule(alloc, valued, text, word),
        (Some(_), _, Some(_)) => {
            let text = "the argument '--seed <N>' cannot be used with '--schedule <L>'";
            Err(refuse(alloc, valued, ErrorKind::ArgumentConflict, text))
        }
        (None, Some(_), Some(_)) => {
            let text = "the argument '--weights <R:D>' cannot be used with '--schedule <L>'";
            Err(refuse(alloc, valued, ErrorKind::ArgumentConflict, text))
        }
        (None, _, None) => {
            let text = "give '--seed <N>' or '--schedule <L>'";
            Err(refuse(alloc, valued, ErrorKind::MissingRequiredArgument, text))
        }
    }
}

/// The root that the words name; `main` where they name none.
pub(crate) fn named_root<'a>(rows: &ArgMatches<'a>) -> &'a str
    ensures { result.now ≡ root_named (first_of (codes "root") (rows_of (found_of rows.now))) }
{
    match value(rows, "root") {
        Some(name) => name,
        None => "main",
    }
}

/// The property that the words name; `returns` where they name none.
pub(crate) fn named_property<'a>(rows: &ArgMatches<'a>) -> &'a str
    ensures { result.now ≡ property_named (first_of (codes "property") (rows_of (found_of rows.now))) }
{
    match value(rows, "property") {
        Some(word) => word,
        None => "returns",
    }
}

/// The schedule that is shrunk, with a text in place of its file.
pub(crate) fn given_schedule(
    alloc: Global,
    rows: &ArgMatches,
    text: Option<&str>,
) -> Result<Arc<Vec<u32>>, Error>
    ensures ok { IfOk result (λ numbers.
        schedule_in (option_map (λ s. s.now) text.entry) (rows_of (found_of rows.now))
        ≡ Some numbers.value.items) }
    ensures err { IfErr result (λ e. (kind_of e ≡ ErrorKind.OutOfMemory)
        ⊎ ((kind_of e ≡ ErrorKind.InvalidValue)
        × (schedule_in (option_map (λ s. s.now) text.entry) (rows_of (found_of rows.now)) ≡ None))) }
{
    let Some(word) = value(rows, "schedule") else {
        return Err(mistake(alloc, "--schedule is missing"));
    };
    let numbers = match numbers(alloc, Valued::Shrink, text, word) {
        Ok(numbers) => numbers,
        Err(e) => return Err(e),
    };
    match Arc::new(alloc, numbers) {
        Ok(numbers) => Ok(numbers),
        Err(e) => Err(Error::from(e)),
    }
}

/// The page of a chart; the first where none is named.
pub(crate) fn page(alloc: Global, rows: &ArgMatches) -> Result<u32, Error>
    ensures ok { IfOk result (λ n.
        page_named (first_of (codes "page") (rows_of (found_of rows.now))) ≡ Some n) }
    ensures err { IfErr result (λ e. (kind_of e ≡ ErrorKind.OutOfMemory)
        ⊎ ((kind_of e ≡ ErrorKind.InvalidValue)
        × (page_named (first_of (codes "page") (rows_of (found_of rows.now))) ≡ None))) }
{
    let Some(word) = value(rows, "page") else {
        return Ok(1);
    };
    match number_of(word.as_bytes()) {
        Some(page @ 1..) => Ok(page),
        _ => Err(refuse_value(alloc, Valued::Chart, "page <K>", word, PAGES)),
    }
}

/// The number of workers that a word names.
pub(crate) fn as_workers(word: &str) -> Option<u32>
    ensures number { result ≡ option_and_then as_workers (number_of_digits word.now) }
    ensures within { IfSome result (λ n. (1 ≤ n) × (n ≤ 64)) }
{
    match number_of(word.as_bytes()) {
        Some(number @ 1..=64) => Some(number),
        _ => None,
    }
}

/// How many workers are named, if any are.
pub(crate) fn workers(alloc: Global, rows: &ArgMatches) -> Result<Option<u32>, Error>
    ensures ok { IfOk result (λ n. workers_in (rows_of (found_of rows.now)) ≡ Some n) }
    ensures err { IfErr result (λ e. (kind_of e ≡ ErrorKind.OutOfMemory)
        ⊎ ((kind_of e ≡ ErrorKind.InvalidValue) × (workers_in (rows_of (found_of rows.now)) ≡ None))) }
{
    let Some(word) = value(rows, "workers") else {
        return Ok(None);
    };
    match as_workers(word) {
        Some(number) => Ok(Some(number)),
        None => Err(refuse_number(alloc, Valued::Hunt, "workers", word, WORKERS)),
    }
}

/// What is sought: each outcome, or the least seed that fails, whose schedule may be shrunk.
pub(crate) fn sought(alloc: Global, rows: &ArgMatches) -> Result<HuntGoal, Error>
    ensures ok { IfOk result (λ s. sought_in (rows_of (found_of rows.now)) ≡ Some s) }
    ensures err { IfErr result (λ e. (kind_of e ≡ ErrorKind.OutOfMemory)
        ⊎ ((kind_of e ≡ ErrorKind.InvalidValue) × (sought_in (rows_of (found_of rows.now)) ≡ None))) }
{
    match (is_given(rows, "all"), value(rows, "shrink")) {
        (true, _) => Ok(HuntGoal::Outcomes),
        (false, None) => Ok(HuntGoal::Failure { runs: None }),
        (false, Some(word)) => match number_of(word.as_bytes()) {
            Some(runs) => Ok(HuntGoal::Failure { runs: Some(runs) }),
            None => Err(refuse_number(alloc, Valued::Hunt, "shrink", word, RUNS)),
        },
    }
}
