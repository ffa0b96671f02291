//! In what form a command reports what it finds.

ghost use Rattle.std.specs.Prelude.{◌≡◌, ◌⊎◌, IfOk, IfErr, Some, None};
ghost use Rattle.clap.specs.Words.{kind_of, rows_of, found_of};
ghost use Rattle.pf_cli.specs.Args.{format_in};
ghost use Rattle.pf_cli.specs.Faults.{valued_named};
ghost use Rattle.pf_cli.specs.Form.{format_of};

use crate::args::Format;
use crate::refusals::{Valued, refuse_value};
use crate::values::value;
use clap::error::ErrorKind;
use clap::{ArgMatches, Error};
use std::alloc::Global;

/// What a form has to be.
const FORMS: &str = "`text` or `json`";

/// The form that a word names.
fn format_of(word: &str) -> Option<Format>
    ensures { result ≡ format_of word.now }
{
    if word == "text" {
        Some(Format::Text)
    } else if word == "json" {
        Some(Format::Json)
    } else {
        None
    }
}

/// The command of this name, if it is one that may report in a form.
fn valued_of(name: &str) -> Valued
    ensures { result ≡ valued_named name.now }
{
    if name == "run" {
        Valued::Run
    } else if name == "hunt" {
        Valued::Hunt
    } else if name == "explore" {
        Valued::Explore
    } else if name == "shrink" {
        Valued::Shrink
    } else {
        Valued::Check
    }
}

/// The form in which the command of this name reports; text where none is named.
pub(crate) fn format(alloc: Global, name: &str, rows: &ArgMatches) -> Result<Format, Error>
    ensures ok { IfOk result (λ f. format_in (rows_of (found_of rows.now)) ≡ Some f) }
    ensures err { IfErr result (λ e. (kind_of e ≡ ErrorKind.OutOfMemory)
        ⊎ ((kind_of e ≡ ErrorKind.InvalidValue) × (format_in (rows_of (found_of rows.now)) ≡ None))) }
{
    let Some(word) = value(rows, "format") else {
        return Ok(Format::Text);
    };
    match format_of(word) {
        Some(format) => Ok(format),
        None => Err(refuse_value(alloc, valued_of(name), "format <FORM>", word, FORMS)),
    }
}
