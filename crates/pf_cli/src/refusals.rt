//! Errors of words with invalid values.

ghost use Rattle.std.specs.Prelude.{◌≡◌, ◌⊎◌, IfOk, IsSomeAnd};
ghost use Rattle.std.specs.String.{string_bytes};
ghost use Rattle.clap.specs.Words.{app_of, kind_of};
ghost use Rattle.clap.specs.declared.builder.command.Command.TheViews.{out-Command};
ghost use Rattle.pf_cli.specs.Faults.{clash_text, file_text, number_option, usage_app, usage_name, value_text};

use crate::commands::{
    chart_command, check_command, command, explore_command, farm_command, hunt_command,
    run_command, shrink_command,
};
use clap::error::ErrorKind;
use clap::{Command, Error};
use std::alloc::{AllocError, Global};

/// An error with its text.
pub(crate) fn mistake(alloc: Global, text: &str) -> Error
    ensures { (kind_of result ≡ ErrorKind.OutOfMemory) ⊎ (kind_of result ≡ ErrorKind.InvalidValue) }
{
    match command(alloc) {
        Ok(mut command) => match command.error(ErrorKind::InvalidValue, text) {
            Ok(error) => error,
            Err(e) => Error::from(e),
        },
        Err(e) => Error::from(e),
    }
}

/// A command whose options have values that are read.
#[derive(Clone, Copy)]
pub(crate) enum Valued {
    Run,
    Hunt,
    Explore,
    Shrink,
    Chart,
    Check,
    Farm,
}

/// A command, of which a usage is shown.
fn command_of<'a>(alloc: Global, valued: Valued) -> Result<Command<'a>, AllocError>
    ensures { IfOk result (λ c. app_of c ≡ usage_app valued) }
{
    match valued {
        Valued::Run => run_command(alloc),
        Valued::Hunt => hunt_command(alloc),
        Valued::Explore => explore_command(alloc),
        Valued::Chart => chart_command(alloc),
        Valued::Shrink => shrink_command(alloc),
        Valued::Check => check_command(alloc),
        Valued::Farm => farm_command(alloc),
    }
}

/// How its usage names it.
fn usage_name(valued: Valued) -> &'static str
    ensures { result.now ≡ usage_name valued }
{
    match valued {
        Valued::Run => "pulsefarm run",
        Valued::Hunt => "pulsefarm hunt",
        Valued::Explore => "pulsefarm explore",
        Valued::Chart => "pulsefarm chart",
        Valued::Shrink => "pulsefarm shrink",
        Valued::Check => "pulsefarm check",
        Valued::Farm => "pulsefarm farm",
    }
}

/// A command by the name that its usage has.
fn usage_of<'a>(alloc: Global, valued: Valued) -> Result<Command<'a>, AllocError>
    ensures app { IfOk result (λ c. app_of c ≡ usage_app valued) }
    ensures name { IfOk result (λ c.
        IsSomeAnd (out-Command c).bin_name (λ s. s.bytes.items ≡ usage_name valued)) }
{
    command_of(alloc, valued)?.bin_name(usage_name(valued))
}

/// An error of this kind with its text and the usage of a command.
fn try_refuse(
    alloc: Global,
    valued: Valued,
    kind: ErrorKind,
    text: &str,
) -> Result<Error, AllocError>
    ensures { IfOk result (λ e. kind_of e ≡ kind) }
{
    let mut command = usage_of(alloc, valued)?;
    command.error(kind, text)
}

/// The same; or the error says that memory ran out.
pub(crate) fn refuse(alloc: Global, valued: Valued, kind: ErrorKind, text: &str) -> Error
    ensures { (kind_of result ≡ ErrorKind.OutOfMemory) ⊎ (kind_of result ≡ kind) }
{
    match try_refuse(alloc, valued, kind, text) {
        Ok(error) => error,
        Err(e) => Error::from(e),
    }
}

/// An error of this kind with a text, if that could be made.
fn refuse_with(
    alloc: Global,
    valued: Valued,
    kind: ErrorKind,
    text: Result<String, AllocError>,
) -> Error
    ensures { (kind_of result ≡ ErrorKind.OutOfMemory) ⊎ (kind_of result ≡ kind) }
{
    match text {
        Ok(text) => refuse(alloc, valued, kind, &text),
        Err(e) => Error::from(e),
    }
}

/// What is said of the value of an option.
fn wrong_value(alloc: Global, option: &str, value: &str, wants: &str) -> Result<String, AllocError>
    ensures { IfOk result (λ t. string_bytes t ≡ value_text option.now value.now wants.now) }
{
    format!(in alloc; "invalid value '{value}' for '--{option}': it wants {wants}")
}

/// An error that names the value of an option, as `limit <N>`.
pub(crate) fn refuse_value(
    alloc: Global,
    valued: Valued,
    option: &str,
    value: &str,
    wants: &str,
) -> Error
    ensures { (kind_of result ≡ ErrorKind.OutOfMemory) ⊎ (kind_of result ≡ ErrorKind.InvalidValue) }
{
    let reported = wrong_value(alloc, option, value, wants);
    refuse_with(alloc, valued, ErrorKind::InvalidValue, reported)
}

/// An option whose value is a number.
fn number_option(alloc: Global, name: &str) -> Result<String, AllocError>
    ensures { IfOk result (λ t. string_bytes t ≡ number_option name.now) }
{
    format!(in alloc; "{name} <N>")
}

/// An error that names the value of an option that is a number.
pub(crate) fn refuse_number(
    alloc: Global,
    valued: Valued,
    name: &str,
    value: &str,
    wants: &str,
) -> Error
    ensures { (kind_of result ≡ ErrorKind.OutOfMemory) ⊎ (kind_of result ≡ ErrorKind.InvalidValue) }
{
    match number_option(alloc, name) {
        Ok(option) => refuse_value(alloc, valued, &option, value, wants),
        Err(e) => Error::from(e),
    }
}

/// What is said of a file that is one too many.
fn wrong_file(alloc: Global, file: &str, wants: &str) -> Result<String, AllocError>
    ensures { IfOk result (λ t. string_bytes t ≡ file_text file.now wants.now) }
{
    format!(in alloc; "invalid value '{file}' for {wants}")
}

/// An error that names a file, which is one too many.
pub(crate) fn refuse_file(alloc: Global, valued: Valued, file: &str, wants: &str) -> Error
    ensures { (kind_of result ≡ ErrorKind.OutOfMemory) ⊎ (kind_of result ≡ ErrorKind.InvalidValue) }
{
    let text = wrong_file(alloc, file, wants);
    refuse_with(alloc, valued, ErrorKind::InvalidValue, text)
}

/// What is said of two words that exclude each other.
fn wrong_pair(alloc: Global, first: &str, second: &str) -> Result<String, AllocError>
    ensures { IfOk result (λ t. string_bytes t ≡ clash_text first.now second.now) }
{
    format!(in alloc; "the argument '{first}' cannot be used with {second}")
}

/// An error of two words that exclude each other.
pub(crate) fn refuse_both(alloc: Global, valued: Valued, first: &str, second: &str) -> Error
    ensures { (kind_of result ≡ ErrorKind.OutOfMemory) ⊎ (kind_of result ≡ ErrorKind.ArgumentConflict) }
{
    let text = wrong_pair(alloc, first, second);
    refuse_with(alloc, valued, ErrorKind::ArgumentConflict, text)
}
