//! What the words of a line ask for.

ghost use Rattle.std.specs.Prelude.{◌≡◌, ◌==◌, ◌||◌, ℕ, IfOk};
ghost use Rattle.std.specs.List.{list_any};
ghost use Rattle.std.specs.Option.{option_map};
ghost use Rattle.pf_request.specs.Calls.{fetch, status, drop_trial, withdraw, usage, log, edition};
ghost use Rattle.pf_request.specs.View.{view_of_call};
ghost use Rattle.pf_world.specs.Steps.{client_calls};
ghost use Rattle.pf_protocol.specs.Commands as commands;
ghost use Rattle.pf_protocol.specs.Commands.{made, submission, is_line_word, of_call, of_one, of_project, of_two};
ghost use Rattle.pf_protocol.specs.Commands.{content_of_line, words_of_line};
ghost use Rattle.pf_protocol.specs.View.{view_of_content};

use crate::order::{read_order, read_shrink};
use crate::split::{first_word, only_word};
use crate::work::read_work;
use pf_errors::NoMemory;
use pf_request::{Call, Step};
use pf_text::number_of;
use std::alloc::Global;

/// What a line asks for.
#[derive(Drop)]
pub(crate) enum LineContent {
    /// A step.
    Made(Step),
    /// The submission to a project of a source of n bytes, which follow the line.
    Submission(u32, u32),
}

impl LineContent {
    /// A call of a client of a project.
    pub(crate) fn call(project: u32, call: Call) -> LineContent
        ensures { view_of_content result ≡ made (client_calls project (view_of_call call)) }
    {
        LineContent::Made(Step::Call { project, call })
    }
}

/// The number that the words are, if they are one number.
fn one_number(words: &[u8]) -> Option<u32>
    ensures { (f : ℕ → commands.LineContent) → option_map f result ≡ of_one f (words_of_line words.now) }
{
    number_of(only_word(words)?)
}

/// The numbers that the words are, if they are two numbers.
pub(crate) fn two_numbers(words: &[u8]) -> Option<(u32, u32)>
    ensures { (f : ℕ → ℕ → commands.LineContent)
        → option_map (λ p. f p.0 p.1) result ≡ of_two f (words_of_line words.now) }
{
    let (first, others) = first_word(words)?;
    let second = only_word(others)?;
    Some((number_of(first)?, number_of(second)?))
}

fn read_submit(words: &[u8]) -> Option<LineContent>
    ensures { option_map view_of_content result ≡ of_two submission (words_of_line words.now) }
{
    let (project, size) = two_numbers(words)?;
    Some(LineContent::Submission(project, size))
}

fn read_fetch(words: &[u8]) -> Option<LineContent>
    ensures { option_map view_of_content result ≡ of_call fetch (words_of_line words.now) }
{
    let (project, ticket) = two_numbers(words)?;
    Some(LineContent::call(project, Call::Fetch(u64::from(ticket))))
}

fn read_status(words: &[u8]) -> Option<LineContent>
    ensures { option_map view_of_content result ≡ of_call status (words_of_line words.now) }
{
    let (project, ticket) = two_numbers(words)?;
    Some(LineContent::call(project, Call::Status(u64::from(ticket))))
}

fn read_drop(words: &[u8]) -> Option<LineContent>
    ensures { option_map view_of_content result ≡ of_call drop_trial (words_of_line words.now) }
{
    let (project, ticket) = two_numbers(words)?;
    Some(LineContent::call(project, Call::DropTrial(u64::from(ticket))))
}

fn read_withdraw(words: &[u8]) -> Option<LineContent>
    ensures { option_map view_of_content result ≡ of_call withdraw (words_of_line words.now) }
{
    let (project, module) = two_numbers(words)?;
    Some(LineContent::call(project, Call::Withdraw(u64::from(module))))
}

fn read_usage(words: &[u8]) -> Option<LineContent>
    ensures { option_map view_of_content result ≡ of_project usage (words_of_line words.now) }
{
    let project = one_number(words)?;
    Some(LineContent::call(project, Call::Usage))
}

fn read_log(words: &[u8]) -> Option<LineContent>
    ensures { option_map view_of_content result ≡ of_project log (words_of_line words.now) }
{
    let project = one_number(words)?;
    Some(LineContent::call(project, Call::Log))
}

fn read_edition(words: &[u8]) -> Option<LineContent>
    ensures { option_map view_of_content result ≡ of_call edition (words_of_line words.now) }
{
    let (project, edition) = two_numbers(words)?;
    Some(LineContent::call(project, Call::Edition(edition)))
}

/// Whether a tabulator or a carriage return is among some bytes.
fn has_blank(text: &[u8]) -> bool
    ensures { result ≡ list_any (λ c. (c == 9) || (c == 13)) text.now }
{
    text.iter().any(|byte| *byte == b'\t' || *byte == b'\r')
}

/// Whether a text between spaces is a word.
pub(crate) fn is_word(text: &[u8]) -> bool
    ensures { result ≡ is_line_word text.now }
{
    !text.is_empty() && !has_blank(text)
}

/// What the words of a line ask for, the first of which names the command.
pub(crate) fn read_line(alloc: Global, line: &[u8]) -> Result<Option<LineContent>, NoMemory>
    ensures { IfOk result (λ a. option_map view_of_content a ≡ content_of_line (words_of_line line.now)) }
{
    let Some((name, words)) = first_word(line) else {
        return Ok(None);
    };
    if name == b"submit".as_slice() {
        Ok(read_submit(words))
    } else if name == b"order".as_slice() {
        read_order(alloc, words)
    } else if name == b"shrink".as_slice() {
        read_shrink(alloc, words)
    } else if name == b"fetch".as_slice() {
        Ok(read_fetch(words))
    } else if name == b"status".as_slice() {
        Ok(read_status(words))
    } else if name == b"drop".as_slice() {
        Ok(read_drop(words))
    } else if name == b"withdraw".as_slice() {
        Ok(read_withdraw(words))
    } else if name == b"usage".as_slice() {
        Ok(read_usage(words))
    } else if name == b"log".as_slice() {
        Ok(read_log(words))
    } else if name == b"edition".as_slice() {
        Ok(read_edition(words))
    } else {
        Ok(read_work(name, words))
    }
}
