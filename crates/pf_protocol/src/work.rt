//! What the words of a worker's line ask for.

ghost use Rattle.std.specs.Prelude.{◌≡◌, ℕ, Option, option_and_then};
ghost use Rattle.std.specs.Option.{option_map};
ghost use Rattle.pf_protocol.specs.Commands as commands;
ghost use Rattle.pf_protocol.specs.Commands.{of_chore, of_four, of_three, slice_of, theft_of, words_of_line};
ghost use Rattle.pf_protocol.specs.Commands.{work_asked};
ghost use Rattle.pf_protocol.specs.View.{view_of_content};

use crate::line::LineContent;
use crate::split::{first_word, only_word};
use pf_request::{Chore, Step};
use pf_text::number_of;

/// The numbers that the words are, if they are three numbers.
fn three_numbers(words: &[u8]) -> Option<(u32, u32, u32)>
    ensures { (f : ℕ → ℕ → ℕ → commands.LineContent)
        → option_map (λ p. f p.0 p.1 p.2) result ≡ of_three f (words_of_line words.now) }
{
    let (first, others) = first_word(words)?;
    let (second, others) = first_word(others)?;
    let third = only_word(others)?;
    Some((number_of(first)?, number_of(second)?, number_of(third)?))
}

/// The numbers that the words are, if they are four numbers.
fn four_numbers(words: &[u8]) -> Option<(u32, u32, u32, u32)>
    ensures { (f : ℕ → ℕ → ℕ → ℕ → Option commands.LineContent)
        → option_and_then (λ p. f p.0 p.1 p.2 p.3) result ≡ of_four f (words_of_line words.now) }
{
    let (first, others) = first_word(words)?;
    let (second, others) = first_word(others)?;
    let (third, others) = first_word(others)?;
    let fourth = only_word(others)?;
    Some((
        number_of(first)?,
        number_of(second)?,
        number_of(third)?,
        number_of(fourth)?,
    ))
}

/// A chore of a worker about the trial of a project's ticket.
fn read_chore(words: &[u8], chore: Chore) -> Option<LineContent>
    ensures { option_map view_of_content result ≡ of_chore chore (words_of_line words.now) }
{
    let (worker, project, ticket) = three_numbers(words)?;
    let ticket = u64::from(ticket);
    Some(LineContent::Made(Step::Chore {
        worker,
        project,
        ticket,
        chore,
    }))
}

/// A slice, of at least one turn.
fn read_slice(words: &[u8]) -> Option<LineContent>
    ensures { option_map view_of_content result ≡ of_four slice_of (words_of_line words.now) }
{
    let (worker, project, ticket, turns) = four_numbers(words)?;
    if turns == 0 {
        return None;
    }
    let ticket = u64::from(ticket);
    let chore = Chore::Slice { turns };
    Some(LineContent::Made(Step::Chore {
        worker,
        project,
        ticket,
        chore,
    }))
}

/// A steal from another worker.
fn read_steal(words: &[u8]) -> Option<LineContent>
    ensures { option_map view_of_content result ≡ of_four theft_of (words_of_line words.now) }
{
    let (worker, from, project, ticket) = four_numbers(words)?;
    let ticket = u64::from(ticket);
    let chore = Chore::Steal { from };
    Some(LineContent::Made(Step::Chore {
        worker,
        project,
        ticket,
        chore,
    }))
}

/// What the words ask for that follow the name of a worker's chore.
pub(crate) fn read_work(name: &[u8], words: &[u8]) -> Option<LineContent>
    ensures { option_map view_of_content result ≡ work_asked name.now (words_of_line words.now) }
{
    if name == b"claim".as_slice() {
        read_chore(words, Chore::Claim)
    } else if name == b"slice".as_slice() {
        read_slice(words)
    } else if name == b"park".as_slice() {
        read_chore(words, Chore::Park)
    } else if name == b"take".as_slice() {
        read_chore(words, Chore::TakeUp)
    } else if name == b"steal".as_slice() {
        read_steal(words)
    } else if name == b"file".as_slice() {
        read_chore(words, Chore::File)
    } else if name == b"back".as_slice() {
        read_chore(words, Chore::HandBack)
    } else {
        None
    }
}
