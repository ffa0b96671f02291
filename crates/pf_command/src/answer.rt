//! What a source is answered with: a text and a status.

ghost use Rattle.std.specs.Prelude.{◌≡◌, IfOk};
ghost use Rattle.pf_errors.specs.Codes.{code_text, refusal_text};
ghost use Rattle.pf_command.specs.Answers.{Refuses, run_status};

use pf_errors::{Code, NoMemory, SourceRefusal};
use pf_text::{put, put_byte};
use std::alloc::Global;

/// The status if something is refused.
pub(crate) const REFUSED: u8 = 2;

/// The status if a property fails.
pub(crate) const FAILED: u8 = 1;

/// The text that is written, and the status that the program ends with.
#[derive(Drop)]
pub struct Output {
    pub text: Vec<u8>,
    pub status: u8,
}

/// These words on a line of their own, with the status of what is refused.
fn refused(alloc: Global, words: &str) -> Result<Output, NoMemory>
    ensures { IfOk result (λ a. Refuses a words.entry.now) }
{
    let mut text = Vec::new(alloc);
    put(&mut text, words.as_bytes())?;
    put_byte(&mut text, b'\n')?;
    Ok(Output {
        text,
        status: REFUSED,
    })
}

/// A code, as `B2`.
pub(crate) fn refused_by_code(alloc: Global, code: Code) -> Result<Output, NoMemory>
    ensures { IfOk result (λ a. Refuses a (code_text code)) }
{
    let words = format!(in alloc; "{code}")?;
    refused(alloc, &words)
}

/// A code with its offset, as `E6 at 41`.
pub(crate) fn refused_at(alloc: Global, refusal: SourceRefusal) -> Result<Output, NoMemory>
    ensures { IfOk result (λ a. Refuses a (refusal_text refusal.code refusal.offset)) }
{
    let words = format!(in alloc; "{refusal}")?;
    refused(alloc, &words)
}

/// The status of a run by the verdict of its property: 0 if that holds, 1 if it fails, 2 if there is no verdict.
pub(crate) fn run_status(verdict: Option<bool>) -> u8
    ensures { result ≡ run_status verdict }
{
    match verdict {
        Some(true) => 0,
        Some(false) => FAILED,
        None => REFUSED,
    }
}
