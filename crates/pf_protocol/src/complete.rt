//! Whether the first command may be answered, when more may follow it.

ghost use Rattle.std.specs.Prelude.{◌≡◌};
ghost use Rattle.pf_protocol.specs.Commands.{content_of_line, words_of_line};
ghost use Rattle.pf_protocol.specs.Complete.{has_source, is_due, is_complete, size_in};

use crate::line::two_numbers;
use crate::split::{first_line, first_word};

/// How many bytes have to follow the line of a submission.
fn source_size(line: &[u8]) -> Option<u32>
    ensures { result ≡ size_in (content_of_line (words_of_line line.now)) }
{
    let (name, words) = first_word(line)?;
    if name != b"submit".as_slice() {
        return None;
    }
    let (_, size) = two_numbers(words)?;
    Some(size)
}

/// Whether a source of n bytes comes first, with one byte more.
fn has_source(size: Option<u32>, bytes: &[u8]) -> bool
    ensures { result ≡ has_source size bytes.now }
{
    match size {
        Some(size) => (size as usize) < bytes.len(),
        None => true,
    }
}

/// Whether the first command has all its bytes, so that it stays what it is.
fn is_complete(bytes: &[u8]) -> bool
    ensures { result ≡ is_complete bytes.now }
{
    let line = first_line(bytes);
    line.is_ended && has_source(source_size(line.text), line.rest)
}

/// Whether the first command is answered now.
pub fn is_due(bytes: &[u8], is_over: bool) -> bool
    ensures { result ≡ is_due is_over bytes.now }
{
    if is_over {
        !bytes.is_empty()
    } else {
        is_complete(bytes)
    }
}
