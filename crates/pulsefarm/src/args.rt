//! The words that the program is given.

ghost use Rattle.std.specs.Prelude.{◌≤◌, ℕ, List, IfOk, IfSome, map, vec_len, ⊤};
ghost use Rattle.std.specs.String.{string_bytes};

use pf_files::read_word;
use std::alloc::{AllocError, AllocGlobal};
use std::env::{Env, FillError};

/// The longest word, in bytes: 16 MiB.
const MOST_WORD: usize = 1 << 24;

/// The bytes of a word; none if there is no such word.
fn bytes_at(rt: &(impl Env + AllocGlobal), at: usize) -> Result<Option<Vec<u8>>, AllocError>
    ensures { IfOk result (λ word. IfSome word (λ bytes. vec_len bytes ≤ MOST_WORD)) }
{
    for size in [4_096, 1 << 18, MOST_WORD] {
        let mut bytes = vec![in rt.alloc(); 0u8; size]?;
        match rt.arg(at, &mut bytes) {
            Ok(length) => {
                bytes.truncate(length);
                return Ok(Some(bytes));
            }
            Err(FillError::NotPresent) => return Ok(None),
            Err(FillError::TooLong) => {}
        }
    }
    Err(AllocError)
}

/// The words after the program's name.
fn words_in(rt: &(impl Env + AllocGlobal)) -> Result<Vec<String>, AllocError> {
    let mut given = Vec::new(rt.alloc());
    for at in 1..usize::MAX {
        match bytes_at(rt, at)? {
            Some(bytes) => given.push(read_word(rt.alloc(), &bytes)?)?,
            None => break,
        }
    }
    Ok(given)
}

/// Gives the words after the program's name. No contract of the system says which these are, so whoever uses this is
/// proved for whatever they may be.
pub trait GivesWords: Env {
    /// Which words it may give.
    ghost gives: { List (List ℕ) → Type 0 };

    /// The words after the program's name.
    fn given_words(&self) -> Result<Vec<String>, AllocError>
        ensures { IfOk result (λ words. gives (map (λ s. string_bytes s) words.items)) };
}

impl GivesWords for HostRuntime {
    ghost gives = { λ words. ⊤ };

    fn given_words(&self) -> Result<Vec<String>, AllocError> {
        words_in(self)
    }
}
