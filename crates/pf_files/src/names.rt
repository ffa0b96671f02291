//! Words that name files.

ghost use Rattle.std.specs.Prelude.{◌≡◌, ◌<◌, ℕ, IfOk, IsErr, IsUtf8, length, slice_index};
ghost use Rattle.std.specs.String.{string_bytes};

use std::alloc::{AllocError, Global};
use std::fs::{self, Files};
use std::io;

/// A word whose bytes aren't UTF-8: each byte from 128 on is written as a NUL and two digits, so that no two words have
/// the same text, since no word has a NUL.
fn marked(alloc: Global, bytes: &[u8]) -> Result<String, AllocError> {
    let mut text = String::new(alloc);
    for byte in bytes {
        if byte.is_ascii() {
            text.push(char::from(*byte))?;
        } else {
            write!(text, "\0{byte:02x}")?;
        }
    }
    Ok(text)
}

/// The text of a word.
pub fn read_word(alloc: Global, bytes: &[u8]) -> Result<String, AllocError>
    ensures { IfOk result (λ text. IsUtf8 bytes.now → string_bytes text ≡ bytes.now) }
{
    match str::from_utf8(bytes) {
        Ok(text) => String::from_str(alloc, text),
        Err(_) => marked(alloc, bytes),
    }
}

/// Opens a file that a word names. Paths are text, so one with another name can't be opened.
pub fn open<R: Files>(rt: &R, name: &str) -> io::Result<R::File>
    ensures { (k : ℕ) → k < length name.now → slice_index name.now k ≡ 0 → IsErr result }
{
    if !name.contains('\0') {
        return fs::open(rt, name);
    }
    let reason = "a name that isn't UTF-8 can't be opened; give the file as standard input";
    Err(io::Error::new(io::ErrorKind::InvalidInput, reason))
}
