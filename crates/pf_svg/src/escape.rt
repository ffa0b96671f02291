//! Text that may be in a document.

ghost use Rattle.std.specs.Prelude.{◌≡◌, ◌++◌, OnOk};
ghost use Rattle.pf_svg.specs.Escaped.{character_of, escaped, escaped_byte, reference, short};

use pf_errors::NoMemory;
use pf_text::{put, put_byte, put_number};

/// The character that stands for a byte that can't be written as it is: a blank of lines or a byte of Latin-1 is
/// itself.
fn code_of(byte: u8) -> u64
    ensures { result ≡ character_of byte }
{
    if byte > 126 || byte == b'\t' || byte == b'\n' || byte == b'\r' {
        u64::from(byte)
    } else {
        0xfffd
    }
}

/// Puts a character by its number.
fn put_code(out: &mut Vec<u8>, byte: u8) -> Result<(), NoMemory>
    ensures { OnOk result (out.new.items ≡ out.old.items ++ reference byte) }
{
    put(out, b"&#")?;
    put_number(out, code_of(byte))?;
    put(out, b";")
}

fn put_escaped_byte(out: &mut Vec<u8>, byte: u8) -> Result<(), NoMemory>
    ensures { OnOk result (out.new.items ≡ out.old.items ++ escaped_byte byte) }
{
    if byte == b'&' {
        put(out, b"&amp;")
    } else if byte == b'<' {
        put(out, b"&lt;")
    } else if byte == b'>' {
        put(out, b"&gt;")
    } else if byte == b'"' {
        put(out, b"&quot;")
    } else if byte < 32 || byte > 126 {
        put_code(out, byte)
    } else {
        put_byte(out, byte)
    }
}

/// Puts a text so that it may be in a document, byte by byte.
pub fn put_escaped(out: &mut Vec<u8>, text: &[u8]) -> Result<(), NoMemory>
    ensures { OnOk result (out.new.items ≡ out.old.items ++ escaped text.now) }
{
    for byte in text {
        put_escaped_byte(out, *byte)?;
    }
    Ok(())
}

/// Puts the first bytes of a text and three dots, or all of it if no more than three would go.
pub fn put_short(out: &mut Vec<u8>, text: &[u8], most: usize) -> Result<(), NoMemory>
    ensures { OnOk result (out.new.items ≡ out.old.items ++ short most text.now) }
{
    if text.len().saturating_sub(3) <= most {
        return put_escaped(out, text);
    }
    put_escaped(out, &text[..most])?;
    put(out, b"...")
}
