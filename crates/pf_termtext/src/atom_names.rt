//! How the name of an atom is written.

ghost use Rattle.std.specs.Prelude.{◌≡◌, ◌++◌, OnOk, flat_map, is_some};
ghost use Rattle.std.specs.List.{list_all};
ghost use Rattle.pf_tokens.specs.Bytes.{is_word_byte};
ghost use Rattle.pf_tokens.specs.TokenKinds.{reserved_of};
ghost use Rattle.pf_model.specs.TermText.{atom_text, is_plain_name, quoted_byte};

use pf_errors::NoMemory;
use pf_text::{put, put_byte};
use pf_tokens::{is_lower, is_word, reserved_of};

fn is_reserved(word: &[u8]) -> bool
    ensures { result ≡ is_some (reserved_of word.now) }
{
    reserved_of(word).is_some()
}

fn are_word(bytes: &[u8]) -> bool
    ensures { result ≡ list_all is_word_byte bytes.now }
{
    bytes.iter().all(|byte| is_word(*byte))
}

/// Whether a name is written as it is, and else in quotes.
pub fn is_plain_name(name: &[u8]) -> bool
    ensures { result ≡ is_plain_name name.now }
{
    let Some((first, others)) = name.split_first() else {
        return false;
    };
    is_lower(*first) && are_word(others) && !is_reserved(name)
}

/// Puts a byte of a name in quotes.
fn put_quoted_byte(out: &mut Vec<u8>, byte: u8) -> Result<(), NoMemory>
    ensures { OnOk result (out.new.items ≡ out.old.items ++ quoted_byte byte) }
{
    if byte == b'\n' {
        put(out, b"\\n")
    } else if byte == b'\t' {
        put(out, b"\\t")
    } else if byte == b'\\' {
        put(out, b"\\\\")
    } else if byte == b'\'' {
        put(out, b"\\'")
    } else {
        put_byte(out, byte)
    }
}

fn put_quoted(out: &mut Vec<u8>, name: &[u8]) -> Result<(), NoMemory>
    ensures { OnOk result (out.new.items ≡ out.old.items ++ flat_map quoted_byte name.now) }
{
    for byte in name {
        put_quoted_byte(out, *byte)?;
    }
    Ok(())
}

/// Puts an atom, in quotes where its name asks for them.
pub fn put_atom(out: &mut Vec<u8>, name: &[u8]) -> Result<(), NoMemory>
    ensures { OnOk result (out.new.items ≡ out.old.items ++ atom_text name.now) }
{
    if is_plain_name(name) {
        return put(out, name);
    }
    put(out, b"'")?;
    put_quoted(out, name)?;
    put(out, b"'")
}
