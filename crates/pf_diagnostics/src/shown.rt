//! The line of a position as it is shown, and the caret below the position.

ghost use Rattle.std.specs.Prelude.{◌≡◌, ◌++◌, ◌∷◌, [], OnOk, get_or, replicate};
ghost use Rattle.pf_diagnostics.specs.Shown.{farthest, leads, nearest, shown_bytes, shown_after, shown_byte};
ghost use Rattle.pf_diagnostics.specs.Shown.{shown_first};

use crate::position::goes_on;
use pf_errors::NoMemory;

/// The most bytes of a line that are shown before a position, and from the position on.
pub const MOST_SHOWN: usize = 100;

/// Whether a byte is the first of the two of a letter in UTF-8, from À on. What comes before that could control a
/// terminal.
fn leads(byte: u8) -> bool
    ensures { result ≡ leads byte }
{
    matches!(byte, 195..=223)
}

/// Puts a byte that goes on with a character, where that is such a letter.
fn put_after(out: &mut Vec<u8>, before: u8, byte: u8) -> Result<(), NoMemory>
    ensures { OnOk result (out.new.items ≡ out.old.items ++ shown_after before byte) }
{
    if leads(before) {
        out.push(byte)?;
    }
    Ok(())
}

/// A byte with which a character begins: itself where it is a blank or a visible character, or begins such a letter; a
/// blank for a tab; else `?`.
fn shown_first(byte: u8, next: u8) -> u8
    ensures { shown_first byte next ≡ result ∷ [] }
{
    match byte {
        b'\t' => b' ',
        b' '..=b'~' => byte,
        _ if leads(byte) && goes_on(next) => byte,
        _ => b'?',
    }
}

/// Puts a byte as it is shown, by those around it.
fn put_byte(out: &mut Vec<u8>, before: u8, byte: u8, next: u8) -> Result<(), NoMemory>
    ensures { OnOk result (out.new.items ≡ out.old.items ++ shown_byte before byte next) }
{
    if goes_on(byte) {
        return put_after(out, before, byte);
    }
    out.push(shown_first(byte, next))?;
    Ok(())
}

/// The byte there; 0 where there is none.
fn byte_at(bytes: &[u8], at: usize) -> u8
    ensures { result ≡ get_or bytes.now at 0 }
{
    bytes.get(at).copied().unwrap_or(0)
}

/// The bytes before a position that are shown, the last ones.
pub(crate) fn nearest(before: &[u8]) -> &[u8]
    ensures { result.now ≡ nearest before.now }
{
    let hidden = before.len().saturating_sub(MOST_SHOWN);
    &before[hidden..]
}

/// The bytes from a position on that are shown, the first ones.
pub(crate) fn farthest(after: &[u8]) -> &[u8]
    ensures { result.now ≡ farthest after.now }
{
    let shown = MOST_SHOWN.min(after.len());
    &after[..shown]
}

/// Puts bytes as they are shown.
pub(crate) fn put_shown(out: &mut Vec<u8>, bytes: &[u8]) -> Result<(), NoMemory>
    ensures { OnOk result (out.new.items ≡ out.old.items ++ shown_bytes bytes.now) }
{
    for at in 0..bytes.len() {
        let before = byte_at(bytes, at.saturating_sub(1));
        let next = byte_at(bytes, at + 1);
        put_byte(out, before, byte_at(bytes, at), next)?;
    }
    Ok(())
}

/// Puts n blanks.
pub(crate) fn put_blanks(out: &mut Vec<u8>, count: usize) -> Result<(), NoMemory>
    ensures { OnOk result (out.new.items ≡ out.old.items ++ replicate count 32) }
{
    for _ in 0..count {
        out.push(b' ')?;
    }
    Ok(())
}
