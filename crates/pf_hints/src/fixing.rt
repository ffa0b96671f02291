//! Forms of a source, and a source out of which a function's fault is taken.

ghost use Rattle.std.specs.Prelude.{◌≡◌, ◌++◌, ◌∷◌, [], ℕ, List, IfOk, IfSome, IsTrue, length};
ghost use Rattle.pf_hints.specs.Fixed.{IsFixed, is_filler};

use crate::pieces::{PieceKind, SourcePiece, cut};
use crate::place::SourcePlace;
use pf_errors::{Code, NoMemory, SourceRefusal};
use std::alloc::Global;

/// Where each form of a source ends, after its dot; the last end is that of the source.
pub fn form_ends(alloc: Global, source: &[u8]) -> Result<Vec<usize>, NoMemory>
    ensures { IfOk result (λ ends. (front : List ℕ) × (ends.items ≡ front ++ length source.now ∷ [])) }
{
    let mut ends = Vec::new(alloc);
    for piece in &cut(alloc, source)? {
        if piece.kind == PieceKind::Dot {
            ends.push(piece.end)?;
        }
    }
    ends.push(source.len())?;
    Ok(ends)
}

/// Writes a byte where there is one.
#[tactic(auto, using(crate::proofs::Fillers::fixed_at, crate::proofs::Fillers::fixed_not))]
fn put(source: &mut Vec<u8>, at: usize, byte: u8)
    requires { IsTrue (is_filler byte) }
    ensures { IsFixed source.old.items source.new.items }
{
    if at < source.len() {
        source[at] = byte;
    }
}

/// Makes a blank of a byte, unless it is a line end.
#[tactic(auto, using(crate::proofs::Fillers::fixed_not))]
fn blank_byte(source: &mut Vec<u8>, at: usize)
    ensures { IsFixed source.old.items source.new.items }
{
    let stays = source.get(at) == Some(&b'\n');
    if stays {
        return;
    }
    put(source, at, b' ');
}

/// Makes blanks of what is from here to there; line ends stay.
fn blank(source: &mut Vec<u8>, start: usize, end: usize)
    ensures { IsFixed source.old.items source.new.items }
{
    for at in start..end {
        blank_byte(source, at);
    }
}

/// How far the head of a function was gone through: how deep its brackets are open, and whether a parameter is yet to
/// come.
#[derive(Drop)]
struct HeadProgress {
    depth: usize,
    is_due: bool,
}

/// What is in a head without its patterns, at a piece of it.
fn bare_byte(head: &mut HeadProgress, byte: u8) -> Option<u8>
    ensures { IfSome result (λ b. IsTrue (is_filler b)) }
{
    match (byte, head.depth) {
        (b'(' | b'[' | b'{', 0) => {
            head.depth = 1;
            head.is_due = true;
            return Some(b'(');
        }
        (_, 0) => return None,
        (b')' | b']' | b'}', 1) => {
            head.depth = 0;
            return Some(b')');
        }
        (b',', 1) => {
            head.is_due = true;
            return Some(b',');
        }
        (b'(' | b'[' | b'{', _) => head.depth = head.depth.saturating_add(1),
        (b')' | b']' | b'}', _) => head.depth = head.depth.saturating_sub(1),
        _ => {}
    }
    let is_due = head.is_due;
    head.is_due = false;
    if is_due { Some(b'_') } else { None }
}

/// Writes what is at a piece of a head without its patterns, if anything is.
#[tactic(auto, using(crate::proofs::Fillers::fixed_not))]
fn put_bare(source: &mut Vec<u8>, at: usize, bare: Option<u8>)
    requires { IfSome bare (λ b. IsTrue (is_filler b)) }
    ensures { IsFixed source.old.items source.new.items }
{
    let Some(byte) = bare else {
        return;
    };
    put(source, at, byte);
}

/// Writes a body of one integer.
fn put_body(source: &mut Vec<u8>, at: usize)
    ensures { IsFixed source.old.items source.new.items }
{
    put(source, at, b'-');
    put(source, at.saturating_add(1), b'>');
    put(source, at.saturating_add(2), b'0');
}

/// Writes the head of a function without its patterns, and after it a body of one integer; the pieces begin after the
/// function's name.
fn put_head(source: &mut Vec<u8>, old: &[u8], pieces: &[SourcePiece])
    ensures { IsFixed source.old.items source.new.items }
{
    let mut head = HeadProgress {
        depth: 0,
        is_due: false,
    };
    for piece in pieces {
        let byte = old.get(piece.start).copied().unwrap_or(0);
        let bare = bare_byte(&mut head, byte);
        put_bare(source, piece.start, bare);
        let is_closed = bare == Some(b')');
        if is_closed {
            put_body(source, piece.end);
            return;
        }
    }
}

/// The pieces of the form at a place, its dot the last; none where it has no dot.
fn form_at<'p>(place: &'p SourcePlace<'_>) -> Option<&'p [SourcePiece]> {
    let form = place.pieces.get(place.form..)?;
    let dot = form.iter().position(|piece| piece.kind == PieceKind::Dot)?;
    form.get(..dot.saturating_add(1))
}

/// The pieces from the first parenthesis on.
fn parameters<'p>(old: &[u8], form: &'p [SourcePiece]) -> Option<&'p [SourcePiece]> {
    let opened = form
        .iter()
        .position(|piece| old.get(piece.start) == Some(&b'('))?;
    form.get(opened..)
}

/// Gives a function a body of one integer, and no patterns.
#[tactic(auto, using(crate::proofs::Fillers::fixed_not))]
fn stub(source: &mut Vec<u8>, old: &[u8], form: &[SourcePiece]) -> bool
    ensures { IsFixed source.old.items source.new.items }
{
    let Some(pieces) = parameters(old, form) else {
        return false;
    };
    let (Some(first), Some(dot)) = (pieces.first(), pieces.last()) else {
        return false;
    };
    blank(source, first.start, dot.start);
    put_head(source, old, pieces);
    true
}

/// Makes blanks of a form and of its dot.
#[tactic(auto, using(crate::proofs::Fillers::fixed_not))]
fn blank_form(source: &mut Vec<u8>, form: &[SourcePiece]) -> bool
    ensures { IsFixed source.old.items source.new.items }
{
    let (Some(first), Some(dot)) = (form.first(), form.last()) else {
        return false;
    };
    blank(source, first.start, dot.end);
    true
}

/// Takes a fault of names or variables out of a source: the function that has it keeps its name and its number of
/// arguments, and has a body of one integer; a function that is defined twice and an export form are blanked. Nothing
/// is done, and `false` answered, in the first form and where there is no form. The source keeps its length.
#[tactic(auto, using(crate::proofs::Fillers::fixed_not))]
pub fn fix(alloc: Global, source: &mut Vec<u8>, refusal: SourceRefusal) -> Result<bool, NoMemory>
    ensures { IsFixed source.old.items source.new.items }
{
    let old = Vec::from_slice(alloc, source)?;
    let place = SourcePlace::new(alloc, &old, refusal.offset)?;
    if place.form == 0 {
        return Ok(false);
    }
    match (form_at(&place), refusal.code) {
        (None, _) => Ok(false),
        (Some(form), Code::DefinedTwice | Code::ExportOfNothing) => Ok(blank_form(source, form)),
        (Some(form), _) => Ok(stub(source, &old, form)),
    }
}
