//! The text that explains a refusal.

ghost use Rattle.std.specs.Prelude.{◌≡◌, ◌++◌, [], OnErr, OnOk, Some, flat_map};
ghost use Rattle.pf_diagnostics.specs.Shown.{caret_line, shown_line};
ghost use Rattle.pf_diagnostics.specs.Explanation.{explanation, explanations, line, position_text, rewrite_text};

use crate::advice::{Advice, Rewrite};
use crate::position::{column, columns, line_number, since_newline, up_to_newline};
use crate::shown::{farthest, nearest, put_blanks, put_shown};
use pf_errors::NoMemory;
use std::alloc::Global;

/// Puts the line and the column of a position, by the bytes before it.
fn put_position(alloc: Global, out: &mut Vec<u8>, front: &[u8]) -> Result<(), NoMemory>
    ensures { OnOk result (out.new.items ≡ out.old.items ++ line (position_text front.now)) }
{
    let line = line_number(front);
    let column = column(front);
    let words = format!(in alloc; "line {line}, column {column}\n")?;
    out.extend_from_slice(words.as_bytes())?;
    Ok(())
}

/// Puts the line around a position.
fn put_line(out: &mut Vec<u8>, front: &[u8], after: &[u8]) -> Result<(), NoMemory>
    ensures { OnOk result (out.new.items ≡ out.old.items ++ line (shown_line front.now after.now)) }
{
    put_shown(out, nearest(since_newline(front)))?;
    put_shown(out, farthest(up_to_newline(after)))?;
    out.push(b'\n')?;
    Ok(())
}

/// Puts a caret below the position.
fn put_caret(out: &mut Vec<u8>, front: &[u8]) -> Result<(), NoMemory>
    ensures { OnOk result (out.new.items ≡ out.old.items ++ line (caret_line front.now)) }
{
    put_blanks(out, columns(nearest(since_newline(front))))?;
    out.extend_from_slice(b"^\n")?;
    Ok(())
}

/// Puts a sentence.
fn put_sentence(out: &mut Vec<u8>, sentence: &str) -> Result<(), NoMemory>
    ensures { OnOk result (out.new.items ≡ out.old.items ++ line sentence.now) }
{
    out.extend_from_slice(sentence.as_bytes())?;
    out.push(b'\n')?;
    Ok(())
}

/// Puts words on a line of their own, after others.
fn put_after(out: &mut Vec<u8>, front: &[u8], words: &str) -> Result<(), NoMemory>
    ensures { OnOk result (out.new.items ≡ out.old.items ++ line (front.now ++ words.now)) }
{
    out.extend_from_slice(front)?;
    put_sentence(out, words)
}

/// Puts the two lines of an example.
fn put_example(out: &mut Vec<u8>, rewrite: Rewrite) -> Result<(), NoMemory>
    ensures { OnOk result (out.new.items ≡ out.old.items ++ rewrite_text (Some rewrite)) }
{
    put_after(out, b"  instead of  ", rewrite.instead)?;
    put_after(out, b"  write       ", rewrite.write)
}

/// The same if there is one.
fn put_rewrite(out: &mut Vec<u8>, rewrite: Option<Rewrite>) -> Result<(), NoMemory>
    ensures { OnOk result (out.new.items ≡ out.old.items ++ rewrite_text rewrite) }
{
    match rewrite {
        Some(rewrite) => put_example(out, rewrite),
        None => Ok(()),
    }
}

/// Puts the lines of an explanation.
fn put_lines(
    alloc: Global,
    out: &mut Vec<u8>,
    source: &[u8],
    advice: Advice,
) -> Result<(), NoMemory>
    ensures { OnOk result (out.new.items ≡ out.old.items ++ explanation source.now advice) }
{
    let position = advice.position.min(source.len());
    let (front, after) = source.split_at(position);
    put_position(alloc, out, front)?;
    put_line(out, front, after)?;
    put_caret(out, front)?;
    put_sentence(out, advice.sentence)?;
    put_rewrite(out, advice.rewrite)
}

/// Puts what is said of a source that is refused: the line and the column of the position, the line around it, a caret
/// below it, the sentence, and the example if there is one. A position past the end counts as the end. Where memory
/// runs out nothing is put.
pub fn put_explanation(
    alloc: Global,
    out: &mut Vec<u8>,
    source: &[u8],
    advice: Advice,
) -> Result<(), NoMemory>
    ensures put { OnOk result (out.new.items ≡ out.old.items ++ explanation source.now advice) }
    ensures err { OnErr result (out.new.items ≡ out.old.items) }
{
    let mut text = Vec::new(alloc);
    put_lines(alloc, &mut text, source, advice)?;
    out.extend_from_slice(&text)?;
    Ok(())
}

/// Puts what else is said of a source, each after an empty line.
fn put_others(
    alloc: Global,
    out: &mut Vec<u8>,
    source: &[u8],
    others: &[Advice],
) -> Result<(), NoMemory>
    ensures { OnOk result (out.new.items
        ≡ out.old.items ++ flat_map (λ b. line [] ++ explanation source.now b) others.now) }
{
    for advice in others {
        out.push(b'\n')?;
        put_explanation(alloc, out, source, *advice)?;
    }
    Ok(())
}

/// Puts all that is said of a source that is refused, with an empty line between two explanations.
pub fn put_explanations(
    alloc: Global,
    out: &mut Vec<u8>,
    source: &[u8],
    reported: &[Advice],
) -> Result<(), NoMemory>
    ensures { OnOk result (out.new.items ≡ out.old.items ++ explanations source.now reported.now) }
{
    let Some((first, others)) = reported.split_first() else {
        return Ok(());
    };
    put_explanation(alloc, out, source, *first)?;
    put_others(alloc, out, source, others)
}
