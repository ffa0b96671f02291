//! Texts whose lines become objects.

ghost use Rattle.std.specs.Prelude.{◌≡◌, IfOk, OnErr, OnOk};
ghost use Rattle.std.specs.Io.KnownBytes.{Appends};
ghost use Rattle.pf_streams.specs.Streams.{AppendsFront};
ghost use Rattle.pf_json.specs.Lines.{held_after, objects_from};
ghost use Rattle.pf_json.specs.Writers.{view_of_held};

use crate::objects::{next, with_line};
use crate::place::LinePlace;
use std::alloc::{AllocError, Global};
use std::io::{self, ErrorKind, Write};

/// How far a text is: the place of the line that it is in, and what of that line there is.
#[derive(Drop)]
struct HeldText {
    place: LinePlace,
    line: Vec<u8>,
}

/// The objects of lines, and what is held after them.
#[derive(Drop)]
struct TurnedLine {
    out: Vec<u8>,
    held: HeldText,
}

/// The objects of the lines that end in a text, the first of which begins with what is held.
fn turn(alloc: Global, held: &HeldText, text: &[u8]) -> Result<TurnedLine, AllocError>
    ensures out { IfOk result (λ t. t.out.items ≡ objects_from (view_of_held held.now) text.now) }
    ensures held { IfOk result (λ t. view_of_held t.held ≡ held_after (view_of_held held.now) text.now) }
{
    let mut out = Vec::new(alloc);
    let mut place = held.place;
    let mut line = Vec::from_slice(alloc, &held.line)?;
    for byte in text {
        if *byte == b'\n' {
            out = with_line(alloc, out, place, &line)?;
            place = next(alloc, place, &line)?;
            line.clear();
        } else {
            line.push(*byte)?;
        }
    }
    let held = HeldText { place, line };
    Ok(TurnedLine { out, held })
}

/// Writes the whole text; where a call fails, a beginning of it was written.
fn put<W: Write>(inner: &mut W, text: &[u8]) -> io::Result<()>
    ensures written { OnOk result (Appends (W.contents inner.old) (W.contents inner.new) text.now) }
    ensures front { OnErr result (AppendsFront (W.contents inner.old) (W.contents inner.new) text.now) }
{
    let mut rest = text;
    while !rest.is_empty() {
        match inner.write(rest) {
            Ok(0) => return Err(ErrorKind::WriteZero.into()),
            Ok(n) => rest = rest.split_at(n).1,
            Err(e) => return Err(e),
        }
    }
    Ok(())
}

/// A writer of lines, in place of each of which the inner writer gets a JSON object on a line of its own. What is left
/// after the last line end goes nowhere.
#[derive(Drop)]
pub struct JsonLines<W> {
    pub inner: W,
    alloc: Global,
    held: HeldText,
}

impl<W> JsonLines<W> {
    ghost use Rattle.std.specs.Prelude.{◌≡◌};
    ghost use Rattle.pf_json.specs.Lines.{nothing_written};
    ghost use Rattle.pf_json.specs.Writers.{held_text_of};

    /// Nothing was written yet.
    pub fn new(alloc: Global, inner: W) -> JsonLines<W>
        ensures inner { result.inner ≡ inner }
        ensures held { held_text_of result ≡ nothing_written }
    {
        let (place, line) = (LinePlace::Report, Vec::new(alloc));
        let held = HeldText { place, line };
        JsonLines { inner, alloc, held }
    }
}

impl<W: Write> Write for JsonLines<W> {
    ghost use Rattle.std.specs.Prelude.{◌≡◌, IfOk, OnErr, OnOk, None, length};
    ghost use Rattle.std.specs.Io.{WritesAtMost};
    ghost use Rattle.std.specs.Io.KnownBytes.{Appends, Keeps, WriteAppends};
    ghost use Rattle.pf_streams.specs.Streams.{AppendsFront};
    ghost use Rattle.pf_json.specs.Lines.{held_after, objects_from};
    ghost use Rattle.pf_json.specs.Writers.{held_text_of};

    /// Takes the whole text, and writes the objects of the lines that end in it. Where that fails, a beginning of them
    /// was written.
    fn write(&mut self, buf: &[u8]) -> io::Result<usize>
        ensures bound { WritesAtMost result buf.now }
        ensures bytes { WriteAppends None None result buf.now }
        ensures whole { IfOk result (λ n. n ≡ length buf.now) }
        ensures objects { OnOk result (Appends (W.contents self.old.inner) (W.contents self.new.inner)
            (objects_from (held_text_of self.old) buf.now)) }
        ensures held { OnOk result (held_text_of self.new ≡ held_after (held_text_of self.old) buf.now) }
        ensures front { OnErr result (AppendsFront (W.contents self.old.inner) (W.contents self.new.inner)
            (objects_from (held_text_of self.old) buf.now)) }
    {
        let turned = turn(self.alloc, &self.held, buf)?;
        put(&mut self.inner, &turned.out)?;
        self.held = turned.held;
        Ok(buf.len())
    }

    /// Flushes the inner writer: what is held stays, since its line may go on, and nothing is written that wasn't
    /// written.
    fn flush(&mut self) -> io::Result<()>
        ensures bytes { Keeps None None }
        ensures held { held_text_of self.new ≡ held_text_of self.old }
        ensures kept { Keeps (W.contents self.old.inner) (W.contents self.new.inner) }
    {
        self.inner.flush()
    }
}
