//! A source cut into pieces, as Erlang cuts it, whatever is in it.

use pf_errors::NoMemory;
use std::alloc::Global;

/// What a piece is.
#[derive(Clone, Copy, PartialEq, Eq)]
pub(crate) enum PieceKind {
    Word,
    Variable,
    /// Digits, or a `$` with its character.
    Number,
    /// A text in quotes of either kind.
    Quoted,
    /// One byte that is none of these.
    Mark,
    /// The dot after a form.
    Dot,
}

/// A piece, from its first byte to before its end.
#[derive(Clone, Copy)]
pub(crate) struct SourcePiece {
    pub kind: PieceKind,
    pub start: usize,
    pub end: usize,
}

/// What is being read.
#[derive(Clone, Copy)]
enum ScanState {
    Between,
    Comment,
    Name(PieceKind),
    Quoted(u8),
    Escaped(u8),
    Dollar,
    DollarEscape,
}

/// How far a source was cut.
#[derive(Drop)]
struct Cutter {
    pieces: Vec<SourcePiece>,
    state: ScanState,
    start: usize,
}

/// Whether a byte goes on with a word or a variable.
pub(crate) fn is_name_byte(byte: u8) -> bool {
    byte.is_ascii_alphanumeric() || byte == b'_' || byte == b'@'
}

/// Whether a dot before this byte ends a form.
fn ends_form(next: Option<&u8>) -> bool {
    match next {
        Some(byte) => matches!(byte, b'\t' | b'\n' | b'\r' | b' ' | b'%'),
        None => true,
    }
}

impl Cutter {
    fn put(&mut self, kind: PieceKind, end: usize) -> Result<(), NoMemory> {
        let start = self.start;
        self.pieces.push(SourcePiece { kind, start, end })?;
        self.state = ScanState::Between;
        Ok(())
    }

    /// At a byte where a piece may begin.
    fn begin(&mut self, at: usize, byte: u8, next: Option<&u8>) -> Result<(), NoMemory> {
        self.start = at;
        self.state = match byte {
            b'a'..=b'z' => ScanState::Name(PieceKind::Word),
            b'A'..=b'Z' | b'_' => ScanState::Name(PieceKind::Variable),
            b'0'..=b'9' => ScanState::Name(PieceKind::Number),
            b'"' | b'\'' => ScanState::Quoted(byte),
            b'$' => ScanState::Dollar,
            b'%' => ScanState::Comment,
            b'\t' | b'\n' | b'\r' | b' ' => ScanState::Between,
            b'.' if ends_form(next) => return self.put(PieceKind::Dot, at.saturating_add(1)),
            _ => return self.put(PieceKind::Mark, at.saturating_add(1)),
        };
        Ok(())
    }

    /// At each byte, in turn.
    fn step(&mut self, at: usize, byte: u8, next: Option<&u8>) -> Result<(), NoMemory> {
        let state = self.state;
        match state {
            ScanState::Between => return self.begin(at, byte, next),
            ScanState::Comment if byte == b'\n' => self.state = ScanState::Between,
            ScanState::Comment => {}
            ScanState::Name(PieceKind::Number) if byte.is_ascii_digit() => {}
            ScanState::Name(kind) if kind != PieceKind::Number && is_name_byte(byte) => {}
            ScanState::Name(kind) => {
                self.put(kind, at)?;
                return self.begin(at, byte, next);
            }
            ScanState::Quoted(quote) if byte == quote => {
                return self.put(PieceKind::Quoted, at.saturating_add(1));
            }
            ScanState::Quoted(quote) if byte == b'\\' => self.state = ScanState::Escaped(quote),
            ScanState::Quoted(_) => {}
            ScanState::Escaped(quote) => self.state = ScanState::Quoted(quote),
            ScanState::Dollar if byte == b'\\' => self.state = ScanState::DollarEscape,
            ScanState::Dollar | ScanState::DollarEscape => {
                return self.put(PieceKind::Number, at.saturating_add(1));
            }
        }
        Ok(())
    }

    /// At the end of the source.
    fn end(&mut self, end: usize) -> Result<(), NoMemory> {
        match self.state {
            ScanState::Between | ScanState::Comment => Ok(()),
            ScanState::Name(kind) => self.put(kind, end),
            ScanState::Quoted(_) | ScanState::Escaped(_) => self.put(PieceKind::Quoted, end),
            ScanState::Dollar | ScanState::DollarEscape => self.put(PieceKind::Number, end),
        }
    }
}

/// The pieces of a source.
pub(crate) fn cut(alloc: Global, source: &[u8]) -> Result<Vec<SourcePiece>, NoMemory> {
    let mut cutter = Cutter {
        pieces: Vec::new(alloc),
        state: ScanState::Between,
        start: 0,
    };
    for (at, byte) in source.iter().enumerate() {
        cutter.step(at, *byte, source.get(at.saturating_add(1)))?;
    }
    cutter.end(source.len())?;
    Ok(cutter.pieces)
}
