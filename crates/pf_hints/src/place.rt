//! A place in a source: the piece at an offset, and those around it.

ghost use Rattle.std.specs.Prelude.{◌≡◌};

use crate::cure::{Cure, FoundCure};
use crate::pieces::{PieceKind, SourcePiece, cut};
use pf_errors::NoMemory;
use std::alloc::Global;

/// A source in pieces, and the piece at an offset by its number; past the last where none is there.
#[derive(Drop)]
pub(crate) struct SourcePlace<'a> {
    pub source: &'a [u8],
    pub offset: usize,
    pub pieces: Vec<SourcePiece>,
    pub at: usize,
    /// The first piece of the form, and that of the form before it.
    pub form: usize,
    pub last: usize,
}

/// The number of the first piece that ends after an offset, that of the first of its form, and that of the first of the
/// form before it.
fn find_piece(pieces: &[SourcePiece], offset: usize) -> (usize, usize, usize) {
    let mut form = 0;
    let mut last = 0;
    for (index, piece) in pieces.iter().enumerate() {
        if piece.end > offset {
            return (index, form, last);
        }
        if piece.kind == PieceKind::Dot {
            last = form;
            form = index.saturating_add(1);
        }
    }
    (pieces.len(), form, last)
}

impl<'a> SourcePlace<'a> {
    /// The place of an offset.
    pub(crate) fn new(
        alloc: Global,
        source: &'a [u8],
        offset: usize,
    ) -> Result<SourcePlace<'a>, NoMemory> {
        let pieces = cut(alloc, source)?;
        let (at, form, last) = find_piece(&pieces, offset);
        Ok(SourcePlace {
            source,
            offset,
            pieces,
            at,
            form,
            last,
        })
    }

    /// The byte there; 0 where there is none.
    pub(crate) fn byte(&self, offset: usize) -> u8 {
        self.source.get(offset).copied().unwrap_or(0)
    }

    /// The byte before the offset.
    pub(crate) fn byte_before(&self) -> u8 {
        match self.offset.checked_sub(1) {
            Some(before) => self.byte(before),
            None => 0,
        }
    }

    /// The byte after the offset.
    pub(crate) fn byte_after(&self) -> u8 {
        self.byte(self.offset.saturating_add(1))
    }

    /// Whether this is at the offset.
    pub(crate) fn has(&self, text: &str) -> bool {
        let after = self.source.get(self.offset..).unwrap_or(&[]);
        after.starts_with(text.as_bytes())
    }

    /// The piece so many before the one at the offset.
    pub(crate) fn before(&self, count: usize) -> Option<SourcePiece> {
        let index = self.at.checked_sub(count)?;
        self.pieces.get(index).copied()
    }

    /// The piece so many after the one at the offset.
    pub(crate) fn piece(&self, count: usize) -> Option<SourcePiece> {
        self.pieces.get(self.at.saturating_add(count)).copied()
    }

    /// The bytes of a piece; none where there is none.
    pub(crate) fn text(&self, piece: Option<SourcePiece>) -> &'a [u8] {
        match piece {
            Some(piece) => self.source.get(piece.start..piece.end).unwrap_or(&[]),
            None => &[],
        }
    }

    /// What a piece is.
    pub(crate) fn kind(&self, piece: Option<SourcePiece>) -> Option<PieceKind> {
        match piece {
            Some(piece) => Some(piece.kind),
            None => None,
        }
    }

    /// Where a piece begins; the offset where there is none.
    pub(crate) fn start(&self, piece: Option<SourcePiece>) -> usize {
        match piece {
            Some(piece) => piece.start,
            None => self.offset,
        }
    }

    /// Where a piece ends; the offset where there is none.
    pub(crate) fn end_of(&self, piece: Option<SourcePiece>) -> usize {
        match piece {
            Some(piece) => piece.end,
            None => self.offset,
        }
    }

    /// The piece of the form so many after its first.
    pub(crate) fn of_form(&self, count: usize) -> Option<SourcePiece> {
        self.pieces.get(self.form.saturating_add(count)).copied()
    }

    /// The first piece of the form before it.
    pub(crate) fn of_last_form(&self) -> Option<SourcePiece> {
        self.pieces.get(self.last).copied()
    }

    /// The name of the module, by its first form.
    pub(crate) fn own_name(&self) -> &'a [u8] {
        self.text(self.pieces.get(3).copied())
    }

    /// A hint whose cause is at the offset.
    pub(crate) fn here(&self, cure: Cure) -> FoundCure
        ensures cure { result.cure ≡ cure }
        ensures place { result.position ≡ self.now.offset }
    {
        FoundCure {
            position: self.offset,
            cure,
        }
    }

    /// Whether the offset is at the beginning of a line.
    pub(crate) fn begins_line(&self) -> bool {
        self.offset == 0 || self.byte_before() == b'\n'
    }
}
