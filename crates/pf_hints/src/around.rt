//! What is open around a place in a form: brackets, and words that an `end` closes.

use crate::pieces::{PieceKind, SourcePiece};
use crate::place::SourcePlace;
use pf_errors::NoMemory;
use std::alloc::Global;

/// What opens a level.
#[derive(Clone, Copy, PartialEq, Eq)]
pub(crate) enum Opener {
    Form,
    Bracket,
    Case,
    If,
    /// `receive`, `fun`, `try` or `begin`.
    Other,
}

/// What is read in a level.
#[derive(Clone, Copy, PartialEq, Eq)]
pub(crate) enum LevelStage {
    Pattern,
    Guard,
    Body,
}

/// What is open, by the piece that opened it.
#[derive(Clone, Copy)]
pub(crate) struct Level {
    pub opener: Opener,
    pub stage: LevelStage,
    pub start: usize,
}

/// The levels before a place, the innermost last.
#[derive(Drop)]
struct LevelWalk<'a> {
    place: &'a SourcePlace<'a>,
    outer: Vec<Level>,
    level: Level,
}

impl LevelWalk<'_> {
    fn open(&mut self, opener: Opener, stage: LevelStage, start: usize) -> Result<(), NoMemory> {
        self.outer.push(self.level)?;
        self.level = Level {
            opener,
            stage,
            start,
        };
        Ok(())
    }

    /// Closes a level, if it is of this sort.
    fn close(&mut self, is_bracket: bool) {
        if (self.level.opener == Opener::Bracket) != is_bracket {
            return;
        }
        if let Some(level) = self.outer.pop() {
            self.level = level;
        }
    }

    /// What a new clause of the level begins with.
    fn clause(&mut self) {
        self.level.stage = match (self.level.opener, self.level.stage) {
            (Opener::If, _) | (_, LevelStage::Guard) => LevelStage::Guard,
            _ => LevelStage::Pattern,
        };
    }

    fn word(&mut self, piece: SourcePiece) -> Result<(), NoMemory> {
        let start = piece.start;
        match self.place.text(Some(piece)) {
            b"case" => self.open(Opener::Case, LevelStage::Body, start),
            b"if" => self.open(Opener::If, LevelStage::Guard, start),
            b"receive" | b"fun" => self.open(Opener::Other, LevelStage::Pattern, start),
            b"try" | b"begin" => self.open(Opener::Other, LevelStage::Body, start),
            b"end" => {
                self.close(false);
                Ok(())
            }
            b"of" => {
                self.level.stage = LevelStage::Pattern;
                Ok(())
            }
            b"when" => {
                self.level.stage = LevelStage::Guard;
                Ok(())
            }
            _ => Ok(()),
        }
    }

    fn mark(&mut self, piece: SourcePiece, byte: u8, before: u8) -> Result<(), NoMemory> {
        match byte {
            b'(' | b'[' | b'{' => {
                return self.open(Opener::Bracket, self.level.stage, piece.start);
            }
            b')' | b']' | b'}' => self.close(true),
            b';' => self.clause(),
            b'>' if before == b'-' => self.level.stage = LevelStage::Body,
            _ => {}
        }
        Ok(())
    }

    fn step(&mut self, piece: SourcePiece) -> Result<(), NoMemory> {
        match piece.kind {
            PieceKind::Word => self.word(piece),
            PieceKind::Mark => {
                let byte = self.place.byte(piece.start);
                let before = self.place.byte(piece.start.saturating_sub(1));
                self.mark(piece, byte, before)
            }
            _ => Ok(()),
        }
    }
}

/// The innermost level before a place, in its form.
pub(crate) fn innermost(alloc: Global, place: &SourcePlace<'_>) -> Result<Level, NoMemory> {
    let level = Level {
        opener: Opener::Form,
        stage: LevelStage::Pattern,
        start: place.start(place.of_form(0)),
    };
    let mut walk = LevelWalk {
        place,
        outer: Vec::new(alloc),
        level,
    };
    let form = place.pieces.get(place.form..).unwrap_or(&[]);
    for piece in form.iter().take(place.at.saturating_sub(place.form)) {
        walk.step(*piece)?;
    }
    Ok(walk.level)
}
