//! What is said of a refusal.

ghost use Rattle.std.specs.Prelude.{◌≡◌};
ghost use Rattle.pf_diagnostics.specs.Sentences.{IsPlainAdvice};

use crate::sentences::sentence;
use pf_errors::SourceRefusal;

/// An example of what is in a source, and of what is written in its place.
#[derive(Drop, Clone, Copy)]
pub struct Rewrite {
    pub instead: &'static str,
    pub write: &'static str,
}

/// What is said of a refusal: where its cause is in the source, what is wrong and how it is fixed.
#[derive(Drop, Clone, Copy)]
pub struct Advice {
    pub position: usize,
    pub sentence: &'static str,
    pub rewrite: Option<Rewrite>,
}

/// What is said where only the code is known: its sentence, at the offset.
pub fn plain(refusal: SourceRefusal) -> Advice
    ensures { IsPlainAdvice refusal.code refusal.offset result }
{
    Advice {
        position: refusal.offset,
        sentence: sentence(refusal.code),
        rewrite: None,
    }
}
