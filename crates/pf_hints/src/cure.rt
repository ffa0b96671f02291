//! What is said of a construct.

ghost use Rattle.std.specs.Prelude.{◌≡◌, IfSome, option_map};

/// A row of a table: the word that a construct is known by, what is said of it, and an example with how that is written
/// here.
#[derive(Clone, Copy)]
pub(crate) struct Cure {
    pub word: &'static str,
    pub says: &'static str,
    pub instead: &'static str,
    pub write: &'static str,
}

/// The row of a word.
pub(crate) fn find(table: &[Cure], word: &[u8]) -> Option<Cure> {
    for cure in table {
        if cure.word.as_bytes() == word {
            return Some(*cure);
        }
    }
    None
}

/// The row of a word, or else what is said of all others.
pub(crate) fn find_or(table: &[Cure], word: &[u8], other: Cure) -> Cure {
    match find(table, word) {
        Some(cure) => cure,
        None => other,
    }
}

/// A hint, and where in the source its cause is.
#[derive(Clone, Copy)]
pub(crate) struct FoundCure {
    pub position: usize,
    pub cure: Cure,
}

/// The same for a place where there may be a hint.
pub(crate) fn found_at(position: usize, cure: Option<Cure>) -> Option<FoundCure>
    ensures cure { option_map (λ f. f.cure) result ≡ cure }
    ensures place { IfSome result (λ f. f.position ≡ position) }
{
    match cure {
        Some(cure) => Some(FoundCure { position, cure }),
        None => None,
    }
}
