//! Splits bytes into lines and words.

ghost use Rattle.std.specs.Prelude.{◌≡◌, ◌++◌, ◌∷◌, [], List, ℕ, MatchOption};
ghost use Rattle.pf_protocol.specs.Commands.{first_line, parts_between, words_of_line};
ghost use Rattle.pf_protocol.specs.Splits.{Lacks};
ghost use Rattle.pf_protocol.specs.View.{view_of_line};

/// The first line without its end, whether it has one, and what follows.
#[derive(Clone, Copy)]
pub struct SplitLine<'a> {
    pub text: &'a [u8],
    pub is_ended: bool,
    pub rest: &'a [u8],
}

/// What is before the first of these bytes, and what is after it.
fn split(bytes: &[u8], at: u8) -> Option<(&[u8], &[u8])>
    ensures { MatchOption result
        (Lacks at bytes.now)
        (λ parts. (bytes.now ≡ parts.0.now ++ (at ∷ parts.1.now)) × Lacks at parts.0.now) }
{
    let end = bytes.iter().position(|byte| *byte == at)?;
    Some((&bytes[..end], &bytes[end + 1..]))
}

/// The first line of some bytes.
pub fn first_line(bytes: &[u8]) -> SplitLine<'_>
    ensures { view_of_line result ≡ first_line bytes.now }
{
    match split(bytes, b'\n') {
        Some((text, rest)) => SplitLine {
            text,
            is_ended: true,
            rest,
        },
        None => SplitLine {
            text: bytes,
            is_ended: false,
            rest: &[],
        },
    }
}

/// What is before the first of these bytes, and the text of the parts that follow, if some do.
pub(crate) fn first_part(text: &[u8], at: u8) -> Option<(&[u8], &[u8])>
    ensures { MatchOption result
        (parts_between at text.now ≡ text.now ∷ [])
        (λ parts. parts_between at text.now ≡ parts.0.now ∷ parts_between at parts.1.now) }
{
    split(text, at)
}

/// The part of a text that has none of these bytes.
pub(crate) fn only_part(text: &[u8], at: u8) -> Option<&[u8]>
    ensures { MatchOption result
        ((a : List ℕ) × (b : List ℕ) × (others : List (List ℕ)) × (parts_between at text.now ≡ a ∷ b ∷ others))
        (λ part. parts_between at text.now ≡ part.now ∷ []) }
{
    match first_part(text, at) {
        Some(_) => None,
        None => Some(text),
    }
}

/// The first word of a text, and the text of those that follow, if some do.
pub(crate) fn first_word(text: &[u8]) -> Option<(&[u8], &[u8])>
    ensures { MatchOption result
        (words_of_line text.now ≡ text.now ∷ [])
        (λ parts. words_of_line text.now ≡ parts.0.now ∷ words_of_line parts.1.now) }
{
    first_part(text, b' ')
}

/// The word of a text that has no other.
pub(crate) fn only_word(text: &[u8]) -> Option<&[u8]>
    ensures { MatchOption result
        ((a : List ℕ) × (b : List ℕ) × (others : List (List ℕ)) × (words_of_line text.now ≡ a ∷ b ∷ others))
        (λ word. words_of_line text.now ≡ word.now ∷ []) }
{
    only_part(text, b' ')
}
