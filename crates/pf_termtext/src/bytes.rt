//! The bytes at the front of a text.

ghost use Rattle.std.specs.Prelude.{◌≡◌, ◌≤◌, length, option_map};
ghost use Rattle.std.specs.List.{prefix_len};
ghost use Rattle.pf_tokens.specs.Bytes.{is_word_byte};
ghost use Rattle.pf_termtext.specs.Reading.{after_byte, after_word, word_bytes};

use pf_tokens::is_word;

/// The bytes after this one, where it is at the front.
pub fn after(text: &[u8], byte: u8) -> Option<&[u8]>
    ensures { option_map (λ rest. rest.now) result ≡ after_byte byte text.now }
{
    match text {
        [first, rest @ ..] if *first == byte => Some(rest),
        _ => None,
    }
}

/// How many bytes of words are at the front.
fn word_length(text: &[u8]) -> usize
    ensures length { result ≡ prefix_len is_word_byte text.now }
    ensures within { result ≤ length text.now }
{
    text.iter().take_while(|byte| is_word(**byte)).count()
}

/// The bytes of words at the front, and the bytes after them.
pub fn split_word(text: &[u8]) -> (&[u8], &[u8])
    ensures word { result.0.now ≡ word_bytes text.now }
    ensures rest { result.1.now ≡ after_word text.now }
{
    text.split_at(word_length(text))
}
