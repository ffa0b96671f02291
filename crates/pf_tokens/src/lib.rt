//! Cuts the bytes of a source text into tokens, or names the first fault and its offset.
//!
//! The tokens are Erlang's (Erlang Reference Manual, "Data Types", "Expressions" and "Reserved Words") without floats,
//! numbers in other bases, binaries, maps, records and macros other than `?MODULE`; `maybe` and `else` are atoms.
//! `tokens` ties them to the rules of `specs/Rules.antt`, which know nothing of how a text is read.
//! Tokens with numbers for the names in them.
#![tactic(auto)]

mod bytes;
mod marks;
mod piece;
mod quoted;
mod scan;
mod token;
mod words;

pub use bytes::{is_digit, is_lower, is_word};
pub use marks::TokenMark;
pub use scan::{MOST_SOURCE_BYTES, one_reading, tokens};
pub use token::{Integer, Token, TokenForm};
pub use words::{Reserved, reserved_of};

mod limits;
mod number;
mod numbered_token;

pub use limits::{MOST_NAME_BYTES, MOST_TEXT_CHARACTERS, MOST_TREE_DEPTH};
pub use number::{number_tokens, number_tokens_after};
pub use numbered_token::{NumberedKind, NumberedToken};
