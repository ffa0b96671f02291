//! The tokens.
ghost use Rattle.std.specs.Prelude.{◌<◌, ◌^◌};

use crate::marks::TokenMark;
use crate::words::Reserved;

/// A token, with the offsets of its first byte and of the byte after its last, from 0.
#[derive(Debug, Drop)]
pub struct Token {
    pub kind: TokenForm,
    pub start: usize,
    pub end: usize,
}

/// An integer of the text, at most 9223372036854775807.
#[derive(Clone, Copy, Debug, PartialEq, Eq)]
pub struct Integer {
    pub value: u64,
    ghost in_range: { value < 2 ^ 63 },
}

/// What a token is.
#[derive(Debug, Drop)]
pub enum TokenForm {
    Integer(Integer),
    /// The bytes of an atom, after its escapes are read; quoted or not, but no reserved word unless quoted.
    Atom(Vec<u8>),
    /// The name of a variable, other than `_`.
    Variable(Vec<u8>),
    /// `_`
    Anonymous,
    /// The bytes of a string, after its escapes are read.
    Text(Vec<u8>),
    /// `?MODULE`
    Module,
    Dot,
    Mark(TokenMark),
    Reserved(Reserved),
}
