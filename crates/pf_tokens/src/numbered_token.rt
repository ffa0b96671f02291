//! Tokens whose names are numbers.

use crate::{Integer, Reserved, TokenMark};
use pf_terms::AtomId;

/// What a token is. The characters of a string stay where the token has them.
#[derive(Clone, Copy, Debug, PartialEq, Eq)]
pub enum NumberedKind<'a> {
    Integer(Integer),
    Atom(AtomId),
    Variable(AtomId),
    Anonymous,
    Text(&'a [u8]),
    OwnModule,
    Dot,
    Mark(TokenMark),
    Reserved(Reserved),
}

/// A token, and the offset of its first byte.
#[derive(Clone, Copy, Debug)]
pub struct NumberedToken<'a> {
    pub kind: NumberedKind<'a>,
    pub at: u32,
}
