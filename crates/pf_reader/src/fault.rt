//! Why a part was not read.

use pf_errors::OrNoMemory;

/// No rule allows what is there.
#[derive(Clone, Copy, Debug, PartialEq, Eq)]
pub(crate) struct Syntax;

/// No rule allows what is there, or memory ran out.
pub(crate) type ReadFault = OrNoMemory<Syntax>;
