//! The offset of the token that goes wrong.

ghost use Rattle.std.specs.Prelude.{IfOk};
ghost use Rattle.pf_tokens.specs.Offsets.{IsOffsetOf};
ghost use Rattle.pf_tokens.specs.View.{token_list};

use crate::walk::TokenWalk;
use pf_errors::NoMemory;
use pf_terms::{AtomId, AtomTable};
use pf_tokens::NumberedToken;
use std::alloc::Global;

/// How many tokens the first form has.
const HEAD: usize = 6;

/// Where the tokens of a module go wrong that has this name, after its first form: the offset of one of them, or the
/// end of the source.
pub fn fault_offset(
    alloc: Global,
    atoms: &AtomTable,
    own: AtomId,
    tokens: &[NumberedToken<'_>],
    end: usize,
) -> Result<usize, NoMemory>
    ensures { IfOk result (IsOffsetOf (token_list tokens.now) end) }
{
    let Some(index) = wrong_token(alloc, atoms, own, tokens)? else {
        return Ok(end);
    };
    match tokens.get(index) {
        Some(token) => Ok(token.at as usize),
        None => Ok(end),
    }
}

/// Which token goes wrong, counted from 0; none where the end does.
fn wrong_token(
    alloc: Global,
    atoms: &AtomTable,
    own: AtomId,
    tokens: &[NumberedToken<'_>],
) -> Result<Option<usize>, NoMemory> {
    let mut walk = TokenWalk::new(alloc, atoms, own);
    walk.limit_names(tokens);
    for (index, token) in tokens.iter().enumerate().skip(HEAD) {
        match walk.step(index, token.kind)? {
            Some(next) => walk.next = next,
            None => return Ok(Some(index)),
        }
    }
    Ok(walk.end())
}
