//! Tables of which each entry has a number below 2^32.

ghost use Rattle.std.specs.Prelude.{◌≡◌, IfOk, MatchOption, None, slice_get, Some};

use pf_errors::NoMemory;

/// The number of the next entry of a table with n entries.
pub(crate) fn next_id(len: usize) -> Result<u32, NoMemory>
    ensures { IfOk result (λ n. n ≡ len) }
{
    u32::try_from(len).map_err(|_| NoMemory)
}

/// The entry of this number.
pub(crate) fn entry<T>(table: &[T], id: u32) -> Option<&T>
    ensures { MatchOption result (slice_get table.now id ≡ None) (λ x. slice_get table.now id ≡ Some x.now) }
{
    table.get(id as usize)
}
