//! Where a position is: the line and the column, and the rest of its line.

ghost use Rattle.std.specs.Prelude.{◌≡◌, ◌≤◌, length, count_by};
ghost use Rattle.pf_diagnostics.specs.Positions.{begins_character, column, columns, goes_on, is_newline, line_number};
ghost use Rattle.pf_diagnostics.specs.Positions.{since_newline, up_to_newline};

/// Whether a byte goes on with a character of UTF-8.
pub(crate) fn goes_on(byte: u8) -> bool
    ensures { result ≡ goes_on byte }
{
    matches!(byte, 128..=191)
}

/// How many columns these bytes take: one for each character.
pub(crate) fn columns(bytes: &[u8]) -> usize
    ensures count { result ≡ columns bytes.now }
    ensures bound { result ≤ length bytes.now }
{
    let mut count = 0;
    for byte in bytes {
        if !goes_on(*byte) {
            count += 1;
        }
    }
    count
}

/// How many newlines there are.
fn newlines(bytes: &[u8]) -> usize
    ensures count { result ≡ count_by is_newline bytes.now }
    ensures bound { result ≤ length bytes.now }
{
    let mut count = 0;
    for byte in bytes {
        if *byte == b'\n' {
            count += 1;
        }
    }
    count
}

/// The bytes since the last newline; all where there is none.
pub(crate) fn since_newline(front: &[u8]) -> &[u8]
    ensures { result.now ≡ since_newline front.now }
{
    let mut start = front.len();
    while start > 0 && front[start - 1] != b'\n' {
        start -= 1;
    }
    &front[start..]
}

/// The bytes up to the first newline; all where there is none.
pub(crate) fn up_to_newline(after: &[u8]) -> &[u8]
    ensures { result.now ≡ up_to_newline after.now }
{
    let mut end = 0;
    while end < after.len() && after[end] != b'\n' {
        end += 1;
    }
    &after[..end]
}

/// The number of the line after these bytes, from 1.
pub(crate) fn line_number(front: &[u8]) -> usize
    ensures { result ≡ line_number front.now }
{
    1 + newlines(front)
}

/// The number of the column after these bytes, from 1.
pub(crate) fn column(front: &[u8]) -> usize
    ensures { result ≡ column front.now }
{
    1 + columns(since_newline(front))
}
