//! Where a position is, by the bytes before it.

/// The bytes since the last line end.
fn since_newline(front: &[u8]) -> &[u8] {
    match front.iter().rposition(|byte| *byte == b'\n') {
        Some(at) => front.get(at.saturating_add(1)..).unwrap_or(&[]),
        None => front,
    }
}

/// The number of the line, from 1.
pub(crate) fn line(front: &[u8]) -> usize {
    front
        .iter()
        .filter(|byte| **byte == b'\n')
        .count()
        .saturating_add(1)
}

/// The number of the column, from 1; a character takes one.
pub(crate) fn column(front: &[u8]) -> usize {
    let line = since_newline(front);
    line.iter()
        .filter(|byte| !matches!(**byte, 128..=191))
        .count()
        .saturating_add(1)
}
