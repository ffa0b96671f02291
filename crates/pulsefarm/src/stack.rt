//! How much stack the work has.

use std::fs::{self, Files};
use std::io::Read;

/// The stack that the work has at least: twice what the deepest source may take.
pub const STACK_BYTES: usize = 4 << 20;

/// Whether the system lets the stack of the first thread grow so far; no, if it doesn't say.
pub fn first_thread_has_stack(files: &impl Files) -> bool {
    let mut table = [0u8; 4_096];
    let Ok(mut limits) = fs::open(files, "/proc/self/limits") else {
        return false;
    };
    let Ok(length) = limits.read(&mut table) else {
        return false;
    };
    let Ok(table) = str::from_utf8(&table[..length]) else {
        return false;
    };
    let Some(limits) = table
        .lines()
        .find_map(|line| line.strip_prefix("Max stack size"))
    else {
        return false;
    };
    match limits.split_whitespace().next() {
        Some("unlimited") => true,
        Some(limit) => limit
            .parse::<u64>()
            .is_ok_and(|limit| limit >= STACK_BYTES as u64),
        None => false,
    }
}
