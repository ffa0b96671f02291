//! A module of a long pattern, which is read and dropped on a small stack.

use pf_check::read;
use pf_errors::NoMemory;
use std::alloc::Global;
use std::test::Fail;
use std::thread::Builder;

/// A module of a function that takes a list of 20,001 equal elements.
fn long_module(alloc: Global) -> Result<String, NoMemory> {
    let mut source = String::new(alloc);
    source.push_str("-module(m). f([X")?;
    for _ in 0..20000u32 {
        source.push_str(", X")?;
    }
    source.push_str("]) -> X.")?;
    Ok(source)
}

/// Whether the long module is read.
fn is_read(alloc: Global) -> Result<bool, NoMemory> {
    let source = long_module(alloc)?;
    Ok(read(alloc, source.as_bytes()).is_ok())
}

#[test]
fn a_long_pattern_is_read_on_a_small_stack(rt: HostRuntime) -> Result<(), Fail> {
    let alloc = rt.alloc();
    let small = Builder::new().stack_size(64 * 1024);
    let reading = small.spawn(&rt, move || -> bool { is_read(alloc).unwrap_or(false) })?;
    assert!(rt; reading.join(&rt));
    Ok(())
}
