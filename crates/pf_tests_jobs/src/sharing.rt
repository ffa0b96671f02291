//! Who submits the same bytes shares their module, which leaves the store with its last holder.

use pf_check::Source;
use pf_store::Store;
use std::alloc::Global;
use std::hash::RandomState;
use std::sync::Arc;
use std::test::Fail;

fn source_of(alloc: Global, text: &[u8]) -> Result<Source, Fail> {
    Ok(Source::new(alloc, Vec::from_slice(alloc, text)?)?)
}

/// How many share the module of a source once it was taken and given up.
fn take_and_give_up(alloc: Global, store: &mut Store, text: &[u8]) -> Result<usize, Fail> {
    let source = source_of(alloc, text)?;
    let module = store.take_or_read(alloc, &source)?;
    store.give_up(&source);
    Ok(Arc::strong_count(module.module()))
}

/// The same of a source that is held on, how many share it then, and the same of another source.
fn shares(alloc: Global, store: &mut Store) -> Result<[usize; 3], Fail> {
    let held = store.take_or_read(alloc, &source_of(alloc, b"-module(m).\nf() -> 1 + 2.\n")?)?;
    let taken = take_and_give_up(alloc, store, b"-module(m).\nf() -> 1 + 2.\n")?;
    let left = Arc::strong_count(held.module());
    Ok([taken, left, take_and_give_up(alloc, store, b"-module(m).")?])
}

#[test]
fn same_bytes_share_their_module(rt: HostRuntime) -> Result<(), Fail> {
    let mut store = Store::new(rt.alloc(), RandomState::new(&rt)?);
    // As long as a source is held the store has a share of its module, too.
    assert_eq!(rt; shares(rt.alloc(), &mut store)?, [3, 2, 1]);
    Ok(())
}
