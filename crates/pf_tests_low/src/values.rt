//! Values and the names of atoms: each public call once, and drops on a small stack.

use pf_terms::{
    AtomId, AtomTable, List, Term, copy, depth, equal, list_of, nodes, order, tuple_of,
};
use std::alloc::Global;
use std::cmp::Ordering;
use std::test::Fail;
use std::thread::{Builder, Threads};

/// `[{m, 7}, #Ref<3>, <4>]`, where `m` is this atom.
fn each_kind(alloc: Global, m: AtomId) -> Result<List, Fail> {
    let pair = tuple_of(alloc, vec![in alloc; Term::Atom(m), Term::Int(7)]?)?;
    Ok(list_of(alloc, vec![in alloc; pair, Term::Ref(3), Term::Pid(4)]?)?)
}

/// The list with 9 in place of its head.
fn after_nine(alloc: Global, list: &List) -> Result<List, Fail> {
    match list.split() {
        Some((_, tail)) => Ok(List::cons(alloc, Term::Int(9), tail.share()?)?),
        None => Err(Fail::from("the list is empty")),
    }
}

/// The nodes and the depth of that list, whether it is equal to its copy, and how it compares with the list that has 9
/// before it.
fn reported(
    alloc: Global,
    atoms: &AtomTable,
    m: AtomId,
) -> Result<(u32, u32, bool, Ordering), Fail> {
    let list = each_kind(alloc, m)?;
    let other = Term::List(after_nine(alloc, &list)?);
    let value = Term::List(list);
    let same = equal(&value, &copy(&value)?) && !equal(&value, &other);
    Ok((
        nodes(&value),
        depth(&value),
        same,
        order(&value, &other, atoms),
    ))
}

#[test]
fn values_are_made_and_taken_apart(rt: HostRuntime) -> Result<(), Fail> {
    let mut atoms = AtomTable::new(rt.alloc())?;
    let m = atoms.enter(rt.alloc(), b"m")?;
    assert!(rt;
        atoms.find(b"m") == Some(m) && atoms.name(m) == b"m".as_slice() && atoms.len() == 21
    );
    // A tuple comes after a number.
    assert!(rt; reported(rt.alloc(), &atoms, m)? == (6, 3, true, Ordering::Greater));
    Ok(())
}

/// A list of n zeros.
fn long(alloc: Global, count: usize) -> Result<Term, Fail> {
    let mut list = List::Nil;
    for _ in 0..count {
        list = List::cons(alloc, Term::Int(0), list)?;
    }
    Ok(Term::List(list))
}

/// A zero in n tuples.
fn deep(alloc: Global, count: usize) -> Result<Term, Fail> {
    let mut term = Term::Int(0);
    for _ in 0..count {
        term = tuple_of(alloc, vec![in alloc; term]?)?;
    }
    Ok(term)
}

/// The nodes of a value that a thread with a small stack drops.
fn dropped_on_a_small_stack<R: Threads>(rt: &R, value: Term) -> Result<u32, Fail> {
    let small = Builder::new().stack_size(256 * 1024);
    let dropped = small.spawn(rt, move || -> u32 {
        let size = nodes(&value);
        drop(value);
        size
    })?;
    Ok(dropped.join(rt))
}

#[test]
fn long_and_deep_values_drop_on_a_small_stack(rt: HostRuntime) -> Result<(), Fail> {
    let size = dropped_on_a_small_stack(&rt, long(rt.alloc(), 4_095)?)?;
    assert_eq!(rt; size, 4_096);
    let size = dropped_on_a_small_stack(&rt, deep(rt.alloc(), 63)?)?;
    assert_eq!(rt; size, 64);
    Ok(())
}
