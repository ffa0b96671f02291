//! A value of a run, as a word that is copied.

/// A value: a number by itself, or a pair or a tuple by the index of its cell in a heap.
#[derive(Clone, Copy, PartialEq, Eq, Debug)]
pub enum Word {
    Int(i64),
    Atom(u64),
    Ref(u64),
    Pid(u64),
    Tuple(u64),
    Nil,
    Cons(u64),
}
