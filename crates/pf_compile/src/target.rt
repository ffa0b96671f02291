//! Where the value of an expression goes, what clauses are tried on, and what isn't compiled.

/// What goes on with a value: code at a place, or the value is that of the activation.
#[derive(Clone, Copy)]
pub(crate) enum After {
    Place(u32),
    Return,
}

/// The register that a value goes into, the first register that is free until then, and what goes on.
#[derive(Clone, Copy)]
pub(crate) struct Target {
    pub(crate) into: u32,
    pub(crate) free: u32,
    pub(crate) after: After,
}

/// The register of what clauses are tried on: a value, or a message, which is taken by the first clause that picks it.
#[derive(Clone, Copy)]
pub(crate) enum Subject {
    Value(u32),
    Message(u32),
}

/// What isn't compiled.
#[derive(Clone, Copy, PartialEq, Eq, Debug)]
pub enum NotCompiled {
    /// A call of a function with another number of arguments. No checked source has one.
    Arity,
}
