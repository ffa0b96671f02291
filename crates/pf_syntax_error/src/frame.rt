//! What is open around an expression, and what may come next.

/// How an expression is read.
#[derive(Clone, Copy, PartialEq, Eq)]
pub(crate) enum Mode {
    Body,
    Guard,
    Pattern,
}

/// Whether clauses have patterns, or guards alone as those of an `if`.
#[derive(Clone, Copy, PartialEq, Eq)]
pub(crate) enum ClauseFronts {
    OfPatterns,
    OfGuards,
}

/// What is open around an expression.
#[derive(Clone, Copy, PartialEq, Eq)]
pub(crate) enum Opened {
    /// The parameters, the guard and the body of a clause of a function.
    Parameters,
    HeadGuard,
    Function,
    Parentheses,
    /// The arguments of a call: how many were read, and how many there are if a guard says so.
    Arguments(u64, Option<u64>),
    Tuple,
    List,
    /// After the bar of a list.
    Tail,
    /// After `case`.
    Scrutinee,
    /// The pattern, the guard and the body of a clause.
    ClausePattern,
    ClauseGuard(ClauseFronts),
    ClauseBody(ClauseFronts),
}

/// What is open, with how its expressions are read and what is known of those that have ended.
#[derive(Clone, Copy)]
pub(crate) struct OpenForm {
    pub opened: Opened,
    pub mode: Mode,
    /// How deep the deepest is, as an expression and as a pattern.
    pub deepest: u32,
    pub deepest_pattern: u32,
    /// Whether all are patterns.
    pub are_patterns: bool,
}

impl OpenForm {
    /// A frame of which no expression has ended.
    pub(crate) const fn new(opened: Opened, mode: Mode) -> OpenForm {
        OpenForm {
            opened,
            mode,
            deepest: 0,
            deepest_pattern: 0,
            are_patterns: true,
        }
    }
}

/// What may come next.
#[derive(Clone, Copy, PartialEq, Eq)]
pub(crate) enum NextToken {
    /// A form: an export, where no function was read yet, or a function.
    ExportOrFunction,
    FunctionOnly,
    /// In an export.
    Ident,
    List,
    Bracket,
    EntryOrEnd,
    Entry,
    Slash,
    Arity,
    EntryEnd,
    ListEnd,
    ExportDot,
    /// In the head of a function: the name of a further clause, the parameters, and `when` or an arrow.
    Name,
    Parameters,
    GuardOrArrow,
    /// In an expression: an operand, with a minus or without; one after a minus; one, or the end of an empty list of
    /// them.
    Operand,
    Part,
    OperandOrEnd,
    /// After an atom, which may be the name of a call.
    AfterAtom,
    After,
}
