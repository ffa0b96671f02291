//! How deep an expression is that is gone through token by token, and whether it may be a pattern so far.

use pf_grammar::{Binding, Grouping};

/// What the tokens of an expression are so far, where they may yet be a pattern.
#[derive(Clone, Copy, PartialEq, Eq)]
enum Looks {
    Empty,
    Minus,
    Pattern,
    Other,
}

/// Operands that wait for the rest of their tree: how many there are, and how deep the tree is at least, counted from
/// its root.
#[derive(Clone, Copy)]
struct Pending {
    count: u32,
    deepest: u32,
}

impl Pending {
    const NONE: Pending = Pending {
        count: 0,
        deepest: 0,
    };

    /// Adds an operand of this depth, whose sibling comes next.
    fn add(&mut self, depth: u32) {
        self.count = self.count.saturating_add(1);
        self.deepest = self.deepest.max(depth.saturating_add(self.count));
    }

    /// The depth of the tree whose last operand has this depth.
    fn depth(self, last: u32) -> u32 {
        self.deepest.max(last.saturating_add(self.count))
    }
}

/// The levels of infixes, and one more.
const LEVELS: usize = 9;

/// The part of an expression that was gone through. Depths are 0 where there is nothing yet.
#[derive(Clone, Copy)]
pub(crate) struct Expression {
    /// Its first token by number, where it has one.
    start: Option<usize>,
    looks: Looks,
    is_negated: bool,
    /// The patterns that were matched before it.
    matches: Pending,
    /// The left operands at each level that wait for their right ones.
    pending: [Pending; LEVELS],
    /// The depth of what was read last, as an expression and as a pattern.
    last: u32,
    as_pattern: u32,
}

impl Expression {
    /// An expression of which nothing was read.
    pub(crate) const NEW: Expression = Expression {
        start: None,
        looks: Looks::Empty,
        is_negated: false,
        matches: Pending::NONE,
        pending: [Pending::NONE; LEVELS],
        last: 0,
        as_pattern: 0,
    };

    /// Notes where the expression begins, unless that is known.
    pub(crate) fn begin(&mut self, index: usize) {
        if self.start.is_none() {
            self.start = Some(index);
        }
    }

    /// Its first token by number.
    pub(crate) fn start(&self) -> usize {
        match self.start {
            Some(index) => index,
            None => 0,
        }
    }

    /// Whether what was read since the last match is a pattern.
    pub(crate) fn is_pattern(&self) -> bool {
        self.looks == Looks::Pattern
    }

    /// How deep it is as a pattern.
    pub(crate) fn pattern_depth(&self) -> u32 {
        self.as_pattern
    }

    /// Reads a minus before an operand.
    pub(crate) fn minus(&mut self) {
        self.is_negated = true;
        self.looks = match self.looks {
            Looks::Empty => Looks::Minus,
            _ => Looks::Other,
        };
    }

    /// Reads an integer.
    pub(crate) fn integer(&mut self) {
        let is_pattern = self.looks == Looks::Empty || self.looks == Looks::Minus;
        self.read(1, 1, is_pattern);
    }

    /// Reads an operand of this depth, and of that as a pattern if it is one.
    pub(crate) fn operand(&mut self, depth: u32, as_pattern: Option<u32>) {
        match as_pattern {
            Some(pattern) => {
                let is_pattern = self.looks == Looks::Empty;
                self.read(depth, pattern, is_pattern);
            }
            None => self.read(depth, 0, false),
        }
    }

    fn read(&mut self, depth: u32, as_pattern: u32, is_pattern: bool) {
        self.last = if self.is_negated {
            depth.saturating_add(1)
        } else {
            depth
        };
        self.is_negated = false;
        self.as_pattern = as_pattern;
        self.looks = if is_pattern {
            Looks::Pattern
        } else {
            Looks::Other
        };
    }

    /// Whether an infix may follow what was read: one that groups with none of its level does so once.
    pub(crate) fn may_join(&self, binding: Binding) -> bool {
        match self.pending.get(binding.level as usize) {
            Some(pending) => binding.grouping != Grouping::Alone || pending.count == 0,
            None => false,
        }
    }

    /// Reads an infix: what binds more tightly is its left operand.
    pub(crate) fn join(&mut self, binding: Binding) {
        self.looks = Looks::Other;
        let most = match binding.grouping {
            Grouping::Leftwards => binding.level.saturating_add(1),
            Grouping::Rightwards | Grouping::Alone => binding.level,
        };
        self.close_below(most as usize);
        if let Some(pending) = self.pending.get_mut(binding.level as usize) {
            pending.add(self.last);
        }
    }

    /// Makes trees of the operands at the levels below this one.
    fn close_below(&mut self, level: usize) {
        for pending in self.pending.iter_mut().take(level) {
            self.last = pending.depth(self.last);
            *pending = Pending::NONE;
        }
    }

    /// Reads the `=` after a pattern.
    pub(crate) fn matched(&mut self) {
        let start = self.start;
        let mut matches = self.matches;
        matches.add(self.as_pattern);
        *self = Expression::NEW;
        self.start = start;
        self.matches = matches;
    }

    /// How deep the whole is.
    pub(crate) fn depth(&self) -> u32 {
        let mut whole = *self;
        whole.close_below(LEVELS);
        self.matches.depth(whole.last)
    }
}
