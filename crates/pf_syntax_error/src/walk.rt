//! A walk through the tokens.

use crate::expression::Expression;
use crate::frame::{ClauseFronts, Mode, NextToken, OpenForm, Opened};
use pf_errors::NoMemory;
use pf_terms::{AtomId, AtomTable};
use pf_tokens::{
    MOST_NAME_BYTES, MOST_TEXT_CHARACTERS, MOST_TREE_DEPTH, NumberedKind, NumberedToken,
};
use std::alloc::Global;

/// How far the tokens were gone through.
#[derive(Drop)]
pub(crate) struct TokenWalk<'a> {
    pub alloc: Global,
    pub atoms: &'a AtomTable,
    /// The module's own name.
    pub own: AtomId,
    pub next: NextToken,
    pub frame: OpenForm,
    pub current: Expression,
    pub outer: Vec<(OpenForm, Expression)>,
    /// The atom that was read last.
    pub name: AtomId,
    /// The first token of the first part that passes a limit.
    pub beyond: Option<usize>,
}

impl<'a> TokenWalk<'a> {
    /// A walk at the first form, of the module with this name.
    pub(crate) fn new(alloc: Global, atoms: &'a AtomTable, own: AtomId) -> TokenWalk<'a> {
        TokenWalk {
            alloc,
            atoms,
            own,
            next: NextToken::ExportOrFunction,
            frame: OpenForm::new(Opened::Function, Mode::Body),
            current: Expression::NEW,
            outer: Vec::new(alloc),
            name: own,
            beyond: None,
        }
    }

    /// Notes the first atom or string that is too long.
    pub(crate) fn limit_names(&mut self, tokens: &[NumberedToken<'_>]) {
        for (index, token) in tokens.iter().enumerate() {
            if self.is_long(token.kind) {
                return self.limit(index);
            }
        }
    }

    fn is_long(&self, kind: NumberedKind<'_>) -> bool {
        match kind {
            NumberedKind::Atom(name) => self.atoms.name(name).len() > MOST_NAME_BYTES,
            NumberedKind::Text(text) => text.len() > MOST_TEXT_CHARACTERS,
            _ => false,
        }
    }

    /// Notes a part that passes a limit, by its first token, if it is the first such part.
    fn limit(&mut self, index: usize) {
        self.beyond = match self.beyond {
            Some(first) => Some(first.min(index)),
            None => Some(index),
        };
    }

    /// The token that goes wrong, where every token was allowed.
    pub(crate) fn end(&self) -> Option<usize> {
        match self.next {
            NextToken::ExportOrFunction | NextToken::FunctionOnly => self.beyond,
            _ => None,
        }
    }

    /// What may follow the token; nothing where it isn't allowed there itself.
    pub(crate) fn step(
        &mut self,
        index: usize,
        kind: NumberedKind<'_>,
    ) -> Result<Option<NextToken>, NoMemory> {
        match self.next {
            NextToken::Operand | NextToken::Part | NextToken::OperandOrEnd => self.operand(
                index, kind,
            ),
            NextToken::AfterAtom => self.after_atom(kind),
            NextToken::After => Ok(self.after(kind)),
            NextToken::ExportOrFunction
            | NextToken::FunctionOnly
            | NextToken::Name
            | NextToken::Parameters
            | NextToken::GuardOrArrow => Ok(self.head(kind)),
            _ => Ok(self.export(kind)),
        }
    }

    /// Begins an expression in the same frame.
    pub(crate) fn again(&mut self) -> NextToken {
        self.current = Expression::NEW;
        NextToken::Operand
    }

    /// Begins the first expression of a frame that takes the place of the one that is open.
    pub(crate) fn turn(&mut self, opened: Opened, mode: Mode) -> NextToken {
        let deepest = self.frame.deepest;
        self.frame = OpenForm::new(opened, mode);
        self.frame.deepest = deepest;
        self.again()
    }

    /// The same at the beginning of a clause.
    pub(crate) fn clause(&mut self, clauses: ClauseFronts) -> NextToken {
        match clauses {
            ClauseFronts::OfPatterns => self.turn(Opened::ClausePattern, Mode::Pattern),
            ClauseFronts::OfGuards => self.turn(Opened::ClauseGuard(clauses), Mode::Guard),
        }
    }

    /// Begins an expression that is a part of the one that is read.
    pub(crate) fn open(
        &mut self,
        opened: Opened,
        mode: Mode,
        next: NextToken,
    ) -> Result<Option<NextToken>, NoMemory> {
        self.outer.push((self.frame, self.current))?;
        self.frame = OpenForm::new(opened, mode);
        self.current = Expression::NEW;
        Ok(Some(next))
    }

    /// Ends an expression in its frame. At the outermost, one that is too deep passes the limit.
    pub(crate) fn ended(&mut self) {
        let is_in_pattern = self.frame.mode == Mode::Pattern;
        let as_pattern = self.current.pattern_depth();
        let depth = if is_in_pattern {
            as_pattern
        } else {
            self.current.depth()
        };
        if self.outer.is_empty() && depth > MOST_TREE_DEPTH {
            let index = self.current.start();
            self.limit(index);
        }
        self.frame.are_patterns = self.frame.are_patterns && self.current.is_pattern();
        self.frame.deepest = self.frame.deepest.max(depth);
        self.frame.deepest_pattern = self.frame.deepest_pattern.max(as_pattern);
    }

    /// Ends the operand that the frame is of: it is a pattern if its parts are and `may_be_pattern` says so.
    pub(crate) fn close(&mut self, may_be_pattern: bool) -> Option<NextToken> {
        let (outer, expression) = self.outer.pop()?;
        let inner = self.frame;
        let as_pattern = if may_be_pattern && inner.are_patterns {
            Some(inner.deepest_pattern.saturating_add(1))
        } else {
            None
        };
        self.frame = outer;
        self.current = expression;
        self.current
            .operand(inner.deepest.saturating_add(1), as_pattern);
        Some(NextToken::After)
    }
}
