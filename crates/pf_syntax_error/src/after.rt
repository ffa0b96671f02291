//! What follows an operand.

use crate::frame::{ClauseFronts, Mode, NextToken, Opened};
use crate::walk::TokenWalk;
use pf_grammar::{Infix, infix_of};
use pf_tokens::{NumberedKind, Reserved, TokenMark};

impl TokenWalk<'_> {
    /// After an operand: an infix, or what ends the expression.
    pub(crate) fn after(&mut self, kind: NumberedKind<'_>) -> Option<NextToken> {
        match infix_of(kind) {
            Some(infix) if self.frame.mode != Mode::Pattern => self.infix(infix),
            _ => self.after_expression(kind),
        }
    }

    /// Reads an infix, where one is allowed.
    fn infix(&mut self, infix: Infix) -> Option<NextToken> {
        let is_in_guard = self.frame.mode == Mode::Guard;
        if !infix.is_there(is_in_guard) || !self.current.may_join(infix.binding()) {
            return None;
        }
        self.current.join(infix.binding());
        Some(NextToken::Operand)
    }

    /// After an operand, where no infix goes on.
    fn after_expression(&mut self, kind: NumberedKind<'_>) -> Option<NextToken> {
        match self.frame.opened {
            Opened::Parameters => self.after_parameter(kind),
            Opened::HeadGuard => self.after_test(kind, Opened::Function),
            Opened::Function => self.after_function_element(kind),
            Opened::Parentheses => self.after_last(
                kind,
                NumberedKind::Mark(TokenMark::CloseParenthesis),
                false,
            ),
            Opened::Arguments(read, arity) => self.after_argument(kind, read, arity),
            Opened::Tuple => self.after_item(kind, NumberedKind::Mark(TokenMark::CloseBrace)),
            Opened::List if kind == NumberedKind::Mark(TokenMark::Bar) => Some(self.tail()),
            Opened::List => self.after_item(kind, NumberedKind::Mark(TokenMark::CloseBracket)),
            Opened::Tail => self.after_last(
                kind,
                NumberedKind::Mark(TokenMark::CloseBracket),
                true,
            ),
            Opened::Scrutinee => self.after_scrutinee(kind),
            Opened::ClausePattern => self.after_pattern(kind),
            Opened::ClauseGuard(clauses) => self.after_test(kind, Opened::ClauseBody(clauses)),
            Opened::ClauseBody(clauses) => self.after_clause_element(kind, clauses),
        }
    }

    /// After the bar of a list.
    fn tail(&mut self) -> NextToken {
        self.ended();
        self.frame.opened = Opened::Tail;
        self.again()
    }

    /// After the last part of an operand, which this kind of token closes.
    fn after_last(
        &mut self,
        kind: NumberedKind<'_>,
        last: NumberedKind<'_>,
        may_be_pattern: bool,
    ) -> Option<NextToken> {
        if kind != last {
            return None;
        }
        self.ended();
        self.close(may_be_pattern)
    }

    /// After an element of a tuple or a list.
    fn after_item(&mut self, kind: NumberedKind<'_>, last: NumberedKind<'_>) -> Option<NextToken> {
        if kind == NumberedKind::Mark(TokenMark::Comma) {
            self.ended();
            return Some(self.again());
        }
        self.after_last(kind, last, true)
    }

    /// After an argument, before which `read` were read; in a guard there are `arity` in all.
    fn after_argument(
        &mut self,
        kind: NumberedKind<'_>,
        read: u64,
        arity: Option<u64>,
    ) -> Option<NextToken> {
        let read = read.saturating_add(1);
        match (kind, arity) {
            (NumberedKind::Mark(TokenMark::Comma), Some(arity)) if read >= arity => None,
            (NumberedKind::Mark(TokenMark::CloseParenthesis), Some(arity)) if read != arity => None,
            (NumberedKind::Mark(TokenMark::Comma), _) => {
                self.ended();
                self.frame.opened = Opened::Arguments(read, arity);
                Some(self.again())
            }
            _ => self.after_last(kind, NumberedKind::Mark(TokenMark::CloseParenthesis), false),
        }
    }

    /// After a parameter of a function.
    fn after_parameter(&mut self, kind: NumberedKind<'_>) -> Option<NextToken> {
        match kind {
            NumberedKind::Mark(TokenMark::Comma) => {
                self.ended();
                Some(self.again())
            }
            NumberedKind::Mark(TokenMark::CloseParenthesis) => {
                self.ended();
                Some(NextToken::GuardOrArrow)
            }
            _ => None,
        }
    }

    /// After a test of a guard, after whose arrow the body comes.
    fn after_test(&mut self, kind: NumberedKind<'_>, body: Opened) -> Option<NextToken> {
        match kind {
            NumberedKind::Mark(TokenMark::Comma | TokenMark::Semicolon) => {
                self.ended();
                Some(self.again())
            }
            NumberedKind::Mark(TokenMark::Arrow) => {
                self.ended();
                Some(self.turn(body, Mode::Body))
            }
            _ => None,
        }
    }

    /// After an element of the body of a function.
    fn after_function_element(&mut self, kind: NumberedKind<'_>) -> Option<NextToken> {
        match kind {
            NumberedKind::Mark(TokenMark::Match) => self.matched(),
            NumberedKind::Mark(TokenMark::Comma) => {
                self.ended();
                Some(self.again())
            }
            NumberedKind::Mark(TokenMark::Semicolon) => {
                self.ended();
                Some(NextToken::Name)
            }
            NumberedKind::Dot => {
                self.ended();
                Some(NextToken::FunctionOnly)
            }
            _ => None,
        }
    }

    /// Reads the `=` after a pattern.
    fn matched(&mut self) -> Option<NextToken> {
        if !self.current.is_pattern() {
            return None;
        }
        self.current.matched();
        Some(NextToken::Operand)
    }

    /// After what a `case` looks at.
    fn after_scrutinee(&mut self, kind: NumberedKind<'_>) -> Option<NextToken> {
        if kind != NumberedKind::Reserved(Reserved::Of) {
            return None;
        }
        self.ended();
        Some(self.clause(ClauseFronts::OfPatterns))
    }

    /// After the pattern of a clause.
    fn after_pattern(&mut self, kind: NumberedKind<'_>) -> Option<NextToken> {
        match kind {
            NumberedKind::Reserved(Reserved::When) => {
                self.ended();
                Some(self.turn(Opened::ClauseGuard(ClauseFronts::OfPatterns), Mode::Guard))
            }
            NumberedKind::Mark(TokenMark::Arrow) => {
                self.ended();
                Some(self.turn(Opened::ClauseBody(ClauseFronts::OfPatterns), Mode::Body))
            }
            _ => None,
        }
    }

    /// After an element of the body of a clause.
    fn after_clause_element(
        &mut self,
        kind: NumberedKind<'_>,
        clauses: ClauseFronts,
    ) -> Option<NextToken> {
        match kind {
            NumberedKind::Mark(TokenMark::Match) => self.matched(),
            NumberedKind::Mark(TokenMark::Comma) => {
                self.ended();
                Some(self.again())
            }
            NumberedKind::Mark(TokenMark::Semicolon) => {
                self.ended();
                Some(self.clause(clauses))
            }
            NumberedKind::Reserved(Reserved::End) => {
                self.ended();
                self.close(false)
            }
            _ => None,
        }
    }
}
