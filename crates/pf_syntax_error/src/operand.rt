//! Operands.

use crate::frame::{ClauseFronts, Mode, NextToken, Opened};
use crate::walk::TokenWalk;
use pf_errors::NoMemory;
use pf_syntax::{Form, guard_may_call, may_be_there};
use pf_terms::AtomId;
use pf_tokens::{NumberedKind, Reserved, TokenMark};

impl TokenWalk<'_> {
    /// Where an operand is allowed.
    pub(crate) fn operand(
        &mut self,
        index: usize,
        kind: NumberedKind<'_>,
    ) -> Result<Option<NextToken>, NoMemory> {
        if self.next == NextToken::OperandOrEnd && self.is_closed_by(kind) {
            return Ok(self.close_empty());
        }
        if self.is_full() {
            return Ok(None);
        }
        self.current.begin(index);
        match kind {
            NumberedKind::Integer(_) => {
                self.current.integer();
                Ok(Some(NextToken::After))
            }
            _ if self.frame.mode == Mode::Pattern && self.next == NextToken::Part => Ok(None),
            NumberedKind::Variable(_) | NumberedKind::Anonymous | NumberedKind::Text(_) => {
                self.current.operand(1, Some(1));
                Ok(Some(NextToken::After))
            }
            NumberedKind::Atom(name) => Ok(Some(self.atom(name))),
            NumberedKind::OwnModule => Ok(Some(self.atom(self.own))),
            NumberedKind::Mark(mark) => self.mark(mark),
            NumberedKind::Reserved(word) => self.word(word),
            NumberedKind::Dot => Ok(None),
        }
    }

    /// Reads an atom, which may be the name of a call where one is allowed.
    fn atom(&mut self, name: AtomId) -> NextToken {
        self.name = name;
        if self.frame.mode == Mode::Pattern {
            self.current.operand(1, Some(1));
            return NextToken::After;
        }
        NextToken::AfterAtom
    }

    /// Reads a mark that opens an operand.
    fn mark(&mut self, mark: TokenMark) -> Result<Option<NextToken>, NoMemory> {
        let mode = self.frame.mode;
        match mark {
            TokenMark::Minus if self.next != NextToken::Part => {
                self.current.minus();
                Ok(Some(NextToken::Part))
            }
            TokenMark::OpenBrace => self.open(Opened::Tuple, mode, NextToken::OperandOrEnd),
            TokenMark::OpenBracket => self.open(Opened::List, mode, NextToken::OperandOrEnd),
            TokenMark::OpenParenthesis if mode != Mode::Pattern => {
                self.open(Opened::Parentheses, mode, NextToken::Operand)
            }
            _ => Ok(None),
        }
    }

    /// Reads a word that opens an operand.
    fn word(&mut self, word: Reserved) -> Result<Option<NextToken>, NoMemory> {
        match word {
            Reserved::Case if self.may_be_there(Form::Deciding) => {
                self.open(Opened::Scrutinee, Mode::Body, NextToken::Operand)
            }
            Reserved::If if self.may_be_there(Form::Choosing) => {
                self.open(
                    Opened::ClauseGuard(ClauseFronts::OfGuards),
                    Mode::Guard,
                    NextToken::Operand,
                )
            }
            Reserved::Receive if self.may_be_there(Form::Receiving) => {
                self.open(Opened::ClausePattern, Mode::Pattern, NextToken::Operand)
            }
            _ => Ok(None),
        }
    }

    /// Whether the form is allowed here.
    pub(crate) fn may_be_there(&self, form: Form) -> bool {
        match self.frame.mode {
            Mode::Body => may_be_there(false, form),
            Mode::Guard => may_be_there(true, form),
            Mode::Pattern => false,
        }
    }

    /// After an atom, which may be the name of a call.
    pub(crate) fn after_atom(
        &mut self,
        kind: NumberedKind<'_>,
    ) -> Result<Option<NextToken>, NoMemory> {
        if kind != NumberedKind::Mark(TokenMark::OpenParenthesis) {
            self.current.operand(1, Some(1));
            return Ok(self.after(kind));
        }
        let mode = self.frame.mode;
        if mode == Mode::Body {
            return self.open(Opened::Arguments(0, None), mode, NextToken::OperandOrEnd);
        }
        match self.guard_arity() {
            Some(arity) => self.open(
                Opened::Arguments(0, Some(arity)),
                mode,
                NextToken::OperandOrEnd,
            ),
            None => Ok(None),
        }
    }

    /// How many arguments a call of the atom has that a guard may hold. No built-in function that it may call has more
    /// than two.
    fn guard_arity(&self) -> Option<u64> {
        let name = self.atoms.name(self.name);
        if guard_may_call(name, 0) {
            Some(0)
        } else if guard_may_call(name, 1) {
            Some(1)
        } else if guard_may_call(name, 2) {
            Some(2)
        } else {
            None
        }
    }

    /// Whether all arguments were read that the call may have.
    fn is_full(&self) -> bool {
        match self.frame.opened {
            Opened::Arguments(read, Some(arity)) => read >= arity,
            _ => false,
        }
    }

    /// Whether the token closes the frame.
    fn is_closed_by(&self, kind: NumberedKind<'_>) -> bool {
        match (self.frame.opened, kind) {
            (Opened::Tuple, NumberedKind::Mark(TokenMark::CloseBrace)) => true,
            (Opened::List, NumberedKind::Mark(TokenMark::CloseBracket)) => true,
            (Opened::Parameters, NumberedKind::Mark(TokenMark::CloseParenthesis)) => true,
            (Opened::Arguments(_, arity), NumberedKind::Mark(TokenMark::CloseParenthesis)) => {
                arity.is_none() || arity == Some(0)
            }
            _ => false,
        }
    }

    /// Closes the frame, which holds nothing.
    fn close_empty(&mut self) -> Option<NextToken> {
        match self.frame.opened {
            Opened::Parameters => Some(NextToken::GuardOrArrow),
            Opened::Arguments(_, _) => self.close(false),
            _ => self.close(true),
        }
    }
}
