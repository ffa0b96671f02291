//! Forms, and the heads of functions.

use crate::frame::{Mode, NextToken, Opened};
use crate::walk::TokenWalk;
use pf_tokens::{NumberedKind, Reserved, TokenMark};

impl TokenWalk<'_> {
    /// At the beginning of a form, or in the head of a function.
    pub(crate) fn head(&mut self, kind: NumberedKind<'_>) -> Option<NextToken> {
        match (self.next, kind) {
            (NextToken::ExportOrFunction, NumberedKind::Mark(TokenMark::Minus)) => Some(
                NextToken::Ident,
            ),
            (
                NextToken::ExportOrFunction | NextToken::FunctionOnly | NextToken::Name,
                NumberedKind::Atom(_) | NumberedKind::OwnModule,
            ) => Some(NextToken::Parameters),
            (NextToken::Parameters, NumberedKind::Mark(TokenMark::OpenParenthesis)) => {
                self.turn(Opened::Parameters, Mode::Pattern);
                Some(NextToken::OperandOrEnd)
            }
            (NextToken::GuardOrArrow, NumberedKind::Reserved(Reserved::When)) => {
                Some(self.turn(Opened::HeadGuard, Mode::Guard))
            }
            (NextToken::GuardOrArrow, NumberedKind::Mark(TokenMark::Arrow)) => {
                Some(self.turn(Opened::Function, Mode::Body))
            }
            _ => None,
        }
    }
}
