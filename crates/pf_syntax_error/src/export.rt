//! Export forms.

use crate::frame::NextToken;
use crate::walk::TokenWalk;
use pf_terms::AtomId;
use pf_tokens::{NumberedKind, TokenMark};

impl TokenWalk<'_> {
    /// In an export form, after its minus.
    pub(crate) fn export(&self, kind: NumberedKind<'_>) -> Option<NextToken> {
        match (self.next, kind) {
            (NextToken::Ident, NumberedKind::Atom(name)) if self.is_export(name) => Some(
                NextToken::List,
            ),
            (NextToken::List, NumberedKind::Mark(TokenMark::OpenParenthesis)) => Some(
                NextToken::Bracket,
            ),
            (NextToken::Bracket, NumberedKind::Mark(TokenMark::OpenBracket)) => Some(
                NextToken::EntryOrEnd,
            ),
            (
                NextToken::EntryOrEnd | NextToken::EntryEnd,
                NumberedKind::Mark(TokenMark::CloseBracket),
            ) => { Some(NextToken::ListEnd) }
            (
                NextToken::EntryOrEnd | NextToken::Entry,
                NumberedKind::Atom(_) | NumberedKind::OwnModule,
            ) => Some(NextToken::Slash),
            (NextToken::Slash, NumberedKind::Mark(TokenMark::Slash)) => Some(NextToken::Arity),
            (NextToken::Arity, NumberedKind::Integer(_)) => Some(NextToken::EntryEnd),
            (NextToken::EntryEnd, NumberedKind::Mark(TokenMark::Comma)) => Some(NextToken::Entry),
            (NextToken::ListEnd, NumberedKind::Mark(TokenMark::CloseParenthesis)) => Some(
                NextToken::ExportDot,
            ),
            (NextToken::ExportDot, NumberedKind::Dot) => Some(NextToken::ExportOrFunction),
            _ => None,
        }
    }

    fn is_export(&self, name: AtomId) -> bool {
        self.atoms.name(name) == b"export".as_slice()
    }
}
