//! Single tokens: what follows a kind of token, and the name, the number or the word that a token is.

ghost use Rattle.std.specs.Prelude.{◌≡◌, [], ◌∷◌, option_map, MatchOption};
ghost use Rattle.pf_grammar.specs.Grammar.{call_is_there};
ghost use Rattle.pf_grammar.specs.Parse.{after_kind, atom_in, is, follows_word, name_with_offset, number, word_parse};
ghost use Rattle.pf_tokens.specs.View.{kind_of, numbered_token_of};
ghost use Rattle.pf_reader.specs.View.{names_of, tokens_in};
ghost use Rattle.pf_reader.specs.Given.{Gives};

use crate::fault::{ReadFault, Syntax};
use pf_errors::OrNoMemory;
use pf_syntax::{Form, Ident, builtin_named, may_be_there};
use pf_terms::{AtomId, AtomTable};
use pf_tokens::{Integer, MOST_NAME_BYTES, NumberedKind, NumberedToken};

/// What the numbers in tokens stand for: the names of atoms, and the number of the module's own name.
#[derive(Clone, Copy)]
pub(crate) struct ReadingContext<'a> {
    pub atoms: &'a AtomTable,
    pub own: AtomId,
}

/// Tokens that are left to read.
#[derive(Clone, Copy)]
pub(crate) struct Tokens<'a, 't> {
    pub list: &'a [NumberedToken<'t>],
}

impl<'a, 't> Tokens<'a, 't> {
    /// The first token, and what follows it.
    pub(crate) fn first(self) -> Option<(NumberedToken<'t>, Tokens<'a, 't>)>
        ensures { MatchOption result (tokens_in self.entry ≡ [])
            (λ x. tokens_in self.entry ≡ numbered_token_of x.0 ∷ tokens_in x.1) }
    {
        let (first, list) = self.list.split_first()?;
        Some((*first, Tokens { list }))
    }
}

/// The first kind of token, a mark, a reserved word or the dot, is the second.
fn is_kind(wanted: NumberedKind, kind: NumberedKind) -> bool
    ensures { result ≡ is (kind_of wanted.entry) (kind_of kind.entry) }
{
    match wanted {
        NumberedKind::Mark(mark) => match kind {
            NumberedKind::Mark(other) => mark == other,
            _ => false,
        },
        NumberedKind::Reserved(word) => match kind {
            NumberedKind::Reserved(other) => word == other,
            _ => false,
        },
        NumberedKind::Dot => match kind {
            NumberedKind::Dot => true,
            _ => false,
        },
        _ => false,
    }
}

/// What follows the kind of token, where it comes first.
pub(crate) fn skip<'a, 't>(tokens: Tokens<'a, 't>, wanted: NumberedKind) -> Option<Tokens<'a, 't>>
    ensures { option_map (λ rest. tokens_in rest) result ≡ after_kind (kind_of wanted.entry)
        (tokens_in tokens.entry) }
{
    let (first, rest) = tokens.first()?;
    if is_kind(wanted, first.kind) {
        Some(rest)
    } else {
        None
    }
}

/// What follows the kind of token, which must come first.
pub(crate) fn expect<'a, 't>(
    tokens: Tokens<'a, 't>,
    wanted: NumberedKind,
) -> Result<Tokens<'a, 't>, ReadFault>
    ensures { Gives (λ rest. tokens_in rest) result (after_kind (kind_of wanted.entry) (tokens_in tokens.entry)) }
{
    match skip(tokens, wanted) {
        Some(rest) => Ok(rest),
        None => Err(OrNoMemory::Fault(Syntax)),
    }
}

impl ReadingContext<'_> {
    /// The atom that a kind of token is.
    pub(crate) fn atom(self, kind: NumberedKind) -> Option<AtomId>
        ensures { option_map (λ a. a.0) result ≡ atom_in (names_of self.entry) (kind_of kind.entry) }
    {
        match kind {
            NumberedKind::Atom(atom) => {
                if self.atoms.name(atom).len() <= MOST_NAME_BYTES {
                    Some(atom)
                } else {
                    None
                }
            }
            NumberedKind::OwnModule => Some(self.own),
            _ => None,
        }
    }

    /// Whether a call of this name with this number of arguments is allowed, in a guard where the flag says so.
    pub(crate) fn call_is_there(self, guard: bool, name: AtomId, arity: usize) -> bool
        ensures { result ≡ call_is_there (names_of self.entry) guard name.0 arity }
    {
        if !guard {
            return true;
        }
        match builtin_named(self.atoms.name(name), arity as u64) {
            Some(builtin) => may_be_there(true, Form::Calling(builtin)),
            None => false,
        }
    }
}

/// A name with its offset, which must come first, and what follows it.
pub(crate) fn read_name<'a, 't>(
    context: ReadingContext,
    tokens: Tokens<'a, 't>,
) -> Result<(Ident, Tokens<'a, 't>), ReadFault>
    ensures { Gives (λ x. ((x.0.name.0, x.0.offset), tokens_in x.1)) result
        (name_with_offset (names_of context.entry) (tokens_in tokens.entry)) }
{
    let Some((first, rest)) = tokens.first() else {
        return Err(OrNoMemory::Fault(Syntax));
    };
    match context.atom(first.kind) {
        Some(name) => Ok((
            Ident {
                name,
                offset: first.at,
            },
            rest,
        )),
        None => Err(OrNoMemory::Fault(Syntax)),
    }
}

/// The integer that comes first, and what follows it.
pub(crate) fn read_number<'a, 't>(tokens: Tokens<'a, 't>) -> Option<(Integer, Tokens<'a, 't>)>
    ensures { option_map (λ x. (x.0.value, tokens_in x.1)) result ≡ number (tokens_in tokens.entry) }
{
    let (first, rest) = tokens.first()?;
    match first.kind {
        NumberedKind::Integer(n) => Some((n, rest)),
        _ => None,
    }
}

/// Whether the kind of token is an atom of these bytes.
fn is_word(atoms: &AtomTable, bytes: &[u8], kind: NumberedKind) -> bool
    ensures { result ≡ follows_word atoms.now bytes.now (kind_of kind.entry) }
{
    match kind {
        NumberedKind::Atom(atom) => atoms.name(atom) == bytes,
        _ => false,
    }
}

/// What follows an atom of these bytes, where one comes first.
pub(crate) fn skip_word<'a, 't>(
    atoms: &AtomTable,
    bytes: &[u8],
    tokens: Tokens<'a, 't>,
) -> Option<Tokens<'a, 't>>
    ensures { option_map (λ rest. tokens_in rest) result ≡ word_parse atoms.now bytes.now (tokens_in tokens.entry) }
{
    let (first, rest) = tokens.first()?;
    if is_word(atoms, bytes, first.kind) {
        Some(rest)
    } else {
        None
    }
}
