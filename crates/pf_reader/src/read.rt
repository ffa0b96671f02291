//! Reads the tokens of a source.

ghost use Rattle.std.specs.Prelude.{◌≡◌, map, option_map, IfErr, IfOk, None};
ghost use Rattle.pf_tokens.specs.TokenKinds.{placed_of};
ghost use Rattle.pf_tokens.specs.NumberedTokens.{atoms_of, numbered_tokens};
ghost use Rattle.pf_grammar.specs.Grammar.{tree_of, DerivesTree, Tree};
ghost use Rattle.pf_grammar.specs.Parse.{any_atom, first_form, tree};
ghost use Rattle.pf_tokens.specs.View.{token_list};
ghost use Rattle.pf_reader.specs.View.{tokens_in};
ghost use Rattle.pf_reader.specs.Given.{Gives};
ghost use Rattle.pf_reader.specs.Outcome.{IsParsedAs, IsTreeFault};

use crate::export::read_exports;
use crate::fault::{ReadFault, Syntax};
use crate::function::read_functions;
use crate::token::{ReadingContext, Tokens, skip, skip_word};
use pf_errors::{Code, NoMemory, OrNoMemory, SourceRefusal};
use pf_syntax::SyntaxTree;
use pf_syntax_error::fault_offset;
use pf_terms::{AtomId, AtomTable};
use pf_tokens::{MOST_NAME_BYTES, NumberedKind, NumberedToken, Token, TokenMark, number_tokens};
use std::alloc::Global;

/// A module as it is read: its syntax tree, and the names of its atoms by number.
#[derive(Drop)]
pub struct ParsedModule {
    pub syntax: SyntaxTree,
    pub atoms: AtomTable,
}

/// The atom that comes first, whose name may have any length, and what follows it.
fn any_atom<'a, 't>(tokens: Tokens<'a, 't>) -> Option<(AtomId, Tokens<'a, 't>)>
    ensures { option_map (λ x. (x.0.0, tokens_in x.1)) result ≡ any_atom (tokens_in tokens.entry) }
{
    let (first, rest) = tokens.first()?;
    match first.kind {
        NumberedKind::Atom(atom) => Some((atom, rest)),
        _ => None,
    }
}

/// The module's name, where the first form comes first, and what follows that.
fn first_form<'a, 't>(atoms: &AtomTable, tokens: Tokens<'a, 't>) -> Option<(AtomId, Tokens<'a, 't>)>
    ensures { option_map (λ x. (x.0.0, tokens_in x.1)) result ≡ first_form atoms.now (tokens_in tokens.entry) }
{
    let rest = skip(tokens, NumberedKind::Mark(TokenMark::Minus))?;
    let rest = skip_word(atoms, b"module", rest)?;
    let rest = skip(rest, NumberedKind::Mark(TokenMark::OpenParenthesis))?;
    let (name, rest) = any_atom(rest)?;
    let rest = skip(rest, NumberedKind::Mark(TokenMark::CloseParenthesis))?;
    let rest = skip(rest, NumberedKind::Dot)?;
    Some((name, rest))
}

/// The module of these tokens, whose atoms have these names.
fn read_module(
    alloc: Global,
    atoms: &AtomTable,
    tokens: &[NumberedToken],
) -> Result<SyntaxTree, ReadFault>
    ensures { Gives tree_of result (tree atoms.now (token_list tokens.now)) }
{
    let Some((own, rest)) = first_form(atoms, Tokens { list: tokens }) else {
        return Err(OrNoMemory::Fault(Syntax));
    };
    let context = ReadingContext { atoms, own };
    let mut syntax = SyntaxTree::new(alloc, own);
    let rest = read_exports(alloc, context, &mut syntax, rest)?;
    read_functions(alloc, context, &mut syntax, rest)?;
    if atoms.name(own).len() > MOST_NAME_BYTES {
        return Err(OrNoMemory::Fault(Syntax));
    }
    Ok(syntax)
}

/// Why tokens that aren't a module have no tree, in a source that ends at `end`.
fn tree_fault(
    alloc: Global,
    atoms: &AtomTable,
    tokens: &[NumberedToken],
    end: usize,
) -> OrNoMemory<SourceRefusal>
    requires { tree atoms.now (token_list tokens.now) ≡ None }
    ensures { IsTreeFault atoms.now (token_list tokens.now) end result }
{
    let Some((own, _)) = first_form(atoms, Tokens { list: tokens }) else {
        return OrNoMemory::refusal(Code::NoHead, 0);
    };
    match fault_offset(alloc, atoms, own, tokens, end) {
        Ok(offset) => OrNoMemory::refusal(Code::NotGrammar, offset),
        Err(NoMemory) => OrNoMemory::NoMemory,
    }
}

/// The module that the tokens of a source are, which ends at `end`.
pub fn read_tree(
    alloc: Global,
    tokens: &[Token],
    end: usize,
) -> Result<ParsedModule, OrNoMemory<SourceRefusal>>
    ensures found { IfOk result (λ t. DerivesTree (atoms_of (map placed_of tokens.now)) (tree_of t.syntax)
        (numbered_tokens (map placed_of tokens.now))) }
    ensures atoms { IfOk result (λ t. t.atoms ≡ atoms_of (map placed_of tokens.now)) }

    // What derives the tokens is read, unless memory runs out.
    ensures only { (m : Tree) → DerivesTree (atoms_of (map placed_of tokens.now)) m
        (numbered_tokens (map placed_of tokens.now)) → IsParsedAs m result }
    ensures fault { IfErr result (IsTreeFault (atoms_of (map placed_of tokens.now))
        (numbered_tokens (map placed_of tokens.now)) end) }
{
    let (atoms, found) = number_tokens(alloc, tokens)?;
    match read_module(alloc, &atoms, &found) {
        Ok(syntax) => Ok(ParsedModule { syntax, atoms }),
        Err(OrNoMemory::NoMemory) => Err(OrNoMemory::NoMemory),
        Err(OrNoMemory::Fault(Syntax)) => Err(tree_fault(alloc, &atoms, &found, end)),
    }
}
