//! Export forms.

ghost use Rattle.std.specs.Prelude.{◌≡◌, ◌++◌, length, map, OnOk};
ghost use Rattle.pf_syntax.specs.SyntaxTreeOver.{export_of};
ghost use Rattle.pf_tokens.specs.declared.marks.TokenMark.TheVariants.{CloseBracket, Comma};
ghost use Rattle.pf_tokens.specs.NumberedTokens.{mark};
ghost use Rattle.pf_grammar.specs.Parse.{entry, export, exports, items, until};
ghost use Rattle.pf_reader.specs.View.{names_of, tokens_in};
ghost use Rattle.pf_reader.specs.Given.{with_front, Gives};

use crate::fault::{ReadFault, Syntax};
use crate::token::{ReadingContext, Tokens, expect, read_name, read_number, skip, skip_word};
use pf_errors::{NoMemory, OrNoMemory};
use pf_syntax::{Export, SyntaxTree};
use pf_tokens::{NumberedKind, TokenMark};
use std::alloc::Global;

/// An entry: a name, a slash and a number of arguments.
fn read_entry<'a, 't>(
    context: ReadingContext,
    tokens: Tokens<'a, 't>,
) -> Result<(Export, Tokens<'a, 't>), ReadFault>
    ensures { Gives (λ x. (export_of x.0, tokens_in x.1)) result
        (entry (names_of context.entry) (tokens_in tokens.entry)) }
{
    let (ident, rest) = read_name(context, tokens)?;
    let rest = expect(rest, NumberedKind::Mark(TokenMark::Slash))?;
    match read_number(rest) {
        Some((arity, rest)) => Ok((
            Export {
                ident,
                arity: arity.value,
            },
            rest,
        )),
        None => Err(OrNoMemory::Fault(Syntax)),
    }
}

/// Entries with commas between them.
fn read_entries<'a, 't>(
    alloc: Global,
    context: ReadingContext,
    tokens: Tokens<'a, 't>,
) -> Result<(Vec<Export>, Tokens<'a, 't>), ReadFault>
    ensures { Gives (λ x. (map export_of x.0.items, tokens_in x.1)) result
        (items (mark Comma) (entry (names_of context.entry)) (length (tokens_in tokens.entry))
        (tokens_in tokens.entry)) }
{
    let mut found = Vec::new(alloc);
    let mut rest = tokens;
    for _ in 0..tokens.list.len() {
        let (entry, after_it) = read_entry(context, rest)?;
        found.push(entry)?;
        let Some(after) = skip(after_it, NumberedKind::Mark(TokenMark::Comma)) else {
            return Ok((found, after_it));
        };
        rest = after;
    }
    Err(OrNoMemory::Fault(Syntax))
}

/// Entries with commas between them, or none, before a closing bracket.
fn read_entry_list<'a, 't>(
    alloc: Global,
    context: ReadingContext,
    tokens: Tokens<'a, 't>,
) -> Result<(Vec<Export>, Tokens<'a, 't>), ReadFault>
    ensures { Gives (λ x. (map export_of x.0.items, tokens_in x.1)) result
        (until (mark CloseBracket) (entry (names_of context.entry)) (tokens_in tokens.entry)) }
{
    if let Some(rest) = skip(tokens, NumberedKind::Mark(TokenMark::CloseBracket)) {
        return Ok((Vec::new(alloc), rest));
    }
    let (entries, rest) = read_entries(alloc, context, tokens)?;
    let rest = expect(rest, NumberedKind::Mark(TokenMark::CloseBracket))?;
    Ok((entries, rest))
}

/// What follows the minus of an export form: its entries.
fn read_export<'a, 't>(
    alloc: Global,
    context: ReadingContext,
    tokens: Tokens<'a, 't>,
) -> Result<(Vec<Export>, Tokens<'a, 't>), ReadFault>
    ensures { Gives (λ x. (map export_of x.0.items, tokens_in x.1)) result
        (export (names_of context.entry) (tokens_in tokens.entry)) }
{
    let Some(rest) = skip_word(context.atoms, b"export", tokens) else {
        return Err(OrNoMemory::Fault(Syntax));
    };
    let rest = expect(rest, NumberedKind::Mark(TokenMark::OpenParenthesis))?;
    let rest = expect(rest, NumberedKind::Mark(TokenMark::OpenBracket))?;
    let (entries, rest) = read_entry_list(alloc, context, rest)?;
    let rest = expect(rest, NumberedKind::Mark(TokenMark::CloseParenthesis))?;
    let rest = expect(rest, NumberedKind::Dot)?;
    Ok((entries, rest))
}

/// Adds entries in their order.
fn add_exports(syntax: &mut SyntaxTree, entries: &[Export]) -> Result<(), NoMemory>
    ensures added { OnOk result (syntax.new.exports ≡ syntax.old.exports ++ map export_of entries.now) }
    ensures name { syntax.new.name ≡ syntax.old.name }
    ensures functions { syntax.new.functions ≡ syntax.old.functions }
{
    for entry in entries {
        syntax.add_export(*entry)?;
    }
    Ok(())
}

/// Export forms as long as there are some, whose entries go into the syntax tree.
pub(crate) fn read_exports<'a, 't>(
    alloc: Global,
    context: ReadingContext,
    syntax: &mut SyntaxTree,
    tokens: Tokens<'a, 't>,
) -> Result<Tokens<'a, 't>, ReadFault>
    ensures given { Gives (λ rest. (syntax.new.exports, tokens_in rest)) result
        (with_front syntax.old.exports (exports (names_of context.entry) (length (tokens_in tokens.entry))
        (tokens_in tokens.entry))) }
    ensures name { syntax.new.name ≡ syntax.old.name }
    ensures functions { syntax.new.functions ≡ syntax.old.functions }
{
    let mut rest = tokens;
    for _ in 0..tokens.list.len() {
        let Some(form) = skip(rest, NumberedKind::Mark(TokenMark::Minus)) else {
            return Ok(rest);
        };
        let (entries, after) = read_export(alloc, context, form)?;
        add_exports(syntax, &entries)?;
        rest = after;
    }
    Ok(rest)
}
