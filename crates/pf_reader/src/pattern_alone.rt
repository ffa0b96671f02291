//! Reads a pattern by itself, in no module.

ghost use Rattle.std.specs.Prelude.{map, IfErr, IfOk};
ghost use Rattle.std.specs.Bool.{Decides};
ghost use Rattle.pf_tokens.specs.TokenKinds.{placed_of};
ghost use Rattle.pf_syntax.specs.SyntaxTreeOver.{ExprPatternRepresents};
ghost use Rattle.pf_syntax.specs.ExprPattern.{ExprPattern};
ghost use Rattle.pf_tokens.specs.View.{token_list};
ghost use Rattle.pf_grammar.specs.Parse.{pattern};
ghost use Rattle.pf_reader.specs.View.{names_of};
ghost use Rattle.pf_reader.specs.Given.{Gives};
ghost use Rattle.pf_reader.specs.PatternAlone.{pattern_alone, pattern_of, DerivesPatternAlone, IsNoPattern};
ghost use Rattle.pf_reader.specs.PatternAlone.{IsPatternReadAs, LacksModule};

use crate::expr_pattern::read_expr_pattern;
use crate::fault::{ReadFault, Syntax};
use crate::token::{ReadingContext, Tokens};
use pf_errors::{Code, OrNoMemory};
use pf_syntax::{ExprPatternId, SyntaxTree};
use pf_terms::{AtomId, AtomTable};
use pf_tokens::{MOST_TREE_DEPTH, NumberedToken, Token, TokenForm, number_tokens_after};
use std::alloc::Global;

/// A pattern by itself, in a syntax tree of its own.
#[derive(Drop)]
pub struct ReadPattern {
    pub syntax: SyntaxTree,
    pub pattern: ExprPatternId,
}

/// Whether no token is `?MODULE`.
fn lacks_module(tokens: &[Token]) -> bool
    ensures { Decides result (LacksModule (map placed_of tokens.now)) }
{
    for token in tokens {
        if let TokenForm::Module = token.kind {
            return false;
        }
    }
    true
}

/// The pattern that these tokens are, from the first to the last.
fn read_alone(
    alloc: Global,
    context: ReadingContext,
    tokens: &[NumberedToken],
) -> Result<ReadPattern, ReadFault>
    ensures is_there { IfOk result (λ r. ExprPatternRepresents r.syntax.node_table r.pattern) }
    ensures given { Gives pattern_of result
        (pattern_alone (pattern (names_of context.entry) MOST_TREE_DEPTH (token_list tokens.now))) }
{
    let mut syntax = SyntaxTree::new(alloc, context.own);
    let tokens = Tokens { list: tokens };
    let part = read_expr_pattern(alloc, context, &mut syntax, MOST_TREE_DEPTH, tokens)?;
    if part.rest.first().is_some() {
        return Err(OrNoMemory::Fault(Syntax));
    }
    Ok(ReadPattern {
        syntax,
        pattern: part.expr_pattern,
    })
}

/// The pattern that the tokens of a text are, from the first to the last. Its atoms have the numbers of the table; one
/// that the table lacks has a number past the table's.
pub fn read_pattern(
    alloc: Global,
    tokens: &[Token],
    atoms: &AtomTable,
) -> Result<ReadPattern, OrNoMemory<Code>>
    ensures found { IfOk result
        (λ r. DerivesPatternAlone atoms.now (pattern_of r) (map placed_of tokens.now)) }
    ensures is_there { IfOk result (λ r. ExprPatternRepresents r.syntax.node_table r.pattern) }

    // What derives the tokens is read, unless memory runs out.
    ensures only { (q : ExprPattern) → DerivesPatternAlone atoms.now q (map placed_of tokens.now)
        → IsPatternReadAs q result }
    ensures fault { IfErr result (IsNoPattern atoms.now (map placed_of tokens.now)) }
{
    if !lacks_module(tokens) {
        return Err(OrNoMemory::Fault(Code::NoProperty));
    }
    let (names, found) = number_tokens_after(alloc, tokens, atoms)?;
    // The own name is asked for at `?MODULE` alone, which no token is.
    let own = AtomId::TRUE;
    let context = ReadingContext { atoms: &names, own };
    match read_alone(alloc, context, &found) {
        Ok(read) => Ok(read),
        Err(OrNoMemory::NoMemory) => Err(OrNoMemory::NoMemory),
        Err(OrNoMemory::Fault(Syntax)) => Err(OrNoMemory::Fault(Code::NoProperty)),
    }
}
