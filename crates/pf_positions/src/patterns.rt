//! The spots of patterns.

ghost use Rattle.std.specs.Prelude.{◌≡◌, OnOk};
ghost use Rattle.pf_terms.specs.Term.{value_of};
ghost use Rattle.pf_syntax.specs.Module.{literal_at, pattern_at, tree_at};
ghost use Rattle.pf_syntax.specs.Over.{patterns_at};
ghost use Rattle.pf_positions.specs.Added.{AreAdded};
ghost use Rattle.pf_positions.specs.Spots.{before_value, equations, is_negative, minus_if, pattern_spots};
ghost use Rattle.pf_positions.specs.Spots.{patterns_spots, value_spots};

use crate::sign::Sign;
use crate::spot::{Home, Spot};
use pf_errors::NoMemory;
use pf_syntax::{LiteralId, NodeId, PatternId, PatternNode};
use pf_terms::Term;

/// Whether a value is a negative integer.
fn is_negative(value: &Term) -> bool
    ensures { result ≡ is_negative (value_of value.now) }
{
    match value {
        Term::Int(n) => *n < 0,
        _ => false,
    }
}

impl<'m> Home<'m> {
    /// Puts the minus of a pattern that is a negative integer.
    fn put_minus(self, spots: &mut Vec<Spot>, negative: bool) -> Result<(), NoMemory>
        ensures { OnOk result (AreAdded self.entry.module.now.tables spots.old spots.new
            (minus_if self.entry.function.0 negative)) }
    {
        if negative {
            return self.put(spots, Sign::Minus, None);
        }
        Ok(())
    }

    /// Puts the minus of a pattern that is a literal.
    fn put_literal(self, spots: &mut Vec<Spot>, id: LiteralId) -> Result<(), NoMemory>
        ensures { OnOk result (AreAdded self.entry.module.now.tables spots.old spots.new
            (value_spots self.entry.function.0 (literal_at self.entry.module.now.tables id.0))) }
    {
        match self.module.literal(id) {
            Some(value) => self.put_minus(spots, is_negative(value)),
            None => Ok(()),
        }
    }

    /// Puts the spots of a pattern, list by list from its first element on.
    #[cycle(pattern)]
    pub(crate) fn put_pattern(self, spots: &mut Vec<Spot>, id: PatternId) -> Result<(), NoMemory>
        ensures { OnOk result (AreAdded self.entry.module.now.tables spots.old spots.new
            (pattern_spots self.entry.function.0 (pattern_at self.entry.module.now.tables id.0))) }
    {
        let mut at = id;
        while let Some(node) = self.module.pattern(at) {
            match node {
                PatternNode::Cons(head, tail) => {
                    self.put_pattern(spots, *head)?;
                    at = *tail;
                }
                PatternNode::Tuple(parts) => {
                    self.put(spots, Sign::Brace, None)?;
                    return self.put_patterns(spots, parts.as_slice());
                }
                PatternNode::Int(n) => return self.put_minus(spots, *n < 0),
                PatternNode::Literal(literal) => return self.put_literal(spots, *literal),
                _ => return Ok(()),
            }
        }
        Ok(())
    }

    /// Puts the spots of patterns, from left to right.
    #[cycle(pattern)]
    pub(crate) fn put_patterns(
        self,
        spots: &mut Vec<Spot>,
        ids: &[PatternId],
    ) -> Result<(), NoMemory>
        ensures { OnOk result (AreAdded self.entry.module.now.tables spots.old spots.new
            (patterns_spots self.entry.function.0 (patterns_at self.entry.module.now.tables ids.now))) }
    {
        for id in ids {
            self.put_pattern(spots, *id)?;
        }
        Ok(())
    }

    /// Puts the spots of a match's patterns, each with the sign of the match. The innermost comes last in the text.
    fn put_equations(
        self,
        spots: &mut Vec<Spot>,
        ids: &[PatternId],
        node: NodeId,
    ) -> Result<(), NoMemory>
        ensures { OnOk result (AreAdded self.entry.module.now.tables spots.old spots.new
            (equations self.entry.function.0 (tree_at self.entry.module.now.tables node.0)
            (patterns_at self.entry.module.now.tables ids.now))) }
    {
        let Some((inner, outer)) = ids.split_first() else {
            return Ok(());
        };
        self.put_equations(spots, outer, node)?;
        self.put_pattern(spots, *inner)?;
        self.put(spots, Sign::Match, Some(node))
    }

    /// Puts what is before the value of a match, or of an element of a body that is no match.
    pub(crate) fn put_before_value(
        self,
        spots: &mut Vec<Spot>,
        ids: &[PatternId],
        node: NodeId,
    ) -> Result<(), NoMemory>
        ensures { OnOk result (AreAdded self.entry.module.now.tables spots.old spots.new
            (before_value self.entry.function.0 (tree_at self.entry.module.now.tables node.0)
            (patterns_at self.entry.module.now.tables ids.now))) }
    {
        if ids.is_empty() {
            return self.put(spots, Sign::Unwritten, Some(node));
        }
        self.put_equations(spots, ids, node)
    }
}
