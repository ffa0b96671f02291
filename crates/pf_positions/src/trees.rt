//! The spots of expressions.

ghost use Rattle.std.specs.Prelude.{◌≡◌, ◌++◌, ◌∷◌, OnOk, IfOk, option_map};
ghost use Rattle.pf_syntax.specs.Module.{tree_at};
ghost use Rattle.pf_syntax.specs.Over.{clauses_over, guard_over, part_over, parts_over, tree_over};
ghost use Rattle.pf_positions.specs.Added.{AreAdded, AreAddedBut, last_part};
ghost use Rattle.pf_positions.specs.Clauses.{clause_spots};
ghost use Rattle.pf_positions.specs.Spots.{clauses_spots, guard_spots, of_node, tree_spots, trees_spots};

use crate::sign::Sign;
use crate::spot::{Home, Spot};
use pf_errors::NoMemory;
use pf_syntax::{Clause, Guard, Node, NodeId, Operand};

impl<'m> Home<'m> {
    /// Puts the spots of an operand, part by part where the last one goes on: along a list, or along a body.
    #[cycle(tree)]
    pub(crate) fn put_tree(self, spots: &mut Vec<Spot>, operand: Operand) -> Result<(), NoMemory>
        ensures { OnOk result (AreAdded self.entry.module.now.tables spots.old spots.new
            (tree_spots self.entry.function.0 (part_over self.entry.module.now.tables operand))) }
    {
        let mut at = operand;
        while let Operand::Node(id) = at {
            let Some(node) = self.module.node(id) else {
                return Ok(());
            };
            let Some(last) = self.put_front(spots, id, node)? else {
                return Ok(());
            };
            at = last;
        }
        Ok(())
    }

    /// Puts the spots of a node, but for those of its last part, which is returned.
    #[cycle(tree)]
    fn put_front(
        self,
        spots: &mut Vec<Spot>,
        id: NodeId,
        node: &Node,
    ) -> Result<Option<Operand>, NoMemory>
        requires { tree_over self.module.now.tables node.now ≡ tree_at self.module.now.tables id.0 }
        ensures put { OnOk result (AreAddedBut self.entry.module.now.tables self.entry.function.0 spots.old spots.new
            (tree_over self.entry.module.now.tables node.now)) }
        ensures last { IfOk result (λ last. option_map (part_over self.entry.module.now.tables) last
            ≡ last_part (tree_over self.entry.module.now.tables node.now)) }
    {
        match node {
            Node::Bind(patterns, value, rest) => {
                self.put_before_value(spots, patterns.as_slice(), id)?;
                self.put_tree(spots, *value)?;
                Ok(Some(*rest))
            }
            Node::Cons(head, tail) => {
                self.put(spots, Sign::Unwritten, Some(id))?;
                self.put_tree(spots, *head)?;
                Ok(Some(*tail))
            }
            Node::Match(patterns, value) => {
                self.put_before_value(spots, patterns.as_slice(), id)?;
                self.put_tree(spots, *value)?;
                Ok(None)
            }
            Node::Tuple(parts) => {
                self.put(spots, Sign::Brace, Some(id))?;
                self.put_trees(spots, parts.as_slice())?;
                Ok(None)
            }
            Node::Call(_, parts) | Node::Builtin(_, parts) => {
                self.put(spots, Sign::Name, Some(id))?;
                self.put_trees(spots, parts.as_slice())?;
                Ok(None)
            }
            Node::Negate(value) => {
                self.put(spots, Sign::Minus, Some(id))?;
                self.put_tree(spots, *value)?;
                Ok(None)
            }
            Node::Binary(operator, left, right) => {
                self.put_infix(spots, Sign::of_operator(*operator), id, *left, *right)?;
                Ok(None)
            }
            Node::AndAlso(left, right) => {
                self.put_infix(spots, Sign::AndAlso, id, *left, *right)?;
                Ok(None)
            }
            Node::OrElse(left, right) => {
                self.put_infix(spots, Sign::OrElse, id, *left, *right)?;
                Ok(None)
            }
            Node::Send(left, right) => {
                self.put_infix(spots, Sign::Send, id, *left, *right)?;
                Ok(None)
            }
            Node::Case(value, clauses) => {
                self.put(spots, Sign::Case, Some(id))?;
                self.put_tree(spots, *value)?;
                self.put_clauses(spots, clauses.as_slice())?;
                Ok(None)
            }
            Node::If(clauses) => {
                self.put(spots, Sign::If, Some(id))?;
                self.put_clauses(spots, clauses.as_slice())?;
                Ok(None)
            }
            Node::Receive(clauses) => {
                self.put(spots, Sign::Receive, Some(id))?;
                self.put_clauses(spots, clauses.as_slice())?;
                Ok(None)
            }
        }
    }

    /// Puts the spots of a node whose sign is between its operands.
    #[cycle(tree)]
    fn put_infix(
        self,
        spots: &mut Vec<Spot>,
        sign: Sign,
        id: NodeId,
        left: Operand,
        right: Operand,
    ) -> Result<(), NoMemory>
        ensures { OnOk result (AreAdded self.entry.module.now.tables spots.old spots.new
            (tree_spots self.entry.function.0 (part_over self.entry.module.now.tables left)
            ++ of_node self.entry.function.0 sign (tree_at self.entry.module.now.tables id.0)
            ∷ tree_spots self.entry.function.0 (part_over self.entry.module.now.tables right))) }
    {
        self.put_tree(spots, left)?;
        self.put(spots, sign, Some(id))?;
        self.put_tree(spots, right)
    }

    /// Puts the spots of operands, from left to right.
    #[cycle(tree)]
    fn put_trees(self, spots: &mut Vec<Spot>, operands: &[Operand]) -> Result<(), NoMemory>
        ensures { OnOk result (AreAdded self.entry.module.now.tables spots.old spots.new
            (trees_spots self.entry.function.0 (parts_over self.entry.module.now.tables operands.now))) }
    {
        for operand in operands {
            self.put_tree(spots, *operand)?;
        }
        Ok(())
    }

    /// Puts the spots of a guard, alternative by alternative.
    #[cycle(tree)]
    pub(crate) fn put_guard(self, spots: &mut Vec<Spot>, guard: &Guard) -> Result<(), NoMemory>
        ensures { OnOk result (AreAdded self.entry.module.now.tables spots.old spots.new
            (guard_spots self.entry.function.0 (guard_over self.entry.module.now.tables guard.now))) }
    {
        for alternative in &guard.alternatives {
            self.put_trees(spots, alternative.tests.as_slice())?;
        }
        Ok(())
    }

    /// Puts the spots of a clause of a `case`, an `if` or a `receive`.
    #[cycle(tree)]
    fn put_clause(self, spots: &mut Vec<Spot>, clause: &Clause) -> Result<(), NoMemory>
        ensures { OnOk result (AreAdded self.entry.module.now.tables spots.old spots.new
            (clause_spots self.entry.module.now.tables self.entry.function.0 clause.now)) }
    {
        self.put_pattern(spots, clause.pattern)?;
        self.put_guard(spots, &clause.guard)?;
        self.put_tree(spots, clause.body)
    }

    /// Puts the spots of clauses.
    #[cycle(tree)]
    fn put_clauses(self, spots: &mut Vec<Spot>, clauses: &[Clause]) -> Result<(), NoMemory>
        ensures { OnOk result (AreAdded self.entry.module.now.tables spots.old spots.new
            (clauses_spots self.entry.function.0 (clauses_over self.entry.module.now.tables clauses.now))) }
    {
        for clause in clauses {
            self.put_clause(spots, clause)?;
        }
        Ok(())
    }
}
