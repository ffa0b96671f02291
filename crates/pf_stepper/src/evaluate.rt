//! The micro-step of an expression: its value, or its first part in a frame.

ghost use Rattle.std.specs.Prelude.{◌≡◌, IfOk, IfSome};
ghost use Rattle.pf_syntax.specs.declared.node.Operand.TheVariants.{Node as names};
ghost use Rattle.pf_syntax.specs.Module.{tree_at};
ghost use Rattle.pf_syntax.specs.Tree.{if_expression};
ghost use Rattle.pf_syntax.specs.Over.{clauses_over, part_over, tree_over};
ghost use Rattle.pf_stepper.specs.Lookups.{clauses_in, left_index, paired, IsLeftInScope};
ghost use Rattle.pf_stepper.specs.declared.frame.Binary.TheVariants as binary;
ghost use Rattle.pf_stepper.specs.declared.frame.FrameKind.TheVariants as kind;
ghost use Rattle.pf_patterns.specs.Slots.{activation};
ghost use Rattle.pf_stepper.specs.Points.{IsAtNode};
ghost use Rattle.pf_stepper.specs.View.{keeps};
ghost use Rattle.pf_stepper.specs.MicroSteps.{CanEvaluate, Descended, IsMicroStep};

use crate::clauses::choose;
use crate::continuations::chosen;
use crate::frame::{Binary, Callee, Focus, FrameKind, MicroStep};
use crate::outcomes::outcome;
use crate::stack::Stack;
use pf_errors::NoMemory;
use pf_ops::on_integers;
use pf_patterns::slot;
use pf_syntax::{Clause, Module, Node, NodeId, Operand, Operator};
use pf_terms::{AtomId, List, Term};
use std::alloc::Global;

impl Stack {
    /// An operand. A variable that is not in scope raises.
    #[inline(always)]
    pub(crate) fn evaluate(
        &mut self,
        alloc: Global,
        code: &Module,
        own: u32,
        part: Operand,
    ) -> Result<MicroStep, NoMemory>
        requires { CanEvaluate self.old }
        ensures { IfOk result (λ t. IsMicroStep code.now own self.old (Focus.Eval part) self.new t) }
    {
        match self.operand(code, part)? {
            Some(value) => Ok(MicroStep::Silent(Focus::Value(value))),
            None => match part {
                Operand::Node(id) => self.visit(alloc, code, own, id),
                _ => Ok(MicroStep::Contracted(Focus::Raised(Term::Atom(AtomId::UNDEF)))),
            },
        }
    }

    /// The node of a number; `[]` where there is none.
    #[inline(always)]
    fn visit(
        &mut self,
        alloc: Global,
        code: &Module,
        own: u32,
        id: NodeId,
    ) -> Result<MicroStep, NoMemory>
        requires { CanEvaluate self.old }
        ensures { IfOk result (λ t. IsMicroStep code.now own self.old (Focus.Eval (names id)) self.new t) }
    {
        match code.node(id) {
            None => Ok(MicroStep::Silent(Focus::Value(Term::List(List::Nil)))),
            Some(node) => self.visit_node(alloc, code, own, id, node),
        }
    }

    /// A node: its first part in a frame.
    #[inline(always)]
    fn visit_node(
        &mut self,
        alloc: Global,
        code: &Module,
        own: u32,
        id: NodeId,
        node: &Node,
    ) -> Result<MicroStep, NoMemory>
        requires sound { CanEvaluate self.old }
        requires found { tree_over code.now.tables node.now ≡ tree_at code.now.tables id.0 }
        ensures { IfOk result (λ t. IsMicroStep code.now own self.old (Focus.Eval (names id)) self.new t) }
    {
        match node {
            Node::Binary(operator, left, right) => {
                self.operator(alloc, code, own, id, *operator, *left, *right)
            }
            Node::Cons(left, right) => {
                self.operation(alloc, code, own, id, Binary::Cons, *left, *right)
            }
            Node::Send(left, right) => {
                self.operation(alloc, code, own, id, Binary::Send, *left, *right)
            }
            Node::Negate(part) => self.descend_apart(
                alloc,
                code,
                own,
                FrameKind::Negation(id),
                *part,
            ),
            Node::AndAlso(left, _) => {
                self.descend_apart(alloc, code, own, FrameKind::Shortcut(false, id), *left)
            }
            Node::OrElse(left, _) => {
                self.descend_apart(alloc, code, own, FrameKind::Shortcut(true, id), *left)
            }
            Node::Call(function, arguments) => {
                self.pass(
                    code,
                    own,
                    Callee::Function(*function),
                    id,
                    arguments.as_slice(),
                    0,
                )
            }
            Node::Builtin(builtin, arguments) => {
                self.pass_apart(
                    code,
                    own,
                    Callee::Builtin(*builtin),
                    id,
                    arguments.as_slice(),
                    0,
                )
            }
            Node::Tuple(elements) => self.pass_apart(
                code,
                own,
                Callee::Tuple,
                id,
                elements.as_slice(),
                0,
            ),
            Node::Match(_, part) => self.descend_apart(
                alloc,
                code,
                own,
                FrameKind::Match(id, 0),
                *part,
            ),
            Node::Bind(_, part, _) => self.descend_apart(
                alloc,
                code,
                own,
                FrameKind::Bind(id, 0),
                *part,
            ),
            Node::Case(part, clauses) => self.case(alloc, code, own, id, *part, clauses.as_slice()),
            Node::If(clauses) => self.if_node(alloc, code, own, id, clauses.as_slice()),
            Node::Receive(_) => Ok(MicroStep::Awaits(id)),
        }
    }

    /// An operator: at once where its operands are integers in place.
    #[inline(always)]
    fn operator(
        &mut self,
        alloc: Global,
        code: &Module,
        own: u32,
        id: NodeId,
        operator: Operator,
        left: Operand,
        right: Operand,
    ) -> Result<MicroStep, NoMemory>
        requires sound { CanEvaluate self.old }
        requires found { paired (binary.Operator operator) (part_over code.now.tables left)
            (part_over code.now.tables right) ≡ tree_at code.now.tables id.0 }
        ensures { IfOk result (λ t. IsMicroStep code.now own self.old (Focus.Eval (names id)) self.new t) }
    {
        match (self.integer(left), self.integer(right)) {
            (Some(x), Some(y)) => Ok(MicroStep::Contracted(outcome(on_integers(operator, x, y)))),
            _ => self.operation(
                alloc,
                code,
                own,
                id,
                Binary::Operator(operator),
                left,
                right,
            ),
        }
    }

    /// The slot of a left operand that can be read after the right one: the left one is a variable in scope,
    /// and the right one a node.
    #[inline(always)]
    pub(crate) fn left_in_scope(&self, left: Operand, right: Operand) -> Option<u32>
        ensures in_scope { IfSome result (λ x.
            IsLeftInScope (activation self.now.env.items self.now.base) left x) }
        ensures index { result ≡ left_index (activation self.now.env.items self.now.base) left right }
    {
        match left {
            Operand::Slot(index) => match right {
                Operand::Node(_) => {
                    slot(self.env.as_slice(), self.base, index)?;
                    Some(index)
                }
                _ => None,
            },
            _ => None,
        }
    }

    /// The operands at a node that takes two. Where the left one stays in its slot, the right one goes first.
    #[inline(always)]
    fn operation(
        &mut self,
        alloc: Global,
        code: &Module,
        own: u32,
        id: NodeId,
        binary: Binary,
        left: Operand,
        right: Operand,
    ) -> Result<MicroStep, NoMemory>
        requires sound { CanEvaluate self.old }
        requires found { paired binary (part_over code.now.tables left)
            (part_over code.now.tables right) ≡ tree_at code.now.tables id.0 }
        ensures { IfOk result (λ t. IsMicroStep code.now own self.old (Focus.Eval (names id)) self.new t) }
    {
        match self.left_in_scope(left, right) {
            Some(index) => {
                self.wait(code, FrameKind::BinaryAfterSlot(binary, index, id))?;
                Ok(MicroStep::Silent(Focus::Eval(right)))
            }
            None => self.descend(alloc, code, own, FrameKind::BinaryLeft(id), left),
        }
    }

    /// An `if`: the body of its first clause whose guard holds.
    #[inline(never)]
    fn if_node(
        &mut self,
        alloc: Global,
        code: &Module,
        own: u32,
        id: NodeId,
        clauses: &[Clause],
    ) -> Result<MicroStep, NoMemory>
        requires sound { CanEvaluate self.old }
        requires found { if_expression (clauses_over code.now.tables clauses.now)
            ≡ tree_at code.now.tables id.0 }
        ensures { IfOk result (λ t. IsMicroStep code.now own self.old (Focus.Eval (names id)) self.new t) }
    {
        let nothing = Term::List(List::Nil);
        match choose(
            alloc,
            code,
            clauses,
            &nothing,
            &mut self.env,
            self.base,
            own,
        )? {
            Some(body) => Ok(MicroStep::Contracted(Focus::Eval(body))),
            None => Ok(MicroStep::Contracted(Focus::Raised(Term::Atom(AtomId::IF_CLAUSE)))),
        }
    }

    /// The value of the `case` at a node: where it needs no micro-step, the body of the first clause that it
    /// fits.
    #[inline(always)]
    fn case(
        &mut self,
        alloc: Global,
        code: &Module,
        own: u32,
        id: NodeId,
        part: Operand,
        clauses: &[Clause],
    ) -> Result<MicroStep, NoMemory>
        requires sound { CanEvaluate self.old }
        requires clauses { clauses_over code.now.tables clauses.now
            ≡ clauses_in (tree_at code.now.tables id.0) }
        ensures { IfOk result (λ t. Descended code.now own self.old (kind.Case id) part self.new t) }
    {
        match self.operand(code, part)? {
            Some(value) => {
                let body = choose(alloc, code, clauses, &value, &mut self.env, self.base, own)?;
                Ok(MicroStep::Contracted(chosen(alloc, &value, body)?))
            }
            None => {
                self.wait(code, FrameKind::Case(id))?;
                Ok(MicroStep::Silent(Focus::Eval(part)))
            }
        }
    }

    /// The first part of a node that is rare in code: out of line, so that the others stay small.
    #[inline(never)]
    fn descend_apart(
        &mut self,
        alloc: Global,
        code: &Module,
        own: u32,
        kind: FrameKind,
        part: Operand,
    ) -> Result<MicroStep, NoMemory>
        requires sound { CanEvaluate self.old }
        requires keeps { keeps kind ≡ 0 }
        requires at { IsAtNode code.now.tables kind }
        ensures { IfOk result (λ t. Descended code.now own self.old kind part self.new t) }
    {
        self.descend(alloc, code, own, kind, part)
    }

    /// The first part of a node, in the frame that waits for it: its value at once, or a micro-step of its own.
    #[inline(always)]
    fn descend(
        &mut self,
        alloc: Global,
        code: &Module,
        own: u32,
        kind: FrameKind,
        part: Operand,
    ) -> Result<MicroStep, NoMemory>
        requires sound { CanEvaluate self.old }
        requires keeps { keeps kind ≡ 0 }
        requires at { IsAtNode code.now.tables kind }
        ensures { IfOk result (λ t. Descended code.now own self.old kind part self.new t) }
    {
        match self.operand(code, part)? {
            Some(value) => {
                let frame = self.frame(kind);
                self.fill(alloc, code, own, frame, value)
            }
            None => {
                self.wait(code, kind)?;
                Ok(MicroStep::Silent(Focus::Eval(part)))
            }
        }
    }
}
