//! One stack of slots for all activations, one of finished operands, and the frames over them.

ghost use Rattle.std.specs.Prelude.{◌≡◌, ◌≤◌, ◌-◌, ◌∷◌, [], ◌++◌, ◌<◌, drop, length, take, vec_capacity, vec_len, IfOk};
ghost use Rattle.std.specs.Prelude.{IfSome, OnOk, Some};
ghost use Rattle.pf_terms.specs.Term.{value_of};
ghost use Rattle.pf_terms.specs.declared.term.Term.TheVariants as term;
ghost use Rattle.pf_syntax.specs.Module.{Tables};
ghost use Rattle.pf_patterns.specs.Operands.{IsOperand};
ghost use Rattle.pf_patterns.specs.Slots.{activation};
ghost use Rattle.pf_stepper.specs.Lane.{under};
ghost use Rattle.pf_stepper.specs.Lookups.{value_at};
ghost use Rattle.pf_stepper.specs.Points.{IsAtNode};
ghost use Rattle.pf_stepper.specs.Sound.{frame_for, top_end};

use crate::frame::{Frame, FrameKind};
use pf_errors::NoMemory;
use pf_patterns::{copied, operand, slot};
use pf_syntax::{Module, Operand};
use pf_terms::{List, Term};
use std::mem;

/// Slots, finished operands, frames, and where the activation begins.
#[derive(Drop)]
pub(crate) struct Stack {
    pub(crate) env: Vec<Term>,
    pub(crate) operands: Vec<Term>,
    pub(crate) frames: Vec<Frame>,
    pub(crate) base: usize,
}

/// Writes a value over another one, which is dropped.
#[inline(always)]
pub(crate) fn put<T: Drop>(place: &mut T, value: T)
    ensures { place.new ≡ value }
{
    *place = value;
}

/// Takes off what comes after the first n.
#[inline(always)]
pub(crate) fn cut(values: &mut Vec<Term>, end: usize)
    ensures { values.new.items ≡ take end values.old.items }
{
    while end < values.len() {
        values.pop();
    }
}

/// Room for one more.
#[inline(never)]
fn grow<T>(values: &mut Vec<T>) -> Result<(), NoMemory>
    ensures items { values.new.items ≡ values.old.items }
    ensures room { OnOk result (vec_len values.new < vec_capacity values.new) }
{
    values.reserve(1)?;
    Ok(())
}

/// A value after the others. Most often there is room, and then it needs no call.
#[inline(always)]
pub(crate) fn append<T: Drop>(values: &mut Vec<T>, value: T) -> Result<(), NoMemory>
    ensures { OnOk result (values.new.items ≡ values.old.items ++ value ∷ []) }
{
    if values.len() == values.capacity() {
        grow(values)?;
    }
    values.push_reserved(value);
    Ok(())
}

impl Stack {
    /// The value of an operand that has one in place: a literal, or a variable in scope.
    #[inline(always)]
    pub(crate) fn operand(&self, code: &Module, part: Operand) -> Result<Option<Term>, NoMemory>
        ensures { IfOk result (λ o.
            IsOperand code.now.tables (activation self.now.env.items self.now.base) part o) }
    {
        operand(code, part, self.env.as_slice(), self.base)
    }

    /// The integer that an operand holds in place.
    #[inline(always)]
    pub(crate) fn integer(&self, part: Operand) -> Option<i64>
        ensures { (tables : Tables) → IfSome result (λ n.
            IsOperand tables (activation self.now.env.items self.now.base) part (Some (term.Int n))) }
    {
        match part {
            Operand::Int(n) => Some(n),
            Operand::Slot(index) => match slot(self.env.as_slice(), self.base, index) {
                Some(Term::Int(n)) => Some(*n),
                _ => None,
            },
            _ => None,
        }
    }

    /// The value of a slot in the activation, `[]` where there is none.
    #[inline(always)]
    pub(crate) fn slot_or_nil(&self, index: u32) -> Result<Term, NoMemory>
        ensures { IfOk result (λ t.
            value_of t ≡ value_at (activation self.now.env.items self.now.base) index) }
    {
        match slot(self.env.as_slice(), self.base, index) {
            Some(value) => copied(value),
            None => Ok(Term::List(List::Nil)),
        }
    }

    /// A frame for the activation as it is.
    #[inline(always)]
    pub(crate) fn frame(&self, kind: FrameKind) -> Frame
        ensures { result ≡ frame_for kind self.now.base (length self.now.env.items) }
    {
        Frame {
            kind,
            base: self.base,
            end: self.env.len(),
        }
    }

    /// Such a frame on the stack, at a node of this code.
    #[inline(never)]
    pub(crate) fn wait(&mut self, code: &Module, kind: FrameKind) -> Result<(), NoMemory>
        requires { IsAtNode code.now.tables kind }
        ensures ok { OnOk result (self.new.frames.items
            ≡ self.old.frames.items ++ frame_for kind self.old.base (length self.old.env.items) ∷ []) }
        ensures env { self.new.env ≡ self.old.env }
        ensures operands { self.new.operands ≡ self.old.operands }
        ensures base { self.new.base ≡ self.old.base }
    {
        let frame = self.frame(kind);
        self.frames.push(frame)?;
        Ok(())
    }

    /// The same without a call where there is room.
    #[inline(always)]
    pub(crate) fn hold(&mut self, code: &Module, kind: FrameKind) -> Result<(), NoMemory>
        requires { IsAtNode code.now.tables kind }
        ensures ok { OnOk result (self.new.frames.items
            ≡ self.old.frames.items ++ frame_for kind self.old.base (length self.old.env.items) ∷ []) }
        ensures env { self.new.env ≡ self.old.env }
        ensures operands { self.new.operands ≡ self.old.operands }
        ensures base { self.new.base ≡ self.old.base }
    {
        let frame = self.frame(kind);
        append(&mut self.frames, frame)
    }

    /// The innermost frame.
    #[inline(always)]
    pub(crate) fn innermost(&self) -> Option<Frame>
        ensures { IfSome result (λ x. self.now.frames.items ≡ under self.now.frames.items ++ x ∷ []) }
    {
        match self.frames.last() {
            Some(frame) => Some(*frame),
            None => None,
        }
    }

    /// Takes off the innermost frame.
    #[inline(always)]
    pub(crate) fn leave(&mut self)
        ensures frames { self.new.frames.items ≡ under self.old.frames.items }
        ensures env { self.new.env ≡ self.old.env }
        ensures operands { self.new.operands ≡ self.old.operands }
        ensures base { self.new.base ≡ self.old.base }
    {
        let _frame = self.frames.pop();
    }

    /// Takes off the last operand.
    #[inline(always)]
    pub(crate) fn leave_operand(&mut self)
        ensures operands { self.new.operands.items
            ≡ take (length self.old.operands.items - 1) self.old.operands.items }
        ensures env { self.new.env ≡ self.old.env }
        ensures frames { self.new.frames ≡ self.old.frames }
        ensures base { self.new.base ≡ self.old.base }
    {
        let _operand = self.operands.pop();
    }

    /// The operands after the first n become the newest slots.
    #[inline(always)]
    pub(crate) fn move_operands(&mut self, from: usize) -> Result<(), NoMemory>
        requires { from ≤ length self.old.operands.items }
        ensures env { OnOk result (self.new.env.items
            ≡ self.old.env.items ++ drop from self.old.operands.items) }
        ensures operands { OnOk result (self.new.operands.items ≡ take from self.old.operands.items) }
        ensures frames { self.new.frames ≡ self.old.frames }
        ensures base { self.new.base ≡ self.old.base }
    {
        for at in from..self.operands.len() {
            let value = mem::replace(&mut self.operands[at], Term::Int(0));
            self.env.push(value)?;
        }
        cut(&mut self.operands, from);
        Ok(())
    }

    /// Back in the activation of a frame: the slots that came after those that it needs go.
    #[inline(always)]
    pub(crate) fn resume(&mut self, frame: Frame)
        ensures env { self.new.env.items ≡ take frame.end self.old.env.items }
        ensures operands { self.new.operands ≡ self.old.operands }
        ensures frames { self.new.frames ≡ self.old.frames }
        ensures base { self.new.base ≡ frame.base }
    {
        cut(&mut self.env, frame.end);
        self.base = frame.base;
    }

    /// How many slots the frames need.
    pub(crate) fn top(&self) -> usize
        ensures { result ≡ top_end 0 self.now.frames.items }
    {
        match self.frames.last() {
            Some(frame) => frame.end,
            None => 0,
        }
    }
}
