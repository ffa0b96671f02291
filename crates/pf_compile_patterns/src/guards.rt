//! Guards: code that leads to one place where a guard holds, and else to another.

ghost use Rattle.std.specs.Prelude.{◌≡◌, length, IfOk, if◌then◌else◌};
ghost use Rattle.pf_terms.specs.Value.{atom};
ghost use Rattle.pf_terms.specs.Term.{value_of};
ghost use Rattle.pf_syntax.specs.Over.{alternatives_over, guard_over, part_over, parts_over, tree_over};
ghost use Rattle.pf_code.specs.Registers.{reg};
ghost use Rattle.pf_compile_patterns.specs.Maker.{code_of, IsPlace};
ghost use Rattle.pf_compile_patterns.specs.Growth.{Made};
ghost use Rattle.pf_compile_patterns.specs.Planned.{AreBelow};
ghost use Rattle.pf_compile_patterns.specs.Scopes.{model_in, slots_in, tables_in, AreExits};
ghost use Rattle.pf_compile_patterns.specs.Guarded.{all_true_at, has_at, holds_at, is_true_at, Applies, Asks};
ghost use Rattle.pf_compile_patterns.specs.Guarded.{AsksBelow};
ghost use Rattle.pf_compile_patterns.specs.Guarded.{Decides, Loads, TellsTruth, Tests, Worths, WorthsAll};

use crate::maker::Maker;
use crate::operations::{binary_of, cons_of, negate_of, pure_of, tuple_of};
use crate::plan::{literal, register_after, slot_at};
use crate::scope::{Exits, Scope};
use pf_code::{Instruction, Operation, Source};
use pf_errors::NoMemory;
use pf_syntax::{Alternative, Guard, Node, Operand};
use pf_terms::{AtomId, List, Term};

impl Maker {
    /// Adds a copy into a register.
    pub fn load(&mut self, register: u32, free: u32, next: u32) -> Result<u32, NoMemory>
        requires { IsPlace (code_of self.old) next }
        ensures { IfOk result (λ pc. Made (code_of self.old) (code_of self.new) pc
            (Loads (λ r. reg r register) free next pc)) }
    {
        let copy = Instruction {
            operation: Operation::Move(free, Source::Register(register)),
            contractions: 0,
            otherwise: 0,
        };
        self.put(copy, next)
    }

    /// Adds a value that goes into a register.
    pub fn load_value(&mut self, value: Term, free: u32, next: u32) -> Result<u32, NoMemory>
        requires { IsPlace (code_of self.old) next }
        ensures { IfOk result (λ pc. Made (code_of self.old) (code_of self.new) pc
            (Loads (λ r. value_of value) free next pc)) }
    {
        let constant = self.constant(value)?;
        let copy = Instruction {
            operation: Operation::Move(free, Source::Constant(constant)),
            contractions: 0,
            otherwise: 0,
        };
        self.put(copy, next)
    }

    /// Adds a test that leads to one place or the other.
    fn test(&mut self, operation: Operation, exits: Exits) -> Result<u32, NoMemory>
        requires { AreExits (code_of self.old) exits }
        ensures { IfOk result (λ pc. Made (code_of self.old) (code_of self.new) pc (Tests operation exits pc)) }
    {
        let test = Instruction {
            operation,
            contractions: 0,
            otherwise: exits.otherwise,
        };
        self.put(test, exits.next)
    }

    /// Adds a test whether a register has this atom.
    fn is_atom(&mut self, register: u32, id: AtomId, exits: Exits) -> Result<u32, NoMemory>
        requires { AreExits (code_of self.old) exits }
        ensures { IfOk result (λ pc. Made (code_of self.old) (code_of self.new) pc
            (Asks exits pc (has_at register (atom id.0)))) }
    {
        let constant = self.constant(Term::Atom(id))?;
        let test = Operation::Same(Source::Register(register), Source::Constant(constant));
        self.test(test, exits)
    }

    /// Adds the value of a test.
    #[cycle(worth)]
    fn worth(&mut self, scope: &Scope, part: Operand, exits: Exits) -> Result<u32, NoMemory>
        requires slots_below { AreBelow exits.free (slots_in scope.now) }
        requires exits_there { AreExits (code_of self.old) exits }
        ensures { IfOk result (λ pc. Made (code_of self.old) (code_of self.new) pc
            (Worths scope.now (part_over (tables_in scope.now) part) exits pc)) }
    {
        match part {
            Operand::Node(id) => match scope.code.node(id) {
                Some(node) => self.node_worth(scope, node, exits),
                None => self.load_value(Term::List(List::Nil), exits.free, exits.next),
            },
            Operand::Slot(index) => match slot_at(scope.slots, index) {
                Some(register) => self.load(*register, exits.free, exits.next),
                None => Ok(exits.otherwise),
            },
            Operand::Int(n) => self.load_value(Term::Int(n), exits.free, exits.next),
            Operand::Atom(atom) => self.load_value(Term::Atom(atom), exits.free, exits.next),
            Operand::Nil => self.load_value(Term::List(List::Nil), exits.free, exits.next),
            Operand::Literal(id) => {
                let value = literal(scope.code, id)?;
                self.load_value(value, exits.free, exits.next)
            }
        }
    }

    /// Adds the value of a test that is a node. What isn't allowed in a guard is an error.
    #[cycle(worth)]
    fn node_worth(&mut self, scope: &Scope, node: &Node, exits: Exits) -> Result<u32, NoMemory>
        requires slots_below { AreBelow exits.free (slots_in scope.now) }
        requires exits_there { AreExits (code_of self.old) exits }
        ensures { IfOk result (λ pc. Made (code_of self.old) (code_of self.new) pc
            (Worths scope.now (tree_over (tables_in scope.now) node.now) exits pc)) }
    {
        match node {
            Node::Tuple(parts) => {
                let operation = tuple_of(exits.free, exits.free, parts.len())?;
                self.applied_worth(scope, operation, parts.as_slice(), exits)
            }
            Node::Cons(first, rest) => {
                let operation = cons_of(exits.free, exits.free)?;
                self.applied_worth(scope, operation, &[*first, *rest], exits)
            }
            Node::Binary(operator, left, right) => {
                let operation = binary_of(*operator, exits.free, exits.free)?;
                self.applied_worth(scope, operation, &[*left, *right], exits)
            }
            Node::Negate(part) => {
                let operation = negate_of(exits.free, exits.free);
                self.applied_worth(scope, operation, &[*part], exits)
            }
            Node::AndAlso(left, right) => self.decided_worth(scope, false, *left, *right, exits),
            Node::OrElse(left, right) => self.decided_worth(scope, true, *left, *right, exits),
            Node::Builtin(builtin, parts) => {
                let operation = pure_of(*builtin, exits.free, exits.free, parts.len())?;
                self.applied_worth(scope, operation, parts.as_slice(), exits)
            }
            Node::Call(_, _)
            | Node::Match(_, _)
            | Node::Bind(_, _, _)
            | Node::Case(_, _)
            | Node::If(_)
            | Node::Receive(_)
            | Node::Send(_, _) => Ok(exits.otherwise),
        }
    }

    /// Adds the values of tests, in a row.
    #[cycle(worth)]
    fn all_worth(&mut self, scope: &Scope, parts: &[Operand], exits: Exits) -> Result<u32, NoMemory>
        requires slots_below { AreBelow exits.free (slots_in scope.now) }
        requires exits_there { AreExits (code_of self.old) exits }
        ensures { IfOk result (λ pc. Made (code_of self.old) (code_of self.new) pc
            (WorthsAll scope.now (parts_over (tables_in scope.now) parts.now) (length parts.now) exits pc)) }
    {
        match parts {
            [] => Ok(exits.next),
            [part, rest @ ..] => {
                let later = Exits {
                    free: register_after(exits.free, 1)?,
                    next: exits.next,
                    otherwise: exits.otherwise,
                };
                let next = self.all_worth(scope, rest, later)?;
                let first = Exits {
                    free: exits.free,
                    next,
                    otherwise: exits.otherwise,
                };
                self.worth(scope, *part, first)
            }
        }
    }

    /// Adds an operation on the values of tests.
    #[cycle(worth)]
    fn applied_worth(
        &mut self,
        scope: &Scope,
        operation: Operation,
        parts: &[Operand],
        exits: Exits,
    ) -> Result<u32, NoMemory>
        requires slots_below { AreBelow exits.free (slots_in scope.now) }
        requires exits_there { AreExits (code_of self.old) exits }
        ensures { IfOk result (λ pc. Made (code_of self.old) (code_of self.new) pc
            (Applies scope.now (parts_over (tables_in scope.now) parts.now) (length parts.now) operation exits pc)) }
    {
        let next = self.test(operation, exits)?;
        let first = Exits {
            free: exits.free,
            next,
            otherwise: exits.otherwise,
        };
        self.all_worth(scope, parts, first)
    }

    /// Adds `andalso` or `orelse` of two tests: the left one where its truth is the one that decides, else the right
    /// one.
    #[cycle(worth)]
    fn decided_worth(
        &mut self,
        scope: &Scope,
        decides: bool,
        left: Operand,
        right: Operand,
        exits: Exits,
    ) -> Result<u32, NoMemory>
        requires slots_below { AreBelow exits.free (slots_in scope.now) }
        requires exits_there { AreExits (code_of self.old) exits }
        ensures { IfOk result (λ pc. Made (code_of self.old) (code_of self.new) pc
            (Decides scope.now decides (part_over (tables_in scope.now) left)
            (part_over (tables_in scope.now) right) exits pc)) }
    {
        let other = self.worth(scope, right, exits)?;
        let truth = self.truth(decides, other, exits)?;
        let first = Exits {
            free: exits.free,
            next: truth,
            otherwise: exits.otherwise,
        };
        self.worth(scope, left, first)
    }

    /// Adds tests of the truth in the free register: the one that decides leads on, and the other one to another place.
    pub fn truth(&mut self, decides: bool, other: u32, exits: Exits) -> Result<u32, NoMemory>
        requires other_there { IsPlace (code_of self.old) other }
        requires exits_there { AreExits (code_of self.old) exits }
        ensures { IfOk result (λ pc. Made (code_of self.old) (code_of self.new) pc
            (TellsTruth decides other exits pc)) }
    {
        let second = Exits {
            free: exits.free,
            next: either(decides, other, exits.next),
            otherwise: exits.otherwise,
        };
        let is_false = self.is_atom(exits.free, AtomId::FALSE, second)?;
        let first = Exits {
            free: exits.free,
            next: either(decides, exits.next, other),
            otherwise: is_false,
        };
        self.is_atom(exits.free, AtomId::TRUE, first)
    }

    /// Adds a test that has to be `true`.
    fn is_true(&mut self, scope: &Scope, part: Operand, exits: Exits) -> Result<u32, NoMemory>
        requires slots_below { AreBelow exits.free (slots_in scope.now) }
        requires exits_there { AreExits (code_of self.old) exits }
        ensures { IfOk result (λ pc. Made (code_of self.old) (code_of self.new) pc
            (AsksBelow (model_in scope.now) exits pc
            (is_true_at scope.now (part_over (tables_in scope.now) part)))) }
    {
        let next = self.is_atom(exits.free, AtomId::TRUE, exits)?;
        let first = Exits {
            free: exits.free,
            next,
            otherwise: exits.otherwise,
        };
        self.worth(scope, part, first)
    }

    /// Adds tests that all have to be `true`.
    fn all_true(&mut self, scope: &Scope, parts: &[Operand], exits: Exits) -> Result<u32, NoMemory>
        requires slots_below { AreBelow exits.free (slots_in scope.now) }
        requires exits_there { AreExits (code_of self.old) exits }
        ensures { IfOk result (λ pc. Made (code_of self.old) (code_of self.new) pc
            (AsksBelow (model_in scope.now) exits pc
            (all_true_at scope.now (parts_over (tables_in scope.now) parts.now)))) }
    {
        match parts {
            [] => Ok(exits.next),
            [part, rest @ ..] => {
                let next = self.all_true(scope, rest, exits)?;
                let first = Exits {
                    free: exits.free,
                    next,
                    otherwise: exits.otherwise,
                };
                self.is_true(scope, *part, first)
            }
        }
    }

    /// Adds alternatives, of which one has to hold.
    fn alternatives(
        &mut self,
        scope: &Scope,
        alternatives: &[Alternative],
        exits: Exits,
    ) -> Result<u32, NoMemory>
        requires slots_below { AreBelow exits.free (slots_in scope.now) }
        requires exits_there { AreExits (code_of self.old) exits }
        ensures { IfOk result (λ pc. Made (code_of self.old) (code_of self.new) pc
            (AsksBelow (model_in scope.now) exits pc
            (holds_at scope.now (alternatives_over (tables_in scope.now) alternatives.now)))) }
    {
        match alternatives {
            [] => Ok(exits.otherwise),
            [alternative, rest @ ..] => {
                let otherwise = self.alternatives(scope, rest, exits)?;
                let first = Exits {
                    free: exits.free,
                    next: exits.next,
                    otherwise,
                };
                self.all_true(scope, alternative.tests.as_slice(), first)
            }
        }
    }

    /// Adds a guard.
    pub fn guard(&mut self, scope: &Scope, guard: &Guard, exits: Exits) -> Result<u32, NoMemory>
        requires slots_below { AreBelow exits.free (slots_in scope.now) }
        requires exits_there { AreExits (code_of self.old) exits }
        ensures { IfOk result (λ pc. Made (code_of self.old) (code_of self.new) pc
            (AsksBelow (model_in scope.now) exits pc
            (holds_at scope.now (guard_over (tables_in scope.now) guard.now)))) }
    {
        if guard.alternatives.is_empty() {
            return Ok(exits.next);
        }
        self.alternatives(scope, guard.alternatives.as_slice(), exits)
    }
}

/// The one place or the other.
fn either(first: bool, one: u32, other: u32) -> u32
    ensures { result ≡ (if first then one else other) }
{
    if first { one } else { other }
}
