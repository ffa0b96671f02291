//! The code that is made: instructions from its end towards its beginning, and constants.

ghost use Rattle.std.specs.Prelude.{◌≡◌, IfOk};
ghost use Rattle.pf_terms.specs.Term.{value_of};
ghost use Rattle.pf_compile_patterns.specs.Maker.{code_of, IsPlace};
ghost use Rattle.pf_compile_patterns.specs.Growth.{ConstantPut, Made, Pushed, Put, Reached};
ghost use Rattle.pf_compile_patterns.specs.Tests.{Lays};

use pf_code::{Instruction, Operation};
use pf_errors::NoMemory;
use pf_terms::Term;
use std::alloc::Global;

/// Instructions and constants so far. What is added comes after what is there, and nothing is ever changed.
#[derive(Drop)]
pub struct Maker {
    pub alloc: Global,
    pub instructions: Vec<Instruction>,
    pub constants: Vec<Term>,
}

/// The number of the next of n.
fn next_number(n: usize) -> Result<u32, NoMemory>
    ensures { IfOk result (λ k. k ≡ n) }
{
    u32::try_from(n).map_err(|_| NoMemory)
}

impl Maker {
    /// No instruction and no constant yet.
    pub fn new(alloc: Global) -> Maker {
        Maker {
            alloc,
            instructions: Vec::new(alloc),
            constants: Vec::new(alloc),
        }
    }

    /// Adds an instruction. It fails where memory runs out, or where there are 2^32 already; and so the calls below.
    pub fn push(&mut self, instruction: Instruction) -> Result<u32, NoMemory>
        ensures { IfOk result (λ pc. Pushed (code_of self.old) (code_of self.new) instruction pc) }
    {
        let pc = next_number(self.instructions.len())?;
        self.instructions.push(instruction)?;
        Ok(pc)
    }

    /// Adds a constant.
    pub fn constant(&mut self, value: Term) -> Result<u32, NoMemory>
        ensures { IfOk result (λ k. ConstantPut (code_of self.old) (code_of self.new) (value_of value) k) }
    {
        let k = next_number(self.constants.len())?;
        self.constants.push(value)?;
        Ok(k)
    }

    /// Sees that what is added next goes on at this place.
    fn reach(&mut self, next: u32) -> Result<(), NoMemory>
        requires { IsPlace (code_of self.old) next }
        ensures { IfOk result (λ _. Reached (code_of self.old) (code_of self.new) next) }
    {
        if next as usize + 1 != self.instructions.len() {
            self.push(Instruction {
                operation: Operation::Jump,
                contractions: 0,
                otherwise: next,
            })?;
        }
        Ok(())
    }

    /// Adds an instruction that goes on at `next`.
    pub fn put(&mut self, instruction: Instruction, next: u32) -> Result<u32, NoMemory>
        requires { IsPlace (code_of self.old) next }
        ensures { IfOk result (λ pc. Put (code_of self.old) (code_of self.new) instruction next pc) }
    {
        self.reach(next)?;
        self.push(instruction)
    }

    /// Adds tests that lead to `next` or to `otherwise`.
    pub fn lay(&mut self, tests: &[Operation], next: u32, otherwise: u32) -> Result<u32, NoMemory>
        requires next_there { IsPlace (code_of self.old) next }
        requires otherwise_there { IsPlace (code_of self.old) otherwise }
        ensures { IfOk result (λ pc. Made (code_of self.old) (code_of self.new) pc
            (Lays tests.now next otherwise pc)) }
    {
        match tests {
            [] => Ok(next),
            [test, rest @ ..] => {
                let next = self.lay(rest, next, otherwise)?;
                let test = Instruction {
                    operation: *test,
                    contractions: 0,
                    otherwise,
                };
                self.put(test, next)
            }
        }
    }
}
