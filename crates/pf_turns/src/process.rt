//! A process over code, and its turns.

ghost use Rattle.std.specs.Prelude.{◌≡◌, ◌+◌, ◌-◌, ◌≤◌, ◌<◌, ℕ, List, [], IfOk, IfSome, OnErr, OnOk, Some, length};
ghost use Rattle.std.specs.Prelude.{slice_get};
ghost use Rattle.std.specs.Prelude.{if◌then◌else◌};
ghost use Rattle.pf_syntax.specs.Tree.{call, lit, Clauses, Function};
ghost use Rattle.pf_heap.specs.Heap.{word_value, word_values, Cell, IsWordOf, Keeps};
ghost use Rattle.pf_model.specs.Module.{Module};
ghost use Rattle.pf_model.specs.Contraction.{called, Act, Asks, Becomes, Raises};
ghost use Rattle.pf_model.specs.Context.{goes_on, literals, running, Frame, Move};
ghost use Rattle.pf_code.specs.Points.{inside, Steps};
ghost use Rattle.pf_code.specs.Registers.{row as row_of};
ghost use Rattle.pf_code.specs.Sound.{Code};
ghost use Rattle.pf_code.specs.Machine.{entry, State};
ghost use Rattle.pf_code.specs.Simulation.{IsAtReceive, IsSoundFor};
ghost use Rattle.pf_loop.specs.Judged.{Judged};
ghost use Rattle.pf_loop.specs.View.{AreWords};
ghost use Rattle.pf_loop.specs.Run.{IsCode, IsHaltOf, IsIn};
ghost use Rattle.pf_actions.specs.Acts.{change_over, IsAskedOf};
ghost use Rattle.pf_turns.specs.Turns.{Charges, Did, Goes, IsAsking, IsStatusOf, IsStopOf, Represents, Stopped};

use crate::ending::ending_reason;
use crate::status::{Status, Stop};
use pf_actions::{Asked, asked};
use pf_errors::NoMemory;
use pf_heap::{Heap, Word};
use pf_loop::{Halt, Machine, Setting};
use pf_syntax::Builtin;
use std::alloc::Global;

/// A process: its machine, and what it does next.
#[derive(Drop)]
pub struct Process {
    pub machine: Machine,
    pub status: Status,
}

/// What a call of a built-in function on a row of the innermost activation does.
fn asked_of(
    machine: &mut Machine,
    heap: &mut Heap,
    setting: &Setting,
    builtin: Builtin,
    row: (u32, u32),
) -> Result<Asked, NoMemory>
    requires words { AreWords heap.old machine.old.stack.words.items }
    ensures words { AreWords heap.new machine.new.stack.words.items }
    ensures keeps { Keeps heap.old heap.new }
    ensures asked { IfOk result (IsAskedOf heap.new) }
    ensures stays { (s : State) → IsIn heap.old machine.old s → IsIn heap.new machine.new s }
    ensures made { IfOk result (λ a. (s : State) → IsIn heap.old machine.old s
        → change_over heap.new a ≡ called setting.now.own builtin (row_of s.registers row.0 row.1)) }
{
    machine.stack.reach(row.0, row.1)?;
    let words = machine.stack.row(row.0, row.1);
    asked(setting.alloc, heap, setting.own, builtin, words)
}

impl Process {
    /// A process that begins at a place of the code, with these words as its arguments.
    pub fn new(alloc: Global, pc: usize, words: &[Word]) -> Result<Process, NoMemory>
        ensures words { IfOk result (λ k. (h : List Cell) → AreWords h words.now
            → AreWords h k.machine.stack.words.items) }
        ensures status { IfOk result (λ k. (h : List Cell) → IsStatusOf h k.status) }
        ensures begins { IfOk result (λ k. (m : Module) (own : ℕ) (code : Code) (entries : List ℕ) (h : List Cell)
            (i : ℕ) (f : Function) → IsSoundFor m code entries → slice_get m.functions i ≡ Some f
            → f.arity ≡ length words.now → entry entries i ≡ pc
            → Represents m own code h k.machine k.status
            (goes_on (running (call i (literals (word_values h words.now)))))) }
    {
        Ok(Process {
            machine: Machine::new(alloc, pc, words)?,
            status: Status::Begins,
        })
    }

    /// The value of the action that the process asked for.
    pub fn answer(&mut self, word: Word) -> Result<(), NoMemory>
        ensures words { (h : List Cell) → AreWords h self.old.machine.stack.words.items → IsWordOf h word
            → AreWords h self.new.machine.stack.words.items }
        ensures status { OnOk result ((h : List Cell) → IsStatusOf h self.new.status) }
        ensures err { OnErr result (self.new.status ≡ self.old.status) }
        ensures answered { OnOk result ((m : Module) (own : ℕ) (code : Code) (h : List Cell) (fs : List Frame) (a : Act)
            → Represents m own code h self.old.machine self.old.status (inside fs (Asks a))
            → Represents m own code h self.new.machine self.new.status
            (inside fs (Becomes (lit (word_value h word))))) }
    {
        match self.status {
            Status::Asks(register) => {
                self.machine.answer(register, word)?;
                self.status = Status::Goes;
                Ok(())
            }
            _ => Err(NoMemory),
        }
    }

    /// The action that the process asked for raises.
    pub fn raise(&mut self, heap: &mut Heap, word: Word) -> Result<(), NoMemory>
        requires word { IsWordOf heap.old word }
        ensures machine { self.new.machine ≡ self.old.machine }
        ensures keeps { Keeps heap.old heap.new }
        ensures status { OnOk result (IsStatusOf heap.new self.new.status) }
        ensures err { OnErr result (self.new.status ≡ self.old.status) }
        ensures raised { OnOk result ((m : Module) (own : ℕ) (code : Code)
            → Represents m own code heap.new self.new.machine self.new.status
            (inside [] (Raises (word_value heap.old word)))) }
    {
        self.status = Status::Ends(ending_reason(heap, word)?);
        Ok(())
    }

    /// Tests a message at a `receive`: whether a clause picks it, and then the process is in that clause's body.
    pub fn test(
        &mut self,
        heap: &mut Heap,
        setting: &Setting,
        message: Word,
    ) -> Result<bool, NoMemory>
        requires words { AreWords heap.old self.old.machine.stack.words.items }
        requires constants { AreWords heap.old setting.now.constants.now }
        requires message { IsWordOf heap.old message }
        ensures words { AreWords heap.new self.new.machine.stack.words.items }
        ensures keeps { Keeps heap.old heap.new }
        ensures status { IfOk result (λ taken. self.new.status
            ≡ (if taken then Status.Goes else self.old.status)) }
        ensures err { OnErr result (self.new.status ≡ self.old.status) }
        ensures tested { IfOk result (λ taken. (m : Module) (code : Code) (entries : List ℕ) (d : ℕ) (s : State)
            (fs : List Frame) (ks : Clauses) → IsCode heap.old setting.now m code entries
            → IsSoundFor m code entries → self.old.status ≡ Status.Receives d
            → IsIn heap.old self.old.machine s → IsAtReceive m setting.now.own code d s fs ks
            → Judged m setting.now.own code d fs ks (word_value heap.old message) heap.new self.new.machine
            taken) }
    {
        match self.status {
            Status::Receives(register) => {
                let taken = self.machine.test(heap, setting, register, message)?;
                if taken {
                    self.status = Status::Goes;
                }
                Ok(taken)
            }
            _ => Err(NoMemory),
        }
    }

    /// Goes on after a call of a built-in function whose answer goes into a register.
    fn settle(
        &mut self,
        heap: &mut Heap,
        register: u32,
        asked: Asked,
    ) -> Result<Option<Stop>, NoMemory>
        requires words { AreWords heap.old self.old.machine.stack.words.items }
        requires asked { IsAskedOf heap.old asked }
        requires goes { self.old.status ≡ Status.Goes }
        ensures words { AreWords heap.new self.new.machine.stack.words.items }
        ensures keeps { Keeps heap.old heap.new }
        ensures status { IsStatusOf heap.new self.new.status }
        ensures stop { IfOk result (λ o. IfSome o (IsStopOf heap.new)) }
        ensures settled { IfOk result (λ o. (m : Module) (own : ℕ) (code : Code) (s : State) (fs : List Frame)
            (p : Move) (n left : ℕ) → IsIn heap.old self.old.machine s → IsAsking m own code register s fs
            → Steps m own n p (inside fs (change_over heap.old asked))
            → Goes m own code p n left heap.new self.new.machine self.new.status o) }
    {
        match asked {
            Asked::Acts(act) => {
                self.status = Status::Asks(register);
                Ok(Some(Stop::Acts(act)))
            }
            Asked::Exits(reason) => {
                self.status = Status::Ends(reason);
                Ok(None)
            }
            Asked::Becomes(word) => {
                self.machine.answer(register, word)?;
                Ok(None)
            }
            Asked::Raises(reason) => {
                let raised = Word::Atom(u64::from(reason.0));
                self.status = Status::Ends(ending_reason(heap, raised)?);
                Ok(None)
            }
        }
    }

    /// What comes of a halt that leaves the heap as it is.
    fn halted(&mut self, halt: Halt, rest: &mut u32) -> Result<Option<Stop>, NoMemory>
        requires goes { self.old.status ≡ Status.Goes }
        ensures machine { self.new.machine ≡ self.old.machine }
        ensures no_more { rest.new ≤ rest.old }
        ensures status { (h : List Cell) → IsHaltOf h halt → IsStatusOf h self.new.status }
        ensures stop { IfOk result (λ o. (h : List Cell) → IsHaltOf h halt → IfSome o (IsStopOf h)) }
        ensures halted { IfOk result (λ o. (m : Module) (own : ℕ) (code : Code) (entries : List ℕ) (p : Move) (n : ℕ)
            (h : List Cell) → Did m own code entries p n h self.old.machine rest.old halt
            → Goes m own code p (n + (rest.old - rest.new)) rest.new h self.new.machine self.new.status o) }
    {
        match halt {
            Halt::Spent => {
                if *rest > 0 {
                    self.status = Status::Cut;
                    *rest = 0;
                }
                Ok(Some(Stop::Cut))
            }
            Halt::Sends(register, to, message) => {
                self.status = Status::Asks(register);
                Ok(Some(Stop::Sends(to, message)))
            }
            Halt::Awaits(register) => {
                self.status = Status::Receives(register);
                Ok(None)
            }
            Halt::Returns(word) => {
                self.status = Status::Returns(word);
                Ok(None)
            }
            Halt::Paused => Ok(None),
            _ => Err(NoMemory),
        }
    }

    /// A step that is no instruction: the call with which a process begins, a `receive`, or its end. Where no step is
    /// left the turn is cut before it.
    fn charge(&mut self, rest: &mut u32) -> Option<Stop>
        requires charges { Charges self.old.status }
        ensures machine { self.new.machine ≡ self.old.machine }
        ensures no_more { rest.new ≤ rest.old }
        ensures status { (h : List Cell) → IsStatusOf h self.old.status → IsStatusOf h self.new.status }
        ensures stop { (h : List Cell) → IsStatusOf h self.old.status → IfSome result (IsStopOf h) }
        ensures charged { (m : Module) (own : ℕ) (code : Code) (p : Move) (h : List Cell)
            → Represents m own code h self.old.machine self.old.status p
            → Goes m own code p (rest.old - rest.new) rest.new h self.new.machine self.new.status result }
    {
        if *rest == 0 {
            return Some(Stop::Cut);
        }
        *rest -= 1;
        match self.status {
            Status::Receives(register) => Some(Stop::Receives(register)),
            Status::Returns(word) => Some(Stop::Returns(word)),
            Status::Ends(reason) => Some(Stop::Ends(reason)),
            _ => {
                self.status = Status::Goes;
                None
            }
        }
    }

    /// Executes code until something stops it.
    fn execute(
        &mut self,
        heap: &mut Heap,
        setting: &Setting,
        rest: &mut u32,
    ) -> Result<Option<Stop>, NoMemory>
        requires words { AreWords heap.old self.old.machine.stack.words.items }
        requires constants { AreWords heap.old setting.now.constants.now }
        requires goes { self.old.status ≡ Status.Goes }
        ensures words { AreWords heap.new self.new.machine.stack.words.items }
        ensures keeps { Keeps heap.old heap.new }
        ensures no_more { rest.new ≤ rest.old }
        ensures status { IsStatusOf heap.new self.new.status }
        ensures stop { IfOk result (λ o. IfSome o (IsStopOf heap.new)) }
        ensures executed { IfOk result (λ o. (m : Module) (code : Code) (entries : List ℕ) (p : Move)
            → IsCode heap.old setting.now m code entries → IsSoundFor m code entries
            → Represents m setting.now.own code heap.old self.old.machine Status.Goes p
            → Goes m setting.now.own code p (rest.old - rest.new) rest.new heap.new self.new.machine
            self.new.status o) }
    {
        let halt = self.machine.go(heap, setting, rest)?;
        if let Halt::Asks(builtin, register, from, count) = halt {
            let asked = asked_of(&mut self.machine, heap, setting, builtin, (from, count))?;
            return self.settle(heap, register, asked);
        }
        if let Halt::Raises(word) = halt {
            self.status = Status::Ends(ending_reason(heap, word)?);
            return Ok(None);
        }
        self.halted(halt, rest)
    }

    /// Some steps of the process, or the last one of its turn. A process that waits for an answer, or whose turn was
    /// cut within an instruction, can't go on.
    fn step(
        &mut self,
        heap: &mut Heap,
        setting: &Setting,
        rest: &mut u32,
    ) -> Result<Option<Stop>, NoMemory>
        requires words { AreWords heap.old self.old.machine.stack.words.items }
        requires constants { AreWords heap.old setting.now.constants.now }
        requires status { IsStatusOf heap.old self.old.status }
        ensures words { AreWords heap.new self.new.machine.stack.words.items }
        ensures keeps { Keeps heap.old heap.new }
        ensures no_more { rest.new ≤ rest.old }
        ensures status { IsStatusOf heap.new self.new.status }
        ensures stop { IfOk result (λ o. IfSome o (IsStopOf heap.new)) }
        ensures stepped { IfOk result (λ o. (m : Module) (code : Code) (entries : List ℕ) (p : Move)
            → IsCode heap.old setting.now m code entries → IsSoundFor m code entries
            → Represents m setting.now.own code heap.old self.old.machine self.old.status p
            → Goes m setting.now.own code p (rest.old - rest.new) rest.new heap.new self.new.machine
            self.new.status o) }
    {
        match self.status {
            Status::Goes => self.execute(heap, setting, rest),
            Status::Asks(_) | Status::Cut => Err(NoMemory),
            _ => Ok(self.charge(rest)),
        }
    }

    /// All steps up to and with the next action, `receive` or end, but no more than are left: how many they were, and
    /// what ended the turn.
    pub fn run(
        &mut self,
        heap: &mut Heap,
        setting: &Setting,
        left: u32,
    ) -> Result<(u32, Stop), NoMemory>
        requires words { AreWords heap.old self.old.machine.stack.words.items }
        requires constants { AreWords heap.old setting.now.constants.now }
        requires status { IsStatusOf heap.old self.old.status }
        ensures words { AreWords heap.new self.new.machine.stack.words.items }
        ensures keeps { Keeps heap.old heap.new }
        ensures status { IsStatusOf heap.new self.new.status }
        ensures stop { IfOk result (λ r. IsStopOf heap.new r.1) }
        ensures within { IfOk result (λ r. r.0 ≤ left) }
        ensures ran { IfOk result (λ r. (m : Module) (code : Code) (entries : List ℕ) (p : Move)
            → IsCode heap.old setting.now m code entries → IsSoundFor m code entries
            → Represents m setting.now.own code heap.old self.old.machine self.old.status p
            → Stopped m setting.now.own code p r.0 (left - r.0) heap.new self.new.machine self.new.status r.1) }
    {
        let mut rest = left;
        'steps: for _ in 0..u64::MAX {
            let stop = self.step(heap, setting, &mut rest)?;
            if let Some(stop) = stop {
                return Ok((left - rest, stop));
            }
        }
        Err(NoMemory)
    }
}
