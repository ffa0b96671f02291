//! A machine: a process over code, whose arguments, messages, actions and answers are terms.

ghost use Rattle.std.specs.Prelude.{◌≡◌, ◌<◌, ℕ, List, true, false, length, slice_get, Err, IfOk, IsErr, Ok, OnErr};
ghost use Rattle.std.specs.Prelude.{OnOk, Some};
ghost use Rattle.pf_terms.specs.Term.{value_of, values_of};
ghost use Rattle.pf_syntax.specs.Tree.{call, Function};
ghost use Rattle.pf_heap.specs.Heap.{Keeps};
ghost use Rattle.pf_model.specs.Module.{Module};
ghost use Rattle.pf_model.specs.Context.{literals, running, Frame, ProcessState};
ghost use Rattle.pf_model.specs.Turns.{with_answer};
ghost use Rattle.pf_code.specs.Sound.{Code};
ghost use Rattle.pf_code.specs.Machine as code;
ghost use Rattle.pf_code.specs.Simulation.{IsSoundFor};
ghost use Rattle.pf_loop.specs.View.{AreWords};
ghost use Rattle.pf_loop.specs.Run.{IsCode};
ghost use Rattle.pf_stepper.specs.MachineView.{asking, goes};
ghost use Rattle.pf_stepper.specs.Turns.{answer_value};
ghost use Rattle.pf_inbox.specs.InboxView.{InboxView};
ghost use Rattle.pf_inbox.specs.Received.{AtEachReceive};
ghost use Rattle.pf_inbox.specs.Tests.{FitsNoneBefore};
ghost use Rattle.pf_machine.specs.Statuses.{IsElsewhere, IsOver, Ran, IsAtStatus, TakesOrWaits};

use crate::lifting::move_of;
use crate::lowering::lowered;
use pf_errors::NoMemory;
use pf_heap::Heap;
use pf_inbox::Inbox;
use pf_loop::Setting;
use pf_nodes::Pool;
use pf_stepper::Move;
use pf_syntax::FunctionId;
use pf_terms::Term;
use pf_turns::{Process, Status, Stop};

/// A process over code. Once a call failed it answers so for good.
#[derive(Drop)]
pub struct Machine {
    pub process: Process,
    pub spent: bool,
}

/// How many steps a turn had, and the move that ended it.
#[derive(Drop)]
pub struct Turn {
    pub used: u32,
    pub did: Move,
}

/// The place where a function begins.
pub(crate) fn entry(setting: &Setting, function: FunctionId) -> usize
    ensures { result ≡ code.entry setting.now.entries.now function.0 }
{
    let at = function.0 as usize;
    if at < setting.entries.len() {
        setting.entries[at]
    } else {
        0
    }
}

impl Machine {
    /// A process at the call of a function with these arguments.
    pub fn new(
        heap: &mut Heap,
        setting: &Setting,
        function: FunctionId,
        arguments: &[Term],
    ) -> Result<Machine, NoMemory>
        ensures over { IfOk result (λ k. IsOver heap.new k.process) }
        ensures unspent { IfOk result (λ k. k.spent ≡ false) }
        ensures keeps { Keeps heap.old heap.new }
        ensures begins { IfOk result (λ k. (m : Module) (own : ℕ) (code : Code) (f : Function) (b : InboxView)
            → IsSoundFor m code setting.now.entries.now → slice_get m.functions function.0 ≡ Some f
            → f.arity ≡ length arguments.now → b.mark ≡ 0 → IsAtStatus m own code heap.new k.process b
            (goes (running (call function.0 (literals (values_of arguments.now)))))) }
    {
        let words = lowered(setting.alloc, heap, arguments)?;
        let pc = entry(setting, function);
        let process = Process::new(setting.alloc, pc, &words)?;
        Ok(Machine {
            process,
            spent: false,
        })
    }

    /// What a `receive` does with the messages.
    fn receive(
        &mut self,
        heap: &mut Heap,
        setting: &Setting,
        inbox: &mut Inbox,
        pool: &mut Pool<Term>,
    ) -> Result<Move, NoMemory>
        requires over { IsOver heap.old self.old.process }
        requires constants { AreWords heap.old setting.now.constants.now }
        ensures over { IsOver heap.new self.new.process }
        ensures keeps { Keeps heap.old heap.new }
        ensures flag { self.new.spent ≡ self.old.spent }
        ensures received { IfOk result (λ did. AtEachReceive heap.old setting.now self.old.process (λ m code d fs ks.
            FitsNoneBefore m setting.now.own ks inbox.old
            → TakesOrWaits m setting.now.own code d fs ks inbox.old inbox.new heap.new self.new.process did)) }
        ensures err { OnErr result (inbox.new.messages ≡ inbox.old.messages) }
    {
        let taken = inbox.receive(pool, &mut self.process, heap, setting)?;
        match taken {
            Some(message) => Ok(Move::Take(message)),
            None => Ok(Move::Wait),
        }
    }

    /// The turn of a process that waits at no `receive`.
    fn go(
        &mut self,
        heap: &mut Heap,
        setting: &Setting,
        inbox: &mut Inbox,
        pool: &mut Pool<Term>,
        left: u32,
    ) -> Result<Turn, NoMemory>
        requires over { IsOver heap.old self.old.process }
        requires constants { AreWords heap.old setting.now.constants.now }
        requires elsewhere { IsElsewhere self.old.process.status }
        ensures over { IsOver heap.new self.new.process }
        ensures keeps { Keeps heap.old heap.new }
        ensures flag { self.new.spent ≡ self.old.spent }
        ensures ran { IfOk result (λ t. (m : Module) (code : Code) (entries : List ℕ) (u : ProcessState)
            → IsCode heap.old setting.now m code entries → IsSoundFor m code entries
            → IsAtStatus m setting.now.own code heap.old self.old.process inbox.old (goes u)
            → Ran m setting.now.own code left u inbox.old t.did t.used heap.new
            self.new.process inbox.new) }
        ensures err { OnErr result (inbox.new.messages ≡ inbox.old.messages) }
    {
        let ran = self.process.run(heap, setting, left)?;
        if let Stop::Receives(_) = ran.1 {
            let did = self.receive(heap, setting, inbox, pool)?;
            return Ok(Turn { used: ran.0, did });
        }
        let ending = move_of(setting.alloc, heap, ran.1)?;
        Ok(Turn {
            used: ran.0,
            did: ending,
        })
    }

    /// A turn. A process that waits at a `receive` goes on there by one step.
    fn turn(
        &mut self,
        heap: &mut Heap,
        setting: &Setting,
        inbox: &mut Inbox,
        pool: &mut Pool<Term>,
        left: u32,
    ) -> Result<Turn, NoMemory>
        requires over { IsOver heap.old self.old.process }
        requires constants { AreWords heap.old setting.now.constants.now }
        requires left { 0 < left }
        ensures over { IsOver heap.new self.new.process }
        ensures keeps { Keeps heap.old heap.new }
        ensures flag { self.new.spent ≡ self.old.spent }
        ensures ran { IfOk result (λ t. (m : Module) (code : Code) (entries : List ℕ) (u : ProcessState)
            → IsCode heap.old setting.now m code entries → IsSoundFor m code entries
            → IsAtStatus m setting.now.own code heap.old self.old.process inbox.old (goes u)
            → Ran m setting.now.own code left u inbox.old t.did t.used heap.new
            self.new.process inbox.new) }
        ensures err { OnErr result (inbox.new.messages ≡ inbox.old.messages) }
    {
        if let Status::Receives(_) = self.process.status {
            let did = self.receive(heap, setting, inbox, pool)?;
            return Ok(Turn { used: 1, did });
        }
        self.go(heap, setting, inbox, pool, left)
    }

    /// All steps up to and with the next action, message, wait or end, but no more than are left: how many they were,
    /// and the move that ended them. The node of a message that is taken goes to the pool.
    pub fn run(
        &mut self,
        heap: &mut Heap,
        setting: &Setting,
        inbox: &mut Inbox,
        pool: &mut Pool<Term>,
        left: u32,
    ) -> Result<Turn, NoMemory>
        requires over { IsOver heap.old self.old.process }
        requires constants { AreWords heap.old setting.now.constants.now }
        requires left { 0 < left }
        ensures over { IsOver heap.new self.new.process }
        ensures keeps { Keeps heap.old heap.new }
        ensures ran { IfOk result (λ t. (m : Module) (code : Code) (entries : List ℕ) (u : ProcessState)
            → IsCode heap.old setting.now m code entries → IsSoundFor m code entries
            → IsAtStatus m setting.now.own code heap.old self.old.process inbox.old (goes u)
            → Ran m setting.now.own code left u inbox.old t.did t.used heap.new
            self.new.process inbox.new) }
        ensures spent { OnErr result ((self.new.spent ≡ true) × (inbox.new.messages ≡ inbox.old.messages)) }
        ensures refused { self.old.spent ≡ true → IsErr result }
        ensures unspent { OnOk result (self.new.spent ≡ false) }
    {
        if self.spent {
            return Err(NoMemory);
        }
        self.spent = true;
        let turn = self.turn(heap, setting, inbox, pool, left)?;
        self.spent = false;
        Ok(turn)
    }

    /// The value of the action that the process asked for.
    fn give(&mut self, heap: &mut Heap, setting: &Setting, value: &Term) -> Result<(), NoMemory>
        requires over { IsOver heap.old self.old.process }
        ensures over { IsOver heap.new self.new.process }
        ensures keeps { Keeps heap.old heap.new }
        ensures flag { OnErr result (self.new.spent ≡ self.old.spent) }
        ensures unspent { OnOk result (self.new.spent ≡ false) }
        ensures given { OnOk result ((m : Module) (own : ℕ) (code : Code) (fs : List Frame) (b : InboxView)
            → IsAtStatus m own code heap.old self.old.process b (asking fs)
            → IsAtStatus m own code heap.new self.new.process b (goes (with_answer fs (Ok (value_of value.now))))) }
    {
        let word = heap.lower(setting.alloc, value)?;
        self.process.answer(word)?;
        self.spent = false;
        Ok(())
    }

    /// The action that the process asked for raises.
    fn raise(&mut self, heap: &mut Heap, setting: &Setting, reason: &Term) -> Result<(), NoMemory>
        requires over { IsOver heap.old self.old.process }
        ensures over { IsOver heap.new self.new.process }
        ensures keeps { Keeps heap.old heap.new }
        ensures flag { OnErr result (self.new.spent ≡ self.old.spent) }
        ensures unspent { OnOk result (self.new.spent ≡ false) }
        ensures raised { OnOk result ((m : Module) (own : ℕ) (code : Code) (fs : List Frame) (b : InboxView)
            → IsAtStatus m own code heap.old self.old.process b (asking fs)
            → IsAtStatus m own code heap.new self.new.process b (goes (with_answer fs (Err (value_of reason.now))))) }
    {
        let word = heap.lower(setting.alloc, reason)?;
        self.process.raise(heap, word)?;
        self.spent = false;
        Ok(())
    }

    /// The answer to the action that the process asked for: a value, or the reason that the action raises.
    pub fn answer(
        &mut self,
        heap: &mut Heap,
        setting: &Setting,
        answer: Result<Term, Term>,
    ) -> Result<(), NoMemory>
        requires over { IsOver heap.old self.old.process }
        ensures over { IsOver heap.new self.new.process }
        ensures keeps { Keeps heap.old heap.new }
        ensures answered { OnOk result ((m : Module) (own : ℕ) (code : Code) (fs : List Frame) (b : InboxView)
            → IsAtStatus m own code heap.old self.old.process b (asking fs)
            → IsAtStatus m own code heap.new self.new.process b (goes (with_answer fs (answer_value answer)))) }
        ensures spent { OnErr result (self.new.spent ≡ true) }
        ensures refused { self.old.spent ≡ true → IsErr result }
        ensures unspent { OnOk result (self.new.spent ≡ false) }
    {
        if self.spent {
            return Err(NoMemory);
        }
        self.spent = true;
        match answer {
            Ok(value) => self.give(heap, setting, &value),
            Err(reason) => self.raise(heap, setting, &reason),
        }
    }
}
