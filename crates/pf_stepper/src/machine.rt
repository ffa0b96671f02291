//! A machine: one process that runs the functions of a module.

ghost use Rattle.std.specs.Prelude.{◌≡◌, IfOk, IsErr, OnErr, OnOk};
ghost use Rattle.pf_terms.specs.Term.{values_of};
ghost use Rattle.pf_stepper.specs.MachineView.{at_call, spent, standing_so};
ghost use Rattle.pf_stepper.specs.Points.{IsPointAt};
ghost use Rattle.pf_stepper.specs.Readiness.{IsReadyAhead};
ghost use Rattle.pf_stepper.specs.Settled.{AdvanceIsSound, IsReadyAfter, IsReadyToSettle, Settled};
ghost use Rattle.pf_stepper.specs.Turns.{AnsweredMachine, CanAnswer, CanMove, MovedFrom, SimulatesTurn};

use crate::act::Act;
use crate::advance::Advance;
use crate::frame::{Callee, Focus};
use crate::inbox::Inbox;
use crate::lookups::clauses;
use crate::point::Point;
use crate::room::MachineRoom;
use crate::stack::{Stack, put};
use pf_errors::NoMemory;
use pf_nodes::Pool;
use pf_syntax::{FunctionId, Module, NodeId, Operand};
use pf_terms::Term;
use smallvec::SmallVec;
use std::alloc::Global;
use std::marker::Model;
use std::mem;
use std::sync::Arc;

/// The status of a machine: its process goes on, waits for the answer to an action, or has ended; or memory ran out.
#[derive(Drop)]
pub(crate) enum MachineStatus {
    Goes(Focus),
    Asking,
    Over,
    Spent,
}

/// A process that runs the functions of a module. No step copies code, an environment or a value whole.
#[derive(Drop)]
pub struct Machine {
    own: u32,
    module: Arc<Module>,
    stack: Stack,
    standing: MachineStatus,
}

impl Model for Machine {
    ghost use Rattle.pf_stepper.specs.MachineView.{MachineView};
    ghost use Rattle.pf_stepper.specs.Encoding.{coded_machine_view};

    ghost Value = { MachineView };

    ghost coded = { coded_machine_view };

    ghost use Rattle.pf_stepper.specs.Inner.{IsValid, view_of_machine};

    ghost view = { view_of_machine };

    ghost invariant = { IsValid };
}

/// What a process did: it went on by itself; it asks for an action and waits for its answer; it took this message; it
/// waits at a `receive` that no message fits; or it ended, with the value that it returned or with a reason.
#[derive(Drop)]
pub enum Move {
    Pure,
    Action(Act),
    Take(Term),
    Wait,
    End(Result<Term, Term>),
}

/// What a `receive` does with a mailbox: the machine's status then, and its move, are written in place.
fn receive<I: Inbox>(
    alloc: Global,
    inbox: &mut I,
    pool: &mut Pool<Term>,
    code: &Module,
    own: u32,
    stack: &mut Stack,
    id: NodeId,
    standing: &mut MachineStatus,
    did: &mut Move,
) -> Result<(), NoMemory>
    requires sound { AdvanceIsSound stack.old (Advance.Awaits id) }
    requires ready { IsReadyToSettle (I.IsReady inbox.old) code.now own stack.old (Advance.Awaits id) }
    ensures settled { OnOk result (Settled code.now own stack.old (Advance.Awaits id) (I.messages inbox.old)
        stack.new standing.new did.new (I.messages inbox.new)) }
    ensures ready { OnOk result (IsReadyAfter (I.IsReady inbox.new) code.now own stack.new standing.new) }
    ensures refused { OnErr result ((standing.new ≡ standing.old)
        × (I.messages inbox.new ≡ I.messages inbox.old)) }
{
    let clauses = clauses(code, id);
    let mut message = Term::Int(0);
    let picked = inbox.select(
        alloc,
        pool,
        code,
        clauses,
        &mut stack.env,
        stack.base,
        own,
        &mut message,
    )?;
    match picked {
        Some(body) => {
            put(standing, MachineStatus::Goes(Focus::Eval(body)));
            put(did, Move::Take(message));
        }
        None => {
            put(
                standing,
                MachineStatus::Goes(Focus::Eval(Operand::Node(id))),
            );
            put(did, Move::Wait);
        }
    }
    Ok(())
}

/// The status of a machine after what its stack did, and its move, written in place.
fn settle<I: Inbox>(
    alloc: Global,
    inbox: &mut I,
    pool: &mut Pool<Term>,
    code: &Module,
    own: u32,
    stack: &mut Stack,
    advance: Advance,
    standing: &mut MachineStatus,
    did: &mut Move,
) -> Result<(), NoMemory>
    requires sound { AdvanceIsSound stack.old advance }
    requires ready { IsReadyToSettle (I.IsReady inbox.old) code.now own stack.old advance }
    ensures settled { OnOk result (Settled code.now own stack.old advance (I.messages inbox.old)
        stack.new standing.new did.new (I.messages inbox.new)) }
    ensures ready { OnOk result (IsReadyAfter (I.IsReady inbox.new) code.now own stack.new standing.new) }
    ensures refused { OnErr result ((standing.new ≡ standing.old)
        × (I.messages inbox.new ≡ I.messages inbox.old)) }
{
    match advance {
        Advance::Changed(next) => {
            put(standing, MachineStatus::Goes(next));
            put(did, Move::Pure);
        }
        Advance::Sends(message) => {
            let to = stack.operands.pop().unwrap();
            put(standing, MachineStatus::Asking);
            put(did, Move::Action(Act::Send { to, message }));
        }
        Advance::Asks(act) => {
            put(standing, MachineStatus::Asking);
            put(did, Move::Action(Box::into_inner(act)));
        }
        Advance::Awaits(id) => {
            return receive(alloc, inbox, pool, code, own, stack, id, standing, did);
        }
        Advance::Returned(value) => {
            put(standing, MachineStatus::Over);
            put(did, Move::End(Ok(value)));
        }
        Advance::Ended(reason) => {
            put(standing, MachineStatus::Over);
            put(did, Move::End(Err(reason)));
        }
    }
    Ok(())
}

impl Machine {
    /// A process of this pid, at the call of a function with these arguments. It is the same in whatever room it
    /// begins.
    pub fn new(
        own: u32,
        module: Arc<Module>,
        function: FunctionId,
        args: SmallVec<Term, 4>,
        room: MachineRoom,
    ) -> Result<Machine, NoMemory>
        ensures { IfOk result (λ m.
            m ≡ at_call own «module».value function.0 (values_of args.items)) }
    {
        let count = args.len();
        let stack = room.stacks(args)?;
        Ok(Machine {
            own,
            module,
            stack,
            standing: MachineStatus::Goes(Focus::Enter(Callee::Function(function), count)),
        })
    }

    /// The room that the machine had, for another one that begins; none where it is more than is kept.
    pub fn into_room(self) -> Option<MachineRoom> {
        let Machine {
            own: _,
            module: _,
            stack,
            standing: _,
        } = self;
        MachineRoom::of(stack)
    }

    /// The pid of the process.
    pub fn own(&self) -> u32
        ensures { result ≡ self.now.own }
    {
        self.own
    }

    /// Where the process is, and its module, in whose code that is.
    pub fn point(&self) -> (&Module, Point)
        ensures own { result.0.now ≡ self.now.checked }
        ensures point { IsPointAt self.now.checked.tables self.now.standing result.1 }
    {
        let point = match &self.standing {
            MachineStatus::Goes(focus) => self.stack.point(focus),
            MachineStatus::Asking | MachineStatus::Over | MachineStatus::Spent => Point::Nowhere,
        };
        (&self.module, point)
    }

    /// All steps up to and with the next action, message, wait or end, but no more than `left`: how many they were, and
    /// in `did` the move that ended them. The inbox is ready for the `receive` at which the machine is, and else for
    /// whatever comes; and it is so again afterwards. The node of a message that is taken goes to the pool. Once memory
    /// ran out, each call answers so.
    pub fn run<I: Inbox>(
        &mut self,
        alloc: Global,
        inbox: &mut I,
        pool: &mut Pool<Term>,
        left: u32,
        did: &mut Move,
    ) -> Result<u32, NoMemory>
        requires is_there { CanMove self.old.standing }
        requires ready { IsReadyAhead (I.IsReady inbox.old) self.old }
        ensures ran { IfOk result (λ used.
            SimulatesTurn left self.old (I.messages inbox.old) did.new self.new used (I.messages inbox.new)) }
        ensures spent { OnErr result ((self.new ≡ standing_so self.old spent)
            × (I.messages inbox.new ≡ I.messages inbox.old)) }
        ensures ready { IsReadyAhead (I.IsReady inbox.new) self.new }
        ensures refused { self.old.standing ≡ spent → IsErr result }
    {
        let focus = match mem::replace(&mut self.standing, MachineStatus::Spent) {
            MachineStatus::Goes(focus) => focus,
            _ => return Err(NoMemory),
        };
        let mut advance = Advance::Awaits(NodeId(0));
        let used = self
            .stack
            .run(alloc, &self.module, self.own, focus, left, &mut advance)?;
        settle(
            alloc,
            inbox,
            pool,
            &self.module,
            self.own,
            &mut self.stack,
            advance,
            &mut self.standing,
            did,
        )?;
        Ok(used)
    }

    /// One step: a contraction, an action that is asked for, a message that is taken, a wait, or the end. The inbox is
    /// ready as for `run`.
    pub fn advance<I: Inbox>(
        &mut self,
        alloc: Global,
        inbox: &mut I,
        pool: &mut Pool<Term>,
    ) -> Result<Move, NoMemory>
        requires is_there { CanMove self.old.standing }
        requires ready { IsReadyAhead (I.IsReady inbox.old) self.old }
        ensures moved { IfOk result (λ m.
            MovedFrom self.old (I.messages inbox.old) m self.new (I.messages inbox.new)) }
        ensures spent { OnErr result ((self.new ≡ standing_so self.old spent)
            × (I.messages inbox.new ≡ I.messages inbox.old)) }
        ensures ready { IsReadyAhead (I.IsReady inbox.new) self.new }
        ensures refused { self.old.standing ≡ spent → IsErr result }
    {
        let mut did = Move::Pure;
        self.run(alloc, inbox, pool, 1, &mut did)?;
        Ok(did)
    }

    /// The answer to the action that the process asked for: a value, or the reason that the action raises.
    pub fn answer(&mut self, answer: Result<Term, Term>)
        requires { CanAnswer self.old.standing }
        ensures { AnsweredMachine self.old answer self.new }
    {
        self.standing = match answer {
            Ok(value) => MachineStatus::Goes(Focus::Value(value)),
            Err(reason) => MachineStatus::Goes(Focus::Raised(reason)),
        };
    }
}

/// What a scheduler will need: machines, what they did, and their rooms may go to another thread.
fn crosses_threads(
    machine: &Machine,
    machines: &Vec<Machine>,
    did: &Vec<Move>,
    rooms: &Vec<MachineRoom>,
) {
    needs_send(machine);
    needs_send(machines);
    needs_send(did);
    needs_send(rooms);
}

fn needs_send<T: Send>(_value: &T) {}
