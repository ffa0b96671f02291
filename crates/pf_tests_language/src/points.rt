//! Where a machine is in the code of a module that was read.

ghost use Rattle.std.specs.Prelude.{IfOk};
ghost use Rattle.pf_stepper.specs.Turns.{CanMove};

use pf_check::read;
use pf_nodes::Pool;
use pf_stepper::{Machine, MachineRoom, Move, PlainInbox, Point};
use pf_syntax::{FunctionId, Module, Node, NodeId, Operator};
use pf_terms::Term;
use smallvec::SmallVec;
use std::alloc::Global;
use std::sync::Arc;
use std::test::Fail;

/// The form of a node, as the language writes it.
fn form(code: &Module, id: NodeId) -> &'static str {
    match code.node(id) {
        Some(Node::Binary(Operator::Times, _, _)) => "*",
        Some(Node::Negate(_)) => "-",
        Some(Node::Cons(_, _)) => "|",
        Some(Node::Send(_, _)) => "!",
        Some(Node::AndAlso(_, _)) => "andalso",
        Some(Node::Match(_, _)) => "match",
        Some(Node::Bind(_, _, _)) => "bind",
        Some(Node::Case(_, _)) => "case",
        Some(Node::Call(_, _)) => "call",
        Some(Node::Receive(_)) => "receive",
        _ => "another",
    }
}

/// The form of the node where a machine is, with the number of the part that has its value.
fn place(machine: &Machine) -> (&'static str, Option<u32>) {
    match machine.point() {
        (code, Point::Within(id, part)) => (form(code, id), Some(part)),
        (code, Point::Before(id)) => (form(code, id), None),
        (_, Point::Calls(_)) => ("begins", None),
        (_, Point::Nowhere) => ("nowhere", None),
    }
}

/// A process at the call of the second function of a source, which takes no argument.
pub(crate) fn begun(alloc: Global, source: &str) -> Result<Machine, Fail>
    ensures { IfOk result (λ m. CanMove m.standing) }
{
    let whole = format!(in alloc; "-module(m). {source}")?;
    let module = Arc::new(alloc, read(alloc, whole.as_bytes())?)?;
    let args = SmallVec::new(alloc);
    Ok(Machine::new(0, module, FunctionId(1), args, MachineRoom::new(alloc))?)
}

/// Where a process that has the message 3 is after so many steps, or at the move that stops it before.
fn place_after(
    alloc: Global,
    source: &str,
    steps: u32,
) -> Result<(&'static str, Option<u32>), Fail> {
    let mut inbox = PlainInbox {
        messages: vec![in alloc; Term::Int(3)]?,
    };
    let mut machine = begun(alloc, source)?;
    let mut pool = Pool::new(alloc);
    machine.run(alloc, &mut inbox, &mut pool, steps, &mut Move::Pure)?;
    Ok(place(&machine))
}

/// A source, a number of steps, and the node and the part at which a process is then: each kind of frame, in the lane
/// and out of it; and where it begins, waits, took its message, asked for an action, and ended.
const STOPS: [(&str, u32, &str, Option<u32>); 20] = [
    ("g(N) -> N + 1. f() -> 1 * g(2).", 3, "*", Some(1)),
    ("g(N) -> N * (N + 1). f() -> g(2).", 3, "*", Some(1)),
    ("g(N) -> N + 1. f() -> g(2) * g(3).", 3, "*", Some(0)),
    ("g(N) -> N + 1. f() -> g(2) * g(3).", 5, "*", Some(1)),
    ("g(N) -> N + 1. f() -> -g(2).", 3, "-", Some(0)),
    ("g(N) -> N + 1. f() -> [g(2) | g(3)].", 3, "|", Some(0)),
    ("g(N) -> N + 1. f() -> [g(2) | g(3)].", 5, "|", Some(1)),
    ("g(N) -> N + 1. f() -> self() ! g(3).", 4, "!", Some(1)),
    ("g(P) -> P ! {P}. f() -> g(self()).", 4, "!", Some(1)),
    (
        "g() -> true. f() -> g() andalso g().",
        2,
        "andalso",
        Some(0),
    ),
    ("g(N) -> N + 1. f() -> X = g(2), X.", 3, "bind", Some(0)),
    ("g(N) -> N + 1. f() -> 3 = g(2).", 3, "match", Some(0)),
    (
        "g(N) -> N + 1. f() -> case g(2) of N -> N end.",
        3,
        "case",
        Some(0),
    ),
    (
        "g(N, M) -> N + M. f() -> g(g(1, 2), g(3, 4)).",
        5,
        "call",
        Some(1),
    ),
    ("g() -> 1. f() -> g().", 0, "begins", None),
    ("g() -> 1. f() -> receive 4 -> 1 end.", 9, "receive", None),
    (
        "g() -> receive 4 -> 1 end. f() -> 2 * g().",
        9,
        "receive",
        None,
    ),
    ("g() -> 1. f() -> 2 * receive 3 -> 1 end.", 9, "*", Some(1)),
    ("g() -> 1. f() -> self() ! g().", 9, "nowhere", None),
    ("g() -> 1. f() -> g().", 9, "nowhere", None),
];

#[test]
fn a_process_is_at_its_node(rt: HostRuntime) -> Result<(), Fail> {
    for (source, steps, form, part) in &STOPS {
        let found = place_after(rt.alloc(), source, *steps)?;
        assert!(rt; found == (*form, *part));
    }
    Ok(())
}
