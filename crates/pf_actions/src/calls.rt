//! Calls of built-in functions.

ghost use Rattle.std.specs.Prelude.{◌≡◌, ℕ, List, IfOk, IfSome, None, option_map};
ghost use Rattle.std.specs.List.{All};
ghost use Rattle.pf_terms.specs.Value.{more, none};
ghost use Rattle.pf_heap.specs.Heap.{word_value, word_values, Cell, IsWordOf, Keeps};
ghost use Rattle.pf_model.specs.Contraction.{called};
ghost use Rattle.pf_actions.specs.Acts.{act_asked_by, act_over, change_over, exit_by, IsActOf, IsAskedOf};

use crate::act::{Act, Asked};
use pf_errors::NoMemory;
use pf_heap::{Heap, Word};
use pf_loop::computed;
use pf_model::Bond;
use pf_syntax::Builtin;
use pf_terms::AtomId;
use std::alloc::Global;

/// The action that a call with one argument asks for.
fn act_of_one(builtin: Builtin, word: Word) -> Option<Act>
    ensures act { (own : ℕ) (h : List Cell) → option_map (act_over h) result
        ≡ act_asked_by (called own builtin (more (word_value h word) none)) }
    ensures words { (h : List Cell) → IsWordOf h word → IfSome result (IsActOf h) }
{
    match builtin {
        Builtin::Link => Some(Act::Link(word)),
        Builtin::Unlink => Some(Act::Unlink(word)),
        Builtin::Demonitor => Some(Act::Demonitor {
            reference: word,
            options: Word::Nil,
        }),
        Builtin::Unregister => Some(Act::Unregister(word)),
        Builtin::Whereis => Some(Act::Whereis(word)),
        _ => None,
    }
}

/// The action that a call with two arguments asks for.
fn act_of_two(builtin: Builtin, first: Word, second: Word) -> Option<Act>
    ensures act { (own : ℕ) (h : List Cell) → option_map (act_over h) result
        ≡ act_asked_by (called own builtin (more (word_value h first) (more (word_value h second) none))) }
    ensures words { (h : List Cell) → IsWordOf h first → IsWordOf h second → IfSome result (IsActOf h) }
{
    match builtin {
        Builtin::Monitor => Some(Act::Monitor {
            kind: first,
            other: second,
        }),
        Builtin::ExitOther => Some(Act::ExitOther {
            other: first,
            reason: second,
        }),
        Builtin::ProcessFlag => Some(Act::SetFlag {
            flag: first,
            setting: second,
        }),
        Builtin::DemonitorWith => Some(Act::Demonitor {
            reference: first,
            options: second,
        }),
        Builtin::Register => Some(Act::Register {
            name: first,
            other: second,
        }),
        _ => None,
    }
}

/// The action that a call with three arguments asks for.
fn act_of_three(builtin: Builtin, home: Word, function: Word, arguments: Word) -> Option<Act>
    ensures act { (own : ℕ) (h : List Cell) → option_map (act_over h) result
        ≡ act_asked_by (called own builtin (more (word_value h home) (more (word_value h function)
        (more (word_value h arguments) none)))) }
    ensures words { (h : List Cell) → IsWordOf h home → IsWordOf h function → IsWordOf h arguments
        → IfSome result (IsActOf h) }
{
    let bond = match builtin {
        Builtin::Spawn => Bond::Unbound,
        Builtin::SpawnLink => Bond::Linking,
        Builtin::SpawnMonitor => Bond::Watching,
        _ => return None,
    };
    Some(Act::Spawn {
        bond,
        home,
        function,
        arguments,
    })
}

/// The action that a call asks for.
fn act_of_call(builtin: Builtin, words: &[Word]) -> Option<Act>
    ensures act { (own : ℕ) (h : List Cell) → option_map (act_over h) result
        ≡ act_asked_by (called own builtin (word_values h words.now)) }
    ensures words { (h : List Cell) → All (IsWordOf h) words.now → IfSome result (IsActOf h) }
{
    match words {
        [] => match builtin {
            Builtin::MakeRef => Some(Act::MakeRef),
            _ => None,
        },
        [word] => act_of_one(builtin, *word),
        [first, second] => act_of_two(builtin, *first, *second),
        [home, function, arguments] => act_of_three(builtin, *home, *function, *arguments),
        _ => None,
    }
}

/// The reason with which a call ends the process.
fn exit_of_call(builtin: Builtin, words: &[Word]) -> Option<Word>
    ensures exit { (own : ℕ) (h : List Cell) → option_map (word_value h) result
        ≡ exit_by (called own builtin (word_values h words.now)) }
    ensures word { (h : List Cell) → All (IsWordOf h) words.now → IfSome result (IsWordOf h) }
{
    match builtin {
        Builtin::Exit => match words {
            [word] => Some(*word),
            _ => None,
        },
        _ => None,
    }
}

/// A call that looks at its arguments alone.
fn called_alone(
    alloc: Global,
    heap: &mut Heap,
    own: u32,
    builtin: Builtin,
    words: &[Word],
) -> Result<Asked, NoMemory>
    requires words { All (IsWordOf heap.old) words.now }
    requires no_action { act_asked_by (called own builtin (word_values heap.old words.now)) ≡ None }
    requires no_exit { exit_by (called own builtin (word_values heap.old words.now)) ≡ None }
    ensures made { IfOk result (λ a. change_over heap.new a ≡ called own builtin (word_values heap.old words.now)) }
    ensures word { IfOk result (IsAskedOf heap.new) }
    ensures keeps { Keeps heap.old heap.new }
{
    match computed(alloc, heap, own, builtin, words)? {
        Ok(word) => Ok(Asked::Becomes(word)),
        Err(reason) => Ok(Asked::Raises(reason)),
    }
}

/// What a call of a built-in function does, in the process of this pid.
pub fn asked(
    alloc: Global,
    heap: &mut Heap,
    own: u32,
    builtin: Builtin,
    words: &[Word],
) -> Result<Asked, NoMemory>
    requires { All (IsWordOf heap.old) words.now }
    ensures made { IfOk result (λ a. change_over heap.new a ≡ called own builtin (word_values heap.old words.now)) }
    ensures word { IfOk result (IsAskedOf heap.new) }
    ensures keeps { Keeps heap.old heap.new }
{
    if let Some(act) = act_of_call(builtin, words) {
        return Ok(Asked::Acts(act));
    }
    if let Some(word) = exit_of_call(builtin, words) {
        return Ok(Asked::Exits(word));
    }
    called_alone(alloc, heap, own, builtin, words)
}
