//! The built-in functions of the language (Erlang Reference Manual, the module erlang).

ghost use Rattle.std.specs.Prelude.{◌≡◌, false, map, option_map, true};
ghost use Rattle.std.specs.Option.{option_map_or};
ghost use Rattle.pf_syntax.specs.Forms as forms;
ghost use Rattle.pf_syntax.specs.declared.forms.Form.TheVariants as form;

use crate::Builtin;
use crate::forms::{Form, may_be_there};

/// Each built-in function, by its name and its number of arguments.
const BUILTINS: [(&str, u64, Builtin); 27] = [
    ("self", 0, Builtin::SelfPid),
    ("hd", 1, Builtin::Hd),
    ("tl", 1, Builtin::Tl),
    ("length", 1, Builtin::Length),
    ("element", 2, Builtin::Element),
    ("tuple_size", 1, Builtin::TupleSize),
    ("is_integer", 1, Builtin::IsInteger),
    ("is_atom", 1, Builtin::IsAtom),
    ("is_tuple", 1, Builtin::IsTuple),
    ("is_list", 1, Builtin::IsList),
    ("is_pid", 1, Builtin::IsPid),
    ("is_reference", 1, Builtin::IsReference),
    ("exit", 1, Builtin::Exit),
    ("spawn", 3, Builtin::Spawn),
    ("spawn_link", 3, Builtin::SpawnLink),
    ("link", 1, Builtin::Link),
    ("unlink", 1, Builtin::Unlink),
    ("monitor", 2, Builtin::Monitor),
    ("demonitor", 1, Builtin::Demonitor),
    ("exit", 2, Builtin::ExitOther),
    ("process_flag", 2, Builtin::ProcessFlag),
    ("register", 2, Builtin::Register),
    ("unregister", 1, Builtin::Unregister),
    ("whereis", 1, Builtin::Whereis),
    ("make_ref", 0, Builtin::MakeRef),
    ("spawn_monitor", 3, Builtin::SpawnMonitor),
    ("demonitor", 2, Builtin::DemonitorWith),
];

/// The built-in function of this name that takes this number of arguments.
pub fn builtin_named(name: &[u8], arity: u64) -> Option<Builtin>
    ensures { result ≡ forms.builtin_named name.now arity }
{
    named_in(&BUILTINS, name, arity)
}

fn named_in(table: &[(&str, u64, Builtin)], name: &[u8], arity: u64) -> Option<Builtin>
    ensures { result ≡ forms.named_in name.now arity (map (λ b. forms.row b.0.now b.1 b.2) table.now) }
{
    for row in table {
        if row.0.as_bytes() == name && row.1 == arity {
            return Some(row.2);
        }
    }
    None
}

/// Whether a built-in function only looks at its arguments, or gives the own pid.
pub fn is_pure(builtin: Builtin) -> bool
    ensures { result ≡ forms.is_pure builtin }
{
    match builtin {
        Builtin::SelfPid
        | Builtin::Hd
        | Builtin::Tl
        | Builtin::Length
        | Builtin::Element
        | Builtin::TupleSize
        | Builtin::IsInteger
        | Builtin::IsAtom
        | Builtin::IsTuple
        | Builtin::IsList
        | Builtin::IsPid
        | Builtin::IsReference => true,
        Builtin::Exit
        | Builtin::Spawn
        | Builtin::SpawnLink
        | Builtin::Link
        | Builtin::Unlink
        | Builtin::Monitor
        | Builtin::Demonitor
        | Builtin::ExitOther
        | Builtin::ProcessFlag
        | Builtin::Register
        | Builtin::Unregister
        | Builtin::Whereis
        | Builtin::MakeRef
        | Builtin::SpawnMonitor
        | Builtin::DemonitorWith => false,
    }
}

/// Whether a guard may call a function of this name with this number of arguments: a built-in one, and pure.
pub fn guard_may_call(name: &[u8], arity: u64) -> bool
    ensures { result ≡ option_map_or (λ b. forms.may_be_there true (form.Calling b))
        (forms.builtin_named name.now arity) false }
{
    match builtin_named(name, arity) {
        Some(builtin) => may_be_there(true, Form::Calling(builtin)),
        None => false,
    }
}
