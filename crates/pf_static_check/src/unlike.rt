//! The heads of a function's clauses, each against the first.

ghost use Rattle.std.specs.Prelude.{◌≡◌, flat_map, map};
ghost use Rattle.pf_syntax.specs.SyntaxTree.{NodeTable};
ghost use Rattle.pf_syntax.specs.SyntaxTreeOver.{head_over};
ghost use Rattle.pf_rules.specs.Static.{is_alike as heads_are_alike, unlike_fault, unlike_faults};
ghost use Rattle.pf_static_check.specs.Earliest.{earliest, earliest_kept};

use crate::first::FirstFault;
use pf_errors::Code;
use pf_syntax::{Head, SyntaxTree};

/// Notes each clause whose name or number of arguments isn't that of its function's first.
pub(crate) fn note_unlike(syntax: &SyntaxTree, first: &mut FirstFault)
    ensures { earliest_kept first.new ≡ earliest (earliest_kept first.old)
        (flat_map unlike_faults syntax.now.functions) }
{
    for function in syntax.functions() {
        note_unlike_heads(&function.heads, first);
    }
}

/// Notes those of one function.
fn note_unlike_heads(heads: &[Head], first: &mut FirstFault)
    ensures { (b : NodeTable) → earliest_kept first.new ≡ earliest (earliest_kept first.old)
        (unlike_faults (map (head_over b) heads.now)) }
{
    match heads {
        [] => {}
        [head, others @ ..] => note_unlike_to(head, others, first),
    }
}

/// Notes those that differ from this head.
fn note_unlike_to(head: &Head, others: &[Head], first: &mut FirstFault)
    ensures { (b : NodeTable) → earliest_kept first.new ≡ earliest (earliest_kept first.old)
        (flat_map (unlike_fault (head_over b head.now)) (map (head_over b) others.now)) }
{
    for other in others {
        if !is_alike(head, other) {
            first.note(Code::HeadsDiffer, other.ident.offset);
        }
    }
}

/// Whether two heads have the same name and number of arguments.
fn is_alike(head: &Head, other: &Head) -> bool
    ensures { (b : NodeTable) → result ≡ heads_are_alike (head_over b head.now) (head_over b other.now) }
{
    other.ident.name == head.ident.name && other.parameters.len() == head.parameters.len()
}
