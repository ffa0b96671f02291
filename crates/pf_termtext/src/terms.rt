//! The text of a term.

ghost use Rattle.std.specs.Prelude.{◌≡◌, ◌++◌, OnOk};
ghost use Rattle.pf_terms.specs.Term.{elements_of, value_of, values_of};
ghost use Rattle.pf_terms.specs.Atoms.{name_of};
ghost use Rattle.pf_terms.specs.Value.{list, tuple};
ghost use Rattle.pf_model.specs.Text.{reference_text};
ghost use Rattle.pf_model.specs.TermText.{pid_text, rest_text, value_text};

use crate::atom_names::put_atom;
use pf_errors::NoMemory;
use pf_terms::{AtomTable, Elements, List, Term};
use pf_text::{put, put_number, put_signed};

/// Puts a pid, as `<0>`.
pub fn put_pid(out: &mut Vec<u8>, pid: u32) -> Result<(), NoMemory>
    ensures { OnOk result (out.new.items ≡ out.old.items ++ pid_text pid) }
{
    if pid < 10 {
        return put(out, &[b'<', b'0' + pid as u8, b'>']);
    }
    put(out, b"<")?;
    put_number(out, u64::from(pid))?;
    put(out, b">")
}

/// Puts a reference, as `#Ref<0>`.
pub fn put_reference(out: &mut Vec<u8>, reference: u64) -> Result<(), NoMemory>
    ensures { OnOk result (out.new.items ≡ out.old.items ++ reference_text reference) }
{
    put(out, b"#Ref<")?;
    put_number(out, reference)?;
    put(out, b">")
}

/// Puts a term without blanks.
#[cycle(terms)]
pub fn put_term(out: &mut Vec<u8>, atoms: &AtomTable, term: &Term) -> Result<(), NoMemory>
    ensures { OnOk result (out.new.items ≡ out.old.items ++ value_text (name_of atoms.now) (value_of term.now)) }
{
    match term {
        Term::Int(number) => put_signed(out, *number),
        Term::Atom(atom) => put_atom(out, atoms.name(*atom)),
        Term::Ref(reference) => put_reference(out, *reference),
        Term::Pid(pid) => put_pid(out, *pid),
        Term::Tuple(elements) => put_tuple(out, atoms, elements),
        Term::List(list) => put_list(out, atoms, list),
    }
}

#[cycle(terms)]
fn put_tuple(out: &mut Vec<u8>, atoms: &AtomTable, elements: &Elements) -> Result<(), NoMemory>
    ensures { OnOk result (out.new.items ≡ out.old.items ++ value_text (name_of atoms.now) (tuple elements.now)) }
{
    put(out, b"{")?;
    if let Some((first, others)) = elements.as_slice().split_first() {
        put_term(out, atoms, first)?;
        put_others(out, atoms, others)?;
    }
    put(out, b"}")
}

/// Puts elements after the first, each after a comma.
#[cycle(terms)]
fn put_others(out: &mut Vec<u8>, atoms: &AtomTable, others: &[Term]) -> Result<(), NoMemory>
    ensures { OnOk result (out.new.items ≡ out.old.items ++ rest_text (name_of atoms.now) (values_of others.now)) }
{
    let mut rest = others;
    while let Some((first, after)) = rest.split_first() {
        put(out, b",")?;
        put_term(out, atoms, first)?;
        rest = after;
    }
    Ok(())
}

#[cycle(terms)]
fn put_list(out: &mut Vec<u8>, atoms: &AtomTable, elements: &List) -> Result<(), NoMemory>
    ensures { OnOk result (out.new.items ≡ out.old.items ++ value_text (name_of atoms.now)
        (list (elements_of elements.now))) }
{
    put(out, b"[")?;
    if let Some((first, others)) = elements.split() {
        put_term(out, atoms, first)?;
        put_tail(out, atoms, others)?;
    }
    put(out, b"]")
}

/// Puts the elements of a tail, each after a comma.
#[cycle(terms)]
fn put_tail(out: &mut Vec<u8>, atoms: &AtomTable, tail: &List) -> Result<(), NoMemory>
    ensures { OnOk result (out.new.items ≡ out.old.items ++ rest_text (name_of atoms.now) (elements_of tail.now)) }
{
    let mut rest = tail;
    while let Some((first, after)) = rest.split() {
        put(out, b",")?;
        put_term(out, atoms, first)?;
        rest = after;
    }
    Ok(())
}
