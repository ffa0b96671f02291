//! A text that is read and printed again, one that is refused, and a writer that fails.

ghost use Rattle.std.specs.Prelude.{◌≡◌, ◌<◌};

use pf_errors::OrNoMemory;
use pf_streams::{Counted, FailAt};
use pf_terms::{AtomTable, Term};
use pf_termtext::{NoTerm, print, read};
use std::alloc::Global;
use std::marker::Brand;
use std::sync::ledger::{Blank, Ledger};
use std::test::Fail;

/// How many bytes of the text are written to a writer of which this call fails, or none if it is another text, and
/// whether printing succeeded.
fn print_by<L: Ledger>(
    alloc: Global,
    term: &Term,
    atoms: &AtomTable,
    failing: u64,
    blank: Blank,
) -> (Option<usize>, bool)
    requires name { blank.name ≡ L.name }
    requires parts { blank.parts ≡ L.parts }
    requires some { 0 < blank.parts }
{
    let out = FailAt::new(Vec::new(alloc), failing);
    let mut writer = Counted::<FailAt<Vec<u8>>, L>::new(out, blank);
    let is_well = print(alloc, term, atoms, &mut writer).is_ok();
    let Counted { inner, .. } = writer;
    let FailAt { inner: out, .. } = inner;
    (TEXT.starts_with(&out).then_some(out.len()), is_well)
}

fn printed(alloc: Global, term: &Term, atoms: &AtomTable, failing: u64) -> (Option<usize>, bool) {
    print_by::<Brand>(alloc, term, atoms, failing, Blank::new(1))
}

/// A text with a part of each kind that can be read.
const TEXT: &[u8] = b"{a,'it\\'s\\n\\ta\\\\b',[1,-2],-9223372036854775808,[],{}}";

#[test]
fn a_text_is_read_and_printed_again(rt: HostRuntime) -> Result<(), Fail> {
    let mut atoms = AtomTable::new(rt.alloc())?;
    atoms.enter(rt.alloc(), b"a")?;
    atoms.enter(rt.alloc(), b"it's\n\ta\\b")?;
    let term = read(rt.alloc(), TEXT, &atoms)?;
    assert!(rt; printed(rt.alloc(), &term, &atoms, 0) == (Some(TEXT.len()), true));
    assert!(rt; printed(rt.alloc(), &term, &atoms, 1) == (Some(0), false));
    Ok(())
}

#[test]
fn texts_of_no_value_are_refused(rt: HostRuntime) -> Result<(), Fail> {
    let atoms = AtomTable::new(rt.alloc())?;
    for text in ["[1, 2]", "<0>", "b"] {
        let is_refused = matches!(
            read(rt.alloc(), text.as_bytes(), &atoms),
            Err(OrNoMemory::Fault(NoTerm))
        );
        assert!(rt; is_refused);
    }
    Ok(())
}
