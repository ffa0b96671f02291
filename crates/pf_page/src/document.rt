//! The whole page.

ghost use Rattle.std.specs.Prelude.{◌≡◌, ◌++◌, IfErr, IfOk, OnErr, OnOk, flat_map};
ghost use Rattle.std.specs.Io.KnownBytes.{Appends};
ghost use Rattle.pf_terms.specs.Atoms.{name_of};
ghost use Rattle.pf_streams.specs.Streams.{LeavesFront};
ghost use Rattle.pf_model.specs.Reports.{view_of_outcome};
ghost use Rattle.pf_model.specs.Text.{outcome_text, verdict_text};
ghost use Rattle.pf_page.specs.Pages.{data_text, outcome_words, heads_text, name_item, nearest_text, page_text};
ghost use Rattle.pf_page.specs.Pages.{run_text, source_text};

use crate::events::{put_attribute, put_element, put_events};
use crate::page::{Page, PageRun};
use crate::script::TAIL;
use crate::style::HEAD;
use pf_errors::{NoMemory, OrNoMemory};
use pf_model::report::Outcome;
use pf_streams::{Counted, StreamFault};
use pf_svg::put_escaped;
use pf_terms::AtomTable;
use pf_text::put;
use pf_trace::put_outcome;
use std::alloc::Global;
use std::io::Write;
use std::sync::ledger::Ledger;

/// The outcome as it prints, without its line end.
fn text_of_outcome(alloc: Global, atoms: &AtomTable, outcome: &Outcome) -> Result<Vec<u8>, NoMemory>
    ensures { IfOk result (λ text. text.items ≡ outcome_text (name_of atoms.now) (view_of_outcome outcome.now)) }
{
    let mut text = Vec::new(alloc);
    put_outcome(&mut text, atoms, outcome)?;
    text.pop();
    Ok(text)
}

fn verdict_text(verdict: Option<bool>) -> &'static [u8]
    ensures { result.now ≡ verdict_text verdict }
{
    match verdict {
        Some(true) => b"property holds",
        Some(false) => b"property fails",
        None => b"no verdict",
    }
}

/// Puts how a run ended.
fn put_outcome_words(
    alloc: Global,
    out: &mut Vec<u8>,
    atoms: &AtomTable,
    run: &PageRun,
) -> Result<(), NoMemory>
    ensures { OnOk result (out.new.items ≡ out.old.items ++ outcome_words (name_of atoms.now) run.now) }
{
    let outcome = text_of_outcome(alloc, atoms, run.outcome)?;
    put_element(out, b"b", &outcome)?;
    put(out, b"\n")?;
    put_element(out, b"i", verdict_text(run.verdict))?;
    put(out, b"\n")
}

/// Puts a run.
fn put_run(
    alloc: Global,
    out: &mut Vec<u8>,
    atoms: &AtomTable,
    run: &PageRun,
) -> Result<(), NoMemory>
    ensures { OnOk result (out.new.items ≡ out.old.items ++ run_text (name_of atoms.now) run.now) }
{
    put(out, b"<section")?;
    put_attribute(out, b"data-failing", run.failing)?;
    put(out, b">\n")?;
    put_outcome_words(alloc, out, atoms, run)?;
    put(out, b"<ol>\n")?;
    put_events(alloc, out, atoms, run.events)?;
    put(out, b"</ol>\n</section>\n")
}

/// Puts the nearest run that holds, if there is one.
fn put_nearest(
    alloc: Global,
    out: &mut Vec<u8>,
    atoms: &AtomTable,
    nearest: Option<PageRun>,
) -> Result<(), NoMemory>
    ensures { OnOk result (out.new.items ≡ out.old.items ++ nearest_text (name_of atoms.now) nearest.entry) }
{
    match nearest {
        Some(run) => put_run(alloc, out, atoms, &run),
        None => Ok(()),
    }
}

/// Puts the function of a process.
fn put_name(out: &mut Vec<u8>, name: &[u8]) -> Result<(), NoMemory>
    ensures { OnOk result (out.new.items ≡ out.old.items ++ name_item name.now) }
{
    put_element(out, b"li", name)?;
    put(out, b"\n")
}

/// Puts the functions of processes.
fn put_names(out: &mut Vec<u8>, names: &[Vec<u8>]) -> Result<(), NoMemory>
    ensures { OnOk result (out.new.items ≡ out.old.items ++ flat_map (λ n. name_item n.items) names.now) }
{
    for name in names {
        put_name(out, name)?;
    }
    Ok(())
}

/// Puts the root and the functions of processes.
fn put_heads(out: &mut Vec<u8>, page: &Page) -> Result<(), NoMemory>
    ensures { OnOk result (out.new.items ≡ out.old.items ++ heads_text page.now) }
{
    put_element(out, b"h1", page.root)?;
    put(out, b"\n<ol id=\"names\">\n")?;
    put_names(out, page.names)?;
    put(out, b"</ol>\n")
}

/// Puts the module's text.
fn put_source(out: &mut Vec<u8>, source: &[u8]) -> Result<(), NoMemory>
    ensures { OnOk result (out.new.items ≡ out.old.items ++ source_text source.now) }
{
    put(out, b"<pre id=\"source\">\n")?;
    put_escaped(out, source)?;
    put(out, b"</pre>\n")
}

/// Puts the data of a page.
fn put_data(alloc: Global, out: &mut Vec<u8>, page: &Page) -> Result<(), NoMemory>
    ensures { OnOk result (out.new.items ≡ out.old.items ++ data_text page.now) }
{
    put_heads(out, page)?;
    put_run(alloc, out, page.atoms, &page.run)?;
    put_nearest(alloc, out, page.atoms, page.nearest)?;
    put_source(out, page.source)
}

/// Puts a page, whatever there is of it where memory runs out.
fn put_whole(alloc: Global, out: &mut Vec<u8>, page: &Page) -> Result<(), NoMemory>
    ensures { OnOk result (out.new.items ≡ out.old.items ++ page_text page.now) }
{
    put(out, HEAD.as_bytes())?;
    put_data(alloc, out, page)?;
    put(out, TAIL.as_bytes())
}

/// The text of a page.
fn text_of_page(alloc: Global, page: &Page) -> Result<Vec<u8>, NoMemory>
    ensures { IfOk result (λ text. text.items ≡ page_text page.now) }
{
    let mut text = Vec::new(alloc);
    put_whole(alloc, &mut text, page)?;
    Ok(text)
}

/// Adds a page to what was there: all that it needs is in it. If memory runs out, nothing is added.
pub fn put_page(alloc: Global, out: &mut Vec<u8>, page: &Page) -> Result<(), NoMemory>
    ensures put { OnOk result (out.new.items ≡ out.old.items ++ page_text page.now) }
    ensures err { OnErr result (out.new.items ≡ out.old.items) }
{
    let text = text_of_page(alloc, page)?;
    put(out, &text)
}

/// Writes a page. If memory runs out, nothing is written; where a write fails, a beginning of the page is.
pub fn print_page<W: Write, M: Ledger>(
    alloc: Global,
    page: &Page,
    writer: &mut Counted<W, M>,
) -> Result<(), OrNoMemory<StreamFault>>
    ensures written { OnOk result (Appends (W.contents writer.old.inner) (W.contents writer.new.inner)
        (page_text page.now)) }
    ensures kept { OnOk result (writer.new.failures.total ≡ writer.old.failures.total) }
    ensures fault { IfErr result (λ e. LeavesFront e (page_text page.now)
        (W.contents writer.old.inner) (W.contents writer.new.inner)
        writer.old.failures.total writer.new.failures.total) }
{
    let text = text_of_page(alloc, page)?;
    writer.put(&text)?;
    Ok(())
}
