//! What is on the lifelines: a mark for each event, each kind with a shape of its own.

ghost use Rattle.std.specs.Prelude.{◌≡◌, IsTrue};
ghost use Rattle.pf_model.specs.Properties as spec;
ghost use Rattle.pf_model.specs.Reports.{label_of};
ghost use Rattle.pf_chart.specs.Words.{is_phrase};

use pf_model::report::{Label, Suffix};
use pf_terms::{AtomId, Term, equal};

/// Whether a process ended, of its own or by an exit signal, with another reason than `normal`.
pub(crate) fn is_crash(label: &Label) -> bool
    ensures { result ≡ spec.is_crash (label_of label.now) }
{
    match label {
        Label::Ends(reason) | Label::Delivers(_, Suffix::EndingWith(reason)) => {
            !equal(reason, &Term::Atom(AtomId::NORMAL))
        }
        _ => false,
    }
}

/// What kind of event it marks, in a word, and its outline about the place where it is.
#[derive(Clone, Copy)]
pub(crate) struct EventMark {
    pub(crate) kind: &'static str,
    pub(crate) outline: &'static str,
}

impl EventMark {
    fn new(kind: &'static str, outline: &'static str) -> EventMark
        requires kind { IsTrue (is_phrase kind.now) }
        requires outline { IsTrue (is_phrase outline.now) }
        ensures kind { IsTrue (is_phrase result.kind.now) }
        ensures outline { IsTrue (is_phrase result.outline.now) }
    {
        EventMark { kind, outline }
    }
}

/// Two rings that hold each other.
const LINKED: &str = "M-6 0a4 4 0 1 0 8 0a4 4 0 1 0 -8 0M-2 0a4 4 0 1 0 8 0a4 4 0 1 0 -8 0";
/// Two rings apart.
const UNLINKED: &str = "M-8 0a3 3 0 1 0 6 0a3 3 0 1 0 -6 0M2 0a3 3 0 1 0 6 0a3 3 0 1 0 -6 0";

fn mark_of_delivery(suffix: &Suffix) -> EventMark
    ensures kind { IsTrue (is_phrase result.kind.now) }
    ensures outline { IsTrue (is_phrase result.outline.now) }
{
    match suffix {
        // A small ring.
        Suffix::TookEffect | Suffix::AsMessage => {
            EventMark::new("delivery", "M-2 0a2 2 0 1 0 4 0a2 2 0 1 0 -4 0z")
        }
        // A cross.
        Suffix::NoProcess | Suffix::Dropped => EventMark::new(
            "dropped",
            "M-6 -6l12 12M-6 6l12 -12",
        ),
        // A bar with a cross above it.
        Suffix::EndingWith(_) => EventMark::new(
            "ending",
            "M-9 -2h18v4h-18zM-5 -10l10 8M-5 -2l10 -8",
        ),
    }
}

/// The mark of an event.
pub(crate) fn mark_of(label: &Label) -> EventMark
    ensures kind { IsTrue (is_phrase result.kind.now) }
    ensures outline { IsTrue (is_phrase result.outline.now) }
{
    match label {
        // A dot.
        Label::Sends { .. } => EventMark::new("send", "M-3 0a3 3 0 1 0 6 0a3 3 0 1 0 -6 0z"),
        // A plus in a square.
        Label::Spawns { .. } => EventMark::new("spawn", "M-5 -5h10v10h-10zM-3 0h6M0 -3v6"),
        // A plus in an eye.
        Label::SpawnsWatched { .. } => {
            EventMark::new("watched", "M-9 0q9 -11 18 0q-9 11 -18 0zM-3 0h6M0 -3v6")
        }
        Label::Links(_) => EventMark::new("link", LINKED),
        Label::Unlinks(_) => EventMark::new("unlink", UNLINKED),
        // An eye, and one struck through.
        Label::Monitors { .. } => EventMark::new("monitor", "M-7 0q7 -9 14 0q-7 9 -14 0zM-1 0h2"),
        Label::Demonitors { .. } => EventMark::new(
            "demonitor",
            "M-7 0q7 -9 14 0q-7 9 -14 0zM-6 6l12 -12",
        ),
        // A diamond.
        Label::Exits { .. } => EventMark::new("exit", "M0 -6l6 6l-6 6l-6 -6z"),
        // A flag on its pole.
        Label::SetsFlag(_) => EventMark::new("flag", "M-4 7v-14l9 4l-9 4"),
        // A label with a corner.
        Label::Registers { .. } | Label::Unregisters(_) | Label::LooksUp(_) => {
            EventMark::new("name", "M-6 -4h8l4 4l-4 4h-8z")
        }
        // A hash.
        Label::MakesReference(_) => EventMark::new(
            "reference",
            "M-2 -6v12M2 -6v12M-6 -2h12M-6 2h12",
        ),
        // A square.
        Label::Takes(_) => EventMark::new("receive", "M-4 -4h8v8h-8z"),
        // An hourglass.
        Label::Waits => EventMark::new("wait", "M-4 -6h8l-8 12h8z"),
        // A triangle.
        Label::Raises(_) => EventMark::new("raise", "M0 -6l6 11h-12z"),
        // A bar.
        Label::Ends(_) => EventMark::new("end", "M-9 -2h18v4h-18z"),
        // Two strokes.
        Label::Cut => EventMark::new("cut", "M-7 3l8 -6M-1 3l8 -6"),
        Label::Delivers(_, suffix) => mark_of_delivery(suffix),
    }
}
