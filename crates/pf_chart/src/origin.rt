//! In whose call a process began, where that is known.

ghost use Rattle.std.specs.Prelude.{◌≡◌};
ghost use Rattle.pf_chart.specs.Chart.{name_of_start, origin_labels};
ghost use Rattle.pf_chart.specs.Origins.{labels_of_origin, process_of, texts};

use crate::columns::Column;

/// The names of the functions in whose calls the processes began.
#[derive(Clone, Copy)]
pub(crate) struct ProcessNames<'a> {
    pub(crate) root: &'a [u8],
    /// By pid; empty, or not there, where it isn't known.
    pub(crate) known: &'a [Vec<u8>],
}

/// How a process began.
#[derive(Clone, Copy)]
pub(crate) enum Origin<'a> {
    /// The root, in the call of this function.
    Root(&'a [u8]),
    /// In the call of this function, spawned by this process in this event.
    Named(&'a [u8], u32, usize),
    /// The same, where the function isn't known.
    Unnamed(u32, usize),
}

impl<'a> ProcessNames<'a> {
    /// The name of the function in whose call a process began; empty where it isn't known.
    fn of_start(self, pid: u32) -> &'a [u8]
        ensures { result.now ≡ name_of_start (texts self.entry.known.now) pid }
    {
        match self.known.get(pid as usize) {
            Some(name) => name.as_slice(),
            None => b"",
        }
    }

    /// How the process of a column began.
    pub(crate) fn origin(self, column: &Column) -> Origin<'a>
        ensures { labels_of_origin result
            ≡ origin_labels self.entry.root.now (texts self.entry.known.now) (process_of column.now) }
    {
        let name = self.of_start(column.pid);
        match column.spawned {
            None if name.is_empty() => Origin::Root(self.root),
            None => Origin::Root(name),
            Some((parent, event)) if name.is_empty() => Origin::Unnamed(parent, event),
            Some((parent, event)) => Origin::Named(name, parent, event),
        }
    }
}
