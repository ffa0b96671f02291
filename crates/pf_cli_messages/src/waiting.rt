//! What is said of processes that still wait although their root returned.

use std::fmt;

/// How many processes still wait although the root returned, and by which seed where there are several.
#[derive(Clone, Copy)]
pub struct WaitingProcesses {
    pub processes: u32,
    pub seed: Option<u64>,
}

impl fmt::Display for WaitingProcesses {
    fn fmt<W: fmt::Write>(&self, f: &mut fmt::Formatter<W>) -> fmt::Result {
        if self.processes == 1 {
            f.write_str("1 process still waits")?;
        } else {
            write!(f, "{} processes still wait", self.processes)?;
        }
        f.write_str(" although the root returned")?;
        match self.seed {
            Some(seed) => write!(f, ": seed {seed}"),
            None => Ok(()),
        }
    }
}

/// Says so on standard error.
pub fn say_waiting(rt: &impl Eprint, waiting: WaitingProcesses) {
    let _printed = eprintln!(rt; "pulsefarm: {waiting}");
}
