//! What is said of the processes of a run.

use crate::explain_run;
use crate::messages::say;
use pf_check::ReadSource;
use pf_cli::{Args, CliCommand};
use std::alloc::AllocGlobal;

/// Says on standard error, a line for each, the status of the processes of the run that was asked for, if that was
/// asked for too. Where memory runs out for it nothing is said.
pub fn say_processes(rt: &(impl Eprint + AllocGlobal), asked: &CliCommand, source: &ReadSource) {
    let (Args::Run(args), true) = (&asked.args, asked.explain) else {
        return;
    };
    let Ok(text) = explain_run(rt.alloc(), args, source) else {
        return;
    };
    let Ok(text) = String::from_utf8_lossy(rt.alloc(), &text) else {
        return;
    };
    for line in text.lines() {
        say(rt, line);
    }
}
