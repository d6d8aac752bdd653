//! A program with three stores of one key space, to copy: two machines write, each key goes to its store, and readers
//! open snapshots of all stores at their cut.
#![tactic(auto)]

use crate::story::run;
use hlc::certificate::Watched;
use std::process::ExitCode;

mod feed;
mod reads;
mod stopped;
mod story;
mod towns;

fn main(rt: HostRuntime) -> ExitCode {
    let mut writer = Watched::new(rt.stdout());
    match run(rt.alloc(), &mut writer) {
        Ok(()) if !writer.failed() => ExitCode::SUCCESS,
        _ => ExitCode::FAILURE,
    }
}
