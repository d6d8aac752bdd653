//! A program with an embedded store, to copy: two nodes write, their items come over their links, readers open
//! snapshots, and a vacuum leaves the fewest rows and prints the certificate that shows it.
#![tactic(auto)]

use crate::story::run;
use hlc::certificate::Watched;
use std::process::ExitCode;

mod feed;
mod reads;
mod stopped;
mod story;
mod vacuumed;

fn main(rt: HostRuntime) -> ExitCode {
    let mut writer = Watched::new(rt.stdout());
    match run(rt.alloc(), &mut writer) {
        Ok(_) if !writer.failed() => ExitCode::SUCCESS,
        _ => ExitCode::FAILURE,
    }
}
