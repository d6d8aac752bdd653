//! The program: `hlcstore run` answers a script from standard input on standard output, `hlcstore check` a certificate,
//! and `hlcstore storm` runs threads that write, read and vacuum one store concurrently.
#![tactic(auto)]

use crate::program::run_program;
use hlc_explain::{Kept, explain, explains};
use hlc_text::watched::Watched;
use std::env;
use std::io::IsTerminal;
use std::process::ExitCode;

mod program;

/// Returns the words after the program's name, or none where it runs out of memory.
fn words(rt: &HostRuntime) -> Option<Vec<String>> {
    let words = env::args(rt).ok()?;
    words.skip(1).collect(rt.alloc()).ok()
}

fn main(rt: HostRuntime) -> ExitCode {
    let words = words(&rt);
    let words = words.as_ref().map(|words| words.as_slice());
    let explains = explains(&rt, rt.stderr().is_terminal());
    let mut reader = Watched::new(Kept::new(rt.alloc(), rt.stdin(), explains));
    let mut writer = Watched::new(rt.stdout());
    let status = run_program(&rt, rt.alloc(), words, &mut reader, &mut writer);
    if explains {
        let mut errors = Watched::new(rt.stderr());
        explain(rt.alloc(), &mut errors, words, &reader.into_inner(), status);
    }
    ExitCode::from(status)
}
