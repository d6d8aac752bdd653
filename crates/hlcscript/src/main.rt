//! The program for scripts and certificates alone: `hlcscript run` and `hlcscript check` do what `hlcstore` does for
//! these words, in one thread. It is proved sooner, since it uses no crate that threads need.
#![tactic(auto)]

use hlc_explain::{Kept, explain, explains};
use hlc_script::answer_asked;
use hlc_text::watched::Watched;
use hlc_words::words_asked;
use std::env;
use std::io::IsTerminal;
use std::process::ExitCode;

/// Returns the words after the program's name, or none where it runs out of memory.
fn words(rt: &HostRuntime) -> Option<Vec<String>> {
    let words = env::args(rt).ok()?;
    words.skip(1).collect(rt.alloc()).ok()
}

fn main(rt: HostRuntime) -> ExitCode {
    let words = words(&rt);
    let words = words.as_ref().map(|words| words.as_slice());
    let explains = explains(&rt, rt.stderr().is_terminal());
    let mut reader = Watched::new(Kept::new(rt.alloc(), rt.stdin(), explains));
    let mut writer = Watched::new(rt.stdout());
    let asked = words_asked(words);
    let status = answer_asked(rt.alloc(), asked, &mut reader, &mut writer);
    if explains {
        let mut errors = Watched::new(rt.stderr());
        explain(rt.alloc(), &mut errors, words, &reader.into_inner(), status);
    }
    ExitCode::from(status)
}
