//! Plays the calls of a store, and of what is below and around it, from standard input, and prints their answers, which
//! `tests/restarts` and `tests/sweep` judge. The run refuses requests for memory (`tests/refuse.c`).
#![tactic(auto)]

mod desk;
mod events;
mod fill;
mod host;
mod lines;
mod play;
mod quiet;
mod refusing;
mod registry;
mod saved;
mod settling;
mod spelled;
mod stored;
mod table;
mod texts;
mod workers;

use crate::host::Host;
use crate::lines::{Lines, next_name, next_number};
use crate::play::play_new;
use crate::stored::Stored;
use crate::table::Tabled;
use crate::texts::GivesOnce;
use hlc_snapshot::Registry;
use hlc_text::input::read_input;
use hlc_text::watched::Watched;
use hlc_text::words::LineWords;
use std::process::ExitCode;
use std::sync::Wait;
use std::thread::Threads;

fn main(rt: HostRuntime) -> ExitCode {
    let mut reader = Watched::new(rt.stdin());
    let Ok(text) = read_input(rt.alloc(), &mut reader) else {
        return ExitCode::from(2);
    };
    let host = Host {
        rt: &rt,
        threads: &rt,
    };
    play_parts(&host, text.as_slice());
    ExitCode::from(0)
}

/// Plays the parts of the input, each of which begins with a line that says what it is for.
fn play_parts<R: Wait + Threads + Sync>(host: &Host<'_, R>, text: &[u8]) {
    let mut lines = Lines::of(text);
    for _ in 0..lines.most() {
        let Some(line) = lines.next() else {
            return;
        };
        let mut words = LineWords::of(line);
        let name = next_name(&mut words);
        play_part(host, &mut lines, name, &mut words);
    }
}

/// Plays a part. The words end with the number of the request that is refused in a whole run.
fn play_part<R: Wait + Threads + Sync>(
    host: &Host<'_, R>,
    lines: &mut Lines<'_>,
    name: &str,
    words: &mut LineWords<'_>,
) {
    let rt = host.rt;
    match name {
        "store" => play_new(host, lines, Stored::of(None)),
        "table" => play_new(host, lines, Tabled::new(rt.alloc())),
        "registry" => play_new(host, lines, Registry::new(rt.alloc())),
        "guarded" => desk::play_desk(host, lines, false),
        "audited" => desk::play_desk(host, lines, true),
        "script" => texts::answer(rt, next_number(words), lines.up_to(b';'), true),
        "loaded" => texts::answer(rt, next_number(words), GivesOnce { returned: false }, true),
        "certificate" => texts::answer(rt, next_number(words), lines.up_to(b';'), false),
        "worker" => workers::answer(host, words),
        _ => quiet::answer(host, name),
    }
}
