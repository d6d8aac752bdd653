//! How lines are played: the calls of a subject, each with its answer on a line.
use crate::host::Host;
use crate::lines::{Lines, next_name, next_number};
use crate::refusing::{end_refusing, refuse};
use hlc_core::Core;
use hlc_text::words::LineWords;
use std::fmt::Debug;
use std::thread::Threads;
use std::time::Instant;

/// Something whose calls lines can name.
pub(crate) trait Played {
    /// Makes the call of this name with the words after it, and prints the answer. Returns none where memory ran out,
    /// or where there is nothing yet that the call is for.
    fn call(&mut self, rt: &HostRuntime, name: &str, words: &mut LineWords<'_>) -> Option<()>;

    /// Returns the store, if it is one: threads may plan its vacuums.
    fn store(&mut self) -> Option<&mut Core> {
        None
    }
}

/// Plays the calls of something new, up to the line `end`.
pub(crate) fn play_new<P: Played + Drop, R: Threads + Sync>(
    host: &Host<'_, R>,
    lines: &mut Lines<'_>,
    mut played: P,
) {
    play(host, lines, &mut played);
}

/// Plays lines up to the line `end`.
///
/// Where a call runs out of memory, the answer ends with the line `no memory`, and the line `again` makes the call once
/// more; it does nothing after any other call. Other lines do not change what is made again.
pub(crate) fn play<P: Played, R: Threads + Sync>(
    host: &Host<'_, R>,
    lines: &mut Lines<'_>,
    played: &mut P,
) {
    let mut failed: Option<&[u8]> = None;
    for _ in 0..lines.most() {
        let Some(line) = lines.next() else {
            return;
        };
        let mut words = LineWords::of(line);
        match next_name(&mut words) {
            "end" => return,
            "refuse" => refuse(host.rt, next_number(&mut words)),
            "refused" => say_refused(host.rt),
            "again" => {
                if let Some(line) = failed {
                    failed = play_line(host, played, line);
                }
            }
            _ => failed = play_line(host, played, line).or(failed),
        }
    }
}

/// Makes the call of a line, and returns the line where memory ran out. After `time` it prints how long the call takes.
fn play_line<'a, P: Played, R: Threads + Sync>(
    host: &Host<'_, R>,
    played: &mut P,
    line: &'a [u8],
) -> Option<&'a [u8]> {
    let mut words = LineWords::of(line);
    let made = match next_name(&mut words) {
        "time" => play_timed(host.rt, played, &mut words),
        "vacuum_parallel" => vacuum(host, played.store()),
        name => played.call(host.rt, name, &mut words),
    };
    if made.is_some() {
        return None;
    }
    let _ = println!(host.rt; "no memory");
    Some(line)
}

/// Vacuums a store by threads.
fn vacuum<R: Threads + Sync>(host: &Host<'_, R>, core: Option<&mut Core>) -> Option<()> {
    say_made(
        host.rt,
        "vacuumed",
        core?.vacuum_parallel(host.threads).ok(),
    )
}

/// Makes the call of these words, and prints how many nanoseconds it takes. Returns none where the clock fails, too.
fn play_timed<P: Played>(
    rt: &HostRuntime,
    played: &mut P,
    words: &mut LineWords<'_>,
) -> Option<()> {
    let begin = Instant::now(rt).ok()?;
    let made = played.call(rt, next_name(words), words);
    let _ = say(rt, "nanos", &begin.elapsed(rt).ok()?.as_nanos());
    made
}

/// Prints whether a request was refused, and lets none be refused any more.
pub(crate) fn say_refused(rt: &HostRuntime) {
    let _ = say(rt, "refused", &end_refusing(rt));
}

/// Prints a line of this name and answer, without memory. Returns something, as a call that was made.
pub(crate) fn say<T: Debug>(rt: &HostRuntime, name: &str, answer: &T) -> Option<()> {
    let _ = println!(rt; "{name} {answer:?}");
    Some(())
}

/// Prints the answer of a call that was made as `say` does. Returns none where the call ran out of memory.
pub(crate) fn say_made<T: Debug + Drop>(
    rt: &HostRuntime,
    name: &str,
    answer: Option<T>,
) -> Option<()> {
    say(rt, name, &answer?)
}

/// Prints the answers of calls that were to take no memory as `say` does, and before them whether a request was
/// refused.
pub(crate) fn say_quiet<T: Debug>(rt: &HostRuntime, name: &str, answers: &T) -> Option<()> {
    say_refused(rt);
    say(rt, name, answers)
}
