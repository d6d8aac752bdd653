//! A whole run: reads the bytes of a script, and writes the bytes of its replies.
ghost use Rattle.std.specs.Prelude.{◌≡◌, ◌≢◌, ◌≤◌, ◌↔◌, ◌∷◌, [], ℕ, List, MatchOption, false, true, length};
ghost use Rattle.hlc_text.specs.{declared.input.TheConstants.INPUT_LIMIT, Watched.has_failed, Printing.Prints};
ghost use Rattle.hlc_text.specs.{Text.Reads, Text.printed, Lines.lines_of, Lines.bad_line};
ghost use Rattle.hlc_world_event.specs.Events.{Event as AnEvent};
ghost use Rattle.hlc_world.specs.{declared.reply.Reply.Reply as AReply, WorldView.Represents};
ghost use Rattle.hlc_line.specs.Line.{header_line, header_words, HasHeader};
ghost use Rattle.hlc_script.specs.{Reply.reply_text, Run.Answers, Run.AnswersLine, Run.MayWrite, Run.InputWasLoaded};
ghost use Rattle.hlc_script.specs.{Run.ReadsScript, Run.RunsScript, Run.status_of};

use crate::reply::{put_reply, put_value_line};
use hlc_line::{owned_event, read_line};
use hlc_text::bytes::Spelled;
use hlc_text::input::{InputFault, first_line, put_fault, read_input};
use hlc_text::number;
use hlc_text::printer::Printer;
use hlc_text::watched::Watched;
use hlc_text::words::LineWords;
use hlc_world::{Event, Refusal, Reply, World};
use std::alloc::Global;
use std::io::{Read, Write};

/// How a run ended.
#[derive(Clone, Copy, Debug, PartialEq, Eq)]
pub enum RunEnd {
    /// Every line was answered, including refused events.
    Answered,
    /// The line of this number is not the line of an event. The first line has number 1.
    BadLine(u64),
    /// There is no first line, or it is not `nodes N` with N from 1 to 64.
    BadHeader,
    /// The first line is a header, but it ran out of memory for the world.
    NoMemory,
    /// The input could not be loaded.
    NotLoaded(InputFault),
    /// A write failed.
    WriteFault,
}

impl RunEnd {
    /// Returns the exit status of the program: 0 where every line was answered, 3 where a write failed, and 2
    /// otherwise.
    pub fn status(self) -> u8
        ensures { result ≡ status_of self }
    {
        match self {
            RunEnd::Answered => 0,
            RunEnd::WriteFault => 3,
            _ => 2,
        }
    }
}

/// Reads a whole script, writes the reply to each of its lines, and returns how the run ended.
///
/// All is written before it returns, in blocks of 32 KiB or more except for the last one. Where a write failed, a
/// beginning of the replies was written.
pub fn run_script<R: Read, W: Write>(
    alloc: Global,
    reader: &mut Watched<R>,
    writer: &mut Watched<W>,
) -> RunEnd
    requires reader_well { has_failed reader.old ≡ false }
    requires writer_well { has_failed writer.old ≡ false }
    ensures { RunsScript R.remaining W.contents reader.old reader.new writer.old writer.new result }
{
    let mut printer = Printer::new(writer);
    let end = read_and_answer(alloc, reader, &mut printer);
    printer.finish();
    if writer.failed() {
        RunEnd::WriteFault
    } else {
        end
    }
}

fn read_and_answer<R: Read, W: Write>(
    alloc: Global,
    reader: &mut Watched<R>,
    printer: &mut Printer<'_, W>,
) -> RunEnd
    requires { has_failed reader.old ≡ false }
    ensures written { ReadsScript R.remaining W.contents reader.old reader.new
        printer.old printer.new result }
    ensures read_fault { (result ≡ RunEnd.NotLoaded InputFault.ReadFault)
        ↔ (has_failed reader.new ≡ true) }
{
    match read_input(alloc, reader) {
        Ok(input) => answer_input(alloc, input.as_slice(), printer),
        Err(fault) => {
            put_fault(printer, fault);
            RunEnd::NotLoaded(fault)
        }
    }
}

/// Answers an input that is in memory, as `run_script` does once it has read one. It prints, and leaves `finish` to the
/// caller. It needs memory only after a header, so a first line that is no header is refused as such.
pub fn answer_input<W: Write>(alloc: Global, input: &[u8], printer: &mut Printer<'_, W>) -> RunEnd
    requires { length input.now ≤ INPUT_LIMIT }
    ensures loaded { InputWasLoaded result }
    ensures written { (output : List ℕ) × MayWrite input.now output result
        × Prints W.contents printer.old printer.new output }
{
    let Some((nodes, rest)) = split_header(input) else {
        printer.put(b"refused 17\n");
        return RunEnd::BadHeader;
    };
    let Ok(mut world) = World::new(alloc, nodes) else {
        put_fault(printer, InputFault::NoMemory);
        return RunEnd::NoMemory;
    };
    put_header(printer, nodes);
    let bad = answer_lines(alloc, &mut world, rest, printer);
    drop(world);
    match bad {
        None => RunEnd::Answered,
        Some(number) => RunEnd::BadLine(number),
    }
}

/// Returns the number of nodes in the header, and the text after it, or none where the first line is no header.
fn split_header(input: &[u8]) -> Option<(u16, &[u8])>
    ensures { MatchOption result
        ((nodes : ℕ) (lines : List (List ℕ)) → HasHeader nodes
        → lines_of input.now ≢ header_line nodes ∷ lines)
        (λ found. HasHeader found.0
        × (lines_of input.now ≡ header_line found.0 ∷ lines_of found.1.now)
        × (length found.1.now ≤ length input.now)) }
{
    if input.is_empty() {
        return None;
    }
    let (line, rest) = first_line(input);
    let nodes = read_header(line)?;
    Some((nodes, rest))
}

/// Returns the number of nodes in a header, or none where the line is no header.
fn read_header(line: &[u8]) -> Option<u16>
    ensures { Reads header_line HasHeader line.now result }
{
    let mut words = LineWords::of(line);
    header_of_words(&mut words)
}

fn header_of_words(words: &mut LineWords<'_>) -> Option<u16>
    ensures { Reads header_words HasHeader words.old result }
{
    let verb = words.next()?;
    if verb != b"nodes".as_slice() {
        return None;
    }
    let nodes = number::between(words.last()?, 1, 64)?;
    Some(nodes as u16)
}

fn put_header<W: Write>(printer: &mut Printer<'_, W>, nodes: u16)
    ensures { Prints W.contents printer.old printer.new (printed (header_line nodes)) }
{
    printer.put_named_number(b"nodes ", nodes as u64);
    printer.put(b"\n");
}

/// Answers the lines after the header, and returns the number of the first bad line, if there is one. The lines after a
/// bad line are not read.
fn answer_lines<W: Write>(
    alloc: Global,
    world: &mut World,
    text: &[u8],
    printer: &mut Printer<'_, W>,
) -> Option<u64>
    requires { length text.now ≤ INPUT_LIMIT }
    ensures { (nodes : ℕ) → Represents nodes world.old [] → (output : List ℕ)
        × Answers nodes [] 2 (lines_of text.now) output result
        × Prints W.contents printer.old printer.new output }
{
    let mut rest = text;
    let mut number = 2u64;
    while !rest.is_empty() {
        let (line, after) = first_line(rest);
        let Some(event) = read_line(line) else {
            put_bad_line(printer, number);
            return Some(number);
        };
        answer_line(alloc, world, event, printer);
        rest = after;
        number += 1;
    }
    None
}

/// Prints the answer to a good line. The key of a read is looked up as a part of the line, if possible, and its value
/// is printed without a copy.
#[inline(always)]
fn answer_line<W: Write>(
    alloc: Global,
    world: &mut World,
    event: Event<Spelled<'_>>,
    printer: &mut Printer<'_, W>,
)
    ensures { (reply : AReply)
        × ((nodes : ℕ) (schedule : List (AnEvent × AReply)) → Represents nodes world.old schedule
        → (after : List (AnEvent × AReply))
        × AnswersLine nodes schedule event.entry reply after × Represents nodes world.new after)
        × Prints W.contents printer.old printer.new (reply_text reply) }
{
    if let Event::Read { id, key } = &event {
        if let Some(word) = key.as_word() {
            answer_read(world, *id, word, printer);
            return;
        }
    }
    let reply = reply_to(alloc, world, event);
    put_reply(printer, reply);
}

/// Prints the answer to a read.
fn answer_read<W: Write>(world: &World, id: u64, key: &[u8], printer: &mut Printer<'_, W>)
    ensures { (reply : AReply)
        × ((nodes : ℕ) (schedule : List (AnEvent × AReply)) → Represents nodes world.now schedule
        → Represents nodes world.now ((Event.Read id key.now, reply) ∷ schedule))
        × Prints W.contents printer.old printer.new (reply_text reply) }
{
    match world.look(id, key) {
        Ok(value) => put_value_line(printer, value),
        Err(refusal) => put_reply(printer, Reply::Refused(refusal)),
    }
}

/// Returns the answer to a good line: the reply of the world to its event, or out of memory where there is none for the
/// event's bytes.
#[inline(always)]
fn reply_to(alloc: Global, world: &mut World, event: Event<Spelled<'_>>) -> Reply
    ensures { (nodes : ℕ) (schedule : List (AnEvent × AReply)) → Represents nodes world.old schedule
        → (after : List (AnEvent × AReply))
        × AnswersLine nodes schedule event.entry result after × Represents nodes world.new after }
{
    match event {
        Event::Report { node, reading } => world.step(Event::Report { node, reading }),
        Event::Send { node, reading } => world.step(Event::Send { node, reading }),
        Event::Receive {
            node,
            reading,
            message,
        } => world.step(Event::Receive {
            node,
            reading,
            message,
        }),
        Event::Deliver { node, number } => world.step(Event::Deliver { node, number }),
        event => match owned_event(alloc, event) {
            Ok(event) => world.step(event),
            Err(_) => Reply::Refused(Refusal::NoMemory),
        },
    }
}

fn put_bad_line<W: Write>(printer: &mut Printer<'_, W>, number: u64)
    ensures { Prints W.contents printer.old printer.new (printed (bad_line number)) }
{
    printer.put_named_number(b"refused 16 line ", number);
    printer.put(b"\n");
}
