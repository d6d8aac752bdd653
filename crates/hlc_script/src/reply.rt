//! The lines of replies and refusals.
ghost use Rattle.std.specs.{Prelude.map, Prelude.Some, Prelude.option_copied, List.flat_map};
ghost use Rattle.hlc_text.specs.{Printing.Prints, Text.printed};
ghost use Rattle.hlc_script.specs.Reply.{reply_line, more_lines, pair_line, report_line, reply_text, refusal_line};
ghost use Rattle.hlc_script.specs.Reply.{refusal_detail, answer_line};

use hlc_certificate::put_witnesses;
use hlc_clock::Stamp;
use hlc_text::printer::Printer;
use hlc_world::{Pair, Refusal, Reply, Report};
use std::io::Write;

/// Prints the lines of a reply: one line, then for a listing one for each pair, and for a vacuum one for each change.
#[inline(always)]
pub fn put_reply<W: Write>(printer: &mut Printer<'_, W>, reply: Reply)
    ensures { Prints W.contents printer.old printer.new (reply_text reply) }
{
    // The commonest replies are printed from their parts, without being stored.
    match reply {
        Reply::Stamped { stamp, item } => {
            printer.put_numbered_stamp_line(b"stamp ", stamp, b" item ", item)
        }
        Reply::Sent { stamp, message } => {
            printer.put_numbered_stamp_line(b"stamp ", stamp, b" message ", message)
        }
        Reply::Received { stamp } => printer.put_stamp_line(b"stamp ", stamp),
        Reply::Accepted { stamp } => printer.put_stamp_line(b"accepted ", stamp),
        other => put_lines(printer, &other),
    }
}

/// Prints the lines of any reply.
#[inline(never)]
fn put_lines<W: Write>(printer: &mut Printer<'_, W>, reply: &Reply)
    ensures { Prints W.contents printer.old printer.new (reply_text reply.now) }
{
    put_first_line(printer, reply);
    put_more(printer, reply);
}

/// Prints the lines after the first one of a reply.
fn put_more<W: Write>(printer: &mut Printer<'_, W>, reply: &Reply)
    ensures { Prints W.contents printer.old printer.new (flat_map printed (more_lines reply.now)) }
{
    match reply {
        Reply::Listing { pairs } => put_pairs(printer, pairs.as_slice()),
        Reply::Vacuumed { report } => put_witnesses(printer, report.witnesses.as_slice()),
        _ => {}
    }
}

fn put_pairs<W: Write>(printer: &mut Printer<'_, W>, pairs: &[Pair])
    ensures { Prints W.contents printer.old printer.new
        (flat_map printed (map pair_line pairs.now)) }
{
    for pair in pairs {
        put_pair(printer, pair);
    }
}

fn put_pair<W: Write>(printer: &mut Printer<'_, W>, pair: &Pair)
    ensures { Prints W.contents printer.old printer.new (printed (pair_line pair.now)) }
{
    printer.put_named_bytes(b"row ", pair.key.as_slice());
    printer.put_named_bytes(b" ", pair.value.as_slice());
    printer.put(b"\n");
}

/// Prints the first line of a reply.
#[inline(always)]
fn put_first_line<W: Write>(printer: &mut Printer<'_, W>, reply: &Reply)
    ensures { Prints W.contents printer.old printer.new (printed (reply_line reply.now)) }
{
    match reply {
        Reply::Stamped { stamp, item } => {
            printer.put_numbered_stamp_line(b"stamp ", *stamp, b" item ", *item)
        }
        Reply::Joined { node, start } => {
            printer.put_named_number(b"joined ", *node as u64);
            printer.put_stamp_line(b" start ", *start);
        }
        Reply::Sent { stamp, message } => {
            printer.put_numbered_stamp_line(b"stamp ", *stamp, b" message ", *message)
        }
        Reply::Received { stamp } => printer.put_stamp_line(b"stamp ", *stamp),
        Reply::Observed { stamp } => printer.put_stamp_line(b"stamp ", *stamp),
        Reply::Accepted { stamp } => printer.put_stamp_line(b"accepted ", *stamp),
        Reply::Snapshot { id, stamp } => {
            printer.put_named_number(b"snapshot ", *id);
            printer.put_stamp_line(b" at ", *stamp);
        }
        Reply::Closed { stamp } => printer.put_stamp_line(b"closed ", *stamp),
        Reply::Floor { stamp } => printer.put_stamp_line(b"floor ", *stamp),
        Reply::Answer { value: None } => printer.put(b"none\n"),
        Reply::Answer { value: Some(bytes) } => put_value(printer, bytes.as_slice()),
        Reply::Listing { pairs } => {
            printer.put_named_number(b"listing ", pairs.len() as u64);
            printer.put(b"\n");
        }
        Reply::Vacuumed { report } => {
            put_report(printer, report);
            printer.put(b"\n");
        }
        Reply::Rows { count } => {
            printer.put_named_count(b"rows ", *count);
            printer.put(b"\n");
        }
        Reply::Refused(refusal) => {
            put_refusal(printer, *refusal);
            printer.put(b"\n");
        }
    }
}

fn put_report<W: Write>(printer: &mut Printer<'_, W>, report: &Report)
    ensures { Prints W.contents printer.old printer.new (report_line report.now) }
{
    printer.put_named_stamp(b"vacuum ", report.floor);
    printer.put_named_number(b" kept ", report.kept);
    printer.put_named_count(b" dropped ", report.dropped);
    printer.put_named_count(b" bytes ", report.bytes);
}

/// Prints the line of a key's value, or the line for none.
pub(crate) fn put_value_line<W: Write>(printer: &mut Printer<'_, W>, value: Option<&[u8]>)
    ensures { Prints W.contents printer.old printer.new
        (reply_text (Reply.Answer (option_copied value.entry))) }
{
    match value {
        None => printer.put(b"none\n"),
        Some(bytes) => put_value(printer, bytes),
    }
}

/// Prints the line of a value.
fn put_value<W: Write>(printer: &mut Printer<'_, W>, value: &[u8])
    ensures { Prints W.contents printer.old printer.new (printed (answer_line (Some value.now))) }
{
    printer.put_named_bytes(b"value ", value);
    printer.put(b"\n");
}

/// Prints the text of a refusal: its number, and what the table of refusals adds to it.
pub fn put_refusal<W: Write>(printer: &mut Printer<'_, W>, refusal: Refusal)
    ensures { Prints W.contents printer.old printer.new (refusal_line refusal) }
{
    put_numbered(printer, &refusal);
}

/// Prints the number of a refusal, and what the table adds to it.
fn put_numbered<W: Write>(printer: &mut Printer<'_, W>, refusal: &Refusal)
    ensures { Prints W.contents printer.old printer.new (refusal_line refusal.now) }
{
    let code = refusal.code();
    printer.put_named_number(b"refused ", code as u64);
    put_detail(printer, code, refusal.word());
}

/// Prints what the table of refusals adds to a number: the word that comes with it.
fn put_detail<W: Write>(printer: &mut Printer<'_, W>, code: u32, word: u64)
    ensures { Prints W.contents printer.old printer.new (refusal_detail code word) }
{
    match code {
        3 => printer.put_named_stamp(b" at ", Stamp::from_bits(word)),
        6 => printer.put_named_number(b" next ", word),
        7 => printer.put_named_stamp(b" head ", Stamp::from_bits(word)),
        8 => printer.put_named_stamp(b" floor ", Stamp::from_bits(word)),
        9 => printer.put_named_stamp(b" horizon ", Stamp::from_bits(word)),
        _ => printer.put(b""),
    }
}
