//! Readers and writers that fail once, also after a storm, and the blocks of what is written.
use crate::items::bytes;
use crate::streams::{Calls, Fault, Giving, Taking};
use hlc_certificate::run_check;
use hlc_core::{Listing, Pair, Stamp};
use hlc_script::run_script;
use hlc_storm_report::{StormFault, StormReport, print_storm};
use hlc_text::watched::Watched;
use std::alloc::Global;
use std::io;
use std::io::{ErrorKind, Read, Write};
use std::process::Abort;
use std::test::*;

const SCRIPT: &[u8] = b"nodes 1\nwrite 0 5 a x\ndeliver 0 0\nopen floor\nread 1 a\n";

const REPLIES: &[u8] = b"nodes 1\nstamp 5.0 item 0\naccepted 5.0\nsnapshot 1 at 5.0\nvalue x\n";

const CERTIFICATE: &[u8] = b"point 1.0\nrow a 1.0 0 value x\nwitness a none 1.0\n";

/// What a run or a check reads.
#[derive(Clone, Copy, Debug)]
enum Input<'a> {
    Script(&'a [u8]),
    Certificate(&'a [u8]),
}

impl<'a> Input<'a> {
    fn text(self) -> &'a [u8] {
        match self {
            Input::Script(text) | Input::Certificate(text) => text,
        }
    }
}

/// Runs or checks the input, and returns the exit status with the reader and the writer.
fn run<R: Read + Drop, W: Write + Drop>(
    alloc: Global,
    input: Input<'_>,
    reader: R,
    writer: W,
) -> (u8, R, W) {
    let mut reader = Watched::new(reader);
    let mut writer = Watched::new(writer);
    let status = match input {
        Input::Script(_) => run_script(alloc, &mut reader, &mut writer).status(),
        Input::Certificate(_) => run_check(alloc, &mut reader, &mut writer).status(),
    };
    (status, reader.into_inner(), writer.into_inner())
}

/// An input, and what is written for it.
type Case = (Input<'static>, &'static [u8]);

const CASES: [Case; 2] = [
    (Input::Script(SCRIPT), REPLIES),
    (Input::Certificate(CERTIFICATE), b"fewest 1 bytes 12\n"),
];

/// Takes all, and counts the blocks of fewer than 32,768 bytes.
#[derive(Default, Drop)]
struct Counting {
    blocks: u64,
    small: u64,
}

impl Write for Counting {
    fn write(&mut self, buf: &[u8]) -> io::Result<usize> {
        self.blocks = self.blocks.saturating_add(1);
        if buf.len() < 32_768 {
            self.small = self.small.saturating_add(1);
        }
        Ok(buf.len())
    }

    fn flush(&mut self) -> io::Result<()> {
        Ok(())
    }
}

/// Checks all reads, of which each fails once. There is a read for each piece, and one that finds the end.
fn reads_fail<H: AllocGlobal + Abort>(rt: &H, case: Case, kind: ErrorKind, most: usize) {
    let (input, output) = case;
    let text = input.text();
    let reads = text.len().div_ceil(most.max(1)) as u64 + 1;
    for at in 1..reads + 2 {
        let reader = Giving {
            most,
            kind,
            calls: Calls::new(at),
            ..Giving::whole(text)
        };
        let (status, reader, writer) = run(rt.alloc(), input, reader, Taking::whole(rt.alloc()));
        let seen = (status, writer.taken.as_slice(), reader.calls.made);
        let expected = if at <= reads {
            (2u8, b"refused 18\n".as_slice(), at)
        } else {
            (0u8, output, reads)
        };
        assert_eq!(rt; seen, expected, "{input:?} {most} {at}");
    }
}

/// Something that is written, by a run or after a storm.
trait Written {
    /// Writes it, and returns the exit status with the writer.
    fn write(&self, alloc: Global, writer: Taking) -> (u8, Taking);
}

impl Written for Input<'_> {
    fn write(&self, alloc: Global, writer: Taking) -> (u8, Taking) {
        let (status, _, writer) = run(alloc, *self, Giving::whole(self.text()), writer);
        (status, writer)
    }
}

impl Written for Result<StormReport, StormFault> {
    fn write(&self, _alloc: Global, writer: Taking) -> (u8, Taking) {
        let mut writer = Watched::new(writer);
        let status = print_storm(&mut writer, self);
        (status, writer.into_inner())
    }
}

/// Checks all writes, of which each fails once, and that the text before the failed one was taken.
fn writes_fail<W: Written, H: AllocGlobal + Abort>(
    rt: &H,
    written: &W,
    output: &[u8],
    fault: Fault,
    most: usize,
) {
    let writes = output.len().div_ceil(most.max(1)) as u64;
    for at in 1..writes + 2 {
        let writer = Taking {
            most,
            fault,
            calls: Calls::new(at),
            ..Taking::whole(rt.alloc())
        };
        let (status, writer) = written.write(rt.alloc(), writer);
        let before = output.len().min(most.saturating_mul(at as usize - 1));
        let seen = (status, writer.taken.as_slice(), writer.calls.made);
        let expected = if at <= writes {
            (3u8, &output[..before], at)
        } else {
            (0u8, output, writes)
        };
        assert_eq!(rt; seen, expected, "{output:?} {fault:?} {most} {at}");
    }
}

/// Checks as `writes_fail` does, for each fault of a writer.
fn each_write_fails<W: Written, H: AllocGlobal + Abort>(rt: &H, written: &W, output: &[u8]) {
    for fault in [
        Fault::Error(ErrorKind::Other),
        Fault::Error(ErrorKind::Interrupted),
        Fault::TakesNone,
    ] {
        for most in [1usize, 7, 4096] {
            writes_fail(rt, written, output, fault, most);
        }
    }
}

fn pair<H: AllocGlobal + Abort>(rt: &H, key: &[u8], value: &[u8]) -> Pair {
    Pair {
        key: bytes(rt, key),
        value: bytes(rt, value),
    }
}

/// Returns what a storm of two nodes finds, with four writes each to two keys.
fn found<H: AllocGlobal + Abort>(rt: &H) -> StormReport {
    let pairs = vec![in rt.alloc(); pair(rt, b"k0", b"1.2"), pair(rt, b"k1", b"1.3")];
    StormReport {
        accepted: vec![in rt.alloc(); 5, 5].ok().expect(rt, "memory"),
        floor: Stamp::from_bits(5 * 65_536),
        pairs: Listing::from_vec(pairs.ok().expect(rt, "memory")),
        kept: 2,
    }
}

#[test]
fn a_reader_fails_once(rt: HostRuntime) {
    for case in CASES {
        for kind in [
            ErrorKind::Other,
            ErrorKind::Interrupted,
            ErrorKind::WouldBlock,
            ErrorKind::UnexpectedEof,
        ] {
            for most in [1usize, 7, 4096] {
                reads_fail(&rt, case, kind, most);
            }
        }
    }
}

#[test]
fn a_writer_fails_once(rt: HostRuntime) {
    for (input, output) in CASES {
        each_write_fails(&rt, &input, output);
    }
}

#[test]
fn a_writer_fails_after_a_storm(rt: HostRuntime) {
    let output = b"accepted 0 5\naccepted 1 5\nfloor 5.0\nk0 1.2\nk1 1.3\nkept 2\nhistory legal\n";
    let report: Result<StormReport, StormFault> = Ok(found(&rt));
    each_write_fails(&rt, &report, output.as_slice());
}

/// Each flush is passed on, also one after the first, which fails, and its result is returned.
#[test]
fn a_flush_fails_once(rt: HostRuntime) {
    for (flushes, expected) in [(1u64, Err(ErrorKind::Other)), (2, Ok(()))] {
        let mut writer = Watched::new(Taking {
            calls: Calls::new(1),
            ..Taking::whole(rt.alloc())
        });
        let mut last = Ok(());
        for _ in 0..flushes {
            last = writer.flush().map_err(|fault| fault.kind());
        }
        let seen = (last, writer.failed(), writer.into_inner().calls.made);
        assert_eq!(rt; seen, (expected, true, flushes));
    }
}

/// Runs a script whose replies leave in this many blocks, at least and at most. At most one of them has fewer than
/// 32,768 bytes.
fn leaves_in_blocks<H: AllocGlobal + Abort>(rt: &H, text: &[u8], least: u64, most: u64) {
    let (reader, writer) = (Giving::whole(text), Counting::default());
    let (status, _, counted) = run(rt.alloc(), Input::Script(text), reader, writer);
    let Counting { blocks, small } = counted;
    assert_eq!(rt; status, 0);
    assert!(rt;
        least <= blocks && blocks <= most && small <= 1,
        "{blocks} {small}"
    );
}

/// Returns a script of a world of one node, which writes this many letters to a key and has them delivered, and reads
/// the key so often.
fn reading<H: AllocGlobal>(rt: &H, letters: u64, reads: u64, read: &[u8]) -> Result<Vec<u8>, Fail> {
    let mut text = Vec::from_slice(rt.alloc(), b"nodes 1\nwrite 0 5 a ")?;
    for _ in 0..letters {
        text.push(b'x')?;
    }
    text.extend_from_slice(b"\ndeliver 0 0\nopen floor\n")?;
    for _ in 0..reads {
        text.extend_from_slice(read)?;
    }
    Ok(text)
}

/// Short replies; values that are far shorter than a block, and longer than what every line has room for, of which
/// 1,000 replies of 107 bytes are three blocks and a rest; and values longer than a block, between short replies.
#[test]
fn replies_leave_in_blocks(rt: HostRuntime) -> Result<(), Fail> {
    let cases: [(u64, u64, &[u8], u64, u64); 3] = [
        (1, 8000, b"read 1 a\n", 2, 16),
        (100, 1000, b"read 1 a\n", 4, 4),
        (40_000, 20, b"floor\nread 1 a\n", 20, 41),
    ];
    for (letters, reads, read, least, most) in cases {
        let text = reading(&rt, letters, reads, read)?;
        leaves_in_blocks(&rt, text.as_slice(), least, most);
    }
    Ok(())
}
