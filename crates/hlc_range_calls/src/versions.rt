//! The stored rows of a key, as bytes.
ghost use Rattle.std.specs.Prelude.{◌≡◌, ◌≤◌, ◌+◌, length, option_copied};
ghost use Rattle.hlc_table_column.specs.Versions.{version_read};
ghost use Rattle.hlc_wire.specs.Placing.{with_bytes};
ghost use Rattle.hlc_range_calls.specs.{Listing.answer_bytes, Listing.narrowed, Scan.parts_bytes};
ghost use Rattle.hlc_range_calls.specs.Versions.{version_bytes, ReturnsVersions};

use crate::list::put_answer;
use hlc_core::{Core, Stamp, Versions};
use hlc_wire::put_bytes;

/// Writes a version to a place of a buffer, and returns the place after it.
fn put_version(out: &mut [u8], at: usize, stamp: Stamp, node: u16, value: Option<&[u8]>) -> usize
    requires { at + length (version_bytes (version_read (stamp, node, value))) ≤ length out.now }
    ensures end { result ≡ at + length (version_bytes (version_read (stamp, node, value.entry))) }
    ensures put { out.new ≡ with_bytes at (version_bytes (version_read (stamp, node, value.entry))) out.old }
{
    let middle = put_bytes(out, at, &stamp.bits().to_le_bytes());
    let start = put_bytes(out, middle, &node.to_le_bytes());
    put_answer(out, start, value)
}

/// Returns how many bytes a version with this answer takes, or the greatest number of 64 bits where it takes more.
fn version_len(value: Option<&[u8]>) -> usize
    ensures { result ≡ narrowed (10 + length (answer_bytes (option_copied value.entry))) }
{
    match value {
        None => 11,
        Some(value) => value.len().saturating_add(19),
    }
}

/// Returns how many bytes the versions take, and how many there are; each time the greatest number of 64 bits in place
/// of a greater one.
fn measure(versions: Versions<'_>) -> (usize, usize)
    ensures len { result.0 ≡ narrowed (length (parts_bytes version_bytes versions.entry)) }
    ensures count { result.1 ≡ narrowed (length versions.entry) }
{
    let mut len = 0usize;
    let mut count = 0usize;
    for (_, _, value) in versions {
        len = len.saturating_add(version_len(value));
        count = count.saturating_add(1);
    }
    (len, count)
}

/// Writes the versions to the start of a buffer that has room for them.
fn put_versions(out: &mut [u8], versions: Versions<'_>)
    requires { length (parts_bytes version_bytes versions) ≤ length out.now }
    ensures { out.new ≡ with_bytes 0 (parts_bytes version_bytes versions.entry) out.old }
{
    let mut at = 0usize;
    for (stamp, node, value) in versions {
        at = put_version(out, at, stamp, node, value);
    }
}

/// Lists the stored rows of a key above one stamp and at or below another, the newest first. Returns 0, their length in
/// bytes, how many they are and, where all fit, the bytes. It goes through the rows twice, and takes no memory.
pub fn versions(
    core: &Core,
    key: &[u8],
    above: u64,
    to: u64,
    out: &mut [u8],
    len: &mut usize,
    count: &mut usize,
) -> u32
    ensures { ReturnsVersions core.now key.now above to result len.new count.new out.old out.new }
{
    let above = Stamp::from_bits(above);
    let to = Stamp::from_bits(to);
    let (total, rows) = measure(core.versions(key, above, to));
    *len = total;
    *count = rows;
    if total < usize::MAX && total <= out.len() {
        put_versions(out, core.versions(key, above, to));
    }
    0
}
