//! The line of a number in a text.
ghost use Rattle.std.specs.Prelude.{◌≡◌, None, Some, MatchOption, slice_get};
ghost use Rattle.hlc_text.specs.Lines.{lines_of};
ghost use Rattle.hlc_explain.specs.Lines.{AreEventLines, IsFirstBadLine};

use hlc_line::read_line;
use hlc_text::input::first_line;

/// Returns the line after the first `before` lines, or none where the text has no more lines.
pub fn line_behind(text: &[u8], before: u64) -> Option<&[u8]>
    ensures { MatchOption result (slice_get (lines_of text.now) before ≡ None)
        (λ line. slice_get (lines_of text.now) before ≡ Some line.now) }
{
    let mut rest = text;
    let mut left = before;
    while !rest.is_empty() {
        let (line, after) = first_line(rest);
        if left == 0 {
            return Some(line);
        }
        rest = after;
        left -= 1;
    }
    None
}

/// Returns the first line that is not that of an event, and how many lines come before it.
pub fn bad_line(text: &[u8]) -> Option<(u64, &[u8])>
    ensures { MatchOption result (AreEventLines (lines_of text.now))
        (λ x. IsFirstBadLine (lines_of text.now) x.0 x.1.now) }
{
    let mut rest = text;
    let mut before = 0u64;
    while !rest.is_empty() {
        let (line, after) = first_line(rest);
        if read_line(line).is_none() {
            return Some((before, line));
        }
        rest = after;
        before += 1;
    }
    None
}
