//! What a line is, where it is no line of a script or of a certificate at all.
ghost use Rattle.std.specs.Prelude.{◌≡◌};
ghost use Rattle.hlc_explain.specs.Look.{look_of};

use crate::sentence::Sentence;

/// What a line is, as its first and its last bytes show.
#[derive(Clone, Copy, Debug)]
pub enum LineLook {
    /// It begins with the three bytes of a byte order mark, or with one of UTF-16.
    ByteOrderMark,
    /// Its last byte is a carriage return.
    CarriageReturn,
    /// It has no bytes.
    Empty,
    /// It begins with a number sign.
    Comment,
    /// None of these.
    Words,
}

/// Returns what a line is.
pub fn line_look(line: &[u8]) -> LineLook
    ensures { result ≡ look_of line.now }
{
    if line.starts_with(b"\xEF\xBB\xBF")
        || line.starts_with(b"\xFF\xFE")
        || line.starts_with(b"\xFE\xFF")
    {
        return LineLook::ByteOrderMark;
    }
    if line.ends_with(b"\r") {
        return LineLook::CarriageReturn;
    }
    if line.starts_with(b"#") {
        return LineLook::Comment;
    }
    if line.is_empty() {
        LineLook::Empty
    } else {
        LineLook::Words
    }
}

/// Puts what a line is, where it is no words at all, and returns whether it puts anything.
pub(crate) fn put_look(sentence: &mut Sentence, look: LineLook) -> bool {
    match look {
        LineLook::ByteOrderMark => {
            sentence.put(
                b"it begins with a byte order mark; save the file as plain ASCII, without one",
            );
        }
        LineLook::CarriageReturn => {
            sentence.put(
                b"it ends with a carriage return, as lines do on Windows; a line feed alone ends a line",
            );
        }
        LineLook::Empty => sentence.put(b"it is empty"),
        LineLook::Comment => sentence.put(b"it is a comment, and there are none"),
        LineLook::Words => return false,
    }
    true
}
