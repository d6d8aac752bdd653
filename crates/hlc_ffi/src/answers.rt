//! The names and the texts of answers.
ghost use Rattle.std.specs.Prelude.{◌≡◌, length};
ghost use Rattle.hlc_calls.specs.{Answers.IsCopied, Texts.answer_name, Texts.answer_text};

use hlc_calls::answers::{name, text};
use hlc_calls::outputs::fill;

/// Writes the name of an answer in the header: its length, 0 for no answer, and, where they fit, its bytes.
#[unsafe(no_mangle)]
pub extern "C" fn hlc_error_name(answer: u32, out: &mut [u8], len: &mut usize)
    ensures len { len.new ≡ length (answer_name answer) }
    ensures copied { IsCopied (answer_name answer) out.old out.new }
{
    fill(name(answer).as_bytes(), out, len);
}

/// Writes what an answer says, in the same way.
#[unsafe(no_mangle)]
pub extern "C" fn hlc_error_text(answer: u32, out: &mut [u8], len: &mut usize)
    ensures len { len.new ≡ length (answer_text answer) }
    ensures copied { IsCopied (answer_text answer) out.old out.new }
{
    fill(text(answer).as_bytes(), out, len);
}
