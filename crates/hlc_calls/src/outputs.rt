//! What a call writes for its caller: bytes to a buffer, at once or in pieces, and numbers of 64 bits.
ghost use Rattle.std.specs.Prelude.{◌≡◌, length};
ghost use Rattle.hlc_calls.specs.{Answers.IsCopied, Answers.narrowed, Output.ReturnsPiece};

/// Writes bytes to the start of the buffer where they fit, and returns their length.
pub fn fill(value: &[u8], out: &mut [u8], len: &mut usize)
    ensures len { len.new ≡ length value.now }
    ensures copied { IsCopied value.now out.old out.new }
{
    *len = value.len();
    if value.len() <= out.len() {
        let (front, _) = out.split_at_mut(value.len());
        front.copy_from_slice(value);
    }
}

/// Writes bytes from a place on to the start of the buffer, as many as fit, and how many these are. Returns 0 where
/// they are the last, or 104 where bytes are left.
pub fn read_piece(bytes: &[u8], from: usize, out: &mut [u8], len: &mut usize) -> u32
    ensures { ReturnsPiece bytes.now from result len.new out.old out.new }
{
    let (_, rest) = bytes.split_at(from.min(bytes.len()));
    let (piece, left) = rest.split_at(rest.len().min(out.len()));
    fill(piece, out, len);
    if left.is_empty() { 0 } else { 104 }
}

/// Returns the number, or the greatest one of 64 bits where it is greater.
pub(crate) fn narrow(number: u128) -> u64
    ensures { result ≡ narrowed number }
{
    if number < 18_446_744_073_709_551_615 {
        return number as u64;
    }
    18_446_744_073_709_551_615
}
