//! Bytes from a position on, and to a position.
ghost use Rattle.std.specs.Prelude.{◌≡◌, ◌≤◌, ◌+◌, ◌-◌, ◌++◌, length, take, drop, min};

/// Returns the bytes from a position on, or none if it is past the end.
pub fn bytes_from(bytes: &[u8], place: usize) -> &[u8]
    ensures { result.now ≡ drop place bytes.now }
{
    if bytes.len() <= place {
        return &[];
    }
    &bytes[place..]
}

/// Writes bytes to a position of a buffer, as many as fit, and returns how many.
pub fn copy_front(bytes: &[u8], out: &mut [u8], place: usize) -> usize
    requires { place ≤ length out.old }
    ensures many { result ≡ min (length bytes.now) (length out.old - place) }
    ensures copied { out.new ≡ take place out.old ++ (take result bytes.now ++ drop (place + result) out.old) }
{
    let many = bytes.len().min(out.len() - place);
    out[place..place + many].copy_from_slice(&bytes[..many]);
    many
}
