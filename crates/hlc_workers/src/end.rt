//! How work ends.
ghost use Rattle.std.specs.Prelude.{◌≡◌, MatchResult};

use hlc_server::WorkEnd;

/// Returns how work ended that was done, or that stopped before.
pub(crate) fn end_of(done: Result<(), WorkEnd>) -> WorkEnd
    ensures { MatchResult done (λ _. result ≡ WorkEnd.Done) (λ end. result ≡ end) }
{
    match done {
        Ok(()) => WorkEnd::Done,
        Err(end) => end,
    }
}
