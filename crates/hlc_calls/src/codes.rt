//! Answers as the numbers that C gets: 0 or the number of a refusal, and a word with it.
ghost use Rattle.std.specs.Prelude.{◌≡◌, MatchResult};
ghost use Rattle.hlc_events.specs.Faults.{core_word, certificate_fault_code, certificate_fault_word};
ghost use Rattle.hlc_calls.specs.Outcome.{answer_code};

use hlc_core::{CertificateFault, CoreFault, JoinFault};

/// Returns the number of a refusal in C.
pub(crate) fn number(fault: &CoreFault) -> u32
    ensures { result ≡ answer_code fault.now }
{
    match fault {
        CoreFault::Join(JoinFault::BelowFloor { .. }) => 116,
        _ => fault.code(),
    }
}

/// Writes the word of a refusal, and returns its number.
pub(crate) fn refuse(fault: &CoreFault, word: &mut u64) -> u32
    ensures { (result ≡ answer_code fault.now) × (word.new ≡ core_word fault.now) }
{
    *word = fault.word();
    number(fault)
}

/// Writes the word of the reason why there is no certificate, and returns its number.
pub(crate) fn refuse_certificate(fault: &CertificateFault, word: &mut u64) -> u32
    ensures { (result ≡ certificate_fault_code fault.now)
        × (word.new ≡ certificate_fault_word fault.now) }
{
    *word = fault.word();
    fault.code()
}

/// Writes a word, and returns 0; or writes the word of a refusal, and returns its number.
pub(crate) fn answer(outcome: Result<u64, CoreFault>, word: &mut u64) -> u32
    ensures { MatchResult outcome (λ value. (result ≡ 0) × (word.new ≡ value))
        (λ fault. (result ≡ answer_code fault) × (word.new ≡ core_word fault)) }
{
    match outcome {
        Ok(value) => {
            *word = value;
            0
        }
        Err(fault) => refuse(&fault, word),
    }
}
