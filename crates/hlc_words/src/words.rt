//! The words after the program's name.
ghost use Rattle.std.specs.Prelude.{◌≡◌, ◌≢◌, ◌≤◌, ◌∷◌, [], ℕ, List, decimal, ⊤, MatchOption};
ghost use Rattle.std.{specs.Result.result_ok, proofs.Common.rules, proofs.lemmas.Grind.common_steps};
ghost use Rattle.hlc_text.specs.Text.{Reads};
ghost use Rattle.hlc_words.specs.contracts.exact.StormPlanExact.TheImpl.Laws.{equal-law as plan_equal};
ghost use Rattle.hlc_words.specs.Words.{words_of, plan_words, bytes_of};

use crate::plan::StormPlan;
use hlc_text::number::between;
use hlc_values::Exact;

/// What the program is asked to do.
#[derive(Clone, Copy, Debug, PartialEq, Eq)]
pub enum Words {
    /// Answer a script: `run`.
    Run,
    /// Check a certificate: `check`.
    Check,
    /// Run threads that write, read and vacuum concurrently: `storm` and its sizes.
    Storm(StormPlan),
}

impl Exact for Words {
    ghost equal = { Prim.search (rules, common_steps, plan_equal) };

    ghost copied = { Prim.search rules };
}

/// The words ask for nothing that the program can do.
#[derive(Clone, Copy, Debug, PartialEq, Eq)]
pub struct BadWords;

/// Returns the first word, and the others.
fn next_word(words: &[String]) -> Option<(&[u8], &[String])>
    ensures { MatchOption result (bytes_of words.now ≡ [])
        (λ parts. bytes_of words.now ≡ parts.0.now ∷ bytes_of parts.1.now) }
{
    let (first, others) = words.split_first()?;
    Some((first.as_bytes(), others))
}

/// Returns the number after a name, from `low` to `high`, and the words after it.
fn named<'a>(words: &'a [String], name: &[u8], low: u64, high: u64) -> Option<(u64, &'a [String])>
    ensures { MatchOption result
        ((n : ℕ) (others : List (List ℕ)) → low ≤ n → n ≤ high
        → bytes_of words.now ≢ name.now ∷ decimal n ∷ others)
        (λ parts. (low ≤ parts.0) × (parts.0 ≤ high)
        × (bytes_of words.now ≡ name.now ∷ decimal parts.0 ∷ bytes_of parts.1.now)) }
{
    let (first, rest) = next_word(words)?;
    if first != name {
        return None;
    }
    let (second, rest) = next_word(rest)?;
    let value = between(second, low, high)?;
    Some((value, rest))
}

/// Returns the sizes of a storm.
fn read_plan(words: &[String]) -> Option<StormPlan>
    ensures { Reads plan_words (λ plan. ⊤) (bytes_of words.now) result }
{
    let (nodes, rest) = named(words, b"--nodes", 1, 64)?;
    let (writes, rest) = named(rest, b"--writes", 0, 1000)?;
    let (keys, rest) = named(rest, b"--keys", 1, 1000)?;
    let (readers, rest) = named(rest, b"--readers", 0, 64)?;
    if next_word(rest).is_some() {
        return None;
    }
    Some(StormPlan {
        nodes: nodes as u16,
        writes,
        keys,
        readers: readers as u16,
    })
}

/// Returns what the words ask for: `run`, `check`, or the nine words `storm --nodes N --writes W --keys K --readers R`
/// in this order, N from 1 to 64, W from 0 to 1,000, K from 1 to 1,000, R from 0 to 64, each number in its only
/// spelling. It takes no memory.
pub fn read_words(words: &[String]) -> Result<Words, BadWords>
    ensures { Reads words_of (λ asked. ⊤) (bytes_of words.now) (result_ok result) }
{
    let Some((verb, others)) = next_word(words) else {
        return Err(BadWords);
    };
    if verb == b"storm".as_slice() {
        return match read_plan(others) {
            Some(plan) => Ok(Words::Storm(plan)),
            None => Err(BadWords),
        };
    }
    if next_word(others).is_some() {
        return Err(BadWords);
    }
    if verb == b"run".as_slice() {
        return Ok(Words::Run);
    }
    if verb == b"check".as_slice() {
        return Ok(Words::Check);
    }
    Err(BadWords)
}
