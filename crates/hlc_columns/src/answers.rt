//! The answers of many keys at one bound, one after another, without a list of them.
ghost use Rattle.std.specs.Prelude.{◌≡◌, ◌≤◌, ◌∷◌, [], MatchOption, option_copied, length, slice_index_or, filter};
ghost use Rattle.std.specs.Prelude.{reverse};
ghost use Rattle.std.specs.{List.Sorted.IsStrictlySortedBy, Map.Iter.deref_pair};
ghost use Rattle.std.specs.Iterator.{YieldsFirstBy, item_count};
ghost use Rattle.hlc_table_index.specs.Entries.{entries_in, entries_from, keys_in, key_cmp};
ghost use Rattle.hlc_columns.specs.Table.{indexed_rows};
ghost use Rattle.hlc_columns.specs.Answers.{AreAnswers, AreAnswersBack, IsBetween, answers_in, is_below, is_between};
ghost use Rattle.hlc_columns.specs.Answers.{entries_left, entries_left_back, leading, starts_at};

use hlc_clock::Stamp;
use hlc_rows::Bytes;
use hlc_table_column::Rows;
use hlc_table_index::Index;
use std::marker::Model;

/// This many columns are fetched from memory together.
const AHEAD: usize = 64;

/// A walk over the columns of an index up to the end of a range, if it has one: the rest of a leaf, and the number of
/// the leaf after it.
#[derive(Debug, Drop)]
pub(crate) struct Walk<'a> {
    columns: &'a Index<Rows>,
    rest: &'a [(Bytes, Rows)],
    next: usize,
    to: Option<&'a [u8]>,
    // How many columns were fetched and are still to come.
    fetched: usize,
}

impl<'a> Walk<'a> {
    /// Returns a walk from a slot of a leaf on.
    pub(crate) fn from_slot(
        columns: &'a Index<Rows>,
        at: usize,
        slot: usize,
        to: Option<&'a [u8]>,
    ) -> Walk<'a>
        requires { slot ≤ length (slice_index_or columns.now at []) }
        ensures exact { entries_left result
            ≡ leading (is_below (option_copied to.entry)) (entries_from columns.now at slot) }
        ensures ascend { IsStrictlySortedBy key_cmp (keys_in (entries_in columns.now)) }
    {
        let mut walk = Walk {
            columns,
            rest: &[],
            next: at,
            to,
            fetched: 0,
        };
        if at < columns.leaves() {
            walk.rest = &columns.leaf(at)[slot..];
            walk.next = at + 1;
        }
        walk
    }

    /// Returns a walk over the columns whose keys are not below one key, and below another, if there is one.
    pub(crate) fn between(columns: &'a Index<Rows>, from: &[u8], to: Option<&'a [u8]>) -> Walk<'a>
        ensures exact { entries_left result
            ≡ filter (λ e. is_between from.now (option_copied to.entry) e.0) (entries_in columns.now) }
        ensures ascend { IsStrictlySortedBy key_cmp (keys_in (entries_in columns.now)) }
    {
        let (at, slot) = columns.seek(from);
        Walk::from_slot(columns, at, slot, to)
    }

    /// Advances to the next leaf that has an entry, if the rest of the present one has none.
    fn turn(&mut self)
        ensures same { entries_left self.new ≡ entries_left self.old }
        ensures done { self.new.rest.now ≡ [] → entries_left self.new ≡ [] }
    {
        while self.rest.is_empty() && self.next < self.columns.leaves() {
            self.rest = self.columns.leaf(self.next);
            self.next += 1;
        }
    }

    /// Returns the next column with its key, or none at the end. It reads no column there.
    pub(crate) fn next(&mut self) -> Option<&'a (Bytes, Rows)>
        ensures { MatchOption result ((entries_left self.old ≡ []) × (entries_left self.new ≡ []))
            (λ entry. entries_left self.old ≡ entry.now ∷ entries_left self.new) }
    {
        self.turn();
        if self.fetched == 0 {
            self.fetched = fetch_ahead(self.rest);
        }
        let (first, rest) = self.rest.split_first()?;
        if !is_below(self.to, first.0.as_slice()) {
            return None;
        }
        self.rest = rest;
        self.fetched = self.fetched.saturating_sub(1);
        Some(first)
    }

    /// Returns whether the next column is that of a key.
    pub(crate) fn is_at(&mut self, key: &[u8]) -> bool
        ensures same { entries_left self.new ≡ entries_left self.old }
        ensures first { result ≡ starts_at key.now (entries_left self.old) }
    {
        self.turn();
        match self.rest.first() {
            Some(first) => is_below(self.to, first.0.as_slice()) && first.0.as_slice() == key,
            None => false,
        }
    }
}

/// Fetches the first columns of these from memory, and returns how many. None of these reads waits for the one before
/// it, so a caller that then goes through those columns does not wait for memory at each.
fn fetch_ahead(leaf: &[(Bytes, Rows)]) -> usize {
    let count = leaf.len().min(AHEAD);
    let mut sum = 0u64;
    for i in 0..count {
        sum = sum.wrapping_add(leaf[i].1.fetched());
    }
    // The sum has no meaning, but without this test the compiler could leave the reads out.
    if sum == u64::MAX { 0 } else { count }
}

/// Returns whether a key is below the end of a range, if it has one.
fn is_below(to: Option<&[u8]>, key: &[u8]) -> bool
    ensures { result ≡ is_below (option_copied to.entry) key.now }
{
    match to {
        Some(to) => key.cmp(to).is_lt(),
        None => true,
    }
}

/// Returns the next key of a walk that has a value at the bound, with that value. It reads each column once.
fn next_answer<'a>(walk: &mut Walk<'a>, bound: Stamp) -> Option<(&'a [u8], &'a [u8])>
    ensures { YieldsFirstBy deref_pair (λ walk. answers_in (entries_left walk) bound)
        walk.old result walk.new }
{
    while let Some(entry) = walk.next() {
        if let Some(value) = entry.1.answer(bound) {
            return Some((entry.0.as_slice(), value));
        }
    }
    None
}

/// The keys of a range that have a value at a bound, in byte order, with that value. It goes through the columns on
/// demand, leaf by leaf. In contracts it is the list of the remaining pairs.
#[derive(Debug, Drop)]
pub struct Answers<'a> {
    walk: Walk<'a>,
    bound: Stamp,
}

impl<'a> Model for Answers<'a> {
    ghost use Rattle.std.specs.Prelude.{List, ℕ};
    ghost use Rattle.hlc_columns.specs.Answers.{answers_in, entries_left};

    ghost Value = { List (List ℕ × List ℕ) };

    ghost view = { λ all. answers_in (entries_left all.walk) all.bound };
}

impl<'a> Iterator for Answers<'a> {
    type Item = (&'a [u8], &'a [u8]);

    ghost next_gives = { YieldsFirstBy deref_pair (λ pairs. pairs) };

    ghost remaining = { item_count (λ pairs. pairs) };

    fn next(&mut self) -> Option<(&'a [u8], &'a [u8])> {
        next_answer(&mut self.walk, self.bound)
    }
}

/// Returns the answers of the keys that are not below one key, and below another, if there is one.
pub(crate) fn answers_between<'a>(
    columns: &'a Index<Rows>,
    bound: Stamp,
    from: &[u8],
    to: Option<&'a [u8]>,
) -> Answers<'a>
    ensures { AreAnswers (indexed_rows columns.now) bound
        (IsBetween from.now (option_copied to.entry)) result }
{
    Answers {
        walk: Walk::between(columns, from, to),
        bound,
    }
}

/// A walk over the columns of an index from the last one down to the first key of a range: the rest of a leaf, and the
/// number of leaves before it.
#[derive(Debug, Drop)]
struct WalkBack<'a> {
    columns: &'a Index<Rows>,
    rest: &'a [(Bytes, Rows)],
    before: usize,
    from: &'a [u8],
    // How many columns were fetched and are still to come.
    fetched: usize,
}

impl<'a> WalkBack<'a> {
    /// Returns a walk over the columns whose keys are not below one key, and below another, if there is one.
    fn between(columns: &'a Index<Rows>, from: &'a [u8], to: Option<&[u8]>) -> WalkBack<'a>
        ensures exact { reverse (entries_left_back result)
            ≡ filter (λ e. is_between from.now (option_copied to.entry) e.0) (entries_in columns.now) }
        ensures ascend { IsStrictlySortedBy key_cmp (keys_in (entries_in columns.now)) }
    {
        let mut walk = WalkBack {
            columns,
            rest: &[],
            before: columns.leaves(),
            from,
            fetched: 0,
        };
        if let Some(to) = to {
            let (at, slot) = columns.seek(to);
            if at < walk.before {
                walk.rest = &columns.leaf(at)[..slot];
                walk.before = at;
            }
        }
        walk
    }

    /// Goes back to the last leaf that has an entry, if the rest of the present one has none.
    fn turn(&mut self)
        ensures same { entries_left_back self.new ≡ entries_left_back self.old }
        ensures done { self.new.rest.now ≡ [] → entries_left_back self.new ≡ [] }
    {
        self.before = self.before.min(self.columns.leaves());
        while self.rest.is_empty() && self.before > 0 {
            self.before -= 1;
            self.rest = self.columns.leaf(self.before);
        }
    }

    /// Returns the last column with its key, or none at the first key.
    fn next(&mut self) -> Option<&'a (Bytes, Rows)>
        ensures { MatchOption result ((entries_left_back self.old ≡ []) × (entries_left_back self.new ≡ []))
            (λ entry. entries_left_back self.old ≡ entry.now ∷ entries_left_back self.new) }
    {
        self.turn();
        if self.fetched == 0 {
            self.fetched = fetch_ahead(&self.rest[self.rest.len().saturating_sub(AHEAD)..]);
        }
        let (last, rest) = self.rest.split_last()?;
        if last.0.as_slice().cmp(self.from).is_lt() {
            return None;
        }
        self.rest = rest;
        self.fetched = self.fetched.saturating_sub(1);
        Some(last)
    }
}

/// Returns the last key of a walk that has a value at the bound, with that value. It reads each column once.
fn next_answer_back<'a>(walk: &mut WalkBack<'a>, bound: Stamp) -> Option<(&'a [u8], &'a [u8])>
    ensures { YieldsFirstBy deref_pair (λ walk. answers_in (entries_left_back walk) bound)
        walk.old result walk.new }
{
    while let Some(entry) = walk.next() {
        if let Some(value) = entry.1.answer(bound) {
            return Some((entry.0.as_slice(), value));
        }
    }
    None
}

/// The same keys from the last one on, against byte order. In contracts it is the list of the remaining pairs.
#[derive(Debug, Drop)]
pub struct AnswersBack<'a> {
    walk: WalkBack<'a>,
    bound: Stamp,
}

impl<'a> Model for AnswersBack<'a> {
    ghost use Rattle.std.specs.Prelude.{List, ℕ};
    ghost use Rattle.hlc_columns.specs.Answers.{answers_in, entries_left_back};

    ghost Value = { List (List ℕ × List ℕ) };

    ghost view = { λ all. answers_in (entries_left_back all.walk) all.bound };
}

impl<'a> Iterator for AnswersBack<'a> {
    type Item = (&'a [u8], &'a [u8]);

    ghost next_gives = { YieldsFirstBy deref_pair (λ pairs. pairs) };

    ghost remaining = { item_count (λ pairs. pairs) };

    fn next(&mut self) -> Option<(&'a [u8], &'a [u8])> {
        next_answer_back(&mut self.walk, self.bound)
    }
}

/// Returns the answers of the keys that are not below one key, and below another, if there is one, the last first.
pub(crate) fn answers_back<'a>(
    columns: &'a Index<Rows>,
    bound: Stamp,
    from: &'a [u8],
    to: Option<&[u8]>,
) -> AnswersBack<'a>
    ensures { AreAnswersBack (indexed_rows columns.now) bound
        (IsBetween from.now (option_copied to.entry)) result }
{
    AnswersBack {
        walk: WalkBack::between(columns, from, to),
        bound,
    }
}
