//! Keeping the flagged items of a list.
ghost use Rattle.std.specs.{Prelude.◌≡◌, Prelude.◌≤◌, Prelude.length, Prelude.take, List.items_where_true};

use hlc_table_flags::Flags;
use smallvec::SmallVec;
use std::alloc::Global;
use std::default::MadeWith;

/// Moves the flagged of the first items to the front, in their order, and returns their number. There may be more
/// items than flags.
pub(crate) fn move_flagged<T>(items: &mut [T], keep: &Flags<'_>) -> usize
    requires { length keep.now ≤ length items.old }
    ensures few { result ≤ length items.new }
    ensures long { length items.new ≡ length items.old }
    ensures front { take result items.new ≡ items_where_true keep.now items.old }
{
    let mut kept = 0;
    for i in 0..keep.len() {
        if keep.is_set(i) {
            items.swap(kept, i);
            kept += 1;
        }
    }
    kept
}

/// Keeps only the flagged items, in their order.
pub(crate) fn keep_flagged<T: MadeWith<Global> + Drop, const N: usize>(
    items: &mut SmallVec<T, N>,
    keep: &Flags<'_>,
)
    requires { length keep.now ≡ length items.old.items }
    ensures items { items.new.items ≡ items_where_true keep.now items.old.items }
    ensures capacity { items.new.capacity ≡ items.old.capacity }
{
    let kept = move_flagged(items.as_mut_slice(), keep);
    items.truncate(kept);
}
