//! A read that does not copy.
ghost use Rattle.std.specs.Prelude.{List};
ghost use Rattle.hlc_core.specs.{Past.Step, Past.stamp_of, Past.writes, StoreView.Represents};
ghost use Rattle.hlc_handle_calls.specs.Views.{ReturnsView};

use hlc_handle::{LentBytes, LentCore, find_lent};

/// Reads a key. Returns 0, the value's length, and where the value lies for as long as the core is lent; or 102 where
/// there is none, or 10, with a null pointer.
pub fn view(lent: &LentCore, id: u64, key: &[u8], value: &mut LentBytes, len: &mut usize) -> u32
    ensures { (past : List Step) → Represents lent.now.value.1 past
        → ReturnsView (stamp_of id past) (writes past) key.now lent.now.value.0 result len.new value.new }
{
    let (code, many, found) = find_lent(lent, id, key);
    if code == 0 {
        *len = many;
        *value = found;
    } else {
        *len = 0;
        *value = LentBytes::none();
    }
    code
}
