// A texture of another set, given to one half of a texture: `insert` and `merge` where the states come from `merge_usage_scope`,
// `set_from_usage_scope` or `set_from_tracker`.
ghost use Rattle.model.specs.Texture.{from_held, insert, merge};
ghost use Rattle.set_storage.specs.Storage.{numbers_of, held_of};
ghost use Rattle.set_storage.specs.Slots.{HalfBecomes};
ghost use Rattle.set_storage.specs.Stored.{held_in};
ghost use Rattle.texture_merge.specs.Uses.{HalfMerged};
ghost use Rattle.texture_merge.specs.FromSet.{SetReady, MergeReady};

use crate::doing::{Insert, Merge, Spread};
use crate::every::fresh_mips;
use crate::giving::give_mips;
use crate::using::{merge_single_use, merge_use, set_state};
use model::{Extent, InvalidUse, UsageFlags};
use set_storage::{Stored, Table};

// `insert`: the half holds what the given texture holds.
pub fn insert_given(
    table: &mut Table,
    ranges: &mut [u32],
    half: usize,
    extent: Extent,
    given: Stored<'_>,
    p: UsageFlags,
)
    requires { SetReady half table.old ranges.old extent given p }
    ensures { let t = table.old in let g = given.entry in
        HalfBecomes (numbers_of t) half g.i (insert p extent (from_held (held_in g))) t ranges.old table.new ranges.new }
{
    let i = given.i;
    let word = given.word();
    set_state(table, half, i, word);
    if word == p.complex {
        fresh_mips(table, ranges, half, i, extent, p.unknown);
        // An insert meets no conflict.
        let _ = give_mips(table, ranges, half, Insert, extent.mips, given, p);
    }
}

// `merge`: up to the first conflict; a Single texture that meets one is as it was. Single with Single, which most are, by a short way.
#[inline(always)]
pub fn merge_given(
    table: &mut Table,
    ranges: &mut [u32],
    half: usize,
    extent: Extent,
    given: Stored<'_>,
    p: UsageFlags,
) -> Result<(), InvalidUse>
    requires set_ready { SetReady half table.old ranges.old extent given p }
    requires merge_ready { MergeReady half table.old ranges.old extent given p }
    ensures { let t = table.old in let r = ranges.old in let g = given.entry in let d = numbers_of t in
        HalfMerged d half g.i (merge p extent (held_of d half t r g.i) (from_held (held_in g))) t r result table.new ranges.new }
{
    let i = given.i;
    let word = given.word();
    if word != p.complex {
        let cur = table[half + i];
        if cur != p.complex {
            return merge_single_use(table, ranges, half, i, extent, None, p, cur, word);
        }
    }
    merge_any(table, ranges, half, extent, given, p)
}

// The same in every case; out of line, so that the short way is small.
#[cold]
fn merge_any(
    table: &mut Table,
    ranges: &mut [u32],
    half: usize,
    extent: Extent,
    given: Stored<'_>,
    p: UsageFlags,
) -> Result<(), InvalidUse>
    requires set_ready { SetReady half table.old ranges.old extent given p }
    requires merge_ready { MergeReady half table.old ranges.old extent given p }
    ensures { let t = table.old in let r = ranges.old in let g = given.entry in let d = numbers_of t in
        HalfMerged d half g.i (merge p extent (held_of d half t r g.i) (from_held (held_in g))) t r result table.new ranges.new }
{
    let i = given.i;
    let word = given.word();
    if word != p.complex {
        return merge_use(table, ranges, half, i, extent, None, p, word);
    }
    let cur = table[half + i];
    if cur == p.complex {
        return give_mips(table, ranges, half, Merge, extent.mips, given, p);
    }
    fresh_mips(table, ranges, half, i, extent, cur);
    give_mips(table, ranges, half, Spread(cur), extent.mips, given, p)?;
    set_state(table, half, i, p.complex);
    Ok(())
}
