// One use of a texture in one half: a state for all of it, or for what a selector names. texture.rs, `insert` and `merge` where the
// state comes from `merge_single` or `set_single`.
ghost use Rattle.std.specs.Prelude.{◌≡◌, Some, ◌+◌, ◌≤◌, ◌<◌, set};
ghost use Rattle.model.specs.Texture.{insert, merge, single};
ghost use Rattle.set_storage.specs.Storage.{numbers_of, held_of, end_half};
ghost use Rattle.set_storage.specs.Slots.{HalfBecomes, own_words};
ghost use Rattle.set_storage.specs.Uses.{use_of};
ghost use Rattle.texture_merge.specs.Uses.{broken_up, UseReady, HeldReady, SingleReady, HalfMerged};

use crate::every::{edit_mips, fresh_mips, merge_every_mips, merge_mips};
use crate::mip::{Paint, Update};
use model::{Extent, InvalidUse, Selector, UsageFlags};
use set_storage::Table;
use usage::unite;

// Texture i becomes owned, with an extent.
pub fn own(table: &mut Table, i: usize, extent: Extent)
    requires { i < 64 }
    ensures { table.new ≡ own_words table.old i extent }
{
    table[set_storage::OWNED + i] = 1;
    table[set_storage::MIPS + i] = extent.mips;
    table[set_storage::LAYERS + i] = extent.layers;
}

// The word of texture i in one half.
pub fn set_state(table: &mut Table, half: usize, i: usize, word: u32)
    requires { (half ≤ end_half) × (i < 64) }
    ensures { table.new ≡ set table.old (half + i) word }
{
    table[half + i] = word;
}

// `insert`: what the use names is in the new state, the rest UNKNOWN.
pub fn insert_use(
    table: &mut Table,
    ranges: &mut [u32],
    half: usize,
    i: usize,
    extent: Extent,
    part: Option<Selector>,
    p: UsageFlags,
    new: u32,
)
    requires { UseReady (numbers_of table.old) half table.old ranges.old i extent part p new }
    ensures { let t = table.old in
        HalfBecomes (numbers_of t) half i (insert p extent (use_of part new))
        t ranges.old table.new ranges.new }
{
    match part {
        None => set_state(table, half, i, new),
        Some(q) => {
            set_state(table, half, i, p.complex);
            fresh_mips(table, ranges, half, i, extent, p.unknown);
            edit_mips::<Paint>(table, ranges, half, i, q, p.unknown, new);
        }
    }
}

// A Single texture is broken up: what the selector names takes a state, the rest keeps its own.
pub fn break_up(
    table: &mut Table,
    ranges: &mut [u32],
    half: usize,
    i: usize,
    extent: Extent,
    was: u32,
    q: Selector,
    p: UsageFlags,
    state: u32,
)
    requires { UseReady (numbers_of table.old) half table.old ranges.old i extent (Some q) p state }
    ensures { let t = table.old in
        HalfBecomes (numbers_of t) half i (broken_up extent was q p.unknown state)
        t ranges.old table.new ranges.new }
{
    set_state(table, half, i, p.complex);
    fresh_mips(table, ranges, half, i, extent, was);
    edit_mips::<Update>(table, ranges, half, i, q, p.unknown, state);
}

// `merge` into a texture in the state `cur`: on a conflict nothing of it changes, and what the use names is told.
pub fn merge_single_use(
    table: &mut Table,
    ranges: &mut [u32],
    half: usize,
    i: usize,
    extent: Extent,
    part: Option<Selector>,
    p: UsageFlags,
    cur: u32,
    new: u32,
) -> Result<(), InvalidUse>
    requires use_ready { UseReady (numbers_of table.old) half table.old ranges.old i extent part p new }
    requires single_ready { SingleReady half table.old i p cur new }
    ensures { let t = table.old in
        HalfMerged (numbers_of t) half i (merge p extent (single cur) (use_of part new))
        t ranges.old result table.new ranges.new }
{
    let u = unite(p, cur, new).ok_or(InvalidUse {
        selector: part.unwrap_or(extent.full()),
        old: cur,
        new,
    })?;
    match part {
        None => set_state(table, half, i, u),
        Some(q) => break_up(table, ranges, half, i, extent, cur, q, p, u),
    }
    Ok(())
}

// `merge` of a use into an owned texture.
#[inline(always)]
pub fn merge_use(
    table: &mut Table,
    ranges: &mut [u32],
    half: usize,
    i: usize,
    extent: Extent,
    part: Option<Selector>,
    p: UsageFlags,
    new: u32,
) -> Result<(), InvalidUse>
    requires use_ready { UseReady (numbers_of table.old) half table.old ranges.old i extent part p new }
    requires held_ready { HeldReady half table.old ranges.old i extent new }
    ensures { let t = table.old in let r = ranges.old in let d = numbers_of t in
        HalfMerged d half i (merge p extent (held_of d half t r i) (use_of part new)) t r result table.new ranges.new }
{
    let cur = table[half + i];
    if cur != p.complex {
        return merge_single_use(table, ranges, half, i, extent, part, p, cur, new);
    }
    match part {
        None => merge_every_mips(table, ranges, half, i, extent, p, new),
        Some(q) => merge_mips(table, ranges, half, i, q, p, new),
    }
}
