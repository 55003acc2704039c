// One texture of a scope: `insert_or_merge` of texture.rs.
ghost use Rattle.std.specs.Prelude.{◌≡◌};
ghost use Rattle.model.specs.Calls.{merge_slot, merge_given};
ghost use Rattle.model.specs.Texture.{ranged};
ghost use Rattle.set_storage.specs.Storage.{flags_of, start_half, scope_slot};
ghost use Rattle.set_storage.specs.Stays.{Only, OnlyOwned};
ghost use Rattle.set_storage.specs.Uses.{use_of};
ghost use Rattle.set_ready.specs.Checked.{TakenUse};
ghost use Rattle.set_ready.specs.Half.{HalfReady};
ghost use Rattle.set_ready.specs.Given.{given_at, HalfGiven};
ghost use Rattle.call_merge.specs.Slot.{OwnedReady, SlotMerged};

use model::{Extent, InvalidUse, Selector, UsageFlags};
use set_storage::{OWNED, START, Stored, Table, extent_of};
use texture_merge::from_set::{insert_given, merge_given};
use texture_merge::using::{insert_use, merge_use, own};

// A use of the texture.
pub fn merge_use_at(
    table: &mut Table,
    ranges: &mut [u32],
    i: usize,
    extent: Extent,
    part: Option<Selector>,
    p: UsageFlags,
    new: u32,
) -> Result<(), InvalidUse>
    requires half_ready { HalfReady start_half table.old ranges.old i extent }
    requires taken_use { TakenUse table.old extent part p new }
    ensures { let t = table.old in let r = ranges.old in
        SlotMerged (Only i) t r i (merge_slot ranged p extent (use_of part new) i (scope_slot t r i)) result table.new
        ranges.new }
{
    if table[OWNED + i] == 0 {
        own(table, i, extent);
        insert_use(table, ranges, START, i, extent, part, p, new);
        return Ok(());
    }
    merge_use(table, ranges, START, i, extent, part, p, new)
}

// What the given scope holds at the same index.
#[inline(always)]
pub fn merge_given_at(
    table: &mut Table,
    ranges: &mut [u32],
    i: usize,
    extent: Extent,
    given: &Table,
    lent: &[u32],
    p: UsageFlags,
) -> Result<(), InvalidUse>
    requires half_ready { HalfReady start_half table.old ranges.old i extent }
    requires half_given { HalfGiven table.old i extent start_half given.now lent.now }
    requires p_value { p ≡ flags_of table.old }
    ensures { let t = table.old in let r = ranges.old in let g = given.now in let l = lent.now in
        SlotMerged (Only i) t r i (merge_slot ranged p extent (given_at start_half g l i) i (scope_slot t r i)) result table.new
        ranges.new }
{
    let texture = Stored {
        table: given,
        ranges: lent,
        half: START,
        i,
    };
    if table[OWNED + i] == 0 {
        own(table, i, extent);
        insert_given(table, ranges, START, extent, texture, p);
        return Ok(());
    }
    merge_given(table, ranges, START, extent, texture, p)
}

// The same if the given scope owns the index; otherwise the texture stays.
pub fn merge_owned_at(
    table: &mut Table,
    ranges: &mut [u32],
    i: usize,
    given: &Table,
    lent: &[u32],
    p: UsageFlags,
) -> Result<(), InvalidUse>
    requires owned_ready { OwnedReady table.old ranges.old i given.now lent.now }
    requires p_value { p ≡ flags_of table.old }
    ensures { let t = table.old in let r = ranges.old in let g = given.now in let l = lent.now in
        SlotMerged (OnlyOwned g i) t r i (merge_given ranged p i (scope_slot t r i) (scope_slot g l i)) result table.new
        ranges.new }
{
    if given[OWNED + i] == 0 {
        return Ok(());
    }
    merge_given_at(table, ranges, i, extent_of(given, i), given, lent, p)
}
