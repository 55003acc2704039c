// One use of a texture of a tracker: texture.rs, `update` where the state comes from a single use, for all of it or for a selector.
ghost use Rattle.std.specs.Prelude.{Some};
ghost use Rattle.model.specs.Texture.{given_single, update};
ghost use Rattle.set_storage.specs.Storage.{numbers_of, ends_of};
ghost use Rattle.set_storage.specs.Uses.{use_of};
ghost use Rattle.texture_update.specs.Both.{BothBecome};
ghost use Rattle.texture_update.specs.Update.{UpdateReady, Selecting};

use crate::both::{learn_mips, update_both_mips};
use model::{Extent, Selector, UsageFlags};
use set_storage::{END, START, Table, wide};
use texture_merge::every::edit_mips;
use texture_merge::mip::Update;
use texture_merge::using::{break_up, set_state};

// All of the texture takes a state; where its end was UNKNOWN, its start takes it too.
#[inline(always)]
pub fn update_state(
    table: &mut Table,
    starts: &mut [u32],
    ends: &[u32],
    i: usize,
    extent: Extent,
    p: UsageFlags,
    new: u32,
)
    requires { UpdateReady table.old starts.old ends.now i extent p new }
    ensures { let t = table.old in let s = starts.old in let e = ends.now in let d = numbers_of t in
        BothBecome d i (update p extent (ends_of d t s e i) (given_single new)) t s e table.new starts.new e }
{
    let cur = table[END + i];
    let first = table[START + i];
    if cur == p.complex && first == p.complex {
        learn_mips(table, starts, ends, i, wide(extent.mips), p.unknown, new);
    }
    set_state(table, END, i, new);
}

// What a selector names takes a state that is not UNKNOWN; where its end was UNKNOWN, its start takes it too.
pub fn update_use(
    table: &mut Table,
    starts: &mut [u32],
    ends: &mut [u32],
    i: usize,
    extent: Extent,
    q: Selector,
    p: UsageFlags,
    new: u32,
)
    requires update_ready { UpdateReady table.old starts.old ends.old i extent p new }
    requires selecting { Selecting extent q p new }
    ensures { let t = table.old in let s = starts.old in let e = ends.old in let d = numbers_of t in
        BothBecome d i (update p extent (ends_of d t s e i) (use_of (Some q) new))
        t s e table.new starts.new ends.new }
{
    let cur = table[END + i];
    let first = table[START + i];
    if cur != p.complex {
        break_up(table, ends, END, i, extent, cur, q, p, new);
    } else if first != p.complex {
        edit_mips::<Update>(table, ends, END, i, q, p.unknown, new);
    } else {
        update_both_mips(table, starts, ends, i, q, p.unknown, new);
    }
}
