// A texture of another set, given to a texture of a tracker: texture.rs, `update` where the states come from `set_from_usage_scope`,
// `set_from_tracker` or the sparse call.
ghost use Rattle.std.specs.Prelude.{map};
ghost use Rattle.model.specs.Texture.{pieces_of, from_held, update};
ghost use Rattle.range_states.specs.View.{decode};
ghost use Rattle.set_storage.specs.Storage.{numbers_of, ends_of};
ghost use Rattle.set_storage.specs.Stored.{mips_stored, held_in};
ghost use Rattle.set_storage.specs.Uses.{piece};
ghost use Rattle.texture_merge.specs.Ready.{Selects};
ghost use Rattle.texture_merge.specs.Giving.{piece_on, GivenMip, GivenTexture};
ghost use Rattle.texture_update.specs.Both.{BothBecome};
ghost use Rattle.texture_update.specs.Pieces.{updated, updates, PairReady};
ghost use Rattle.texture_update.specs.FromSet.{UpdateFromReady};

use crate::both::update_both_mips;
use crate::using::update_state;
use model::{Extent, Selector, UsageFlags};
use range_states::get;
use set_storage::{END, Run, START, Stored, Table};
use texture_merge::doing::Cover;
use texture_merge::every::{edit_mips, fresh_mips};
use texture_merge::giving::give_mips;
use texture_merge::mip::Update;
use texture_merge::using::set_state;

// One piece, on a texture whose end is Many; one that is UNKNOWN is passed over.
pub fn update_piece(
    table: &mut Table,
    starts: &mut [u32],
    ends: &mut [u32],
    i: usize,
    q: Selector,
    p: UsageFlags,
    state: u32,
)
    requires pair_ready { PairReady table.old starts.old ends.old i p }
    requires selects { Selects (numbers_of table.old) table.old i q }
    ensures { let t = table.old in let s = starts.old in let e = ends.old in let d = numbers_of t in
        BothBecome d i (updated p.unknown (piece q state) (ends_of d t s e i))
        t s e table.new starts.new ends.new }
{
    if state == p.unknown {
        return;
    }
    let first = table[START + i];
    if first != p.complex {
        edit_mips::<Update>(table, ends, END, i, q, p.unknown, state);
    } else {
        update_both_mips(table, starts, ends, i, q, p.unknown, state);
    }
}

// The ranges of mip m of the given texture, one after another. (Not one function with `give_mip`: both halves change, and none stops.)
pub fn update_from_mip(
    table: &mut Table,
    starts: &mut [u32],
    ends: &mut [u32],
    i: usize,
    m: u32,
    run: Run<'_>,
    p: UsageFlags,
)
    requires pair_ready { PairReady table.old starts.old ends.old i p }
    requires given_mip { GivenMip table.old i m run }
    ensures { let t = table.old in let s = starts.old in let e = ends.old in let g = run.entry in let d = numbers_of t in
        BothBecome d i (updates p.unknown (map (piece_on m) (decode g.len g.records.now)) (ends_of d t s e i))
        t s e table.new starts.new ends.new }
{
    for k in 0..run.len {
        let r = get(run.records, k);
        let q = Selector::on_mip(m, r.start, r.end);
        update_piece(table, starts, ends, i, q, p, r.state);
    }
}

// Every mip of the given texture, one after another.
pub fn update_from_mips(
    table: &mut Table,
    starts: &mut [u32],
    ends: &mut [u32],
    mips: u32,
    given: Stored<'_>,
    p: UsageFlags,
)
    requires pair_ready { PairReady table.old starts.old ends.old given.i p }
    requires given_texture { GivenTexture table.old mips given }
    ensures { let t = table.old in let s = starts.old in let e = ends.old in let g = given.entry in let d = numbers_of t in
        BothBecome d g.i (updates p.unknown (pieces_of (mips_stored g)) (ends_of d t s e g.i))
        t s e table.new starts.new ends.new }
{
    for m in 0..mips {
        update_from_mip(table, starts, ends, given.i, m, given.mip(m), p);
    }
}

// `update`: the end takes what the given texture holds; where it was UNKNOWN, the start takes the same. Single with Single, which most are,
// by a short way: its end takes the state.
#[inline(always)]
pub fn update_given(
    table: &mut Table,
    starts: &mut [u32],
    ends: &mut [u32],
    extent: Extent,
    given: Stored<'_>,
    p: UsageFlags,
)
    requires { UpdateFromReady table.old starts.old ends.old extent given p }
    ensures { let t = table.old in let s = starts.old in let e = ends.old in let g = given.entry in let d = numbers_of t in
        BothBecome d g.i (update p extent (ends_of d t s e g.i) (from_held (held_in g)))
        t s e table.new starts.new ends.new }
{
    let word = given.word();
    if word != p.complex {
        if table[END + given.i] != p.complex {
            set_state(table, END, given.i, word);
            return;
        }
    }
    update_any(table, starts, ends, extent, given, p);
}

// The same in every case; out of line, so that the short way is small.
#[cold]
fn update_any(
    table: &mut Table,
    starts: &mut [u32],
    ends: &mut [u32],
    extent: Extent,
    given: Stored<'_>,
    p: UsageFlags,
)
    requires { UpdateFromReady table.old starts.old ends.old extent given p }
    ensures { let t = table.old in let s = starts.old in let e = ends.old in let g = given.entry in let d = numbers_of t in
        BothBecome d g.i (update p extent (ends_of d t s e g.i) (from_held (held_in g)))
        t s e table.new starts.new ends.new }
{
    let word = given.word();
    let i = given.i;
    if word != p.complex {
        update_state(table, starts, ends, i, extent, p, word);
        return;
    }
    let cur = table[END + i];
    if cur == p.complex {
        update_from_mips(table, starts, ends, extent.mips, given, p);
        return;
    }
    set_state(table, END, i, p.complex);
    fresh_mips(table, ends, END, i, extent, cur);
    // Covering meets no conflict.
    let _ = give_mips(table, ends, END, Cover(cur), extent.mips, given, p);
}
