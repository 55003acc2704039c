// One texture of a tracker, by its mips: the start learns where the end is UNKNOWN, and the end takes the new state.
ghost use Rattle.std.specs.Prelude.{◌≡◌, ◌+◌, ◌≤◌, ◌<◌, get_or, set};
ghost use Rattle.model.specs.RangedStates.{isolate, coalesce, paint};
ghost use Rattle.model.specs.Texture.{learn, learn_all, met_by};
ghost use Rattle.set_storage.specs.Storage.{numbers_of, start_half, end_half, mips_in, mip_of, mips_of, layers_at};
ghost use Rattle.set_storage.specs.Frames.{MipsBecome};
ghost use Rattle.set_storage.specs.Uses.{piece};
ghost use Rattle.texture_merge.specs.Ready.{updated_mips, Selects};
ghost use Rattle.texture_update.specs.Both.{BothMips};
ghost use Rattle.texture_update.specs.Learning.{PairTiled, BothReady};

use crate::pair::learn_update;
use model::Selector;
use set_storage::{END, START, Table, locate, set_count, wide};

// Mip m of the start takes a state where mip m of the end is UNKNOWN.
pub fn learn_mip(
    table: &mut Table,
    starts: &mut [u32],
    ends: &[u32],
    i: usize,
    m: usize,
    unknown: u32,
    new: u32,
)
    requires { PairTiled table.old starts.old ends.now i m }
    ensures { let t = table.old in let s = starts.old in let e = ends.now in let d = numbers_of t in
        MipsBecome d start_half i
        (set (mips_of d start_half t s i) m (learn unknown new (mip_of d end_half t e i m) (mip_of d start_half t s i m)))
        t s table.new starts.new }
{
    let at = locate(table, starts.len(), START, i, m);
    let by = locate(table, ends.len(), END, i, m);
    let n = texture_mips::learn(
        &mut starts[at.base..at.end],
        at.len,
        &ends[by.base..by.end],
        0,
        by.len,
        unknown,
        new,
    );
    set_count(table, START, i, m, n);
}

// Every mip of the start takes a state where that of the end is UNKNOWN.
pub fn learn_mips(
    table: &mut Table,
    starts: &mut [u32],
    ends: &[u32],
    i: usize,
    mips: usize,
    unknown: u32,
    new: u32,
)
    requires both_ready { BothReady table.old starts.old ends.now i }
    requires mips_value { mips ≡ mips_in (numbers_of table.old) table.old i }
    ensures { let t = table.old in let s = starts.old in let e = ends.now in let d = numbers_of t in
        MipsBecome d start_half i (learn_all (λ k x. x) unknown new 0 (mips_of d end_half t e i) (mips_of d start_half t s i))
        t s table.new starts.new }
{
    for m in 0..mips {
        learn_mip(table, starts, ends, i, m, unknown, new);
    }
}

// The layers from `start` to `end` of mip m of the end take a state; where they were UNKNOWN, mip m of the start takes it too. (Not one
// function with `learn_mip`: it lends the end to be changed too, and writes both counts.)
pub fn update_both_mip(
    table: &mut Table,
    starts: &mut [u32],
    ends: &mut [u32],
    i: usize,
    m: usize,
    start: u32,
    end: u32,
    unknown: u32,
    new: u32,
)
    requires pair_tiled { PairTiled table.old starts.old ends.old i m }
    requires start_lt_end { (start < end) × (end ≤ get_or table.old (layers_at i) 0) }
    ensures { let t = table.old in let s = starts.old in let e = ends.old in let d = numbers_of t in
        let first = mip_of d start_half t s i m in let last = mip_of d end_half t e i m in
        BothMips d i (set (mips_of d start_half t s i) m (learn unknown new (isolate start end unknown last).run first))
        (set (mips_of d end_half t e i) m (coalesce (paint unknown start end new last)))
        t s e table.new starts.new ends.new }
{
    let at = locate(table, starts.len(), START, i, m);
    let by = locate(table, ends.len(), END, i, m);
    let n = learn_update(
        &mut starts[at.base..at.end],
        at.len,
        &mut ends[by.base..by.end],
        by.len,
        start,
        end,
        unknown,
        new,
    );
    set_count(table, START, i, m, n.start);
    set_count(table, END, i, m, n.end);
}

// What a selector names of the end takes a state that is not UNKNOWN; where it was UNKNOWN, the start takes it too.
pub fn update_both_mips(
    table: &mut Table,
    starts: &mut [u32],
    ends: &mut [u32],
    i: usize,
    q: Selector,
    unknown: u32,
    new: u32,
)
    requires both_ready { BothReady table.old starts.old ends.old i }
    requires selects { Selects (numbers_of table.old) table.old i q }
    ensures { let t = table.old in let s = starts.old in let e = ends.old in let d = numbers_of t in
        BothMips d i
        (learn_all (met_by unknown (piece q new)) unknown new 0
        (mips_of d end_half t e i) (mips_of d start_half t s i))
        (updated_mips unknown q new (mips_of d end_half t e i))
        t s e table.new starts.new ends.new }
{
    for m in wide(q.mips.start.0)..wide(q.mips.end.0) {
        update_both_mip(
            table,
            starts,
            ends,
            i,
            m,
            q.layers.start.0,
            q.layers.end.0,
            unknown,
            new,
        );
    }
}
