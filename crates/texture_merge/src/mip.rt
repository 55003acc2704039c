// One mip of a texture in one half: its ranges are lent on, and its new count is written; how it takes a state, and what a merge into it
// tells. What the loops of `every` call is made inline, so that each of them is one function.
ghost use Rattle.std.specs.Prelude.{◌≡◌, ◌<◌, ℕ, List, [], ◌∷◌, get_or, set};
ghost use Rattle.model.specs.Prelude.{result_err};
ghost use Rattle.model.specs.declared.Range.{Range};
ghost use Rattle.range_states.specs.View.{decode};
ghost use Rattle.range_isolate.specs.Isolation.{IsolateRoom};
ghost use Rattle.texture_mips.specs.Paint.{Leaves};
ghost use Rattle.model.specs.RangedStates.{range, coalesce, paint as paint_of};
ghost use Rattle.model.specs.Texture.{merge_every};
ghost use Rattle.texture_mips.specs.Merge.{merge_run, conflict_of};
ghost use Rattle.set_storage.specs.Storage.{numbers_of, mip_of, mips_of, layers_at};
ghost use Rattle.set_storage.specs.Frames.{MipReady, MipsBecome};
ghost use Rattle.texture_merge.specs.Ready.{PieceReady, MipTiled};
ghost use Rattle.texture_merge.specs.Walks.{MipWalked};

use model::{InvalidUse, Range, Selector, UsageFlags};
use set_storage::{Table, locate, set_count};

// What some layers of a mip do when they take a state; gaps there come from `unknown`.
pub trait Edit {
    ghost edit: { ℕ → ℕ → ℕ → ℕ → List Range → List Range };

    // Tells the new count.
    fn edit(s: &mut [u32], len: usize, start: u32, end: u32, unknown: u32, state: u32) -> usize
        requires { IsolateRoom s.old len start end unknown }
        ensures { Leaves s.old result (edit unknown start end state (decode len s.old)) s.new };
}

// `insert`: nothing is coalesced.
pub struct Paint;

impl Edit for Paint {
    ghost edit = { paint_of };

    fn edit(s: &mut [u32], len: usize, start: u32, end: u32, unknown: u32, state: u32) -> usize {
        texture_mips::paint(s, len, start, end, unknown, state)
    }
}

// `update`, and `merge` of Single with Many: the mip is coalesced.
pub struct Update;

impl Edit for Update {
    ghost edit = { λ unknown start end state s. coalesce (paint_of unknown start end state s) };

    fn edit(s: &mut [u32], len: usize, start: u32, end: u32, unknown: u32, state: u32) -> usize {
        texture_mips::update(s, len, start, end, unknown, state)
    }
}

// The layers from `start` to `end` take a state.
#[inline(always)]
pub fn edit_mip<E: Edit>(
    table: &mut Table,
    ranges: &mut [u32],
    half: usize,
    i: usize,
    m: usize,
    start: u32,
    end: u32,
    unknown: u32,
    state: u32,
)
    requires { PieceReady half table.old ranges.old i m start end }
    ensures { let t = table.old in let r = ranges.old in let d = numbers_of t in
        MipsBecome d half i (set (mips_of d half t r i) m (E.edit unknown start end state (mip_of d half t r i m)))
        t r table.new ranges.new }
{
    let at = locate(table, ranges.len(), half, i, m);
    let part = &mut ranges[at.base..at.end];
    let n = E::edit(part, at.len, start, end, unknown, state);
    set_count(table, half, i, m, n);
}

// `update`, and `merge` of Single with Many.
pub fn update_mip(
    table: &mut Table,
    ranges: &mut [u32],
    half: usize,
    i: usize,
    m: usize,
    start: u32,
    end: u32,
    unknown: u32,
    state: u32,
)
    requires { PieceReady half table.old ranges.old i m start end }
    ensures { let t = table.old in let r = ranges.old in let d = numbers_of t in
        MipsBecome d half i (set (mips_of d half t r i) m (coalesce (paint_of unknown start end state (mip_of d half t r i m))))
        t r table.new ranges.new }
{
    edit_mip::<Update>(table, ranges, half, i, m, start, end, unknown, state);
}

// `insert`.
pub fn paint_mip(
    table: &mut Table,
    ranges: &mut [u32],
    half: usize,
    i: usize,
    m: usize,
    start: u32,
    end: u32,
    unknown: u32,
    state: u32,
)
    requires { PieceReady half table.old ranges.old i m start end }
    ensures { let t = table.old in let r = ranges.old in let d = numbers_of t in
        MipsBecome d half i (set (mips_of d half t r i) m (paint_of unknown start end state (mip_of d half t r i m)))
        t r table.new ranges.new }
{
    edit_mip::<Paint>(table, ranges, half, i, m, start, end, unknown, state);
}

// `ComplexTextureState::new`, for one mip and any state: one range over all layers.
#[inline(always)]
pub fn fresh_mip(
    table: &mut Table,
    ranges: &mut [u32],
    half: usize,
    i: usize,
    m: usize,
    layers: u32,
    state: u32,
)
    requires { MipReady (numbers_of table.old) half table.old ranges.old i m }
    ensures { let t = table.old in let r = ranges.old in let d = numbers_of t in
        MipsBecome d half i (set (mips_of d half t r i) m (range 0 layers state ∷ [])) t r table.new ranges.new }
{
    let at = locate(table, ranges.len(), half, i, m);
    texture_mips::fresh(&mut ranges[at.base..at.end], layers, state);
    set_count(table, half, i, m, 1);
}

// `merge` of Many with Many: a piece with the layers from `start` to `end`. Tells the range that it met, if any.
#[inline(always)]
pub fn merge_mip(
    table: &mut Table,
    ranges: &mut [u32],
    half: usize,
    i: usize,
    m: usize,
    start: u32,
    end: u32,
    p: UsageFlags,
    new: u32,
) -> Option<Range>
    requires { PieceReady half table.old ranges.old i m start end }
    ensures { let t = table.old in let r = ranges.old in let d = numbers_of t in
        MipWalked d half i m (merge_run p m start end new (mip_of d half t r i m))
        (conflict_of m new result) t r table.new ranges.new }
{
    let at = locate(table, ranges.len(), half, i, m);
    let part = &mut ranges[at.base..at.end];
    let r = texture_mips::merge_piece(part, at.len, start, end, p, new);
    set_count(table, half, i, m, r.len);
    r.met
}

// `merge` of Many with Single: one state on every range. Tells the range that it met, if any.
#[inline(always)]
pub fn merge_every_mip(
    table: &mut Table,
    ranges: &mut [u32],
    half: usize,
    i: usize,
    m: usize,
    p: UsageFlags,
    new: u32,
) -> Option<Range>
    requires { MipTiled (numbers_of table.old) half table.old ranges.old i m (get_or table.old (layers_at i) 0) }
    ensures { let t = table.old in let r = ranges.old in let d = numbers_of t in
        MipWalked d half i m (merge_every p new m (mip_of d half t r i m))
        (conflict_of m new result) t r table.new ranges.new }
{
    let at = locate(table, ranges.len(), half, i, m);
    let r = texture_mips::merge_every(&mut ranges[at.base..at.end], at.len, p, new);
    set_count(table, half, i, m, r.len);
    r.met
}

// What a merge of mip m met, as an invalid use: the range's selector, its state and the given one.
pub fn conflict_on(m: usize, met: Option<Range>, new: u32) -> Result<(), InvalidUse>
    requires { m < 16 }
    ensures { result_err result ≡ conflict_of m new met }
{
    match met {
        Some(r) => Err(InvalidUse {
            selector: Selector::on_mip(m as u32, r.start, r.end),
            old: r.state,
            new,
        }),
        None => Ok(()),
    }
}
