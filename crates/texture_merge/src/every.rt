// Every mip of a texture in one half, or those of a selector, one after another.
ghost use Rattle.std.specs.Prelude.{[], ◌∷◌, replicate};
ghost use Rattle.model.specs.Base.{walk};
ghost use Rattle.model.specs.Representation.{layer_start, layer_end};
ghost use Rattle.model.specs.RangedStates.{range};
ghost use Rattle.model.specs.Texture.{on_mips, merge_mip, merge_every};
ghost use Rattle.set_storage.specs.Storage.{numbers_of, mips_of};
ghost use Rattle.set_storage.specs.Uses.{piece};
ghost use Rattle.set_storage.specs.Frames.{MipsBecome};
ghost use Rattle.texture_merge.specs.Ready.{HalfTiled, Selects, EveryReady};
ghost use Rattle.texture_merge.specs.Walks.{MipsWalked};

use crate::mip::{Edit, conflict_on, edit_mip, fresh_mip, merge_every_mip, merge_mip};
use model::{Extent, InvalidUse, Selector, UsageFlags};
use set_storage::{Table, wide};

// `ComplexTextureState::new`, in any state: each mip one range over all layers.
pub fn fresh_mips(
    table: &mut Table,
    ranges: &mut [u32],
    half: usize,
    i: usize,
    extent: Extent,
    state: u32,
)
    requires { EveryReady (numbers_of table.old) half table.old ranges.old i extent.mips }
    ensures { let t = table.old in
        MipsBecome (numbers_of t) half i (replicate extent.mips (range 0 extent.layers state ∷ []))
        t ranges.old table.new ranges.new }
{
    for m in 0..wide(extent.mips) {
        fresh_mip(table, ranges, half, i, m, extent.layers, state);
    }
}

// What a selector names takes a state, mip by mip.
pub fn edit_mips<E: Edit>(
    table: &mut Table,
    ranges: &mut [u32],
    half: usize,
    i: usize,
    q: Selector,
    unknown: u32,
    state: u32,
)
    requires half_tiled { HalfTiled half table.old ranges.old i }
    requires selects { Selects (numbers_of table.old) table.old i q }
    ensures { let t = table.old in let r = ranges.old in let d = numbers_of t in
        MipsBecome d half i (on_mips q (E.edit unknown (layer_start q) (layer_end q) state) 0 (mips_of d half t r i))
        t r table.new ranges.new }
{
    let start = q.layers.start.0;
    let end = q.layers.end.0;
    for m in wide(q.mips.start.0)..wide(q.mips.end.0) {
        edit_mip::<E>(table, ranges, half, i, m, start, end, unknown, state);
    }
}

// `merge` of Many with Many: a piece, mip by mip, up to the first conflict.
pub fn merge_mips(
    table: &mut Table,
    ranges: &mut [u32],
    half: usize,
    i: usize,
    q: Selector,
    p: UsageFlags,
    new: u32,
) -> Result<(), InvalidUse>
    requires half_tiled { HalfTiled half table.old ranges.old i }
    requires selects { Selects (numbers_of table.old) table.old i q }
    ensures { let t = table.old in let r = ranges.old in let d = numbers_of t in
        MipsWalked d half i (walk (merge_mip p (piece q new)) 0 (mips_of d half t r i))
        t r result table.new ranges.new }
{
    let start = q.layers.start.0;
    let end = q.layers.end.0;
    for m in wide(q.mips.start.0)..wide(q.mips.end.0) {
        let met = merge_mip(table, ranges, half, i, m, start, end, p, new);
        conflict_on(m, met, new)?;
    }
    Ok(())
}

// `merge` of Many with Single: one state on every mip, up to the first conflict. (Not one function with `merge_mips`, by a trait as `Edit`:
// they go over other mips, and the trait with its two types would be longer than a loop.)
pub fn merge_every_mips(
    table: &mut Table,
    ranges: &mut [u32],
    half: usize,
    i: usize,
    extent: Extent,
    p: UsageFlags,
    new: u32,
) -> Result<(), InvalidUse>
    requires half_tiled { HalfTiled half table.old ranges.old i }
    requires every_ready { EveryReady (numbers_of table.old) half table.old ranges.old i extent.mips }
    ensures { let t = table.old in let r = ranges.old in let d = numbers_of t in
        MipsWalked d half i (walk (merge_every p new) 0 (mips_of d half t r i)) t r result table.new ranges.new }
{
    for m in 0..wide(extent.mips) {
        let met = merge_every_mip(table, ranges, half, i, m, p, new);
        conflict_on(m, met, new)?;
    }
    Ok(())
}
