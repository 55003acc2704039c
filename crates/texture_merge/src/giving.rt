// The pieces of another texture, one after another: `insert`, `merge` and `update` where the states come from another set.
ghost use Rattle.std.specs.Prelude.{map};
ghost use Rattle.model.specs.Base.{passes};
ghost use Rattle.model.specs.Texture.{pieces_of};
ghost use Rattle.range_states.specs.View.{decode};
ghost use Rattle.set_storage.specs.Storage.{numbers_of, mips_of};
ghost use Rattle.set_storage.specs.Stored.{mips_stored};
ghost use Rattle.texture_merge.specs.Ready.{HalfTiled};
ghost use Rattle.texture_merge.specs.Walks.{MipsWalked};
ghost use Rattle.texture_merge.specs.Giving.{piece_on, GivenMip, GivenTexture};

use crate::doing::Doing;
use model::{InvalidUse, Selector, UsageFlags};
use range_states::get;
use set_storage::{Run, Stored, Table};

// The ranges of mip m of the given texture, up to the first conflict.
pub fn give_mip<D: Doing>(
    table: &mut Table,
    ranges: &mut [u32],
    half: usize,
    i: usize,
    doing: D,
    m: u32,
    run: Run<'_>,
    p: UsageFlags,
) -> Result<(), InvalidUse>
    requires half_tiled { HalfTiled half table.old ranges.old i }
    requires given_mip { GivenMip table.old i m run }
    ensures { let t = table.old in let r = ranges.old in let g = run.entry in let d = numbers_of t in
        MipsWalked d half i (passes (D.does doing p) (map (piece_on m) (decode g.len g.records.now)) (mips_of d half t r i))
        t r result table.new ranges.new }
{
    for k in 0..run.len {
        let r = get(run.records, k);
        let q = Selector::on_mip(m, r.start, r.end);
        doing.take(table, ranges, half, i, q, p, r.state)?;
    }
    Ok(())
}

// Every mip of the given texture, up to the first conflict.
pub fn give_mips<D: Doing>(
    table: &mut Table,
    ranges: &mut [u32],
    half: usize,
    doing: D,
    mips: u32,
    given: Stored<'_>,
    p: UsageFlags,
) -> Result<(), InvalidUse>
    requires half_tiled { HalfTiled half table.old ranges.old given.i }
    requires given_texture { GivenTexture table.old mips given }
    ensures { let t = table.old in let r = ranges.old in let g = given.entry in let d = numbers_of t in
        MipsWalked d half g.i (passes (D.does doing p) (pieces_of (mips_stored g)) (mips_of d half t r g.i))
        t r result table.new ranges.new }
{
    for m in 0..mips {
        give_mip(table, ranges, half, given.i, doing, m, given.mip(m), p)?;
    }
    Ok(())
}
