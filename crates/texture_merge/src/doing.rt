// What is done with a piece of another set's texture: `insert`, `merge` and `update` where the states come from another set.
ghost use Rattle.std.specs.Prelude.{◌≡◌};
ghost use Rattle.model.specs.declared.UsageFlags.{UsageFlags};
ghost use Rattle.model.specs.StateRules.{end_after};
ghost use Rattle.model.specs.Texture.{spread_piece};
ghost use Rattle.set_storage.specs.Storage.{numbers_of, mips_of};
ghost use Rattle.set_storage.specs.Uses.{piece};
ghost use Rattle.texture_merge.specs.Ready.{HalfTiled, Selects};
ghost use Rattle.texture_merge.specs.Walks.{MipsWalked};
ghost use Rattle.texture_merge.specs.Giving.{Does, KeepsTiled, inserted, inserted_tiled, merged, merged_tiled, spread_tiled};
ghost use Rattle.texture_merge.specs.Giving.{covered, covered_tiled};

use crate::every::{edit_mips, merge_mips};
use crate::mip::{Paint, Update};
use model::{InvalidUse, Selector, UsageFlags};
use set_storage::Table;
use usage::unite;

// What a half of a texture, whose mips tile their layers, does with a piece: a state for what a selector names.
pub trait Doing: Copy {
    ghost does: { Self → UsageFlags → Does };

    fn take(
        self,
        table: &mut Table,
        ranges: &mut [u32],
        half: usize,
        i: usize,
        q: Selector,
        p: UsageFlags,
        new: u32,
    ) -> Result<(), InvalidUse>
        requires half_tiled { HalfTiled half table.old ranges.old i }
        requires selects { Selects (numbers_of table.old) table.old i q }
        ensures { let t = table.old in let r = ranges.old in let d = numbers_of t in
            MipsWalked d half i (does self p (piece q new) (mips_of d half t r i))
            t r result table.new ranges.new };

    ghost keeps_tiled: { (s : Self) (p : UsageFlags) → KeepsTiled (does s p) };
}

// `insert`: the piece is painted.
#[derive(Clone, Copy)]
pub struct Insert;

impl Doing for Insert {
    ghost does = { λ s. inserted };

    ghost keeps_tiled = { λ s. inserted_tiled };

    fn take(
        self,
        table: &mut Table,
        ranges: &mut [u32],
        half: usize,
        i: usize,
        q: Selector,
        p: UsageFlags,
        new: u32,
    ) -> Result<(), InvalidUse> {
        edit_mips::<Paint>(table, ranges, half, i, q, p.unknown, new);
        Ok(())
    }
}

// `merge` of Many with Many.
#[derive(Clone, Copy)]
pub struct Merge;

impl Doing for Merge {
    ghost does = { λ s. merged };

    ghost keeps_tiled = { λ s. merged_tiled };

    fn take(
        self,
        table: &mut Table,
        ranges: &mut [u32],
        half: usize,
        i: usize,
        q: Selector,
        p: UsageFlags,
        new: u32,
    ) -> Result<(), InvalidUse> {
        merge_mips(table, ranges, half, i, q, p, new)
    }
}

// `merge` of Single, in the state that is told, with Many: a conflict tells the piece's selector.
#[derive(Clone, Copy)]
pub struct Spread(pub u32);

impl Doing for Spread {
    ghost does = { λ s p. spread_piece p s.0 };

    ghost keeps_tiled = { λ s p. spread_tiled p s.0 };

    fn take(
        self,
        table: &mut Table,
        ranges: &mut [u32],
        half: usize,
        i: usize,
        q: Selector,
        p: UsageFlags,
        new: u32,
    ) -> Result<(), InvalidUse> {
        let state = unite(p, self.0, new).ok_or(InvalidUse {
            selector: q,
            old: self.0,
            new,
        })?;
        edit_mips::<Update>(table, ranges, half, i, q, p.unknown, state);
        Ok(())
    }
}

// What is left of a Single end's state where a given one lies.
pub fn end_after(unknown: u32, cur: u32, new: u32) -> u32
    ensures { result ≡ end_after unknown cur new }
{
    if new == unknown { cur } else { new }
}

// `update` of a Single end, in the state that is told.
#[derive(Clone, Copy)]
pub struct Cover(pub u32);

impl Doing for Cover {
    ghost does = { λ s p. covered p s.0 };

    ghost keeps_tiled = { λ s p. covered_tiled p s.0 };

    fn take(
        self,
        table: &mut Table,
        ranges: &mut [u32],
        half: usize,
        i: usize,
        q: Selector,
        p: UsageFlags,
        new: u32,
    ) -> Result<(), InvalidUse> {
        let state = end_after(p.unknown, self.0, new);
        edit_mips::<Update>(table, ranges, half, i, q, p.unknown, state);
        Ok(())
    }
}
