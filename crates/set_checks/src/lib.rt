// Set checks: 01's table from 6 to 13, 16 to 19 in 10's place, on the numbers of a table: what a call answers before it changes anything.
//
// Place in the picture: over `set_storage` and `usage`, under the public calls, which test the sets first (4, `set_wellformed`) and count
// the log's entries last (15, `texture_barrier`). Each check equals the model's (model/specs/Refusals) at the head of the view: the
// numbers, the flags, and the extents of the indices that are owned. One function checks a selector, one a state.
//
// What holds: nothing is written. A check that passes answers `Ok`, and one that fails the refusal with its place. What passed checks
// show is in specs/Passed.
#![tactic(auto)]

pub mod sets;

ghost use Rattle.std.specs.Prelude.{◌≡◌, ◌<◌, Some};
ghost use Rattle.model.specs.Refusals.{extent_outside, other_extent, selector_past};
ghost use Rattle.set_checks.specs.Head.{Few, owned_extent, TextureTold, EndsTold, SelectorTold, StateTold, UseTold};
ghost use Rattle.set_storage.specs.Storage.{numbers_of};

use model::{Extent, Refusal, Selector, TrackerIndex, UsageFlags};
use set_storage::{LAYER_LIMIT, MIP_LIMIT, OWNED, TEXTURES, Table, extent_of, flags_of, wide};
pub use sets::{check_set, check_sparse};
use usage::{incompatible, state_reserved};

// 8: whether an extent is outside a table's limits.
fn extent_outside(table: &Table, extent: Extent) -> bool
    ensures { result ≡ extent_outside (numbers_of table.now) extent }
{
    ((extent.mips == 0) | (table[MIP_LIMIT] < extent.mips))
        | ((extent.layers == 0) | (table[LAYER_LIMIT] < extent.layers))
}

// 9: whether index k is owned with another extent.
pub fn other_extent(table: &Table, k: usize, extent: Extent) -> bool
    requires { k < 64 }
    ensures { result ≡ other_extent (owned_extent table.now k) extent }
{
    (table[OWNED + k] != 0) & (extent_of(table, k) != extent)
}

// 7, 8, 9: a texture.
#[tactic(auto, using(crate::proofs::Splits::texture_past, crate::proofs::Splits::texture_splits))]
pub fn check_texture(table: &Table, index: TrackerIndex, extent: Extent) -> Result<(), Refusal>
    requires { Few table.now }
    ensures { TextureTold table.now index.0 extent result }
{
    if table[TEXTURES] <= index.0 {
        return Err(Refusal::NoSuchIndex(index));
    }
    if extent_outside(table, extent) {
        return Err(Refusal::ExtentOutOfLimits(index));
    }
    if other_extent(table, wide(index.0), extent) {
        return Err(Refusal::ExtentDiffers(index));
    }
    Ok(())
}

// 16 and 17, or 18 and 19: an interval, with the refusal of one of no length and of a reversed one.
#[tactic(auto, unfolding(model::specs::Refusals::first_failing))]
fn check_ends(start: u32, end: u32, empty: Refusal, reversed: Refusal) -> Result<(), Refusal>
    ensures { EndsTold empty reversed start end result }
{
    if start == end {
        return Err(empty);
    }
    if end < start {
        return Err(reversed);
    }
    Ok(())
}

// 11: whether an end of a selector is past an extent.
fn selector_past(extent: Extent, q: Selector) -> bool
    ensures { result ≡ selector_past extent q }
{
    extent.mips < q.mips.end.0 || extent.layers < q.layers.end.0
}

// 16 to 19, 11: a selector.
#[tactic(auto, using(crate::proofs::Splits::selector_splits))]
pub fn check_selector(extent: Extent, q: Selector) -> Result<(), Refusal>
    ensures { SelectorTold extent (Some q) result }
{
    check_ends(
        q.mips.start.0,
        q.mips.end.0,
        Refusal::MipsEmpty,
        Refusal::MipsReversed,
    )?;
    check_ends(
        q.layers.start.0,
        q.layers.end.0,
        Refusal::LayersEmpty,
        Refusal::LayersReversed,
    )?;
    if selector_past(extent, q) {
        return Err(Refusal::SelectorPastExtent);
    }
    Ok(())
}

// 16 to 19, 11: a selector, if one is given.
#[tactic(auto, unfolding(crate::specs::Head::selector_refusal, model::specs::Refusals::first_failing))]
pub fn check_selection(extent: Extent, selection: Option<Selector>) -> Result<(), Refusal>
    ensures { SelectorTold extent selection result }
{
    match selection {
        Some(q) => check_selector(extent, q),
        None => Ok(()),
    }
}

// 12, 13: a state.
#[tactic(auto, unfolding(crate::specs::Head::state_refusal, model::specs::Refusals::first_failing))]
pub fn check_state(p: UsageFlags, state: u32) -> Result<(), Refusal>
    ensures { StateTold p state result }
{
    if state_reserved(p, state) {
        return Err(Refusal::StateReserved);
    }
    if incompatible(p, state) {
        return Err(Refusal::StateIncompatible);
    }
    Ok(())
}

// 7 to 13, 16 to 19 in 10's place: a use of one texture.
#[tactic(auto, using(crate::specs::Head::use_splits))]
#[inline(always)]
pub fn check_single(
    table: &Table,
    index: TrackerIndex,
    extent: Extent,
    selection: Option<Selector>,
    state: u32,
) -> Result<(), Refusal>
    requires { Few table.now }
    ensures { UseTold table.now index.0 extent selection state result }
{
    check_texture(table, index, extent)?;
    check_selection(extent, selection)?;
    check_state(flags_of(table), state)
}
