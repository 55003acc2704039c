// The calls of a scope.
ghost use Rattle.set_storage.specs.Lent.{LentScope};
ghost use Rattle.std.specs.Prelude.{◌≡◌};
ghost use Rattle.model.specs.Refusals.{tracker_index};
ghost use Rattle.model.specs.Representation.{select};
ghost use Rattle.call_merge.specs.Contract.{MergeSingle, MergeUsageScope};
ghost use Rattle.exports.specs.SetAnswers.{answer_of, outcome_of, selection_of};

use crate::Answer;
use crate::answers::selection;
use model::{Extent, Selector, TrackerIndex};
use set_storage::Table;

// `track::merge_single`. Where `part` is 0 the use is of all of the texture, and the four numbers after it are not read.
#[unsafe(no_mangle)]
pub extern "C" fn track_merge_single(
    table: &mut Table,
    ranges: &mut [u32],
    index: u32,
    mips: u32,
    layers: u32,
    part: u32,
    mip_start: u32,
    mip_end: u32,
    layer_start: u32,
    layer_end: u32,
    state: u16,
) -> Answer
    ensures value { result ≡ answer_of (outcome_of result) }
    ensures fact { let s : LentScope = record { table = table.old; ranges = ranges.old } in
        let s' : LentScope = record { table = table.new; ranges = ranges.new } in
        MergeSingle s (tracker_index index) (record { mips = mips; layers = layers })
        (selection_of part (select mip_start mip_end layer_start layer_end)) state (outcome_of result) s' }
{
    let extent = Extent { mips, layers };
    let named = selection(
        part,
        Selector::new(mip_start, mip_end, layer_start, layer_end),
    );
    Answer::from(track::merge_single(table, ranges, TrackerIndex(index), extent, named, state))
}

// `track::merge_usage_scope`.
#[unsafe(no_mangle)]
pub extern "C" fn track_merge_usage_scope(
    table: &mut Table,
    ranges: &mut [u32],
    given: &Table,
    lent: &[u32],
) -> Answer
    ensures value { result ≡ answer_of (outcome_of result) }
    ensures fact { let s : LentScope = record { table = table.old; ranges = ranges.old } in
        let s' : LentScope = record { table = table.new; ranges = ranges.new } in
        let g : LentScope = record { table = given.now; ranges = lent.now } in
        MergeUsageScope s g (outcome_of result) s' }
{
    Answer::from(track::merge_usage_scope(table, ranges, given, lent))
}
