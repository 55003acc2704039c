// `TextureUsageScope::merge_single`: one use of one texture.
ghost use Rattle.std.specs.Prelude.{◌≡◌};
ghost use Rattle.set_storage.specs.Lent.{LentScope};
ghost use Rattle.call_merge.specs.Met.{told_of};
ghost use Rattle.call_merge.specs.Contract.{MergeSingle};

use crate::slot::merge_use_at;
use model::{CallError, Conflict, Extent, InvalidUse, Refusal, Selector, TrackerIndex};
use set_checks::check_single;
use set_ready::part_named;
use set_storage::{Table, flags_of, wide};
use set_wellformed::scope_fits;

// What a merge of one texture met, as the answer of a call.
pub fn told(index: TrackerIndex, x: Result<(), InvalidUse>) -> Result<(), CallError>
    ensures { result ≡ told_of index.0 x }
{
    match x {
        Ok(()) => Ok(()),
        Err(found) => Err(CallError::Conflict(Conflict { index, found })),
    }
}

// Merges a use of one texture into a scope.
pub fn merge_single(
    table: &mut Table,
    ranges: &mut [u32],
    index: TrackerIndex,
    extent: Extent,
    selection: Option<Selector>,
    state: u16,
) -> Result<(), CallError>
    ensures { let s : LentScope = record { table = table.old; ranges = ranges.old } in
        let s' : LentScope = record { table = table.new; ranges = ranges.new } in
        MergeSingle s index extent selection state result s' }
{
    if !scope_fits(table, ranges) {
        return Err(CallError::Refused(Refusal::NotWellFormed));
    }
    let new = state as u32;
    check_single(table, index, extent, selection, new)?;
    let part = part_named(extent, selection);
    let p = flags_of(table);
    told(
        index,
        merge_use_at(table, ranges, wide(index.0), extent, part, p, new),
    )
}
