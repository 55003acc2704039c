// `TextureUsageScope::merge_usage_scope`: every texture of another scope.
ghost use Rattle.set_storage.specs.Lent.{LentScope};
ghost use Rattle.set_storage.specs.Stays.{OwnedBy};
ghost use Rattle.call_merge.specs.Scope.{merged_slots, SlotsReady, SlotsMerged};
ghost use Rattle.call_merge.specs.Contract.{MergeUsageScope};

use crate::slot::merge_owned_at;
use model::{CallError, Conflict, Refusal, TrackerIndex, UsageFlags};
use set_checks::check_set;
use set_storage::{TEXTURES, Table, flags_of, wide};
use set_wellformed::scope_fits;

// Every texture that the given scope owns, by ascending index, up to the first conflict.
pub fn merge_slots(
    table: &mut Table,
    ranges: &mut [u32],
    given: &Table,
    lent: &[u32],
    p: UsageFlags,
) -> Result<(), CallError>
    requires { SlotsReady table.old ranges.old given.now lent.now p }
    ensures { let t = table.old in let r = ranges.old in let g = given.now in
        SlotsMerged (OwnedBy g) (merged_slots p t r g lent.now) t r result table.new ranges.new }
{
    for k in 0..given[TEXTURES] {
        if let Err(found) = merge_owned_at(table, ranges, wide(k), given, lent, p) {
            let index = TrackerIndex(k);
            return Err(CallError::Conflict(Conflict { index, found }));
        }
    }
    Ok(())
}

// Merges every texture of another scope into a scope, by ascending index, up to the first conflict.
pub fn merge_usage_scope(
    table: &mut Table,
    ranges: &mut [u32],
    given: &Table,
    lent: &[u32],
) -> Result<(), CallError>
    ensures { let s : LentScope = record { table = table.old; ranges = ranges.old } in
        let g : LentScope = record { table = given.now; ranges = lent.now } in
        let s' : LentScope = record { table = table.new; ranges = ranges.new } in
        MergeUsageScope s g result s' }
{
    if !scope_fits(table, ranges) {
        return Err(CallError::Refused(Refusal::NotWellFormed));
    }
    if !scope_fits(given, lent) {
        return Err(CallError::Refused(Refusal::NotWellFormed));
    }
    check_set(table, given)?;
    let p = flags_of(table);
    merge_slots(table, ranges, given, lent, p)
}
