// The calls that write a log, with its head lent by `&mut` (01: "the head of the log, entries written and entries free, is lent and moved
// on by the call itself"). Each hands the head to `track`, or to `log_merge`, by value and stores the head of the answer; a refusal leaves
// it. `log_merge::merge_logs` has this form of its own.
ghost use Rattle.model.specs.Log.{Answered, unless_refused};
ghost use Rattle.set_storage.specs.Lent.{LentScope, LentTracker};
ghost use Rattle.call_set.specs.Contract.{SetSingle};
ghost use Rattle.call_join.specs.Contract.{SetFromUsageScope, SetFromTracker};
ghost use Rattle.call_remove.specs.Removed.{SetAndRemoveSparse};
ghost use Rattle.log_head.specs.Log.{Emptying};
ghost use Rattle.log_merge.specs.Calls.{MergesLogs, handed, rest_handed};

use log_merge::{Rest, Unmerged};
use model::{Extent, LogHead, Refusal, Selector, TrackerIndex};
use set_storage::Table;

// Sets one use of one texture in a tracker, and logs its transitions: `TextureTracker::set_single`, without its drain.
pub fn set_single(
    table: &mut Table,
    starts: &mut [u32],
    ends: &mut [u32],
    index: TrackerIndex,
    extent: Extent,
    selector: Selector,
    state: u16,
    log: &mut [u32],
    head: &mut LogHead,
) -> Result<(), Refusal>
    ensures { let t : LentTracker = record { table = table.old; starts = starts.old; ends = ends.old } in
        let t' : LentTracker = record { table = table.new; starts = starts.new; ends = ends.new } in
        let a : Answered = record { outcome = unless_refused result; head = head.new } in
        SetSingle t index extent selector state head.old log.old a t' log.new }
{
    *head = track::set_single(
        table, starts, ends, index, extent, selector, state, log, *head,
    )?;
    Ok(())
}

// Sets every texture that a scope owns in a tracker, and logs their transitions: `TextureTracker::set_from_usage_scope`.
pub fn set_from_usage_scope(
    table: &mut Table,
    starts: &mut [u32],
    ends: &mut [u32],
    given: &Table,
    lent: &[u32],
    log: &mut [u32],
    head: &mut LogHead,
) -> Result<(), Refusal>
    ensures { let t : LentTracker = record { table = table.old; starts = starts.old; ends = ends.old } in
        let g : LentScope = record { table = given.now; ranges = lent.now } in
        let t' : LentTracker = record { table = table.new; starts = starts.new; ends = ends.new } in
        let a : Answered = record { outcome = unless_refused result; head = head.new } in
        SetFromUsageScope t g head.old log.old a t' log.new }
{
    *head = track::set_from_usage_scope(table, starts, ends, given, lent, log, *head)?;
    Ok(())
}

// Joins a tracker with another, `TextureTracker::set_from_tracker`: transitions go to the other's start, and its end is what they leave.
pub fn set_from_tracker(
    table: &mut Table,
    starts: &mut [u32],
    ends: &mut [u32],
    given: &Table,
    first: &[u32],
    last: &[u32],
    log: &mut [u32],
    head: &mut LogHead,
) -> Result<(), Refusal>
    ensures { let t : LentTracker = record { table = table.old; starts = starts.old; ends = ends.old } in
        let g : LentTracker = record { table = given.now; starts = first.now; ends = last.now } in
        let t' : LentTracker = record { table = table.new; starts = starts.new; ends = ends.new } in
        let a : Answered = record { outcome = unless_refused result; head = head.new } in
        SetFromTracker t g head.old log.old a t' log.new }
{
    *head = track::set_from_tracker(table, starts, ends, given, first, last, log, *head)?;
    Ok(())
}

// Moves the listed textures of a scope into a tracker, and logs their transitions:
// `TextureTracker::set_and_remove_from_usage_scope_sparse`.
pub fn set_and_remove_from_usage_scope_sparse(
    table: &mut Table,
    starts: &mut [u32],
    ends: &mut [u32],
    given: &mut Table,
    lent: &[u32],
    indices: &[u32],
    log: &mut [u32],
    head: &mut LogHead,
) -> Result<(), Refusal>
    ensures { let t : LentTracker = record { table = table.old; starts = starts.old; ends = ends.old } in
        let g : LentScope = record { table = given.old; ranges = lent.now } in
        let t' : LentTracker = record { table = table.new; starts = starts.new; ends = ends.new } in
        let a : Answered = record { outcome = unless_refused result; head = head.new } in
        SetAndRemoveSparse t g indices.now head.old log.old
        a t' given.new log.new }
{
    *head = track::set_and_remove_from_usage_scope_sparse(
        table, starts, ends, given, lent, indices, log, *head,
    )?;
    Ok(())
}

// Empties the log, which is only measured: free gains what was written, written becomes 0, and the entries stay.
pub fn empty_log(log: &[u32], head: &mut LogHead) -> Result<(), Refusal>
    ensures { Emptying head.old log.now (record { outcome = unless_refused result; head = head.new }) }
{
    *head = track::empty_log(log, *head)?;
    Ok(())
}

// Merges two logs, their written numbers alone, into a third until one is used up, and tells the rest of the other by its place: where it
// is refused, the empty end of the second.
pub fn merge_at(
    first: &[u32],
    second: &[u32],
    third: &mut [u32],
    head: &mut LogHead,
) -> Result<Rest, Unmerged<Rest>>
    ensures { let a : Answered = record { outcome = handed result; head = head.new } in
        MergesLogs first.now second.now head.old third.old a (rest_handed result) third.new }
{
    let merged = log_merge::merge_at(first, second, third, *head)?;
    *head = merged.head;
    Ok(merged.rest)
}
