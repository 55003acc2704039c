// The calls of a tracker: each takes the head of the log in two numbers, and tells it so.
ghost use Rattle.set_storage.specs.Lent.{LentScope, LentTracker};
ghost use Rattle.std.specs.Prelude.{◌≡◌};
ghost use Rattle.model.specs.Refusals.{tracker_index};
ghost use Rattle.model.specs.Representation.{select};
ghost use Rattle.call_set.specs.Contract.{SetSingle};
ghost use Rattle.call_join.specs.Contract.{SetFromUsageScope, SetFromTracker};
ghost use Rattle.call_remove.specs.Removed.{SetAndRemoveSparse};
ghost use Rattle.exports.specs.SetAnswers.{logged_of, answered_of, head_of};

use crate::LoggedAnswer;
use crate::answers::logged;
use model::{Extent, LogHead, Selector, TrackerIndex};
use set_storage::Table;

// `track::set_single`.
#[unsafe(no_mangle)]
pub extern "C" fn track_set_single(
    table: &mut Table,
    starts: &mut [u32],
    ends: &mut [u32],
    index: u32,
    mips: u32,
    layers: u32,
    mip_start: u32,
    mip_end: u32,
    layer_start: u32,
    layer_end: u32,
    state: u16,
    log: &mut [u32],
    written: usize,
    free: usize,
) -> LoggedAnswer
    ensures value { result ≡ logged_of (answered_of result) }
    ensures fact { let t : LentTracker = record { table = table.old; starts = starts.old; ends = ends.old } in
        let t' : LentTracker = record { table = table.new; starts = starts.new; ends = ends.new } in
        SetSingle t (tracker_index index) (record { mips = mips; layers = layers })
        (select mip_start mip_end layer_start layer_end) state (head_of written free) log.old (answered_of result) t'
        log.new }
{
    let extent = Extent { mips, layers };
    let named = Selector::new(mip_start, mip_end, layer_start, layer_end);
    let head = LogHead { written, free };
    let x = track::set_single(
        table,
        starts,
        ends,
        TrackerIndex(index),
        extent,
        named,
        state,
        log,
        head,
    );
    logged(head, x)
}

// `track::set_from_usage_scope`.
#[unsafe(no_mangle)]
pub extern "C" fn track_set_from_usage_scope(
    table: &mut Table,
    starts: &mut [u32],
    ends: &mut [u32],
    given: &Table,
    lent: &[u32],
    log: &mut [u32],
    written: usize,
    free: usize,
) -> LoggedAnswer
    ensures value { result ≡ logged_of (answered_of result) }
    ensures fact { let g : LentScope = record { table = given.now; ranges = lent.now } in
        let t : LentTracker = record { table = table.old; starts = starts.old; ends = ends.old } in
        let t' : LentTracker = record { table = table.new; starts = starts.new; ends = ends.new } in
        SetFromUsageScope t g (head_of written free) log.old (answered_of result) t' log.new }
{
    let head = LogHead { written, free };
    let x = track::set_from_usage_scope(table, starts, ends, given, lent, log, head);
    logged(head, x)
}

// `track::set_from_tracker`.
#[unsafe(no_mangle)]
pub extern "C" fn track_set_from_tracker(
    table: &mut Table,
    starts: &mut [u32],
    ends: &mut [u32],
    given: &Table,
    first: &[u32],
    last: &[u32],
    log: &mut [u32],
    written: usize,
    free: usize,
) -> LoggedAnswer
    ensures value { result ≡ logged_of (answered_of result) }
    ensures fact { let t : LentTracker = record { table = table.old; starts = starts.old; ends = ends.old } in
        let t' : LentTracker = record { table = table.new; starts = starts.new; ends = ends.new } in
        let g : LentTracker = record { table = given.now; starts = first.now; ends = last.now } in
        SetFromTracker t g (head_of written free) log.old (answered_of result) t' log.new }
{
    let head = LogHead { written, free };
    let x = track::set_from_tracker(table, starts, ends, given, first, last, log, head);
    logged(head, x)
}

// `track::set_and_remove_from_usage_scope_sparse`.
#[unsafe(no_mangle)]
pub extern "C" fn track_set_and_remove_from_usage_scope_sparse(
    table: &mut Table,
    starts: &mut [u32],
    ends: &mut [u32],
    given: &mut Table,
    lent: &[u32],
    indices: &[u32],
    log: &mut [u32],
    written: usize,
    free: usize,
) -> LoggedAnswer
    ensures value { result ≡ logged_of (answered_of result) }
    ensures fact { let g : LentScope = record { table = given.old; ranges = lent.now } in
        let t : LentTracker = record { table = table.old; starts = starts.old; ends = ends.old } in
        let t' : LentTracker = record { table = table.new; starts = starts.new; ends = ends.new } in
        SetAndRemoveSparse t g indices.now (head_of written free) log.old (answered_of result) t' given.new
        log.new }
{
    let head = LogHead { written, free };
    let x = track::set_and_remove_from_usage_scope_sparse(
        table, starts, ends, given, lent, indices, log, head,
    );
    logged(head, x)
}
