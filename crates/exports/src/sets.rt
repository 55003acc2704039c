// A set: opening it, and the test that every call makes of it first (4 of 01's table), by itself: 1 if it is well formed, otherwise 0.
ghost use Rattle.std.specs.Prelude.{◌≡◌};
ghost use Rattle.std.specs.Prelude.{if◌then◌else◌};
ghost use Rattle.call_open.specs.Open.{OpenedScope, OpenedTracker};
ghost use Rattle.set_storage.specs.Lent.{LentTracker, scope_test, tracker_test};
ghost use Rattle.exports.specs.SetAnswers.{answer_of, outcome_of, flags_of};

use crate::Answer;
use model::UsageFlags;
use set_storage::Table;
use set_wellformed::{scope_fits, tracker_fits};

// `track::open_scope`.
#[unsafe(no_mangle)]
pub extern "C" fn track_open_scope(
    table: &mut Table,
    ranges: &[u32],
    n: u32,
    m: u32,
    w: u32,
    exclusive: u32,
    uninitialized: u32,
    complex: u32,
    unknown: u32,
) -> Answer
    ensures value { result ≡ answer_of (outcome_of result) }
    ensures fact { let p = flags_of exclusive uninitialized complex unknown in
        OpenedScope table.old ranges.now n m w p (outcome_of result) table.new }
{
    let flags = UsageFlags {
        exclusive,
        uninitialized,
        complex,
        unknown,
    };
    Answer::from(track::open_scope(table, ranges, n, m, w, flags))
}

// `track::open_tracker`.
#[unsafe(no_mangle)]
pub extern "C" fn track_open_tracker(
    table: &mut Table,
    starts: &[u32],
    ends: &[u32],
    n: u32,
    m: u32,
    w: u32,
    exclusive: u32,
    uninitialized: u32,
    complex: u32,
    unknown: u32,
    mask: u16,
) -> Answer
    ensures value { result ≡ answer_of (outcome_of result) }
    ensures fact { let p = flags_of exclusive uninitialized complex unknown in
        OpenedTracker table.old starts.now ends.now n m w p mask (outcome_of result) table.new }
{
    let flags = UsageFlags {
        exclusive,
        uninitialized,
        complex,
        unknown,
    };
    Answer::from(track::open_tracker(table, starts, ends, n, m, w, flags, mask))
}

// `set_wellformed::scope_fits`.
#[unsafe(no_mangle)]
pub extern "C" fn track_scope_is_well_formed(table: &Table, ranges: &[u32]) -> u32
    ensures { result ≡ (if scope_test (record { table = table.now; ranges = ranges.now }) then 1 else 0) }
{
    u32::from(scope_fits(table, ranges))
}

// `set_wellformed::tracker_fits`.
#[unsafe(no_mangle)]
pub extern "C" fn track_tracker_is_well_formed(table: &Table, starts: &[u32], ends: &[u32]) -> u32
    ensures { let t : LentTracker = record { table = table.now; starts = starts.now; ends = ends.now } in
        result ≡ (if tracker_test t then 1 else 0) }
{
    u32::from(tracker_fits(table, starts, ends))
}
