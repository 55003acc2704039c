// `TextureTracker::set_from_usage_scope` and `set_from_tracker`: every texture that a given set owns.
ghost use Rattle.std.specs.Prelude.{◌≡◌, true, ◌/◌, ◌≤◌, ◌<◌, length};
ghost use Rattle.model.specs.{Log.{answered, pending}, Sets.{capacity}};
ghost use Rattle.set_storage.specs.Storage.{numbers_of};
ghost use Rattle.set_storage.specs.Lent.{LentScope, LentTracker};
ghost use Rattle.set_storage.specs.Stays.{OwnedBy};
ghost use Rattle.set_ready.specs.Tested.{TrackerTested};
ghost use Rattle.log_head.specs.Log.{head_within};
ghost use Rattle.texture_track.specs.Tracked.{Tracked, Changes};
ghost use Rattle.call_join.specs.Join.{GivenTested, Joins, join_call, joined_entries, joined_tracker};
ghost use Rattle.call_join.specs.Contract.{SetFromUsageScope, SetFromTracker};

use crate::every::{Joining, set_slots};
use log_head::{check_head, log_all, subresources};
use model::{LogHead, Refusal};
use set_checks::check_set;
use set_storage::{END, MASK, START, TEXTURES, Table, flags_of, wide};
use set_wellformed::{scope_fits, tracker_fits};
use texture_track::given::GivenSet;

// The set, once the checks passed: its entries are written, if they fit, and the textures change. Where there is a free entry for every
// subresource they fit, and nothing is counted.
fn set_checked(
    table: &mut Table,
    starts: &mut [u32],
    ends: &mut [u32],
    given: GivenSet<'_>,
    log: &mut [u32],
    head: LogHead,
) -> Result<LogHead, Refusal>
    requires joins { Joins table.old starts.old ends.old given.from given.to given.table.now given.first.now given.last.now }
    requires first_len_bound { let t = table.old in
        length (joined_entries t ends.old given.from given.table.now given.first.now) ≤ capacity (numbers_of t) }
    requires head_value { head_within (length log.old / 7) head ≡ true }
    ensures { let t = table.old in let s = starts.old in let e = ends.old in
        let x = given.entry in let g = x.table.now in let a = x.first.now in let b = x.last.now in
        Changes (OwnedBy g) (joined_entries t e x.from g a) (joined_tracker t s e x.from x.to g a b) head
        t s e log.old (answered head result) table.new starts.new ends.new log.new }
{
    let p = flags_of(table);
    let mask = table[MASK];
    let n = wide(given.table[TEXTURES]);
    let most = subresources(table);
    let joining = Joining {
        table,
        ends,
        given,
        n,
        p,
        mask,
    };
    let after = log_all(&joining, most, log, head)?;
    set_slots(table, starts, ends, given, n, p);
    Ok(after)
}

// The set, once both sets passed the test: the log's head and the checks of 01's table come first.
fn set_from(
    table: &mut Table,
    starts: &mut [u32],
    ends: &mut [u32],
    given: GivenSet<'_>,
    log: &mut [u32],
    head: LogHead,
) -> Result<LogHead, Refusal>
    requires tracker_tested { TrackerTested table.old starts.old ends.old }
    requires given_tested { GivenTested given.from given.to given.table.now given.first.now given.last.now }
    requires last_len_bound { let t = table.old in let g = given.table.now in
        length (pending (join_call t starts.old ends.old given.from given.to g given.first.now given.last.now).log)
        ≤ capacity (numbers_of t) }
    ensures { let t = table.old in let s = starts.old in let e = ends.old in
        let x = given.entry in let g = x.table.now in
        Tracked (OwnedBy g) true (join_call t s e x.from x.to g x.first.now x.last.now) head t s e log.old
        (answered head result) table.new starts.new ends.new log.new }
{
    check_head(log, head)?;
    check_set(table, given.table)?;
    set_checked(table, starts, ends, given, log, head)
}

// Sets what a scope holds in a tracker, and logs the transitions.
pub fn set_from_usage_scope(
    table: &mut Table,
    starts: &mut [u32],
    ends: &mut [u32],
    given: &Table,
    lent: &[u32],
    log: &mut [u32],
    head: LogHead,
) -> Result<LogHead, Refusal>
    ensures { let t : LentTracker = record { table = table.old; starts = starts.old; ends = ends.old } in
        let g : LentScope = record { table = given.now; ranges = lent.now } in
        let t' : LentTracker = record { table = table.new; starts = starts.new; ends = ends.new } in
        SetFromUsageScope t g head log.old (answered head result) t' log.new }
{
    if !tracker_fits(table, starts, ends) {
        return Err(Refusal::NotWellFormed);
    }
    if !scope_fits(given, lent) {
        return Err(Refusal::NotWellFormed);
    }
    let set = GivenSet {
        table: given,
        first: lent,
        from: START,
        last: lent,
        to: START,
    };
    set_from(table, starts, ends, set, log, head)
}

// Sets what another tracker holds in a tracker: the transitions go to its start, and the textures take its end.
pub fn set_from_tracker(
    table: &mut Table,
    starts: &mut [u32],
    ends: &mut [u32],
    given: &Table,
    first: &[u32],
    last: &[u32],
    log: &mut [u32],
    head: LogHead,
) -> Result<LogHead, Refusal>
    ensures { let t : LentTracker = record { table = table.old; starts = starts.old; ends = ends.old } in
        let g : LentTracker = record { table = given.now; starts = first.now; ends = last.now } in
        let t' : LentTracker = record { table = table.new; starts = starts.new; ends = ends.new } in
        SetFromTracker t g head log.old (answered head result) t' log.new }
{
    if !tracker_fits(table, starts, ends) {
        return Err(Refusal::NotWellFormed);
    }
    if !tracker_fits(given, first, last) {
        return Err(Refusal::NotWellFormed);
    }
    let set = GivenSet {
        table: given,
        first,
        from: START,
        last,
        to: END,
    };
    set_from(table, starts, ends, set, log, head)
}
