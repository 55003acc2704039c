// A client in code: it opens a tracker for one texture, empties the log, sets a use, empties the log again and sets another.
//
// What it is for: a trace of calls (specs/Trace) asks a number of facts of each step, and a theorem about traces would say nothing if no
// program could meet them. This one does: its second call is proved to share with the grid's run what demand 3 lists.
ghost use Rattle.std.specs.Prelude.{◌≡◌, ◌/◌, ◌≤◌, ◌<◌, min, length};
ghost use Rattle.model.specs.{Calls.{call_set_single}, Log.{answered}};
ghost use Rattle.track.specs.Trace.{SharedAt};
ghost use Rattle.track.specs.Client.{client_run, client_step};

use crate::{empty_log, open_tracker, set_single};
use model::{Extent, LogHead, Refusal, Selector, TrackerIndex, UsageFlags};
use set_storage::{TABLE_LENGTH, Table};

// What the second emptying was told, and what it and the second call answered.
#[derive(Clone, Copy)]
pub struct Shown {
    pub told: LogHead,
    pub emptied: Result<LogHead, Refusal>,
    pub answered: Result<LogHead, Refusal>,
}

// Tells a proof that a state has sixteen bits.
fn word(state: u16) -> u32
    ensures { (result ≡ state) × (state < 65536) }
{
    state as u32
}

// Sets two uses of one texture of two mips and four layers. The storage holds eight ranges a half and eight entries.
fn set_twice(
    table: &mut Table,
    starts: &mut [u32],
    ends: &mut [u32],
    log: &mut [u32],
    index: TrackerIndex,
    extent: Extent,
    selector: Selector,
    first: u16,
    second: u16,
) -> Shown
    requires in_bounds { (8 ≤ length starts.old / 3) × (8 ≤ length ends.old / 3) }
    requires in_bounds_2 { 8 ≤ length log.old / 7 }
    ensures { let room = min (length starts.old / 3) (length ends.old / 3) in
        let emptied = answered result.told result.emptied in
        let step = client_step (call_set_single 0 index extent selector second) emptied (answered emptied.head result.answered)
        table.new starts.new ends.new log.new in
        SharedAt step (client_run room index extent selector first second) }
{
    let flags = UsageFlags {
        exclusive: 20,
        uninitialized: 1,
        complex: 4096,
        unknown: 8192,
    };
    word(first);
    word(second);
    let _ = open_tracker(table, starts, ends, 1, 2, 4, flags, 10);
    let all = LogHead {
        written: 0,
        free: 8,
    };
    let head = empty_log(log, all).unwrap_or(all);
    let one = set_single(
        table, starts, ends, index, extent, selector, first, log, head,
    );
    let told = one.unwrap_or(head);
    let emptied = empty_log(log, told);
    let head = emptied.unwrap_or(told);
    let answered = set_single(
        table, starts, ends, index, extent, selector, second, log, head,
    );
    Shown {
        told,
        emptied,
        answered,
    }
}

// The same over arrays of its own, so that what it requires is met.
pub fn set_twice_in_arrays(
    index: TrackerIndex,
    extent: Extent,
    selector: Selector,
    first: u16,
    second: u16,
) -> Shown {
    let mut table = [0u32; TABLE_LENGTH];
    let mut starts = [0u32; 24];
    let mut ends = [0u32; 24];
    let mut log = [0u32; 56];
    set_twice(
        &mut table,
        &mut starts,
        &mut ends,
        &mut log,
        index,
        extent,
        selector,
        first,
        second,
    )
}
