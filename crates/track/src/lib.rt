// Track: the public calls of the tracker, and demand 3, proved of their own contracts.
//
// Place in the picture: the top of the calls by value; `exports` and `log_heads` stand on it. Each call is proved equal to the ranged model
// on the view of the lent numbers, in the crate that it is handed on to (`call_open`, `call_merge`, `call_set`, `call_join`,
// `call_remove`), and the ranged model agrees with the grid (crate `agreement`); here the two meet. The `ensures` below are the definitions
// that specs/Trace makes traces of: a trace is any list of calls whose steps meet these contracts, from newly opened storage or any that is
// well formed; at each of its steps the lent numbers show what the grid's run gives, and no step is refused because of what it was lent (4,
// 5 and 15). So nothing but contracts stands between demand 3 and the code.
//
// What holds of every call: nothing is required. Any argument, any numbers in the lent storage and any head of the log get an answer,
// and a refusal leaves every number as it was.
//
// Reading order: specs/Trace (definitions alone: what is lent, opened, called and shared), then in proofs/ Demand3 (the theorem) and Claims
// (that every trace is the ranged model's run, and the WebGPU rule at its last step). The rest of proofs/: LogLaws (an emptied log never
// refuses, and its entries tell the model's transitions), OpenedLaws (opened storage is the model's, and well formed), StepLaws (a step
// that meets its contract is the model's), TraceLaws (step by step, for every trace) and UsageLaws (a last step that merges a usage).
// `client` is a program whose calls are such a trace (Client, ClientLaws): what a trace asks of its steps can be met.
#![tactic(auto)]

pub mod client;

ghost use Rattle.model.specs.Log.{answered, unless_refused};
ghost use Rattle.set_storage.specs.Lent.{LentScope, LentTracker};
ghost use Rattle.call_open.specs.Open.{OpenedScope, OpenedTracker};
ghost use Rattle.call_merge.specs.Contract.{MergeSingle, MergeUsageScope};
ghost use Rattle.call_set.specs.Contract.{SetSingle};
ghost use Rattle.call_join.specs.Contract.{SetFromUsageScope, SetFromTracker};
ghost use Rattle.call_remove.specs.Removed.{SetAndRemoveSparse};
ghost use Rattle.log_head.specs.Log.{Emptying};

use model::{CallError, Extent, LogHead, Refusal, Selector, TrackerIndex, UsageFlags};
use set_storage::Table;

// Opens a scope for n textures of m mips and w layers.
pub fn open_scope(
    table: &mut Table,
    ranges: &[u32],
    n: u32,
    m: u32,
    w: u32,
    p: UsageFlags,
) -> Result<(), Refusal>
    ensures { OpenedScope table.old ranges.now n m w p (unless_refused result) table.new }
{
    call_open::open_scope(table, ranges, n, m, w, p)
}

// Opens a tracker, with an ordered mask.
pub fn open_tracker(
    table: &mut Table,
    starts: &[u32],
    ends: &[u32],
    n: u32,
    m: u32,
    w: u32,
    p: UsageFlags,
    mask: u16,
) -> Result<(), Refusal>
    ensures { OpenedTracker table.old starts.now ends.now n m w p mask (unless_refused result) table.new }
{
    call_open::open_tracker(table, starts, ends, n, m, w, p, mask)
}

// Merges one use of one texture into a scope.
pub fn merge_single(
    table: &mut Table,
    ranges: &mut [u32],
    index: TrackerIndex,
    extent: Extent,
    selection: Option<Selector>,
    state: u16,
) -> Result<(), CallError>
    ensures { let s : LentScope = record { table = table.old; ranges = ranges.old } in
        let s' : LentScope = record { table = table.new; ranges = ranges.new } in
        MergeSingle s index extent selection state result s' }
{
    call_merge::merge_single(table, ranges, index, extent, selection, state)
}

// Merges every texture of another scope into a scope, up to the first conflict.
pub fn merge_usage_scope(
    table: &mut Table,
    ranges: &mut [u32],
    given: &Table,
    lent: &[u32],
) -> Result<(), CallError>
    ensures { let s : LentScope = record { table = table.old; ranges = ranges.old } in
        let g : LentScope = record { table = given.now; ranges = lent.now } in
        let s' : LentScope = record { table = table.new; ranges = ranges.new } in
        MergeUsageScope s g result s' }
{
    call_merge::merge_usage_scope(table, ranges, given, lent)
}

// Sets one use of one texture in a tracker, and logs its transitions.
pub fn set_single(
    table: &mut Table,
    starts: &mut [u32],
    ends: &mut [u32],
    index: TrackerIndex,
    extent: Extent,
    selector: Selector,
    state: u16,
    log: &mut [u32],
    head: LogHead,
) -> Result<LogHead, Refusal>
    ensures { let t : LentTracker = record { table = table.old; starts = starts.old; ends = ends.old } in
        let t' : LentTracker = record { table = table.new; starts = starts.new; ends = ends.new } in
        SetSingle t index extent selector state head log.old (answered head result) t' log.new }
{
    call_set::set_single(
        table, starts, ends, index, extent, selector, state, log, head,
    )
}

// Sets every texture that a scope owns in a tracker, and logs their transitions.
pub fn set_from_usage_scope(
    table: &mut Table,
    starts: &mut [u32],
    ends: &mut [u32],
    given: &Table,
    lent: &[u32],
    log: &mut [u32],
    head: LogHead,
) -> Result<LogHead, Refusal>
    ensures { let t : LentTracker = record { table = table.old; starts = starts.old; ends = ends.old } in
        let g : LentScope = record { table = given.now; ranges = lent.now } in
        let t' : LentTracker = record { table = table.new; starts = starts.new; ends = ends.new } in
        SetFromUsageScope t g head log.old (answered head result) t' log.new }
{
    call_join::set_from_usage_scope(table, starts, ends, given, lent, log, head)
}

// Joins a tracker with another: transitions go to the other's start, and its end is what they leave.
pub fn set_from_tracker(
    table: &mut Table,
    starts: &mut [u32],
    ends: &mut [u32],
    given: &Table,
    first: &[u32],
    last: &[u32],
    log: &mut [u32],
    head: LogHead,
) -> Result<LogHead, Refusal>
    ensures { let t : LentTracker = record { table = table.old; starts = starts.old; ends = ends.old } in
        let g : LentTracker = record { table = given.now; starts = first.now; ends = last.now } in
        let t' : LentTracker = record { table = table.new; starts = starts.new; ends = ends.new } in
        SetFromTracker t g head log.old (answered head result) t' log.new }
{
    call_join::set_from_tracker(table, starts, ends, given, first, last, log, head)
}

// Moves the listed textures of a scope into a tracker, and logs their transitions: the scope no longer owns them.
pub fn set_and_remove_from_usage_scope_sparse(
    table: &mut Table,
    starts: &mut [u32],
    ends: &mut [u32],
    given: &mut Table,
    lent: &[u32],
    indices: &[u32],
    log: &mut [u32],
    head: LogHead,
) -> Result<LogHead, Refusal>
    ensures { let t : LentTracker = record { table = table.old; starts = starts.old; ends = ends.old } in
        let g : LentScope = record { table = given.old; ranges = lent.now } in
        let t' : LentTracker = record { table = table.new; starts = starts.new; ends = ends.new } in
        SetAndRemoveSparse t g indices.now head log.old (answered head result) t' given.new log.new }
{
    call_remove::set_and_remove_from_usage_scope_sparse(
        table, starts, ends, given, lent, indices, log, head,
    )
}

// Empties the log: free gains what was written, written becomes 0, and the entries stay.
pub fn empty_log(log: &[u32], head: LogHead) -> Result<LogHead, Refusal>
    ensures { Emptying head log.now (answered head result) }
{
    log_head::empty_log(log, head)
}
