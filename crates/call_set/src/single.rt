// `TextureTracker::set_single`: one use of one texture.
ghost use Rattle.std.specs.Prelude.{◌≡◌, true, ◌/◌, ◌≤◌, ◌<◌, length};
ghost use Rattle.model.specs.{Log.{answered}, Sets.{capacity}};
ghost use Rattle.set_storage.specs.Storage.{numbers_of, flags_of};
ghost use Rattle.set_storage.specs.Lent.{LentTracker};
ghost use Rattle.set_storage.specs.Stays.{Only};
ghost use Rattle.set_storage.specs.Uses.{use_of};
ghost use Rattle.set_ready.specs.Checked.{TakenUse};
ghost use Rattle.log_head.specs.Log.{head_within};
ghost use Rattle.set_ready.specs.Half.{BothReady};
ghost use Rattle.texture_track.specs.Tracked.{Changes};
ghost use Rattle.call_set.specs.Used.{used_entries, used_tracker};
ghost use Rattle.call_set.specs.Contract.{SetSingle};

use log_head::{check_head, log_all, subresources};
use model::{Extent, LogHead, Refusal, Selector, TrackerIndex};
use set_checks::check_single;
use set_ready::part_named;
use set_storage::{MASK, Table, flags_of, wide};
use set_wellformed::tracker_fits;
use texture_track::using::{Using, set_use_at};

// A given state, of sixteen bits.
fn state_of(state: u16) -> u32
    ensures { (result ≡ state) × (state < 65536) }
{
    state as u32
}

// The use, once the checks passed: its entries are written, if they fit, and the texture changes. Where there is a free entry for every
// subresource they fit, and nothing is counted.
pub fn set_checked(
    table: &mut Table,
    starts: &mut [u32],
    ends: &mut [u32],
    i: usize,
    extent: Extent,
    part: Option<Selector>,
    new: u32,
    log: &mut [u32],
    head: LogHead,
) -> Result<LogHead, Refusal>
    requires both_ready { BothReady table.old starts.old ends.old i extent }
    requires taken_use { TakenUse table.old extent part (flags_of table.old) new }
    requires len_bound { length (used_entries table.old ends.old i extent (use_of part new)) ≤ capacity (numbers_of table.old) }
    requires head_value { head_within (length log.old / 7) head ≡ true }
    ensures { let t = table.old in let s = starts.old in let e = ends.old in
        Changes (Only i) (used_entries t e i extent (use_of part new)) (used_tracker t s e i extent (use_of part new)) head
        t s e log.old (answered head result) table.new starts.new ends.new log.new }
{
    let p = flags_of(table);
    let mask = table[MASK];
    let most = subresources(table);
    let used = Using {
        table,
        ends,
        i,
        extent,
        part,
        p,
        mask,
        new,
    };
    let after = log_all(&used, most, log, head)?;
    set_use_at(table, starts, ends, i, extent, part, p, new);
    Ok(after)
}

// Sets one use of one texture in a tracker, and logs its transitions.
pub fn set_single(
    table: &mut Table,
    starts: &mut [u32],
    ends: &mut [u32],
    index: TrackerIndex,
    extent: Extent,
    selector: Selector,
    state: u16,
    log: &mut [u32],
    head: LogHead,
) -> Result<LogHead, Refusal>
    ensures { let t : LentTracker = record { table = table.old; starts = starts.old; ends = ends.old } in
        let t' : LentTracker = record { table = table.new; starts = starts.new; ends = ends.new } in
        SetSingle t index extent selector state head log.old (answered head result) t' log.new }
{
    if !tracker_fits(table, starts, ends) {
        return Err(Refusal::NotWellFormed);
    }
    check_head(log, head)?;
    let new = state_of(state);
    check_single(table, index, extent, Some(selector), new)?;
    let part = part_named(extent, Some(selector));
    let i = wide(index.0);
    set_checked(table, starts, ends, i, extent, part, new, log, head)
}
