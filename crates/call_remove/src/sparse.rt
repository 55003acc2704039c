// `TextureTracker::set_and_remove_from_usage_scope_sparse`: the listed textures of a scope.
ghost use Rattle.std.specs.Prelude.{◌≡◌, true, ◌/◌, ◌≤◌, ◌<◌, length};
ghost use Rattle.model.specs.{Log.{answered}, Sets.{capacity}};
ghost use Rattle.set_storage.specs.Storage.{numbers_of};
ghost use Rattle.set_storage.specs.Lent.{LentScope, LentTracker};
ghost use Rattle.log_head.specs.Log.{head_within};
ghost use Rattle.call_remove.specs.Logs.{removed_entries};
ghost use Rattle.call_remove.specs.Taken.{Listing, sets_after};
ghost use Rattle.call_remove.specs.Removed.{Removes, SetAndRemoveSparse};

use crate::logged::Listed;
use crate::taken::set_listed;
use log_head::{check_head, log_all, subresources};
use model::{LogHead, Refusal};
use set_checks::check_sparse;
use set_storage::{MASK, Table, flags_of};
use set_wellformed::{scope_fits, tracker_fits};

// The listed textures, once the checks passed: their entries are written, if they fit, and the textures change. Where there is a free entry
// for every subresource they fit, and nothing is counted.
pub fn remove_checked(
    table: &mut Table,
    starts: &mut [u32],
    ends: &mut [u32],
    given: &mut Table,
    lent: &[u32],
    indices: &[u32],
    log: &mut [u32],
    head: LogHead,
) -> Result<LogHead, Refusal>
    requires listing { Listing table.old starts.old ends.old given.old lent.now indices.now }
    requires indices_len_bound { length (removed_entries table.old ends.old given.old lent.now indices.now)
        ≤ capacity (numbers_of table.old) }
    requires head_value { head_within (length log.old / 7) head ≡ true }
    ensures { let t = table.old in let s = starts.old in let e = ends.old in
        let g = given.old in let r = lent.now in let is = indices.now in
        Removes is (removed_entries t e g r is) (sets_after t s e g r is) head t s e g r log.old
        (answered head result) table.new starts.new ends.new given.new log.new }
{
    let p = flags_of(table);
    let mask = table[MASK];
    let most = subresources(table);
    let listed = Listed {
        table,
        ends,
        given,
        lent,
        indices,
        p,
        mask,
    };
    let after = log_all(&listed, most, log, head)?;
    set_listed(table, starts, ends, given, lent, indices, p);
    Ok(after)
}

// Sets the listed textures of a scope in a tracker, logs the transitions, and removes them from the scope.
pub fn set_and_remove_from_usage_scope_sparse(
    table: &mut Table,
    starts: &mut [u32],
    ends: &mut [u32],
    given: &mut Table,
    lent: &[u32],
    indices: &[u32],
    log: &mut [u32],
    head: LogHead,
) -> Result<LogHead, Refusal>
    ensures { let t : LentTracker = record { table = table.old; starts = starts.old; ends = ends.old } in
        let g : LentScope = record { table = given.old; ranges = lent.now } in
        let t' : LentTracker = record { table = table.new; starts = starts.new; ends = ends.new } in
        SetAndRemoveSparse t g indices.now head log.old (answered head result) t' given.new log.new }
{
    if !tracker_fits(table, starts, ends) {
        return Err(Refusal::NotWellFormed);
    }
    if !scope_fits(given, lent) {
        return Err(Refusal::NotWellFormed);
    }
    check_head(log, head)?;
    check_sparse(table, given, indices)?;
    remove_checked(table, starts, ends, given, lent, indices, log, head)
}
