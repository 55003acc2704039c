// The checks of the calls on ranged states (01, "Turned away": 18, 19, 14 and 15, in the table's order), on unchanged storage.
//
// Each tells the refusal or nothing; what is accepted has the room that the call asks for (specs/Accepted).
ghost use Rattle.std.specs.Prelude.{◌≡◌, ℕ, ◌*◌, ◌≤◌, length};
ghost use Rattle.model.specs.RangeCalls.{ascends as ascends_of, run_checks, room_checks, isolate_refusal, coalesce_refusal, filter_refusal};
ghost use Rattle.model.specs.Prelude.{result_err};
ghost use Rattle.model.specs.Refusals.{first_failing};
ghost use Rattle.range_states.specs.View.{view, decode};

use model::Refusal;
use range_isolate::isolated_count;
use range_states::{filtered_count, get};

// How many whole records a run has.
#[tactic(auto, using(range_states::specs::View::view_count))]
fn records(s: &[u32]) -> usize
    ensures { result ≡ length (view s.now) }
{
    s.len() / 3
}

// Whether no range is empty, out of order or overlaps.
fn ascends(s: &[u32], len: usize) -> bool
    requires { 3 * len ≤ length s.now }
    ensures { result ≡ ascends_of 0 (decode len s.now) }
{
    let mut from = 0;
    for k in 0..len {
        let r = get(s, k);
        if r.start < from || r.end <= r.start {
            return false;
        }
        from = r.end;
    }
    true
}

// What `coalesce` is refused for: 14, where the told length passes what was lent, or the ranges do not ascend.
#[tactic(auto, using(range_states::specs::View::view_count), unfolding(model::specs::Refusals::first_failing))]
pub fn check_coalesce(s: &[u32], told: usize) -> Result<(), Refusal>
    ensures { result_err result ≡ coalesce_refusal told (view s.now) }
{
    if records(s) < told || !ascends(s, told) {
        return Err(Refusal::RangesOutOfOrder);
    }
    Ok(())
}

// 18, 19, 14: the layers that are asked for, and the run.
#[tactic(auto, unfolding(model::specs::Refusals::first_failing))]
fn check_run(s: &[u32], told: usize, start: u32, end: u32) -> Result<(), Refusal>
    ensures { result_err result ≡ first_failing (run_checks start end told (view s.now)) }
{
    if start == end {
        return Err(Refusal::LayersEmpty);
    }
    if end < start {
        return Err(Refusal::LayersReversed);
    }
    check_coalesce(s, told)
}

// 15: the result needs more records than were lent.
#[tactic(auto, unfolding(model::specs::Refusals::first_failing))]
fn check_room(needed: usize, lent: usize) -> Result<(), Refusal>
    ensures { result_err result ≡ first_failing (room_checks needed lent) }
{
    if lent < needed {
        return Err(Refusal::NoFreeEntry);
    }
    Ok(())
}

// What `isolate` is refused for: 18, 19, 14, or 15 for all ranges that it would leave.
pub fn check_isolate(s: &[u32], told: usize, start: u32, end: u32) -> Result<(), Refusal>
    ensures { (d : ℕ) → result_err result ≡ isolate_refusal start end d told (view s.now) }
{
    check_run(s, told, start, end)?;
    check_room(isolated_count(s, told, start, end), records(s))
}

// What `iter_filter` is refused for: 18, 19, 14, or 15 for the second run.
pub fn check_filter(
    s: &[u32],
    told: usize,
    start: u32,
    end: u32,
    out: &[u32],
) -> Result<(), Refusal>
    ensures { result_err result ≡ filter_refusal start end told (view s.now) (view out.now) }
{
    check_run(s, told, start, end)?;
    check_room(filtered_count(s, told, start, end), records(out))
}
