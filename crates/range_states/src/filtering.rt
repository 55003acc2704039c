// `RangedStates::iter_filter`: the overlaps with a range, clipped to it, written to a second borrowed run; and how many they are.
ghost use Rattle.std.specs.Prelude.{◌≡◌, ◌*◌, ◌≤◌, length};
ghost use Rattle.model.specs.RangedStates.{iter_filter};
ghost use Rattle.range_states.specs.View.{decode};
ghost use Rattle.range_states.specs.Filtering.{overlaps, clip, Counted, Filtered};

use crate::{get, put};
use model::Range;

// Whether r has something of what lies from `start` to `end`.
#[tactic(auto, unfolding(crate::specs::Filtering::overlaps))]
pub fn overlap(r: Range, start: u32, end: u32) -> bool
    ensures { result ≡ overlaps start end r }
{
    start < r.end && r.start < end
}

// The part of r from `start` to `end`.
pub fn clipped(r: Range, start: u32, end: u32) -> Range
    ensures { result ≡ clip start end r }
{
    Range {
        start: r.start.max(start),
        end: r.end.min(end),
        state: r.state,
    }
}

// How many ranges `iter_filter` will write, so that a caller can refuse before any change.
pub fn filtered_count(s: &[u32], len: usize, start: u32, end: u32) -> usize
    requires { 3 * len ≤ length s.now }
    ensures { Counted s.now len start end result }
{
    let mut n = 0;
    for k in 0..len {
        n += usize::from(overlap(get(s, k), start, end));
    }
    n
}

// Writes the overlaps to `out`, from its first record on, and tells how many they are.
pub fn iter_filter(s: &[u32], len: usize, start: u32, end: u32, out: &mut [u32]) -> usize
    requires len_in_bounds { 3 * len ≤ length s.now }
    requires s_in_bounds { 3 * length (iter_filter start end (decode len s.now)) ≤ length out.old }
    ensures { Filtered s.now len start end out.old result out.new }
{
    let mut w = 0;
    for k in 0..len {
        let r = get(s, k);
        if overlap(r, start, end) {
            put(out, w, clipped(r, start, end));
            w += 1;
        }
    }
    w
}
