// `RangedStates::isolate`, in place, and how many ranges it will leave.
//
// As in the Rust: find the first range that ends past the start, cut it there, and go on until the end is reached, filling gaps.
ghost use Rattle.std.specs.Prelude.{◌≡◌, ℕ, ◌+◌, ◌*◌, ◌≤◌, ◌<◌, length, drop, get_or};
ghost use Rattle.model.specs.RangedStates.{list_of, isolate as isolate_of};
ghost use Rattle.range_states.specs.View.{view, blank, decode};
ghost use Rattle.range_isolate.specs.Isolation.{Gapped, EndCut, Covered, Found, StartCut, Isolating, CoverRoom, IsolateRoom};
ghost use Rattle.range_isolate.specs.Isolation.{gap_count, cut_count, lead_count, Leading, Added};

use crate::insert_record;
use model::Range;
use range_states::{get, put};

// The new count, and where the run ends.
#[derive(Clone, Copy)]
struct Placed {
    pub len: usize,
    pub end: usize,
}

// The new count, and the run's position and end.
#[derive(Clone, Copy)]
pub struct Isolated {
    pub len: usize,
    pub position: usize,
    pub end: usize,
}

// Fills what lies between `at` and `start`, if anything, with a record before the one at `pos`. Tells how many records that added.
fn fill_gap(s: &mut [u32], len: usize, pos: usize, at: u32, start: u32, default: u32) -> usize
    requires pos_le_len { pos ≤ len }
    requires start_in_bounds { 3 * (len + gap_count at start) ≤ length s.old }
    ensures { Gapped s.old len pos at start default result s.new }
{
    if at < start {
        insert_record(
            s,
            len,
            pos,
            Range {
                start: at,
                end: start,
                state: default,
            },
        );
        1
    } else {
        0
    }
}

// Cuts the record at `pos` at `end`, if it ends past it; what lies before `end` starts at `at`. Tells how many records that added.
fn cut_end(s: &mut [u32], len: usize, pos: usize, at: u32, end: u32) -> usize
    requires pos_lt_len { pos < len }
    requires blank_in_bounds { 3 * (len + cut_count end (get_or (view s.old) pos blank)) ≤ length s.old }
    ensures { EndCut s.old len pos at end result s.new }
{
    let r = get(s, pos);
    if r.end <= end {
        return 0;
    }
    put(s, pos, Range { start: end, ..r });
    insert_record(
        s,
        len,
        pos,
        Range {
            start: at,
            end,
            ..r
        },
    );
    1
}

// The first of the first `len` records that ends past x, or `len`.
fn first_past(s: &[u32], len: usize, x: u32) -> usize
    requires { 3 * len ≤ length s.now }
    ensures { Found s.now len x result }
{
    for k in 0..len {
        if x < get(s, k).end {
            return k;
        }
    }
    len
}

// Cuts the record at `pos`, if there is one, at x, if it starts before x. Tells how many records that added.
fn cut_start(s: &mut [u32], len: usize, pos: usize, x: u32) -> usize
    requires pos_le_len { pos ≤ len }
    requires s_in_bounds { 3 * (len + lead_count x (drop pos (decode len s.old))) ≤ length s.old }
    ensures { StartCut s.old len pos x result s.new }
{
    if pos == len {
        return 0;
    }
    let r = get(s, pos);
    if x <= r.start {
        return 0;
    }
    put(s, pos, Range { start: x, ..r });
    insert_record(s, len, pos, Range { end: x, ..r });
    1
}

// From the record at `pos` on, makes the records cover exactly what lies from `at` to `end`: the Rust's loop. A `for` would be no plainer:
// a record that fills a gap moves the cursor and the end, and the cursor is used past the loop.
fn cover(s: &mut [u32], len: usize, pos: usize, at: u32, end: u32, default: u32) -> Placed
    requires pos_le_len { pos ≤ len }
    requires cover_room { CoverRoom s.old len pos at end default }
    ensures { Covered s.old len pos at end default result s.new }
{
    let mut n = len;
    let mut p = pos;
    let mut a = at;
    while p < n {
        let r = get(s, p);
        if end <= r.start {
            break;
        }
        let g = fill_gap(s, n, p, a, r.start, default);
        n += g;
        p += g;
        if end <= r.end {
            let h = cut_end(s, n, p, a.max(r.start), end);
            return Placed {
                len: n + h,
                end: p + 1,
            };
        }
        p += 1;
        a = r.end;
    }
    insert_record(
        s,
        n,
        p,
        Range {
            start: a,
            end,
            state: default,
        },
    );
    Placed {
        len: n + 1,
        end: p + 1,
    }
}

// Cuts the ranges and fills the gaps so that the records from `position` up to `end` cover exactly what lies from `start` to `end`.
pub fn isolate(s: &mut [u32], len: usize, start: u32, end: u32, default: u32) -> Isolated
    requires { IsolateRoom s.old len start end default }
    ensures { Isolating s.old len start end default result s.new }
{
    let pos = first_past(s, len, start);
    let g = cut_start(s, len, pos, start);
    let position = pos + g;
    let p = cover(s, len + g, position, start, end, default);
    Isolated {
        len: p.len,
        position,
        end: p.end,
    }
}

// How many records a cut at x of the record at `pos`, if there is one, will add.
fn lead(s: &[u32], len: usize, pos: usize, x: u32) -> usize
    requires pos_le_len { pos ≤ len }
    requires len_in_bounds { 3 * len ≤ length s.now }
    ensures { Leading s.now len pos x result }
{
    if pos == len {
        return 0;
    }
    usize::from(get(s, pos).start < x)
}

// How many records will be added from the record at `pos` on, so that they cover what lies from `at` to `end`.
fn added(s: &[u32], len: usize, pos: usize, at: u32, end: u32) -> usize
    requires pos_le_len { pos ≤ len }
    requires len_in_bounds { 3 * len ≤ length s.now }
    ensures { Added s.now len pos at end result }
{
    let mut n = 0;
    let mut a = at;
    for k in pos..len {
        let r = get(s, k);
        if end <= a.max(r.start) {
            return n + 1;
        }
        n += usize::from(a < r.start);
        if end <= r.end {
            return n + usize::from(end < r.end);
        }
        a = r.end;
    }
    n + 1
}

// How many ranges `isolate` will leave, whatever the default, so that a caller can refuse before any change.
#[tactic(auto, using(crate::proofs::Counting::count_is))]
pub fn isolated_count(s: &[u32], len: usize, start: u32, end: u32) -> usize
    requires { 3 * len ≤ length s.now }
    ensures { (d : ℕ) → result ≡ length (list_of (isolate_of start end d (decode len s.now))) }
{
    let pos = first_past(s, len, start);
    let g = lead(s, len, pos, start);
    let h = added(s, len, pos, start, end);
    len + g + h
}
