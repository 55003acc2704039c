// `RangedStates::coalesce`, in place: the records up to the first that joins are only read; from there on one pass reads ahead of where it
// writes.
ghost use Rattle.std.specs.Prelude.{◌≡◌, ◌*◌, ◌≤◌, ◌<◌, length};
ghost use Rattle.model.specs.RangedStates.{joins as joins_of};
ghost use Rattle.range_states.specs.Coalescing.{Apart, Coalesced};

use crate::{clear, get, put};
use model::Range;

// Whether b goes on where a ends, in the same state.
pub fn joins(a: Range, b: Range) -> bool
    ensures { result ≡ joins_of a b }
{
    a.end == b.start && a.state == b.state
}

// Where the first record stands that joins the one before it, or `len`.
#[tactic(auto, using(crate::proofs::Joining::reading_start, crate::proofs::Joining::reading_on))]
fn first_join(s: &[u32], len: usize) -> usize
    requires len_nonzero { 0 < len }
    requires len_in_bounds { 3 * len ≤ length s.now }
    ensures { Apart s.now len result }
{
    let mut cur = get(s, 0);
    for i in 1..len {
        let next = get(s, i);
        if joins(cur, next) {
            return i;
        }
        cur = next;
    }
    len
}

// Joins touching equals among the first `len` records and tells how many are left. Freed records become zeros.
pub fn coalesce(s: &mut [u32], len: usize) -> usize
    requires { 3 * len ≤ length s.old }
    ensures { Coalesced s.old len result s.new }
{
    if len == 0 {
        return 0;
    }
    let first = first_join(s, len);
    if first == len {
        return len;
    }
    let mut w = first - 1;
    let mut cur = get(s, w);
    for i in first..len {
        let next = get(s, i);
        if joins(cur, next) {
            cur.end = next.end;
        } else {
            put(s, w, cur);
            w += 1;
            cur = next;
        }
    }
    put(s, w, cur);
    w += 1;
    clear(s, w, len);
    w
}
