// Range isolate: `RangedStates::isolate` of range.rs, on plain numbers in a borrowed slice, and how many ranges it will leave.
//
// Place in the picture: over `range_states`, whose records it reads, writes and inserts, and under `texture_mips`, which isolates the
// layers of a use before it changes their states. A crate of its own, since its proofs are the longest of the range functions.
//
// What holds: the first records become what the model's `isolate` gives, gaps filled, and every other number of the slice stays
// (specs/Isolation: `Isolating`); room is asked for exactly, and `isolated_count` tells it beforehand. Ranges that tile their layers never
// need more records than there are layers (specs/Tiling).
#![tactic(auto)]

pub mod isolation;

ghost use Rattle.std.specs.Prelude.{◌+◌, ◌*◌, ◌≤◌, length};
ghost use Rattle.range_states.specs.View.{decode, Becomes};
ghost use Rattle.range_states.specs.Insert.{insert_at};

pub use isolation::{Isolated, isolate, isolated_count};
use model::Range;
use range_states::{get, put};

// Inserts a record at `at` into the first `len`: the records from there on move up by one. `copy_within`, which moves number by number,
// was tried: it takes more instructions where fewer than four records move.
fn insert_record(s: &mut [u32], len: usize, at: usize, r: Range)
    requires at_le_len { at ≤ len }
    requires len_in_bounds { 3 * (len + 1) ≤ length s.old }
    ensures { let l = s.old in
        Becomes l (len + 1) (insert_at at r (decode len l)) s.new }
{
    for k in (at..len).rev() {
        put(s, k + 1, get(s, k));
    }
    put(s, at, r);
}
