// Range states: the Rust's `RangedStates` (range.rs) on plain numbers in a borrowed slice.
//
// Place in the picture: over `model`, whose lists say what each function does, and under `range_isolate`, which cuts ranges,
// `range_checks`, which checks the calls on ranges, and `texture_mips`, which merges and paints one mip of a texture with them.
//
//     slice of u32:   start end state | start end state | .. | free records | up to two numbers that make no record
//                     record 0          record 1              from `len` on
//
// The functions are told `len`, how many records are in use, and tell the new count; nothing else is kept between calls.
// The slice and `len` make no struct and no shorter slice: the run is C's, with a told length, and the functions that write need what is
// free behind `len`; those that only read take the same two, so that one form of contract, over `decode len`, serves both. `start` and
// `end` stay two numbers too, as C and the model's definitions give them.
// What holds of every function: record k stands at the numbers 3k, 3k + 1 and 3k + 2; only `get`, `put` and `clear` know that. All others
// are stated over `view`, the list of the records (specs/View), in the form `Becomes`: the first records become what the model's definition
// gives, and every other number of the slice stays. Nothing is asked of the ranges: they may have gaps, be empty or overlap.
#![tactic(auto)]

pub mod coalescing;
pub mod filtering;

ghost use Rattle.std.specs.Prelude.{◌≡◌, ◌+◌, ◌*◌, ◌-◌, ◌≤◌, ◌++◌, length, get_or, replicate};
ghost use Rattle.range_states.specs.View.{view, decode, blank, Put, Becomes};

pub use coalescing::coalesce;
pub use filtering::{filtered_count, iter_filter};
use model::Range;

// The record at k.
#[tactic(auto, using(crate::specs::View::view_at))]
pub fn get(s: &[u32], k: usize) -> Range
    requires { 3 * k + 3 ≤ length s.now }
    ensures { result ≡ get_or (view s.now) k blank }
{
    let at = 3 * k;
    Range {
        start: s[at],
        end: s[at + 1],
        state: s[at + 2],
    }
}

// Writes the record at k.
pub fn put(s: &mut [u32], k: usize, r: Range)
    requires { 3 * k + 3 ≤ length s.old }
    ensures { Put s.old k r s.new }
{
    let at = 3 * k;
    s[at] = r.start;
    s[at + 1] = r.end;
    s[at + 2] = r.state;
}

// Clears the records from `from` up to, not including, `to`: freed records become zeros.
fn clear(s: &mut [u32], from: usize, to: usize)
    requires from_le_to { from ≤ to }
    requires to_in_bounds { 3 * to ≤ length s.old }
    ensures { Becomes s.old to (decode from s.old ++ replicate (to - from) blank) s.new }
{
    s[3 * from..3 * to].fill(0);
}
