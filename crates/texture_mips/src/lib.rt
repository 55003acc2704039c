// Texture mips: the ranges of one mip of a texture, and what a use does to them (the Rust's `merge`, `insert` and `update` in texture.rs,
// for one mip).
//
// Place in the picture: over `range_states`, which joins ranges, `range_isolate`, which cuts them, and `usage`, which unites states; under
// `texture_merge` and `texture_update`, which go over the mips of a texture and know where their ranges lie.
//
//     uniting    a given state on the ranges of a run, or on every range: union by union, up to the first conflict
//     painting   a run takes one state, and the mip is coalesced (`update`) or not (`paint`, for an insert); a mip made anew
//     learning   a mip of a tracker's start takes a state where the end's ranges are UNKNOWN
//
// A mip is a borrowed slice of numbers and a count `len`, as in `range_states`; the new count is returned. What holds of every function:
// the first ranges at exit and the answer are what the model's definition makes of the first `len` ranges at entry; numbers past the new
// count are free (specs/Paint: `Leaves`, specs/Merge: `Walked`). Room is required exactly; a mip that tiles its layers has it with as many
// ranges as layers, and goes on tiling them (specs/Kept).
#![tactic(auto)]

pub mod learning;
pub mod painting;
pub mod uniting;

pub use learning::learn;
pub use painting::{fresh, paint, update};
pub use uniting::{Merged, merge_every, merge_piece};
