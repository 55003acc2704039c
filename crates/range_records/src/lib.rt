// Range records: `isolate`, `coalesce` and `iter_filter` over a borrowed run of range records, the form that 01 names for them.
//
// Place in the picture: beside `range_calls`, which has the same calls on plain numbers, and over its answers; nothing stands above. 01:
// "take the strip as a lent run of range records". That page calls their proofs long and done by hand; they no longer are: each loop over
// the records is proved from its invariant.
//
//     decisions   what a pass has found, what a call answers, which record is written next: on plain numbers, proved as any function
//     strips      the passes over the records, and the three calls
//
// What holds: nothing is required of the three calls. Each answer, and the records afterwards, equal the definitions of
// model/specs/RangeCalls, as those of `range_calls` do (range_calls/specs/RangeContract); a refusal (18, 19, 14, 15) leaves every record as
// it was, and no room is asked of the caller. specs/Passes says what each pass computes, in the direction of its loop. In proofs/, Laws
// shows that the passes together are the model's calls; strips/ has the loops' invariants.
#![tactic(auto)]

mod decisions;
pub mod strips;

pub use strips::{RangeRecord, coalesce, isolate, iter_filter};
