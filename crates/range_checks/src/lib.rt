// Range checks: 01's table on the calls on ranged states, 18, 19, 14 and 15 in its order, on unchanged storage.
//
// Place in the picture: over `range_states` and `range_isolate`, whose counts it asks, and under `range_calls`.
//
// What holds: nothing is required and nothing is written; each check equals the model's (model/specs/RangeCalls), and what is accepted has
// the room that the call asks for (specs/Accepted).
#![tactic(auto)]

pub mod checking;

pub use checking::{check_coalesce, check_filter, check_isolate};
