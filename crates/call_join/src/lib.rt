// Call join: a tracker's calls over a whole set: `TextureTracker::set_from_usage_scope` and `set_from_tracker`.
//
// Place in the picture: public calls, over the test (`set_wellformed`), the checks (`set_checks`), the log's head (`log_head`) and one
// texture of a tracker (`texture_track`). Nothing is required of the caller: any numbers in the lent storage and any head of the log get an
// answer. First the test of both sets (4), the log's head (5), the checks of 01's table and the count of the entries (15), on unchanged
// storage; then the entries are written and the textures change, and nothing can fail.
//
//     calls   the two calls; they share everything after the test
//     every   every texture that the given set owns, by ascending index
//
// What holds: the answer, the head, the entries and the view of the tracker are the model's (model/specs/Log, through specs/Contract), all
// that is lent stays but what is of the textures that the given set owns, and a refusal leaves every number as it was. The given set is
// only read.
#![tactic(auto)]

pub mod calls;
pub mod every;

pub use calls::{set_from_tracker, set_from_usage_scope};
