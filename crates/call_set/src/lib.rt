// Call set: a tracker's call on one use of one texture, `TextureTracker::set_single`.
//
// Place in the picture: a public call, over the test (`set_wellformed`), the checks (`set_checks`), the log's head (`log_head`) and one
// texture of a tracker (`texture_track`). Nothing is required of the caller: any argument, any numbers in the lent storage and any head of
// the log get an answer. First the test (4), the log's head (5), the checks of 01's table and the count of the entries (15), on unchanged
// storage; then the entries are written and the texture changes, and nothing can fail.
//
// What holds: the answer, the head, the entries and the view of the tracker are the model's (model/specs/Log, through specs/Contract), all
// that is lent stays but what is of the named texture, and a refusal leaves every number as it was.
#![tactic(auto)]

pub mod single;

pub use single::set_single;
