// Call remove: `TextureTracker::set_and_remove_from_usage_scope_sparse`: the listed textures of a scope go into a tracker, and the scope no
// longer owns them.
//
// Place in the picture: a public call, over the test (`set_wellformed`), the checks (`set_checks`), the log's head (`log_head`) and one
// texture of a tracker (`texture_track`). Nothing is required of the caller: any list, any numbers in the lent storage and any head of the
// log get an answer. First the test of both sets (4), the log's head (5), the checks of 01's table in list order and the count of the
// entries (15), on unchanged storage; then the entries are written and the textures change, and nothing can fail.
//
//     sparse   the call
//     logged   the transitions of the listed textures, handed to a sink
//     taken    the listed textures go into the tracker, and out of the scope
//
// An index that the scope does not own is passed over, and one that is listed twice counts once. The log is made before any texture
// changes: an index logs as at entry where it is first listed, and nothing where it is listed again.
//
// What holds: the answer, the head, the entries and the views of the tracker and of the scope are the model's (model/specs/Log, through
// specs/Removed), a refusal leaves every number as it was, the scope's table changes in its words of ownership alone, and of the tracker's
// numbers all stay but those of the textures that are listed and owned.
#![tactic(auto)]

pub mod logged;
pub mod sparse;
pub mod taken;

pub use sparse::set_and_remove_from_usage_scope_sparse;
