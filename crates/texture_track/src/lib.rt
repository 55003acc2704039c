// Texture track: one texture of a tracker, `insert_or_barrier_update` of texture.rs: its transitions, and what it becomes.
//
// Place in the picture: over the transitions (`texture_barrier`) and the functions on one texture (`texture_merge`, `texture_update`), and
// under the calls of a tracker, which differ only in the textures that they name and in what they give each. A texture that is not owned
// is owned and inserted, start and end; an owned one has the transitions from its end, and is updated.
//
//     using   a use of it: `set_single`
//     given   what a given set holds at its index: `set_from_usage_scope`, `set_from_tracker`, the sparse call
//
// A given set is a `GivenSet`: its table, with the halves and the ranges of what it gives as start and as end. Transitions go into a sink,
// which counts or writes them.
//
// What holds: the transitions and the texture are the model's (model/specs/Calls: `log_slot`, `set_slot`), and all else that is lent stays
// (specs/Slot: `SlotSet`). specs/Tracked is the contract of the calls above.
#![tactic(auto)]

pub mod given;
pub mod using;
