// Texture barrier: the transitions from a tracker's end of one texture to a given start (`barrier` of texture.rs), handed to a sink, which
// counts them or writes them to a borrowed log.
//
// Place in the picture: over `usage` (which transition is skipped), `range_states` (the ranges of a mip) and `set_storage` (a texture as it
// is stored), under the tracker's calls. A call counts first, on unchanged storage, so that it can refuse where the log has too few free
// entries, and writes later. Both are these functions, with one sink and the other, so what is counted is what is written.
//
//     entries      a log, seven numbers an entry
//     sink         what takes transitions: a count, or a log that is written from a place on
//     transition   one transition
//     mip          the ranges of one mip, each by the same step: a `Step` says what is added for a range
//     many         a texture that is held, or given, as Many: mip by mip
//     sources      one texture, to a state of all of it or of the part that a selector names, to what another set holds
//
// What holds of every function: with es the model's entries, the sink takes es, where it has room for them. A count grows by as many, as
// long as it stays below 2^64. In a log they stand from its place on, the place moves on by as many, and every other number of the log is
// as it was (specs/Sinks, specs/Written). Only `put_entry` and `get_entry` know where an entry's numbers stand, and
// above `log_merge` knows that they are seven, the index first: `entries_of` (specs/Entries) is the view of a log, and through it what is
// written is the model's `added`.
#![tactic(auto)]

pub mod entries;
pub mod many;
pub mod mip;
pub mod sink;
pub mod sources;
pub mod transition;

pub use entries::{entry_count, get_entry, put_entry};
pub use sink::{Counting, Sink, Writing};
pub use sources::{barrier_texture, barrier_use};
