// Plan files: a frame plan as bytes, read into items and written from items (request 08).
//
// Place in the picture: beside the tracker, over `model`'s refusals alone. It judges files and lists, not the uses in them: the merge does
// that. What it lists of a plan's uses is what a scope's merges take.
//
//     file     a run of fields: a tag, a length of two bytes, low byte first, so many bytes. Tag 1 is a group, which holds fields; tag 2 is
//              a use of 15 bytes
//     items    16 bytes each: a kind, 1 opened, 2 use, 3 closed, and the 15 bytes of the use as in the file. A rest of fewer than 16 bytes
//              is no item
//
//     kinds    the bytes that tell kinds of items and of fields apart
//     reader   `read`, by a group reader and a field reader that call each other: a group holds fields, and a field is a use or a group
//     writer   `write`, from the last item to the first, so that a group's length is known where it is written
//     lister   `uses`, the uses of a list of items as eight numbers each
//
// What holds: nothing is required of a caller; answers and borrowed memory are those of specs/Plan, specs/Write and specs/Uses; a refusal
// changes nothing; an accepted file read and written is the same bytes, an accepted list written and read the same events (proofs/Claims).
// Each call judges its input before it writes: the readers without room for any item, the writer and the lister by counting. A group is
// read only while fewer than eight stand round it, so at most nine group readers are on the stack at a time.
#![tactic(auto)]

mod kinds;
mod lister;
mod reader;
mod writer;

pub use lister::uses;
pub use reader::read;
pub use writer::write;
