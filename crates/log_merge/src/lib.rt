// Log merge: two recorders, one log. Two logs, their written numbers alone, are merged into a third until one of them is used up, and the
// rest of the other is handed back from its own memory, not copied.
//
// Place in the picture: beside the calls of a tracker, over `texture_barrier`, whose entries a log holds, and `log_head`, its head.
//
//     order    the pass over a log that looks for a descent, and how many entries a merge writes
//     weave    the merge itself: one comparison an entry, which moves as seven numbers
//     calls    `merge_at`, by value; `rest_of`, the part of a log that an answer tells; `merge_logs`, both in one call
//
// What holds: specs/Merge is the definition, specs/Claims, proofs/ClosedForm and proofs/RestClaims what is proved of it, and specs/Calls
// the contracts. Nothing is required of a caller. Whether there is room (15) is known before anything is written, by the closed form of how
// many entries are merged; so a refusal leaves everything as it was.
#![tactic(auto)]

pub mod calls;
mod order;
mod weave;

pub use calls::{merge_at, merge_logs, rest_of};
use model::{LogHead, Refusal};

// What is left of one of the two logs: its numbers from there on.
#[derive(Clone, Copy)]
pub enum Rest {
    First(usize),
    Second(usize),
}

// What a merge of two logs tells: the rest, and the head of the third log after it.
#[derive(Clone, Copy)]
pub struct Merged {
    pub rest: Rest,
    pub head: LogHead,
}

// A merge that is refused: why, and the rest, which is the empty end of the second log.
#[derive(Clone, Copy)]
pub struct Unmerged<R> {
    pub refusal: Refusal,
    pub rest: R,
}
