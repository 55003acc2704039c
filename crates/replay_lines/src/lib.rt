// Replay lines: the lines of the oracle, read and answered, and the storage that they speak of.
//
// Place in the picture: under the program `replay`, which adds the public calls; a crate of its own, so that it is proved while the calls
// are. Lines, answers and storage: oracle/README.md.
//
//     words     the bytes of a line, one by one, to its words, and these read in turn, or those of a text
//     sets      the four sets between calls, and what of them is lent to a call
//     changes   the lines that answer nothing: put, poke, room, log
//     tell      answers
//     ranged    the calls on ranged states
//     logs      what a lent log is before a call, and the merge of two logs
//     plans     the calls on plan files
//
// No heap and fixed memory are rules of the tracker; this is a test driver over it, and takes what it needs from the allocator.
#![tactic(auto)]

pub mod changes;
pub mod logs;
pub mod plans;
pub mod ranged;
pub mod sets;
pub mod tell;
#[cfg(test)]
mod tests;
pub mod words;
