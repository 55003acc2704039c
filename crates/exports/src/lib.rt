// Exports: every public call for C. `tools/library` builds it as target/lib/libtexture_tracker.a.
//
// Place in the picture: the C boundary over `track`, `range_calls`, `log_merge` and `plan_file`. Each function makes the values that a call
// takes of plain numbers, makes the call, and tells its answer in a struct of numbers, since a function for C returns no enum.
// include/track.h is the header, and tests/c calls every function from C.
//
//     sets       opening a scope or a tracker, and the test whether it is well formed
//     scopes     the two merges
//     trackers   the four calls of a tracker
//     logs       emptying the log, and merging two logs into a third
//     plans      reading and writing plan files, and the uses of a plan
//     ranged     `isolate`, `coalesce` and `iter_filter` on ranges by themselves
//     answers    from outcomes to numbers
//
// What holds: nothing is required of any argument. The outcome that an answer tells (specs/SetAnswers, `outcome_of`) meets the very
// contract of the call beneath, and the answer has that outcome's numbers and no others (`answer_of`); no two outcomes have the same
// numbers (proofs/AnswerLaws). The answers of the calls on ranges (RangesAnswers, RangesAnswerLaws), of a merge of logs (LogAnswers,
// proofs/LogAnswerLaws) and of the calls on plan files (PlanAnswers) are told alike.
//
// What C must see to is what the types say here: each pointer is good for the length beside it (a table's is 2,376), and what a call writes
// overlaps nothing else that it is lent. A slice is passed as a pointer and a length, two arguments of their own, also where one is the
// last in a register and the other the first on the stack. C declares it so; so must Rust, which would pass a `&[u32]` there otherwise.
#![tactic(auto)]

pub mod answers;
pub mod logs;
pub mod plans;
pub mod ranged;
pub mod scopes;
pub mod sets;
pub mod trackers;

// What a call answers, in numbers. kind 0: done. 1: refused, by 01's `number`, at `place`. 2: a conflict of the texture `index`, at some
// mips and layers, between the state that was there and the one that was given. Numbers that a kind does not tell are 0.
#[repr(C)]
#[derive(Clone, Copy)]
pub struct Answer {
    pub kind: u32,
    pub number: u32,
    pub place: u32,
    pub index: u32,
    pub mip_start: u32,
    pub mip_end: u32,
    pub layer_start: u32,
    pub layer_end: u32,
    pub old_state: u32,
    pub new_state: u32,
}

// What a call with a log answers, and the head of the log after it.
#[repr(C)]
#[derive(Clone, Copy)]
pub struct LoggedAnswer {
    pub answer: Answer,
    pub written: usize,
    pub free: usize,
}

// What a call on ranges answers: where the isolated run is, how many ranges it has or were listed, and how many are in use now. Counts
// that a call does not tell, and those of a refusal, are 0.
#[repr(C)]
#[derive(Clone, Copy)]
pub struct RangesAnswer {
    pub answer: Answer,
    pub position: usize,
    pub count: usize,
    pub told: usize,
}

// What a merge of two logs answers, the head of the third log after it, and the rest: `rest_length` numbers from `rest_offset` on, of the
// first log where `rest_first` is 1, and of the second where it is 0.
#[repr(C)]
#[derive(Clone, Copy)]
pub struct MergedAnswer {
    pub answer: Answer,
    pub written: usize,
    pub free: usize,
    pub rest_first: u32,
    pub rest_offset: usize,
    pub rest_length: usize,
}

// What a call on plan files answers, and how many items, bytes or uses it wrote: 0 where it is refused.
#[repr(C)]
#[derive(Clone, Copy)]
pub struct CountedAnswer {
    pub answer: Answer,
    pub count: usize,
}
