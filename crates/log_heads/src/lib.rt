// Log heads: the calls that log, with the head of the log lent by `&mut`, the form that 01 names for it.
//
// Place in the picture: the top, over `track` and `log_merge`. 01: "the head of the log, entries written and entries free, is lent and
// moved on by the call itself". Each function is thin: one call with the head by value, and one store. `merge_logs`, which also returns a
// slice, is `log_merge`'s own.
//
// What holds: what holds of the call that each function hands on to. The `ensures` are that call's own definitions, at what is lent here;
// so nothing is required, a refusal leaves everything as it was, and nothing more is to be believed.
#![tactic(auto)]

pub mod logs;

pub use log_merge::merge_logs;
pub use logs::{
    empty_log, merge_at, set_and_remove_from_usage_scope_sparse, set_from_tracker,
    set_from_usage_scope, set_single,
};
