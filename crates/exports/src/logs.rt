// The calls on logs alone: one that empties a log, and one that merges two into a third.
ghost use Rattle.std.specs.Prelude.{◌≡◌, ◌≤◌, length};
ghost use Rattle.model.specs.Log.{unless_refused};
ghost use Rattle.log_head.specs.Log.{Emptying};
ghost use Rattle.log_merge.specs.Calls.{MergesLogs, begins_at, which_of};
ghost use Rattle.exports.specs.SetAnswers.{logged_of, answered_of, head_of};
ghost use Rattle.exports.specs.LogAnswers.{merge_told, merged_of, merged_in};

use crate::answers::logged;
use crate::{Answer, LoggedAnswer, MergedAnswer};
use log_merge::Rest;
use model::{LogHead, Refusal};

// `track::empty_log`.
#[unsafe(no_mangle)]
pub extern "C" fn track_empty_log(log: &[u32], written: usize, free: usize) -> LoggedAnswer
    ensures value { result ≡ logged_of (answered_of result) }
    ensures emptying { Emptying (head_of written free) log.now (answered_of result) }
{
    let head = LogHead { written, free };
    logged(head, track::empty_log(log, head))
}

// What a merge of two logs of so many numbers tells.
fn merged(
    outcome: Result<(), Refusal>,
    head: LogHead,
    rest: Rest,
    first: usize,
    second: usize,
) -> MergedAnswer
    requires { begins_at rest ≤ which_of rest first second }
    ensures { result ≡ merged_of (merge_told (unless_refused outcome) head rest) first second }
{
    let answer = Answer::from(outcome);
    match rest {
        Rest::First(from) => MergedAnswer {
            answer,
            written: head.written,
            free: head.free,
            rest_first: 1,
            rest_offset: from,
            rest_length: first - from,
        },
        Rest::Second(from) => MergedAnswer {
            answer,
            written: head.written,
            free: head.free,
            rest_first: 0,
            rest_offset: from,
            rest_length: second - from,
        },
    }
}

// `log_merge::merge_at`, with the rest as an offset and a length: on a refusal the empty end of the second.
#[unsafe(no_mangle)]
pub extern "C" fn track_merge_logs(
    first: &[u32],
    second: &[u32],
    third: &mut [u32],
    written: usize,
    free: usize,
) -> MergedAnswer
    ensures value { result ≡ merged_of (merged_in result) (length first.now) (length second.now) }
    ensures merges_logs { let x = merged_in result in
        MergesLogs first.now second.now (head_of written free) third.old x.answered x.rest third.new }
{
    let told = LogHead { written, free };
    match log_merge::merge_at(first, second, third, told) {
        Ok(x) => merged(Ok(()), x.head, x.rest, first.len(), second.len()),
        Err(x) => merged(Err(x.refusal), told, x.rest, first.len(), second.len()),
    }
}
