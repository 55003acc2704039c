// The calls. Each looks at everything before it writes: 5 for the third log's head, 31 for the two logs, 15 for the entries to be merged.
ghost use Rattle.std.specs.Prelude.{◌≡◌, MatchResult, min, length};
ghost use Rattle.model.specs.Prelude.{Some};
ghost use Rattle.model.specs.Refusals.{first_failing};
ghost use Rattle.log_head.specs.Log.{log_of};
ghost use Rattle.log_merge.specs.Calls.{MergesLogs, RestOf, HandsOver, PartOf, Room, merge_checks, told, rest_told};

use crate::order::need_of;
use crate::weave::weave;
use crate::{Merged, Rest, Unmerged};
use log_head::{check_head, moved_on};
use model::{LogHead, Refusal};

// How many entries a merge writes, or the first check that fails. The entries are counted once both logs are known to be in order.
fn room_for(first: &[u32], second: &[u32], third: &[u32], head: LogHead) -> Result<usize, Refusal>
    ensures { MatchResult result (Room first.now second.now head third.now)
        (λ r. first_failing (merge_checks first.now second.now (log_of third.now head)) ≡ Some r) }
{
    check_head(third, head)?;
    let total = need_of(first, second).ok_or(Refusal::LogOutOfOrder)?;
    if head.free < total {
        return Err(Refusal::NoFreeEntry);
    }
    Ok(total)
}

// Merges two logs into a third, after what is written there. Tells what is left of one of them, by its place: where it is refused, the
// empty end of the second.
pub fn merge_at(
    first: &[u32],
    second: &[u32],
    third: &mut [u32],
    head: LogHead,
) -> Result<Merged, Unmerged<Rest>>
    ensures { MergesLogs first.now second.now head third.old (told head result) (rest_told result) third.new }
{
    match room_for(first, second, third, head) {
        Ok(total) => {
            let rest = weave(first, second, third, head.written);
            let head = moved_on(head, total);
            Ok(Merged { rest, head })
        }
        Err(refusal) => {
            let rest = Rest::Second(second.len());
            Err(Unmerged { refusal, rest })
        }
    }
}

// A log's numbers from one on, or none where it has not as many.
fn part(log: &[u32], from: usize) -> &[u32]
    ensures { PartOf log.entry (min from (length log.now)) result }
{
    &log[from.min(log.len())..]
}

// The rest that a merge of the two logs told, as a part of its own log, not copied.
pub fn rest_of<'a>(first: &'a [u32], second: &'a [u32], rest: Rest) -> &'a [u32]
    ensures { RestOf first.entry second.entry rest result }
{
    match rest {
        Rest::First(from) => part(first, from),
        Rest::Second(from) => part(second, from),
    }
}

// The merge and its rest in one call, which moves the third log's head on. Where it is refused, the head stays, and the rest is the empty
// end of the second.
pub fn merge_logs<'a>(
    first: &'a [u32],
    second: &'a [u32],
    third: &mut [u32],
    head: &mut LogHead,
) -> Result<&'a [u32], Unmerged<&'a [u32]>>
    ensures { HandsOver first.entry second.entry head.old third.old head.new result third.new }
{
    match merge_at(first, second, third, *head) {
        Ok(merged) => {
            *head = merged.head;
            Ok(rest_of(first, second, merged.rest))
        }
        Err(Unmerged { refusal, rest }) => {
            let rest = rest_of(first, second, rest);
            Err(Unmerged { refusal, rest })
        }
    }
}
