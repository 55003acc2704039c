// What a call adds to the log: counted against what is free, and then written.
ghost use Rattle.std.specs.Prelude.{◌≡◌, ◌/◌, ◌≤◌, ◌<◌, true, List, MatchResult, length};
ghost use Rattle.model.specs.declared.PendingTransition.{PendingTransition};
ghost use Rattle.model.specs.declared.Refusal.TheVariants.{NoFreeEntry};
ghost use Rattle.log_head.specs.Log.{head_within};
ghost use Rattle.log_head.specs.Called.{Wrote};

use crate::moved_on;
use model::{LogHead, Refusal};
use texture_barrier::{Counting, Sink, Writing};

// What a call adds.
pub trait Transitions {
    // the entries, in their order
    ghost entries: { Self → List PendingTransition };

    // what is required
    ghost ready: { Self → Type 0 };

    // Hands them to a sink.
    fn log<K: Sink>(&self, sink: &mut K)
        requires ready { ready self.now }
        requires room { K.room sink.old (entries self.now) }
        ensures { K.takes sink.old (entries self.now) sink.new };
}

// Writes what a call adds after the entries that the log has, and moves the head on; where there are too few free entries, that is refused
// and nothing is written (15). At most `most` are added, so with as many free they need not be counted.
pub fn log_all<T: Transitions>(
    adding: &T,
    most: usize,
    log: &mut [u32],
    head: LogHead,
) -> Result<LogHead, Refusal>
    requires ready { T.ready adding.now }
    requires most { (length (T.entries adding.now) ≤ most) × (most ≤ 262144) }
    requires head_value { head_within (length log.old / 7) head ≡ true }
    ensures { let es = T.entries adding.now in
        MatchResult result (λ h. Wrote es head log.old h log.new)
        (λ r. (r ≡ NoFreeEntry) × ((head.free < length es) × (log.new ≡ log.old))) }
{
    if head.free < most {
        let mut counted = Counting(0);
        adding.log(&mut counted);
        if head.free < counted.0 {
            return Err(Refusal::NoFreeEntry);
        }
    }
    let at = head.written;
    let mut written = Writing { log, at };
    adding.log(&mut written);
    Ok(moved_on(head, written.at - at))
}
