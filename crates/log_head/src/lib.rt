// Log head: the head of the log, what is written and what is free, and what every call that logs answers.
//
// Place in the picture: over `set_storage` and `texture_barrier`, whose entries the log holds, and under the calls of a tracker, which
// check the head (5), count their entries against what is free (15), write them and move it on; so does `log_merge`. `empty_log` is a
// public call.
//
//     adding   what a call adds: a `Transitions` hands it to a sink, and `log_all` counts it and writes it
//
// What holds: each answer is the model's (model/specs/Log), and a refusal leaves the head as it was. specs/Called is the contract of a call
// that logs, over any view of the sets that it is lent, check by check; specs/UpTo what a loop over textures adds.
#![tactic(auto)]

ghost use Rattle.std.specs.Prelude.{◌≡◌, ◌+◌, ◌/◌, ◌^◌, ◌≤◌, ◌<◌, true, false, MatchResult, length, get_or};
ghost use Rattle.model.specs.Log.{answered};
ghost use Rattle.model.specs.Sets.{capacity};
ghost use Rattle.model.specs.declared.Refusal.TheVariants.{LogTooShort};
ghost use Rattle.set_storage.specs.Storage.{numbers_of, layer_limit_at, mip_limit_at, textures_at};
ghost use Rattle.log_head.specs.Log.{Emptying, head_within, head_after};

pub mod adding;

pub use adding::{Transitions, log_all};
use model::{LogHead, Refusal};
use set_storage::{LAYER_LIMIT, MIP_LIMIT, TEXTURES, Table};

// 5: whether the head tells no more entries, written and free together, than were lent. Tells a proof that the numbers can be counted.
pub fn check_head(log: &[u32], head: LogHead) -> Result<(), Refusal>
    ensures fits { MatchResult result (λ _. head_within (length log.now / 7) head ≡ true)
        (λ r. (r ≡ LogTooShort) × (head_within (length log.now / 7) head ≡ false)) }
    ensures countable { length log.now < 2 ^ 64 }
{
    let lent = log.len() / 7;
    if lent < head.written || lent - head.written < head.free {
        return Err(Refusal::LogTooShort);
    }
    Ok(())
}

// N x M x W, a subresource for each: no call adds more entries, so a log with as many free ones need not be counted for.
pub fn subresources(table: &Table) -> usize
    requires { (get_or table.now textures_at 0 ≤ 64)
        × ((get_or table.now mip_limit_at 0 ≤ 16) × (get_or table.now layer_limit_at 0 ≤ 256)) }
    ensures { (result ≡ capacity (numbers_of table.now)) × (result ≤ 262144) }
{
    table[TEXTURES] as usize * table[MIP_LIMIT] as usize * table[LAYER_LIMIT] as usize
}

// The head after a call that added n entries.
pub fn moved_on(head: LogHead, n: usize) -> LogHead
    requires n_le_free { n ≤ head.free }
    requires free_bound { head.written + head.free < 18446744073709551616 }
    ensures { result ≡ head_after head n }
{
    LogHead {
        written: head.written + n,
        free: head.free - n,
    }
}

// Empties the log: free gains what was written, written becomes 0, and the entries stay.
pub fn empty_log(log: &[u32], head: LogHead) -> Result<LogHead, Refusal>
    ensures { Emptying head log.now (answered head result) }
{
    check_head(log, head)?;
    Ok(LogHead {
        written: 0,
        free: head.free + head.written,
    })
}
