// The entries of a borrowed log: seven numbers each, index, mip start, mip end, layer start, layer end, old, new.
// Only `put_entry` and `get_entry` know where an entry's numbers stand.
ghost use Rattle.std.specs.Prelude.{◌≡◌, ◌+◌, ◌*◌, ◌≤◌, length, get_or};
ghost use Rattle.texture_barrier.specs.Entries.{entries_of, blank_entry, PutEntry};

use model::{PendingTransition, Selector, TrackerIndex};

// How many entries a log has room for; up to six numbers after them are unused.
#[tactic(auto, using(crate::specs::Entries::entries_long))]
pub fn entry_count(log: &[u32]) -> usize
    ensures { result ≡ length (entries_of log.now) }
{
    log.len() / 7
}

// The entry at n.
#[tactic(auto, using(crate::specs::Entries::get_entry_is))]
pub fn get_entry(log: &[u32], n: usize) -> PendingTransition
    requires { 7 * n + 7 ≤ length log.now }
    ensures { result ≡ get_or (entries_of log.now) n blank_entry }
{
    let at = 7 * n;
    PendingTransition {
        index: TrackerIndex(log[at]),
        selector: Selector::new(log[at + 1], log[at + 2], log[at + 3], log[at + 4]),
        old: log[at + 5],
        new: log[at + 6],
    }
}

// Writes the entry at n. Seven stores: a copy of an array of the seven takes twice the instructions (tried).
pub fn put_entry(log: &mut [u32], n: usize, e: PendingTransition)
    requires { 7 * n + 7 ≤ length log.old }
    ensures { PutEntry log.old n e log.new }
{
    let at = 7 * n;
    log[at] = e.index.0;
    log[at + 1] = e.selector.mips.start.0;
    log[at + 2] = e.selector.mips.end.0;
    log[at + 3] = e.selector.layers.start.0;
    log[at + 4] = e.selector.layers.end.0;
    log[at + 5] = e.old;
    log[at + 6] = e.new;
}
