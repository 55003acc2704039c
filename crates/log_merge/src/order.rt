// Whether logs are in order, and how many entries a merge of two writes: known before anything is written.
ghost use Rattle.std.specs.Prelude.{◌≡◌, ◌+◌, ◌*◌, ◌≤◌, length, get_or};
ghost use Rattle.texture_barrier.specs.Entries.{entries_of, blank_entry};
ghost use Rattle.log_merge.specs.Merge.{index_of, ascending};
ghost use Rattle.log_merge.specs.Order.{Scans, Needs};

// The index of the entry at n: its first number.
fn index_at(log: &[u32], n: usize) -> u32
    requires { 7 * n + 7 ≤ length log.now }
    ensures { result ≡ index_of (get_or (entries_of log.now) n blank_entry) }
{
    log[7 * n]
}

// How many entries of a log have an index below the limit, or none where it descends: one pass. Limits have 64 bits, so that one past every
// index is among them.
fn scan(log: &[u32], limit: u64) -> Option<usize>
    ensures { Scans (entries_of log.now) limit result }
{
    let mut last = 0;
    let mut below = 0;
    for i in 0..log.len() / 7 {
        let x = index_at(log, i);
        if x < last {
            return None;
        }
        below += usize::from(u64::from(x) < limit);
        last = x;
    }
    Some(below)
}

// Whether a log ascends. Asked where a `scan` with `?`, whose count nobody wants, makes a longer loop.
fn ascends(log: &[u32]) -> bool
    ensures { result ≡ ascending (entries_of log.now) }
{
    scan(log, 0).is_some()
}

// How many entries a merge writes, by the closed form, or none where a log is not in order (31): the second is used up if its last index is
// below the first's, otherwise the first.
pub fn need_of(first: &[u32], second: &[u32]) -> Option<usize>
    ensures { Needs first.now second.now result }
{
    if first.len() % 7 != 0 || second.len() % 7 != 0 {
        return None;
    }
    let n = first.len() / 7;
    let m = second.len() / 7;
    if n == 0 {
        return scan(second, 0);
    }
    if m == 0 {
        return scan(first, 0);
    }
    let a = index_at(first, n - 1);
    let b = index_at(second, m - 1);
    if b < a {
        if !ascends(second) {
            return None;
        }
        return Some(m + scan(first, u64::from(b) + 1)?);
    }
    if !ascends(first) {
        return None;
    }
    Some(n + scan(second, u64::from(a))?)
}
