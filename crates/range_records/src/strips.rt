// `isolate`, `coalesce` and `iter_filter` over a borrowed run of range records (01, "Strips").
//
// The records cannot be lent to the functions on plain numbers without a copy of them, and no room is asked of the caller; so each call
// is two passes over the records themselves. The first, `survey`, reads the records in use once and changes nothing: whether they ascend,
// and how many there are of everything that the answer tells. The second writes: `cut` from the last record back to the first, as the
// run grows; `join` forwards, as it shrinks; `clip` into the second run. Every decision is a function on plain numbers; the passes and
// the calls, which have the records in hand, only read, ask and write. A call that is refused makes no second pass.
ghost use Rattle.std.specs.Prelude.{◌≡◌, ◌+◌, ◌≤◌, length};
ghost use Rattle.range_calls.specs.RangeContract.{isolate_answer, coalesce_answer, filter_answer};
ghost use Rattle.range_calls.specs.RangeContract.{isolate_records, coalesce_records, filter_records};
ghost use Rattle.range_states.specs.View.{blank};
ghost use Rattle.range_records.specs.Passes.{begun, scanned, cutting, joining, clipping};

use crate::decisions::{BLANK, Scan, join_next, next_piece};
use model::{Range, Refusal};
use range_calls::Isolation;
use range_states::filtering::clipped;

// 01: "each a start, an end and a state".
pub type RangeRecord = Range;

// Looks at the records in use, once each.
fn survey(used: &[RangeRecord], start: u32, end: u32) -> Scan
    ensures { result ≡ scanned start end begun used.now }
{
    let mut s = Scan::BEGUN;
    for r in used {
        s = s.look(*r, start, end);
    }
    s
}

// Writes the first n records from the last to the first, from the first `told`: never onto one that is still to be read.
fn cut(run: &mut [RangeRecord], told: usize, n: usize, top: u32, start: u32, end: u32, default: u32)
    requires { (told ≤ length run.old) × (n ≤ length run.old) }
    ensures { run.new ≡ cutting n told top start end default run.old }
{
    let mut i = told;
    let mut edge = top;
    for w in (0..n).rev() {
        let p = next_piece(i, run[i.saturating_sub(1)], edge, start, end, default);
        run[w] = p.range;
        i = p.left;
        edge = p.range.start;
    }
}

// Joins touching equals among the first n records and tells how many are left. What was read becomes zeros before it is written.
fn join(run: &mut [RangeRecord], n: usize) -> usize
    requires { n ≤ length run.old }
    ensures { record { len = result; records = run.new } ≡ joining n 0 0 blank run.old }
{
    let mut len = 0;
    let mut last = BLANK;
    for i in 0..n {
        let j = join_next(last, len, run[i]);
        run[i] = BLANK;
        run[j.at] = j.range;
        len = j.len;
        last = j.range;
    }
    len
}

// Writes n records from `first` on, clipped, to the second run.
fn clip(run: &[RangeRecord], first: usize, n: usize, start: u32, end: u32, out: &mut [RangeRecord])
    requires { (first + n ≤ length run.now) × (n ≤ length out.old) }
    ensures { out.new ≡ clipping n first start end run.now out.old }
{
    for (w, r) in run[first..first + n].iter().enumerate() {
        out[w] = clipped(*r, start, end);
    }
}

// Makes what lies from `start` to `end` a run of ranges of its own, gaps filled with the default.
pub fn isolate(
    run: &mut [RangeRecord],
    told: usize,
    start: u32,
    end: u32,
    default: u32,
) -> Result<Isolation, Refusal>
    ensures { (result ≡ isolate_answer start end default told run.old)
        × (run.new ≡ isolate_records start end default told run.old) }
{
    let n = told.min(run.len());
    let s = survey(&run[..n], start, end);
    let p = s.plan_isolate(run.len(), told, start, end)?;
    cut(run, n, p.run.told, p.top, start, end, default);
    Ok(p.run)
}

// Joins touching ranges of one state, and tells how many records are in use now. Records that it frees become zeros.
pub fn coalesce(run: &mut [RangeRecord], told: usize) -> Result<usize, Refusal>
    ensures { (result ≡ coalesce_answer told run.old) × (run.new ≡ coalesce_records told run.old) }
{
    let n = told.min(run.len());
    let s = survey(&run[..n], 0, 0);
    s.check_order(run.len(), told)?;
    let len = join(run, n);
    Ok(len)
}

// Lists the overlaps with what lies from `start` to `end`, clipped, in a second run, and tells how many they are.
pub fn iter_filter(
    run: &[RangeRecord],
    told: usize,
    start: u32,
    end: u32,
    out: &mut [RangeRecord],
) -> Result<usize, Refusal>
    ensures { (result ≡ filter_answer start end told run.now out.old)
        × (out.new ≡ filter_records start end told run.now out.old) }
{
    let n = told.min(run.len());
    let s = survey(&run[..n], start, end);
    let count = s.plan_filter(run.len(), told, start, end, out.len())?;
    clip(run, s.first, count, start, end, out);
    Ok(count)
}
