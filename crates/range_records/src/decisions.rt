// The decisions of the calls on range records, on plain numbers: what a pass has found, what a call answers, which record is written next.
ghost use Rattle.std.specs.Prelude.{◌≡◌, true, ◌&&◌, ◌+◌, ◌≤◌, ◌<◌, ltb, IfOk};
ghost use Rattle.model.specs.RangedStates.{joins as joins_of};
ghost use Rattle.range_records.specs.Passes.{follows_of, cuts_of, Few, look_of, isolate_plan, verdict_of, run_verdict, filter_plan};
ghost use Rattle.range_records.specs.Passes.{end_of, lower_of, left_of, cut_piece, join_of};

use model::{Range, Refusal};
use range_calls::Isolation;
use range_states::coalescing::joins;
use range_states::filtering::overlap;

// What `survey` has found among the records so far: where the last one ends, whether they ascend, and how many end at or before the index's
// start, overlap the index, leave a gap in it, are cut by its start, and by its end.
#[derive(Clone, Copy)]
pub struct Scan {
    pub from: u32,
    pub ascends: bool,
    pub first: usize,
    pub found: usize,
    pub gaps: usize,
    pub lead: usize,
    pub tail: usize,
}

// What `isolate` tells, and where the last of the records that it leaves ends.
#[derive(Clone, Copy)]
pub struct Plan {
    pub run: Isolation,
    pub top: u32,
}

// The next record that `cut` writes, and how many records are left to read.
#[derive(Clone, Copy)]
pub struct Piece {
    pub range: Range,
    pub left: usize,
}

// The record that `join` writes, where, and how many there are then.
#[derive(Clone, Copy)]
pub struct Next {
    pub range: Range,
    pub at: usize,
    pub len: usize,
}

// A record that is not in use.
pub const BLANK: Range = Range {
    start: 0,
    end: 0,
    state: 0,
};

// Whether r is cut by x.
fn cuts(x: u32, r: Range) -> bool
    ensures { result ≡ cuts_of x r }
{
    r.start < x && x < r.end
}

impl Scan {
    // Before any record.
    pub const BEGUN: Scan = Scan {
        from: 0,
        ascends: true,
        first: 0,
        found: 0,
        gaps: 0,
        lead: 0,
        tail: 0,
    };

    // Whether the records still ascend with r: it is no empty range and starts no earlier than the last one ends.
    fn goes_on(self, r: Range) -> bool
        ensures { result ≡ (self.ascends && follows_of self.from r) }
    {
        self.ascends && self.from <= r.start && r.start < r.end
    }

    // One record more.
    #[tactic(auto, unfolding(crate::specs::Passes::look_of))]
    pub fn look(self, r: Range, start: u32, end: u32) -> Scan
        requires { Few self 9223372036854775807 }
        ensures { result ≡ look_of start end self r }
    {
        Scan {
            from: r.end,
            ascends: self.goes_on(r),
            first: self.first + usize::from(r.end <= start),
            found: self.found + usize::from(overlap(r, start, end)),
            gaps: self.gaps + usize::from(self.from.max(start) < r.start.min(end)),
            lead: self.lead + usize::from(cuts(start, r)),
            tail: self.tail + usize::from(cuts(end, r)),
        }
    }

    // What `coalesce` is refused for, after the scan: 14, where the told length passes what was lent, or the records do not ascend.
    #[tactic(auto, unfolding(crate::specs::Passes::verdict_of))]
    pub fn check_order(self, lent: usize, told: usize) -> Result<(), Refusal>
        ensures is { result ≡ verdict_of lent told self }
        ensures fits { IfOk result (λ u. told ≤ lent) }
    {
        if lent < told || !self.ascends {
            return Err(Refusal::RangesOutOfOrder);
        }
        Ok(())
    }

    // What `isolate` and `iter_filter` are refused for, after the scan, before the room is looked at: 18, 19, 14.
    #[tactic(auto, unfolding(crate::specs::Passes::run_verdict))]
    fn check_run(self, lent: usize, told: usize, start: u32, end: u32) -> Result<(), Refusal>
        ensures is { result ≡ run_verdict lent told self start end }
        ensures fits { IfOk result (λ u. told ≤ lent) }
    {
        if start == end {
            return Err(Refusal::LayersEmpty);
        }
        if end < start {
            return Err(Refusal::LayersReversed);
        }
        self.check_order(lent, told)
    }

    // What `isolate` tells, after the scan, or is refused for: 18, 19, 14, or 15 for all records that it would leave.
    #[tactic(auto, unfolding(crate::specs::Passes::isolate_plan))]
    pub fn plan_isolate(
        self,
        lent: usize,
        told: usize,
        start: u32,
        end: u32,
    ) -> Result<Plan, Refusal>
        requires few { Few self 2305843009213693951 }
        requires lent_bound { lent ≤ 2305843009213693951 }
        ensures { result ≡ isolate_plan lent told self start end }
    {
        self.check_run(lent, told, start, end)?;
        let gaps = self.gaps + usize::from(self.from.max(start) < end);
        let len = told + gaps + self.lead + self.tail;
        if lent < len {
            return Err(Refusal::NoFreeEntry);
        }
        Ok(Plan {
            run: Isolation {
                position: self.first + self.lead,
                count: self.found + gaps,
                told: len,
            },
            top: self.from.max(end),
        })
    }

    // How many overlaps `iter_filter` writes, after the scan, or what it is refused for: 18, 19, 14, or 15 for the second run.
    #[tactic(auto, unfolding(crate::specs::Passes::filter_plan))]
    pub fn plan_filter(
        self,
        lent: usize,
        told: usize,
        start: u32,
        end: u32,
        room: usize,
    ) -> Result<usize, Refusal>
        ensures { result ≡ filter_plan lent told self start end room }
    {
        self.check_run(lent, told, start, end)?;
        if room < self.found {
            return Err(Refusal::NoFreeEntry);
        }
        Ok(self.found)
    }
}

// Where the last of the i records left to read ends: 0 if none is left.
fn end_of(i: usize, r: Range) -> u32
    ensures { result ≡ end_of i r }
{
    if i == 0 { 0 } else { r.end }
}

// The record that `cut` writes next, below `edge`: a gap after r, or the upper part of r. r is the last of the i records left to read.
#[tactic(auto, unfolding(crate::specs::Passes::cut_piece))]
pub fn next_piece(i: usize, r: Range, edge: u32, start: u32, end: u32, default: u32) -> Piece
    ensures { (result ≡ cut_piece i r edge start end default) × (result.left ≤ i) }
{
    let low = end_of(i, r).max(start);
    let high = edge.min(end);
    if low < high {
        return Piece {
            range: Range {
                start: low,
                end: high,
                state: default,
            },
            left: i,
        };
    }
    let top = r.end.min(edge);
    let bottom = lower(r.start, top, start, end);
    Piece {
        range: Range {
            start: bottom,
            end: top,
            state: r.state,
        },
        left: left_of(i, bottom, r),
    }
}

// How many records are left to read once one is written that starts at `bottom`: r is used up if that is its start.
fn left_of(i: usize, bottom: u32, r: Range) -> usize
    ensures { (result ≡ left_of i bottom r) × (result ≤ i) }
{
    if bottom == r.start {
        i.saturating_sub(1)
    } else {
        i
    }
}

// Where the upper part of what lies from `from` to `top` starts, cut at `end` and at `start`.
pub fn lower(from: u32, top: u32, start: u32, end: u32) -> u32
    ensures { result ≡ lower_of from top start end }
{
    if end < top {
        from.max(end)
    } else if start < top {
        from.max(start)
    } else {
        from
    }
}

// Whether r goes on where the last of the `len` records that are written ends, in its state.
fn extends(last: Range, len: usize, r: Range) -> bool
    ensures { (result ≡ (ltb 0 len && joins_of last r)) × (result ≡ true → 0 < len) }
{
    0 < len && joins(last, r)
}

// Where r goes: joined to the last of the `len` records that are written, or after it.
#[tactic(auto, unfolding(crate::specs::Passes::join_of))]
pub fn join_next(last: Range, len: usize, r: Range) -> Next
    requires { len < 18446744073709551615 }
    ensures { (result ≡ join_of last len r) × ((result.at ≤ len) × (result.len ≤ len + 1)) }
{
    if extends(last, len, r) {
        return Next {
            range: Range { end: r.end, ..last },
            at: len - 1,
            len,
        };
    }
    Next {
        range: r,
        at: len,
        len: len + 1,
    }
}
