// Range calls: `isolate`, `coalesce` and `iter_filter` of range.rs as public calls on plain numbers in a borrowed slice.
//
// Place in the picture: over `range_checks`, which tells what is refused, and `range_states` and `range_isolate`, which do the work; under
// `exports` and `replay_lines`, and beside `range_records`, which has the same calls on a slice of range records.
//
// What holds: nothing is required. The first `told` records of the slice are in use. Each answer, and the records afterwards, equal the
// definitions of model/specs/RangeCalls (specs/RangeContract); a refusal (18, 19, 14, 15) leaves every number as it was, and up to two
// numbers that make no whole record always stay.
#![tactic(auto)]

ghost use Rattle.range_calls.specs.RangeContract.{Isolates, Coalesces, Filters};

use model::Refusal;

// Where the run is, how many ranges it has, and how many records are in use now.
#[derive(Clone, Copy)]
pub struct Isolation {
    pub position: usize,
    pub count: usize,
    pub told: usize,
}

// Makes what lies from `start` to `end` a run of ranges of its own, gaps filled with the default.
pub fn isolate(
    s: &mut [u32],
    told: usize,
    start: u32,
    end: u32,
    default: u32,
) -> Result<Isolation, Refusal>
    ensures { Isolates s.old told start end default result s.new }
{
    range_checks::check_isolate(s, told, start, end)?;
    let i = range_isolate::isolate(s, told, start, end, default);
    Ok(Isolation {
        position: i.position,
        count: i.end - i.position,
        told: i.len,
    })
}

// Joins touching ranges of one state, and tells how many records are in use now. Records that it frees become zeros.
pub fn coalesce(s: &mut [u32], told: usize) -> Result<usize, Refusal>
    ensures { Coalesces s.old told result s.new }
{
    range_checks::check_coalesce(s, told)?;
    let len = range_states::coalesce(s, told);
    Ok(len)
}

// Lists the overlaps with what lies from `start` to `end`, clipped, in a second slice, and tells how many they are.
pub fn iter_filter(
    s: &[u32],
    told: usize,
    start: u32,
    end: u32,
    out: &mut [u32],
) -> Result<usize, Refusal>
    ensures { Filters s.now told start end out.old result out.new }
{
    range_checks::check_filter(s, told, start, end, out)?;
    let n = range_states::iter_filter(s, told, start, end, out);
    Ok(n)
}
