// The calls on ranged states by themselves (01: strips): three numbers a range in one slice, of which the first `told` ranges are in use.
ghost use Rattle.std.specs.Prelude.{◌≡◌};
ghost use Rattle.range_calls.specs.RangeContract.{Isolates, Coalesces, Filters};
ghost use Rattle.exports.specs.RangesAnswers.{refused_as, isolate_as, coalesce_as, filter_as, isolate_in, coalesce_in, filter_in};

use crate::answers::DONE;
use crate::{Answer, RangesAnswer};
use model::Refusal;
use range_calls::Isolation;

fn refused(r: Refusal) -> RangesAnswer
    ensures { result ≡ refused_as r }
{
    RangesAnswer {
        answer: Answer::from(r),
        position: 0,
        count: 0,
        told: 0,
    }
}

fn isolated(x: Result<Isolation, Refusal>) -> RangesAnswer
    ensures { result ≡ isolate_as x }
{
    match x {
        Ok(i) => RangesAnswer {
            answer: DONE,
            position: i.position,
            count: i.count,
            told: i.told,
        },
        Err(r) => refused(r),
    }
}

fn coalesced(x: Result<usize, Refusal>) -> RangesAnswer
    ensures { result ≡ coalesce_as x }
{
    match x {
        Ok(told) => RangesAnswer {
            answer: DONE,
            position: 0,
            count: 0,
            told,
        },
        Err(r) => refused(r),
    }
}

fn filtered(x: Result<usize, Refusal>) -> RangesAnswer
    ensures { result ≡ filter_as x }
{
    match x {
        Ok(count) => RangesAnswer {
            answer: DONE,
            position: 0,
            count,
            told: 0,
        },
        Err(r) => refused(r),
    }
}

// `range_calls::isolate`.
#[unsafe(no_mangle)]
pub extern "C" fn track_isolate(
    ranges: &mut [u32],
    told: usize,
    start: u32,
    end: u32,
    default: u32,
) -> RangesAnswer
    ensures value { result ≡ isolate_as (isolate_in result) }
    ensures isolates { Isolates ranges.old told start end default (isolate_in result) ranges.new }
{
    isolated(range_calls::isolate(ranges, told, start, end, default))
}

// `range_calls::coalesce`.
#[unsafe(no_mangle)]
pub extern "C" fn track_coalesce(ranges: &mut [u32], told: usize) -> RangesAnswer
    ensures value { result ≡ coalesce_as (coalesce_in result) }
    ensures coalesces { Coalesces ranges.old told (coalesce_in result) ranges.new }
{
    coalesced(range_calls::coalesce(ranges, told))
}

// `range_calls::iter_filter`.
#[unsafe(no_mangle)]
pub extern "C" fn track_iter_filter(
    ranges: &[u32],
    told: usize,
    start: u32,
    end: u32,
    out: &mut [u32],
) -> RangesAnswer
    ensures value { result ≡ filter_as (filter_in result) }
    ensures filters { Filters ranges.now told start end out.old (filter_in result) out.new }
{
    filtered(range_calls::iter_filter(ranges, told, start, end, out))
}
