// The calls on plan files.
ghost use Rattle.std.specs.Prelude.{◌≡◌};
ghost use Rattle.plan_file.specs.Reading.{PlanRead};
ghost use Rattle.plan_file.specs.Writing.{PlanWritten};
ghost use Rattle.plan_file.specs.Uses.{UsesListed};
ghost use Rattle.exports.specs.PlanAnswers.{counted_of, counted_in};

use crate::answers::DONE;
use crate::{Answer, CountedAnswer};
use model::Refusal;

// What a call on plan files answers, in numbers.
impl From<Result<usize, Refusal>> for CountedAnswer {
    ghost from_gives = { λ x a. a ≡ counted_of x };

    fn from(x: Result<usize, Refusal>) -> CountedAnswer {
        match x {
            Ok(count) => CountedAnswer {
                answer: DONE,
                count,
            },
            Err(r) => CountedAnswer {
                answer: Answer::from(r),
                count: 0,
            },
        }
    }
}

// `plan_file::read`.
#[unsafe(no_mangle)]
pub extern "C" fn track_read_plan(file: &[u8], items: &mut [u8]) -> CountedAnswer
    ensures value { result ≡ counted_of (counted_in result) }
    ensures plan_read { PlanRead file.now items.old (counted_in result) items.new }
{
    CountedAnswer::from(plan_file::read(file, items))
}

// `plan_file::write`.
#[unsafe(no_mangle)]
pub extern "C" fn track_write_plan(items: &[u8], file: &mut [u8]) -> CountedAnswer
    ensures value { result ≡ counted_of (counted_in result) }
    ensures plan_written { PlanWritten items.now file.old (counted_in result) file.new }
{
    CountedAnswer::from(plan_file::write(items, file))
}

// `plan_file::uses`.
#[unsafe(no_mangle)]
pub extern "C" fn track_plan_uses(items: &[u8], uses: &mut [u32]) -> CountedAnswer
    ensures value { result ≡ counted_of (counted_in result) }
    ensures uses_listed { UsesListed items.now uses.old (counted_in result) uses.new }
{
    CountedAnswer::from(plan_file::uses(items, uses))
}
