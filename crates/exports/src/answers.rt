// Outcomes in numbers, and numbers as what the calls take.
ghost use Rattle.std.specs.Prelude.{◌≡◌};
ghost use Rattle.model.specs.{Log.{answered, unless_refused}, Refusals.{number_of, place_of}};
ghost use Rattle.exports.specs.SetAnswers.{answer_of, refused_as, conflict_as, logged_of, selection_of};

use crate::{Answer, LoggedAnswer};
use model::{CallError, Conflict, LogHead, Refusal, Selector};

// Done: no number tells anything.
pub const DONE: Answer = Answer {
    kind: 0,
    number: 0,
    place: 0,
    index: 0,
    mip_start: 0,
    mip_end: 0,
    layer_start: 0,
    layer_end: 0,
    old_state: 0,
    new_state: 0,
};

impl From<Refusal> for Answer {
    ghost from_gives = { λ r a. a ≡ refused_as (number_of r) (place_of r) };

    fn from(r: Refusal) -> Answer {
        Answer {
            kind: 1,
            number: r.number(),
            place: r.place(),
            ..DONE
        }
    }
}

impl From<Conflict> for Answer {
    ghost from_gives = { λ c a. a ≡ conflict_as c };

    fn from(c: Conflict) -> Answer {
        Answer {
            kind: 2,
            index: c.index.0,
            mip_start: c.found.selector.mips.start.0,
            mip_end: c.found.selector.mips.end.0,
            layer_start: c.found.selector.layers.start.0,
            layer_end: c.found.selector.layers.end.0,
            old_state: c.found.old,
            new_state: c.found.new,
            ..DONE
        }
    }
}

impl From<Result<(), CallError>> for Answer {
    ghost from_gives = { λ x a. a ≡ answer_of x };

    fn from(x: Result<(), CallError>) -> Answer {
        match x {
            Ok(()) => DONE,
            Err(CallError::Refused(r)) => Answer::from(r),
            Err(CallError::Conflict(c)) => Answer::from(c),
        }
    }
}

impl From<Result<(), Refusal>> for Answer {
    ghost from_gives = { λ x a. a ≡ answer_of (unless_refused x) };

    fn from(x: Result<(), Refusal>) -> Answer {
        match x {
            Ok(()) => DONE,
            Err(r) => Answer::from(r),
        }
    }
}

// What a call answers that was told the head of the log, with the head after it: a refusal leaves it.
pub fn logged(told: LogHead, x: Result<LogHead, Refusal>) -> LoggedAnswer
    ensures { result ≡ logged_of (answered told x) }
{
    let (answer, head) = match x {
        Ok(head) => (DONE, head),
        Err(r) => (Answer::from(r), told),
    };
    LoggedAnswer {
        answer,
        written: head.written,
        free: head.free,
    }
}

// All of a texture where `part` is 0, otherwise what the selector names.
pub fn selection(part: u32, q: Selector) -> Option<Selector>
    ensures { result ≡ selection_of part q }
{
    if part == 0 { None } else { Some(q) }
}
