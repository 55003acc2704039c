// One mip of a tracker's start and end, as two borrowed parts: the start learns by the run that a piece isolates on the end.
ghost use Rattle.model.specs.RangedStates.{isolate as isolate_of};
ghost use Rattle.range_states.specs.View.{decode};
ghost use Rattle.range_isolate.specs.Isolation.{IsolateRoom};
ghost use Rattle.texture_mips.specs.Learn.{LearnRoom};
ghost use Rattle.texture_update.specs.Pair.{PairLeft};

use range_isolate::isolate;
use range_states::coalesce;
use texture_mips::learn;
use texture_mips::painting::set_run;

// How many ranges a mip of the start and of the end has.
#[derive(Clone, Copy)]
pub struct Both {
    pub start: usize,
    pub end: usize,
}

// The layers from `start` to `end` of the end's mip take a state; where they were UNKNOWN, the start's mip takes it too.
pub fn learn_update(
    starts: &mut [u32],
    slen: usize,
    ends: &mut [u32],
    elen: usize,
    start: u32,
    end: u32,
    unknown: u32,
    new: u32,
) -> Both
    requires isolate_room { IsolateRoom ends.old elen start end unknown }
    requires learn_room { LearnRoom starts.old slen unknown new (isolate_of start end unknown (decode elen ends.old)).run }
    ensures { PairLeft starts.old slen ends.old elen start end unknown new result starts.new ends.new }
{
    let at = isolate(ends, elen, start, end, unknown);
    let n = learn(starts, slen, ends, at.position, at.end, unknown, new);
    set_run(ends, at.position, at.end, new);
    let k = coalesce(ends, at.len);
    Both { start: n, end: k }
}
