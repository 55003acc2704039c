// `barrier` of one texture: the transitions from a tracker's end of texture i to what is given as its start.
//
// A texture is held as Many where its word tells COMPLEX (the tracker's table and the given one each have the word), otherwise the word
// is its one state.
ghost use Rattle.std.specs.Prelude.{◌≤◌, length};
ghost use Rattle.model.specs.Texture.{from_held};
ghost use Rattle.set_storage.specs.Stored.{HeldAs, held_in};
ghost use Rattle.set_storage.specs.Uses.{PartWithin, use_of};
ghost use Rattle.texture_barrier.specs.Textures.{barrier_at};

use crate::many::log_mips;
use crate::mip::{FromState, ToState, Within};
use crate::sink::Sink;
use crate::transition::Task;
use model::{Extent, Range, Selector, UsageFlags};
use set_storage::{Stored, flags_of};

// The transitions to one state, of all of the texture or of the part that a selector names. A Single texture makes one entry over all the
// mips of the part.
#[tactic(auto, using(crate::proofs::Few::use_few))]
#[inline(always)]
pub fn barrier_use<K: Sink>(
    held: Stored<'_>,
    extent: Extent,
    part: Option<Selector>,
    p: UsageFlags,
    mask: u32,
    new: u32,
    sink: &mut K,
)
    requires texture_held { HeldAs held extent }
    requires part_within { PartWithin extent part }
    requires room_for { K.room sink.old (barrier_at p mask extent held (use_of part new)) }
    ensures taken { K.takes sink.old (barrier_at p mask extent held.entry (use_of part new)) sink.new }
    ensures few { length (barrier_at p mask extent held.entry (use_of part new)) ≤ 4096 }
{
    let t = Task::of(held.i, p, mask);
    let cur = held.word();
    if cur != flags_of(held.table).complex {
        return t.log_move(part.unwrap_or(extent.full()), cur, new, sink);
    }
    match part {
        None => log_mips(held, 0, extent.mips, &ToState(new), t, sink),
        Some(q) => {
            let to = Range {
                start: q.layers.start.0,
                end: q.layers.end.0,
                state: new,
            };
            log_mips(held, q.mips.start.0, q.mips.end.0, &Within(to), t, sink)
        }
    }
}

// The transitions to what a texture of another set holds. Single to Single, which most are, by a short way.
#[tactic(auto, using(crate::proofs::Few::texture_adds_few))]
#[inline(always)]
pub fn barrier_texture<K: Sink>(
    held: Stored<'_>,
    extent: Extent,
    p: UsageFlags,
    mask: u32,
    given: Stored<'_>,
    sink: &mut K,
)
    requires texture_held { HeldAs held extent }
    requires given_held { HeldAs given extent }
    requires room_for { K.room sink.old (barrier_at p mask extent held (from_held (held_in given))) }
    ensures taken { K.takes sink.old (barrier_at p mask extent held.entry (from_held (held_in given.entry))) sink.new }
    ensures few { length (barrier_at p mask extent held.entry (from_held (held_in given.entry))) ≤ 1048576 }
{
    let new = given.word();
    if new != flags_of(given.table).complex {
        let cur = held.word();
        if cur != flags_of(held.table).complex {
            let t = Task::of(held.i, p, mask);
            return t.log_move(extent.full(), cur, new, sink);
        }
    }
    barrier_any(held, extent, p, mask, given, sink)
}

// The same in every case; out of line, so that the short way is small.
#[cold]
fn barrier_any<K: Sink>(
    held: Stored<'_>,
    extent: Extent,
    p: UsageFlags,
    mask: u32,
    given: Stored<'_>,
    sink: &mut K,
)
    requires texture_held { HeldAs held extent }
    requires given_held { HeldAs given extent }
    requires room_for { K.room sink.old (barrier_at p mask extent held (from_held (held_in given))) }
    ensures { K.takes sink.old (barrier_at p mask extent held.entry (from_held (held_in given.entry))) sink.new }
{
    let new = given.word();
    if new != flags_of(given.table).complex {
        return barrier_use(held, extent, None, p, mask, new, sink);
    }
    let t = Task::of(held.i, p, mask);
    let cur = held.word();
    if cur == flags_of(held.table).complex {
        return log_mips(given, 0, extent.mips, &held, t, sink);
    }
    log_mips(given, 0, extent.mips, &FromState(cur), t, sink)
}
