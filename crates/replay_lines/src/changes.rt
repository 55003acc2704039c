// The lines that answer nothing: a texture put into a set, a number poked, the room and the log that are lent.
ghost use Rattle.std.specs.Prelude.{◌<◌, ◌≤◌, ◌+◌, IsSome};

use crate::sets::{Half, Kind, LentLog, Place, SetId, Sets};
use crate::words;
use crate::words::{Source, Words};
use set_storage::{COMPLEX, LAYERS, MIPS, OWNED};

// put SET INDEX MIPS LAYERS HALF [HALF]
pub fn put<S: Source>(words: &mut Words<'_, S>, sets: &mut Sets) {
    let id = words.set();
    let set = sets.get_mut(id);
    let index = words.size().min(63);
    let extent = words.extent();
    let mips = extent.mips.min(16) as usize;
    set.table[OWNED + index] = 1;
    set.table[MIPS + index] = extent.mips;
    set.table[LAYERS + index] = extent.layers;
    put_half(words, sets, id, Half::Start, index, mips);
    if sets.get(id).kind == Some(Kind::Tracker) {
        put_half(words, sets, id, Half::End, index, mips);
    }
}

// HALF = single STATE | many MIP*
fn put_half<S: Source>(
    words: &mut Words<'_, S>,
    sets: &mut Sets,
    id: SetId,
    half: Half,
    index: usize,
    mips: usize,
)
    requires index_bound { index < 64 }
    requires mips_bound { mips ≤ 16 }
    ensures { S.left words.old.rest ≤ S.left words.new.rest + 12305 }
{
    let state_at = half.states() + index;
    let table = &mut sets.get_mut(id).table;
    if words.number() == words::SINGLE {
        table[state_at] = words.number();
        return;
    }
    table[state_at] = table[COMPLEX];
    for mip in 0..mips {
        put_mip(words, sets, id, half, Place { index, mip });
    }
}

// MIP = COUNT RECORD*. What has no room goes on after the half, as the store does.
fn put_mip<S: Source>(
    words: &mut Words<'_, S>,
    sets: &mut Sets,
    id: SetId,
    half: Half,
    place: Place,
)
    ensures { S.left words.old.rest ≤ S.left words.new.rest + 769 }
{
    let count = words.number();
    let table = &mut sets.get_mut(id).table;
    table[place.count_at(half)] = count;
    let from = id.half_at(half) + place.ranges_at(table);
    for i in 0..3 * count.min(256) as usize {
        sets.write(from + i, words.number());
    }
}

// poke SET PART OFFSET VALUE
#[inline(always)]
pub fn poke<S: Source>(words: &mut Words<'_, S>, sets: &mut Sets) {
    let id = words.set();
    let from = part_at(id, words.number());
    let place = from + words.size().min(786432);
    sets.write(place, words.number());
}

// Where PART begins in the store.
fn part_at(id: SetId, part: u32) -> usize
    ensures { result ≤ 95520 }
{
    match part {
        words::TABLE => id.table_at(),
        words::START => id.half_at(Half::Start),
        _ => id.half_at(Half::End),
    }
}

// room SET ROOM [ROOM]
#[inline(always)]
pub fn room<S: Source>(words: &mut Words<'_, S>, sets: &mut Sets) {
    let set = sets.get_mut(words.set());
    set.rooms = words.rooms();
}

// log WRITTEN FREE LENT
#[inline(always)]
pub fn log<S: Source>(words: &mut Words<'_, S>, sets: &mut Sets)
    ensures { IsSome sets.new.log }
{
    sets.log = Some(LentLog {
        head: words.head(),
        room: words.size(),
    });
}
