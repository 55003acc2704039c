// A texture of a tracker takes what a given set holds at the same index.
ghost use Rattle.std.specs.Prelude.{◌≡◌, ◌≤◌, length};
ghost use Rattle.model.specs.Calls.{set_slot};
ghost use Rattle.model.specs.Texture.{ranged};
ghost use Rattle.set_storage.specs.Stays.{Only, OnlyOwned};
ghost use Rattle.set_storage.specs.Storage.{end_half, tracker_slot};
ghost use Rattle.set_ready.specs.Given.{given_at, HalfGiven};
ghost use Rattle.set_ready.specs.Half.{HalfReady, BothReady};
ghost use Rattle.texture_barrier.specs.Entries.{entries_at};
ghost use Rattle.texture_track.specs.Slot.{SlotSet};
ghost use Rattle.texture_track.specs.GivenSlot.{BothGiven, SetsBy, LogsBy, start_of, end_of, set_by, end_entries, entries_by};

use model::{Extent, UsageFlags};
use set_storage::{END, OWNED, START, Stored, Table, extent_of};
use texture_barrier::{Sink, barrier_texture};
use texture_merge::from_set::insert_given;
use texture_merge::using::own;
use texture_update::from_set::update_given;

// A given set: its table, with the halves and the ranges of what it gives as start and as end. A scope's states are both; a tracker gives
// its start and its end.
#[derive(Clone, Copy)]
pub struct GivenSet<'a> {
    pub table: &'a Table,
    pub first: &'a [u32],
    pub from: usize,
    pub last: &'a [u32],
    pub to: usize,
}

impl<'a> GivenSet<'a> {
    // What it gives as the start of texture i.
    #[inline(always)]
    fn start(&self, i: usize) -> Stored<'a>
        ensures { result ≡ start_of self.now i }
    {
        Stored {
            table: self.table,
            ranges: self.first,
            half: self.from,
            i,
        }
    }

    // And as its end.
    #[inline(always)]
    fn end(&self, i: usize) -> Stored<'a>
        ensures { result ≡ end_of self.now i }
    {
        Stored {
            table: self.table,
            ranges: self.last,
            half: self.to,
            i,
        }
    }
}

// What the texture becomes, by the start and the end that the set holds: one that is not owned is owned and takes both, an owned one is
// updated by the given end.
#[inline(always)]
pub fn set_given_at(
    table: &mut Table,
    starts: &mut [u32],
    ends: &mut [u32],
    i: usize,
    extent: Extent,
    given: GivenSet<'_>,
    p: UsageFlags,
)
    requires both_ready { BothReady table.old starts.old ends.old i extent }
    requires both_given { BothGiven table.old i extent given.from given.to given.table.now given.first.now given.last.now p }
    ensures { let t = table.old in let s = starts.old in let e = ends.old in let from = given.entry.from in let to = given.entry.to in
        let g = given.entry.table.now in let a = given.entry.first.now in let b = given.entry.last.now in
        SlotSet (Only i) t s e i (set_slot ranged p extent (given_at from g a i) (given_at to g b i) (tracker_slot t s e i))
        table.new starts.new ends.new }
{
    if table[OWNED + i] == 0 {
        own(table, i, extent);
        insert_given(table, starts, START, extent, given.start(i), p);
        insert_given(table, ends, END, extent, given.end(i), p);
        return;
    }
    update_given(table, starts, ends, extent, given.end(i), p);
}

// Its transitions to the given start: none where it is not owned.
#[inline(always)]
pub fn log_given_at<K: Sink>(
    table: &Table,
    ends: &[u32],
    i: usize,
    extent: Extent,
    p: UsageFlags,
    mask: u32,
    given: GivenSet<'_>,
    sink: &mut K,
)
    requires half_ready { HalfReady end_half table.now ends.now i extent }
    requires half_given { HalfGiven table.now i extent given.from given.table.now given.first.now }
    requires room { let es = end_entries p mask extent (given_at given.from given.table.now given.first.now i) table.now ends.now i in
        K.room sink.old (entries_at i es) }
    ensures taken { let t = table.now in let e = ends.now in let g = given.entry.table.now in let a = given.entry.first.now in
        let es = end_entries p mask extent (given_at given.entry.from g a i) t e i in
        K.takes sink.old (entries_at i es) sink.new }
    ensures few { let t = table.now in let e = ends.now in let g = given.entry.table.now in let a = given.entry.first.now in
        let es = end_entries p mask extent (given_at given.entry.from g a i) t e i in
        length (entries_at i es) ≤ 1048576 }
{
    if table[OWNED + i] == 0 {
        return;
    }
    let held = Stored {
        table,
        ranges: ends,
        half: END,
        i,
    };
    barrier_texture(held, extent, p, mask, given.start(i), sink);
}

// What the texture becomes, if the set owns index i.
#[inline(always)]
pub fn set_at(
    table: &mut Table,
    starts: &mut [u32],
    ends: &mut [u32],
    i: usize,
    given: GivenSet<'_>,
    p: UsageFlags,
)
    requires { SetsBy table.old starts.old ends.old i given p }
    ensures { let t = table.old in let s = starts.old in let e = ends.old in let g = given.entry in
        SlotSet (OnlyOwned g.table.now i) t s e i (set_by p g i (tracker_slot t s e i)) table.new starts.new ends.new }
{
    if given.table[OWNED + i] == 0 {
        return;
    }
    let extent = extent_of(given.table, i);
    set_given_at(table, starts, ends, i, extent, given, p);
}

// Its transitions to the given start, if the set owns index i.
#[inline(always)]
pub fn log_at<K: Sink>(
    table: &Table,
    ends: &[u32],
    i: usize,
    p: UsageFlags,
    mask: u32,
    given: GivenSet<'_>,
    sink: &mut K,
)
    requires logs_by { LogsBy table.now ends.now i given }
    requires room { K.room sink.old (entries_at i (entries_by p mask table.now ends.now given i)) }
    ensures taken { K.takes sink.old (entries_at i (entries_by p mask table.now ends.now given.entry i)) sink.new }
    ensures few { length (entries_at i (entries_by p mask table.now ends.now given.entry i)) ≤ 1048576 }
{
    if given.table[OWNED + i] == 0 {
        return;
    }
    let extent = extent_of(given.table, i);
    log_given_at(table, ends, i, extent, p, mask, given, sink);
}
