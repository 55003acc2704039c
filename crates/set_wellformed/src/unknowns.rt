// The test of a tracker: each half as a scope's, and that start and end are exactly UNKNOWN at the same subresources.
//
// What holds: a Single state that fits is not UNKNOWN, so two Single halves agree with no further look. Of a Single and a Many half
// the Many one must have no UNKNOWN range. Two Many halves agree on a mip where neither has one; otherwise that mip is walked with a place
// in each, once over the ranges of both.
ghost use Rattle.std.specs.Prelude.{◌≡◌, true, ◌≤◌, ◌<◌, get_or};
ghost use Rattle.model.specs.{Base.every, WellFormed.ends_fit};
ghost use Rattle.range_states.specs.View.{decode};
ghost use Rattle.set_storage.specs.Storage.{numbers_of, flags_of, extent_of, start_half, end_half, ends_of, list_from};
ghost use Rattle.set_storage.specs.Storage.{mips_at, textures_at, unknown_at};
ghost use Rattle.set_wellformed.specs.Parts.{Sized, mips_fit};
ghost use Rattle.set_wellformed.specs.Unknowns.{agrees, layers_agree, passed, mip_agrees, mips_agree, ends_agree, SameLayers, HalvesFit};
ghost use Rattle.set_wellformed.specs.Unknowns.{itself, tracker_slot_fits, tracker_slots_fit};
ghost use Rattle.set_wellformed.specs.Words.{tracker_word_fits};
ghost use Rattle.set_wellformed.specs.Whole.{TestsTracker};

use crate::half::{Half, Ranges};
use crate::words::{Finding, plain_pair, read_words};
use crate::{head_fits, room_fits};
use range_states::get;
use set_storage::{END, LAYER_LIMIT, MIP_LIMIT, MIPS, OWNED, START, TEXTURES, Table};
use usage::OnesTable;

// Whether two states are both exactly UNKNOWN, or neither.
fn states_agree(a: u32, b: u32, u: u32) -> bool
    ensures { result ≡ agrees u a b }
{
    (a == u) == (b == u)
}

// How far to go on in a list whose range ends at `end`, when layer `at` is reached.
fn advance(end: u32, at: u32) -> usize
    ensures { (result ≡ passed end at) × (result ≤ 1) }
{
    if end <= at { 1 } else { 0 }
}

impl Ranges<'_> {
    // Two lists of ranges over the same layers, layer by layer. The two places go on at different paces, so no iterator walks them plainer.
    fn walk(&self, other: &Ranges, u: u32) -> bool
        requires { SameLayers self.now.numbers.now self.now.len other.now.numbers.now other.now.len }
        ensures { result ≡ layers_agree u (decode self.now.len self.now.numbers.now) (decode other.now.len other.now.numbers.now) }
    {
        let mut i = 0;
        let mut j = 0;
        while i < self.len {
            let x = get(self.numbers, i);
            let y = get(other.numbers, j);
            if !states_agree(x.state, y.state, u) {
                return false;
            }
            i += advance(x.end, y.end);
            j += advance(y.end, x.end);
        }
        true
    }

    // The same, not walked side by side where none is UNKNOWN.
    fn agree(&self, other: &Ranges, u: u32) -> bool
        requires { SameLayers self.now.numbers.now self.now.len other.now.numbers.now other.now.len }
        ensures { result ≡ layers_agree u (decode self.now.len self.now.numbers.now) (decode other.now.len other.now.numbers.now) }
    {
        (self.known(u) && other.known(u)) || self.walk(other, u)
    }
}

// The two halves of a tracker.
#[derive(Clone, Copy)]
struct Ends<'a> {
    start: Half<'a>,
    end: Half<'a>,
    ghost one_table: { end.table.now ≡ start.table.now },
    ghost first: { start.at ≡ start_half },
    ghost last: { end.at ≡ end_half },
}

impl Ends<'_> {
    // Mip m of texture i, whose mips fit.
    fn mip_agrees(&self, i: usize, m: usize) -> bool
        requires texture { Sized self.now.start.table.now i }
        requires mip { m < get_or self.now.start.table.now (mips_at i) 0 }
        requires starts_fit { let t = self.now.start.table.now in mips_fit (flags_of t) start_half t self.now.start.ranges.now i ≡ true }
        requires ends_fit { let t = self.now.start.table.now in mips_fit (flags_of t) end_half t self.now.end.ranges.now i ≡ true }
        ensures { let t = self.now.start.table.now in
            result ≡ mip_agrees (get_or t unknown_at 0) t self.now.start.ranges.now self.now.end.ranges.now i m }
    {
        self.start
            .mip(i, m)
            .agree(&self.end.mip(i, m), self.start.flags.unknown)
    }

    // Every mip of texture i, whose mips fit.
    fn mips_agree(&self, i: usize) -> bool
        requires texture { Sized self.now.start.table.now i }
        requires starts_fit { let t = self.now.start.table.now in mips_fit (flags_of t) start_half t self.now.start.ranges.now i ≡ true }
        requires ends_fit { let t = self.now.start.table.now in mips_fit (flags_of t) end_half t self.now.end.ranges.now i ≡ true }
        ensures { let t = self.now.start.table.now in
            result ≡ mips_agree (get_or t unknown_at 0) t self.now.start.ranges.now self.now.end.ranges.now i (get_or t (mips_at i) 0) }
    {
        (0..self.start.table[MIPS + i] as usize).all(|m| self.mip_agrees(i, m))
    }

    // Texture i, whose halves fit.
    fn agree(&self, i: usize) -> bool
        requires texture { Sized self.now.start.table.now i }
        requires halves_fit { let t = self.now.start.table.now in
            HalvesFit (flags_of t) t self.now.start.ranges.now self.now.end.ranges.now i }
        ensures { let t = self.now.start.table.now in
            result ≡ ends_agree (get_or t unknown_at 0) t self.now.start.ranges.now self.now.end.ranges.now i }
    {
        match (self.start.is_many(i), self.end.is_many(i)) {
            (true, true) => self.mips_agree(i),
            (true, false) => self.start.mips_known(i),
            (false, true) => self.end.mips_known(i),
            (false, false) => true,
        }
    }

    // What a tracker holds of texture i.
    fn fit(&self, i: usize) -> bool
        requires { Sized self.now.start.table.now i }
        ensures { let t = self.now.start.table.now in
            result ≡ ends_fit (flags_of t) (extent_of t i) (ends_of (numbers_of t) t self.now.start.ranges.now self.now.end.ranges.now i) }
    {
        self.start.fits(i) && self.end.fits(i) && self.agree(i)
    }

    // Index i of a tracker, whose words fit: where a half is Many, what it holds.
    fn slot_fits(&self, i: usize) -> bool
        requires texture { i < get_or self.now.start.table.now textures_at 0 }
        requires words { tracker_word_fits self.now.start.table.now i ≡ true }
        ensures { let t = self.now.start.table.now in
            result ≡ tracker_slot_fits t self.now.start.ranges.now self.now.end.ranges.now i }
    {
        let table = self.start.table;
        plain_pair(
            self.start.flags,
            table[OWNED + i],
            table[START + i],
            table[END + i],
        ) || self.fit(i)
    }

    // Every index of a tracker whose words fit.
    #[inline(always)]
    fn slots_fit(&self) -> bool
        requires { let t = self.now.start.table.now in every (tracker_word_fits t) (list_from itself 0 (get_or t textures_at 0)) ≡ true }
        ensures { let t = self.now.start.table.now in
            result ≡ tracker_slots_fit t self.now.start.ranges.now self.now.end.ranges.now (get_or t textures_at 0) }
    {
        (0..self.start.table[TEXTURES] as usize).all(|i| self.slot_fits(i))
    }
}

// Every index of a tracker: the words first, and the ranges only if there are any.
#[inline(always)]
fn all_fit<'a>(start: &Half<'a>, end: &Half<'a>) -> bool
    requires one_table { end.now.table.now ≡ start.now.table.now }
    requires first { start.now.at ≡ start_half }
    requires last { end.now.at ≡ end_half }
    ensures { let t = start.now.table.now in
        result ≡ tracker_slots_fit t start.now.ranges.now end.now.ranges.now (get_or t textures_at 0) }
{
    match read_words(start, END) {
        Finding::Unfit => false,
        Finding::Plain => true,
        Finding::Ranged => Ends {
            start: *start,
            end: *end,
        }
        .slots_fit(),
    }
}

// Whether a tracker's storage is a well-formed tracker with room for the ranges of start and end.
pub fn tracker_fits(table: &Table, starts: &[u32], ends: &[u32]) -> bool
    ensures { TestsTracker table.now starts.now ends.now result }
{
    let ones = &OnesTable::new();
    if !head_fits(ones, table, starts.len())
        || !room_fits(
            table[TEXTURES],
            table[MIP_LIMIT],
            table[LAYER_LIMIT],
            ends.len(),
        )
    {
        return false;
    }
    let start = Half::new(ones, table, starts, START);
    let end = Half::new(ones, table, ends, END);
    all_fit(&start, &end)
}
