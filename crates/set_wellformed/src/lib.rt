// Set wellformed: whether the storage that a call is handed is a well-formed set (01: sound), check 4 of every call.
//
// Place in the picture: over `set_storage`, whose view says which set the numbers are, and under the public calls. Each test equals the
// model's definition (model/specs/WellFormed) at the view, so that a call that passes it has a well-formed set, and one that it
// refuses has not; it also tells how long the table is.
//
// What holds: nothing is required of a set and nothing is written. Every call pays for the test, so it is made in two passes: the words of
// every index (`words`; twice where they have several exclusive states), which decide a set of Single textures, and then the ranges of
// the textures that are Many, once each. A scope is tested by `scope_fits`, a tracker by `tracker_fits`, which looks a second time at the
// ranges of a Many half, for one that is UNKNOWN, and a third time at a mip that has one, to compare start and end. Both have the table of
// bits once and hand it down. Tests of numbers are the definitions word for word, written with `&` and `|`, which make no branch; only
// EXCLUSIVE, which needs a look-up, is tested by itself: of words last, of a range first.
#![tactic(auto)]

mod half;
pub mod unknowns;
pub mod words;

ghost use Rattle.std.specs.Prelude.{◌≡◌, true, ◌*◌, ◌/◌, ◌≤◌, ◌<◌, leb, get_or};
ghost use Rattle.model.specs.Sets.{outside as outside_of, numbers_fit};
ghost use Rattle.model.specs.WellFormed.{state_fits, single_fits};
ghost use Rattle.set_storage.specs.Storage.{textures_at, start_half};
ghost use Rattle.set_wellformed.specs.Parts.{numbers, extent_fits, head_fits, scope_slot_fits, scope_slots_fit};
ghost use Rattle.set_wellformed.specs.Proper.{state_proper, single_proper};
ghost use Rattle.set_wellformed.specs.Words.{scope_word_fits};
ghost use Rattle.set_wellformed.specs.Whole.{TestsScope};

use half::Half;
use model::UsageFlags;
use set_storage::{LAYER_LIMIT, MIP_LIMIT, OWNED, START, TEXTURES, Table, flags_of};
pub use unknowns::tracker_fits;
use usage::{OnesTable, flags_fit_by, meets};
use words::{Finding, plain_pair, read_words};

// "states nonzero, compatible, without COMPLEX", of 16 bits: all of it but "compatible", a proper state.
fn state_proper(p: UsageFlags, s: u32) -> bool
    ensures { result ≡ state_proper p s }
{
    (s != 0) & (s < 65536) & !meets(s, p.complex)
}

// The same of a Single texture's state: without UNKNOWN too.
fn single_proper(p: UsageFlags, s: u32) -> bool
    ensures { result ≡ single_proper p s }
{
    state_proper(p, s) & !meets(s, p.unknown)
}

// The whole test of a range's state.
fn state_fits(ones: &OnesTable, p: UsageFlags, s: u32) -> bool
    ensures { result ≡ state_fits p s }
{
    !ones.incompatible(p, s) && state_proper(p, s)
}

// The whole test of a Single texture's state.
fn single_fits(ones: &OnesTable, p: UsageFlags, s: u32) -> bool
    ensures { result ≡ single_fits p s }
{
    state_fits(ones, p, s) & !meets(s, p.unknown)
}

// Whether x is not from 1 to top.
fn outside(x: u32, top: u32) -> bool
    ensures { result ≡ outside_of x top }
{
    (x == 0) | (top < x)
}

// 01, check 1: the numbers of textures, mips and layers.
pub fn numbers_fit(n: u32, m: u32, w: u32) -> bool
    ensures { result ≡ numbers_fit (numbers n m w) }
{
    !outside(n, 64) & !outside(m, 16) & !outside(w, 256)
}

// 01, check 8: an extent within the set's.
pub fn extent_fits(m: u32, w: u32, mips: u32, layers: u32) -> bool
    ensures { result ≡ extent_fits m w mips layers }
{
    !(outside(mips, m) | outside(layers, w))
}

// 01, check 3: room for the ranges of every mip; `room` is told in numbers, three a range.
pub fn room_fits(n: u32, m: u32, w: u32, room: usize) -> bool
    requires { (n ≤ 64) × ((m ≤ 16) × (w ≤ 256)) }
    ensures { result ≡ leb (n * m * w) (room / 3) }
{
    n as usize * m as usize * w as usize <= room / 3
}

// The opening checks, of a table that may hold anything: what they let pass can be indexed.
#[inline(always)]
fn head_fits(ones: &OnesTable, table: &Table, room: usize) -> bool
    ensures { result ≡ head_fits table.now room }
{
    let (n, m, w) = (table[TEXTURES], table[MIP_LIMIT], table[LAYER_LIMIT]);
    numbers_fit(n, m, w) && flags_fit_by(ones, flags_of(table)) && room_fits(n, m, w, room)
}

impl Half<'_> {
    // Index i of a scope, whose words fit: where it is Many, its ranges.
    fn slot_fits(&self, i: usize) -> bool
        requires half { self.now.at ≡ start_half }
        requires texture { i < get_or self.now.table.now textures_at 0 }
        requires words { scope_word_fits self.now.table.now i ≡ true }
        ensures { result ≡ scope_slot_fits self.now.table.now self.now.ranges.now i }
    {
        let state = self.table[START + i];
        plain_pair(self.flags, self.table[OWNED + i], state, state) || self.mips_fit(i)
    }

    // Every index of a scope: the words first, and the ranges only if there are any.
    fn all_fit(&self) -> bool
        requires { self.now.at ≡ start_half }
        ensures { let t = self.now.table.now in result ≡ scope_slots_fit t self.now.ranges.now (get_or t textures_at 0) }
    {
        match read_words(self, START) {
            Finding::Unfit => false,
            Finding::Plain => true,
            Finding::Ranged => (0..self.table[TEXTURES] as usize).all(|i| self.slot_fits(i)),
        }
    }
}

// Whether a scope's storage is a well-formed scope with room for its ranges.
pub fn scope_fits(table: &Table, ranges: &[u32]) -> bool
    ensures { TestsScope table.now ranges.now result }
{
    let ones = &OnesTable::new();
    head_fits(ones, table, ranges.len()) && Half::new(ones, table, ranges, START).all_fit()
}
