// The words of every index: what of the test the table alone decides.
//
// What holds: the pass over all words has no branch but its own end (the choice in `exclusive_part` is made without one), so that the
// compiler looks at several indices at once. A look-up would end that, so the pass tests all but EXCLUSIVE (a *proper* state) and gathers
// the union of the states that meet it: where that has at most one bit, each of them has one. Only where it has more does a second pass
// look each state up. A word that is not owned may be gathered too: the union then decides less often, and never wrongly.
//
// An index has two words, its start and its end; a scope's index has one, which is read as both. Where the end lies is a constant at each
// call, and the pass is made inline, so that a scope's reads no word twice.
//
// The words decide a set whose textures are all Single; only where one is Many are ranges looked at, and then only of that one.
ghost use Rattle.std.specs.Prelude.{◌≡◌, true, ◌≤◌, ◌<◌};
ghost use Rattle.model.specs.Base.{every};
ghost use Rattle.usage.specs.Gathered.{Gathered};
ghost use Rattle.set_storage.specs.Storage.{flags_of, start_half, end_half, list_from};
ghost use Rattle.set_wellformed.specs.Unknowns.{itself};
ghost use Rattle.set_wellformed.specs.Words.{plain_pair, pair_proper, half_word, word_left, word_plain, word_proper, word_fits};
ghost use Rattle.set_wellformed.specs.Words.{WordsAre, ScopeWords, TrackerWords, WordsTell};

use crate::half::Half;
use crate::{extent_fits, single_proper};
use model::UsageFlags;
use set_storage::{END, LAYER_LIMIT, LAYERS, MIP_LIMIT, MIPS, OWNED, START, TEXTURES, Table};
use usage::{OnesTable, exclusive_part};

// Whether the words of every index fit, and whether none is owned as Many.
#[derive(Clone, Copy)]
pub struct Words {
    pub fit: bool,
    pub plain: bool,
}

// What they tell of a set: one does not fit; all fit, and none is owned as Many; or all fit, and ranges are left to test.
#[derive(Clone, Copy, PartialEq, Eq)]
pub enum Finding {
    Unfit,
    Plain,
    Ranged,
}

// Whether an index is not owned, or Single in both halves.
pub fn plain_pair(p: UsageFlags, owned: u32, start: u32, end: u32) -> bool
    ensures { result ≡ plain_pair p owned start end }
{
    (owned == 0) | ((start != p.complex) & (end != p.complex))
}

// Whether an index is not owned, or has an extent within the set's, and a half is Many or both are in a proper state.
fn pair_proper(
    p: UsageFlags,
    m: u32,
    w: u32,
    owned: u32,
    mips: u32,
    layers: u32,
    start: u32,
    end: u32,
) -> bool
    ensures { result ≡ pair_proper p m w owned mips layers start end }
{
    let many = (start == p.complex) | (end == p.complex);
    let single = single_proper(p, start) & single_proper(p, end);
    (owned == 0) | (extent_fits(m, w, mips, layers) & (many | single))
}

// Whether index i is not owned, or a half is Many, or both are in a compatible state.
#[inline(always)]
fn pair_compatible(ones: &OnesTable, table: &Table, p: UsageFlags, end: usize, i: usize) -> bool
    requires { (end ≤ end_half) × ((i < 64) × (p ≡ flags_of table.now)) }
    ensures { result ≡ word_left end table.now i }
{
    let start = table[START + i];
    let last = table[end + i];
    let many = (start == p.complex) | (last == p.complex);
    let single = !ones.incompatible(p, start) & !ones.incompatible(p, last);
    (table[OWNED + i] == 0) | (many | single)
}

// Whether the words, all proper, fit: at once by the union of the states that meet EXCLUSIVE, or index by index (an `all` is longer code).
#[inline(always)]
fn compatible(
    ones: &OnesTable,
    table: &Table,
    n: usize,
    p: UsageFlags,
    end: usize,
    exclusive: u32,
) -> bool
    requires n_bound { (n ≤ 64) × (p ≡ flags_of table.now) }
    requires end { end ≤ end_half }
    requires proper { every (word_proper end table.now) (list_from itself 0 n) ≡ true }
    requires starts { Gathered p (half_word start_half table.now) n exclusive }
    requires ends { Gathered p (half_word end table.now) n exclusive }
    ensures { result ≡ every (word_fits end table.now) (list_from itself 0 n) }
{
    if exclusive == 0 || ones.one_bit(exclusive) {
        return true;
    }
    for i in 0..n {
        if !pair_compatible(ones, table, p, end, i) {
            return false;
        }
    }
    true
}

// The words of the first n indices, whose ends begin at `end`.
#[inline(always)]
fn words_of(ones: &OnesTable, table: &Table, n: usize, p: UsageFlags, end: usize) -> Words
    requires n_bound { (n ≤ 64) × (p ≡ flags_of table.now) }
    requires end { end ≤ end_half }
    ensures { WordsAre (word_fits end table.now) (word_plain end table.now) n result }
{
    let m = table[MIP_LIMIT];
    let w = table[LAYER_LIMIT];
    let mut fit = true;
    let mut plain = true;
    let mut exclusive = 0;
    for i in 0..n {
        let owned = table[OWNED + i];
        let start = table[START + i];
        let last = table[end + i];
        fit &= pair_proper(
            p,
            m,
            w,
            owned,
            table[MIPS + i],
            table[LAYERS + i],
            start,
            last,
        );
        plain &= plain_pair(p, owned, start, last);
        exclusive |= exclusive_part(p, start) | exclusive_part(p, last);
    }
    Words {
        fit: fit && compatible(ones, table, n, p, end, exclusive),
        plain,
    }
}

// The words of a scope's indices.
pub fn scope_words(ones: &OnesTable, table: &Table, n: usize, p: UsageFlags) -> Words
    requires { (n ≤ 64) × (p ≡ flags_of table.now) }
    ensures { ScopeWords table.now n result }
{
    words_of(ones, table, n, p, START)
}

// The words of a tracker's indices.
pub fn tracker_words(ones: &OnesTable, table: &Table, n: usize, p: UsageFlags) -> Words
    requires { (n ≤ 64) × (p ≡ flags_of table.now) }
    ensures { TrackerWords table.now n result }
{
    words_of(ones, table, n, p, END)
}

// What the words of all indices tell.
#[inline(always)]
pub fn read_words(half: &Half, end: usize) -> Finding
    requires { end ≤ end_half }
    ensures { WordsTell end half.now.table.now result }
{
    let n = half.table[TEXTURES] as usize;
    let words = words_of(half.ones, half.table, n, half.flags, end);
    if !words.fit {
        return Finding::Unfit;
    }
    if words.plain {
        Finding::Plain
    } else {
        Finding::Ranged
    }
}
