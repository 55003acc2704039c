// One half of a set whose head fits, a scope's states or a tracker's start or end, and what the test of its ranges reads.
//
// What holds: the struct has what the head's test showed, so every number that an index within the set names can be read. The innermost
// loops are written with `for`, which LLVM makes shorter code of than of `all`.
ghost use Rattle.std.specs.Prelude.{◌≡◌, ◌*◌, ◌≤◌, ◌<◌, length, get_or, true};
ghost use Rattle.model.specs.WellFormed.{ranges_fit, held_fits};
ghost use Rattle.model.specs.Base.{every};
ghost use Rattle.range_states.specs.View.{decode};
ghost use Rattle.set_storage.specs.Storage.{numbers_of, flags_of, extent_of, mip_of, mips_of, held_of, mips_at, layers_at, unknown_at};
ghost use Rattle.set_storage.specs.Frames.{Measured};
ghost use Rattle.set_wellformed.specs.Parts.{Sized, Few, mips_fit, is_many};
ghost use Rattle.set_wellformed.specs.Unknowns.{is_known};

use crate::{single_fits, state_fits};
use model::UsageFlags;
use range_states::get;
use set_storage::{COUNTS, LAYER_LIMIT, LAYERS, MIPS, Table, flags_of, locate};
use usage::OnesTable;

// Ranges as they are stored, and how many.
#[derive(Clone, Copy)]
pub struct Ranges<'a> {
    pub numbers: &'a [u32],
    pub len: usize,
    ghost room: { 3 * len ≤ length numbers.now },
}

impl Ranges<'_> {
    // Whether they tile the layers from 0 to `layers`, each in a state that fits.
    pub fn fit(&self, ones: &OnesTable, p: UsageFlags, layers: u32) -> bool
        ensures { result ≡ ranges_fit p layers 0 (decode self.now.len self.now.numbers.now) }
    {
        let mut at = 0;
        for k in 0..self.len {
            let r = get(self.numbers, k);
            if r.start != at || r.end <= at || !state_fits(ones, p, r.state) {
                return false;
            }
            at = r.end;
        }
        at == layers
    }

    // Whether none is exactly UNKNOWN.
    pub fn known(&self, u: u32) -> bool
        ensures { result ≡ every (is_known u) (decode self.now.len self.now.numbers.now) }
    {
        for k in 0..self.len {
            if get(self.numbers, k).state == u {
                return false;
            }
        }
        true
    }
}

// A half, where it begins in its table, and what each test of its states takes.
#[derive(Clone, Copy)]
pub struct Half<'a> {
    pub ones: &'a OnesTable,
    pub table: &'a Table,
    pub ranges: &'a [u32],
    pub at: usize,
    pub flags: UsageFlags,
    ghost measured: { Measured (numbers_of table.now) at table.now ranges.now },
    ghost flags_are: { flags ≡ flags_of table.now },
}

impl<'a> Half<'a> {
    // The half that begins at `at`, of a table whose head fits, with ranges that it has room for.
    pub fn new(ones: &'a OnesTable, table: &'a Table, ranges: &'a [u32], at: usize) -> Half<'a>
        requires { Measured (numbers_of table.now) at table.now ranges.now }
        ensures table { result.table.now ≡ table.now }
        ensures ranges { result.ranges.now ≡ ranges.now }
        ensures at { result.at ≡ at }
    {
        Half {
            ones,
            table,
            ranges,
            at,
            flags: flags_of(table),
        }
    }

    // The ranges of mip m of texture i, of which there are no more than there is room for.
    pub fn mip(&self, i: usize, m: usize) -> Ranges<'a>
        requires texture { Sized self.now.table.now i }
        requires mip { m < get_or self.now.table.now (mips_at i) 0 }
        requires few { Few self.now.at self.now.table.now i m }
        ensures { let t = self.now.table.now in
            decode result.len result.numbers.now ≡ mip_of (numbers_of t) self.now.at t self.now.ranges.now i m }
    {
        let found = locate(self.table, self.ranges.len(), self.at, i, m);
        Ranges {
            numbers: &self.ranges[found.base..found.end],
            len: found.len,
        }
    }

    // Mip m of texture i: a count past the room is no ranges, which tile no layer.
    fn mip_fits(&self, i: usize, m: usize) -> bool
        requires texture { Sized self.now.table.now i }
        requires mip { m < get_or self.now.table.now (mips_at i) 0 }
        ensures { let t = self.now.table.now in
            result ≡ ranges_fit (flags_of t) (get_or t (layers_at i) 0) 0 (mip_of (numbers_of t) self.now.at t self.now.ranges.now i m) }
    {
        self.table[self.at + COUNTS + (16 * i + m)] <= self.table[LAYER_LIMIT]
            && self
                .mip(i, m)
                .fit(self.ones, self.flags, self.table[LAYERS + i])
    }

    // Every mip of texture i.
    pub fn mips_fit(&self, i: usize) -> bool
        requires { Sized self.now.table.now i }
        ensures { let t = self.now.table.now in
            result ≡ mips_fit (flags_of t) self.now.at t self.now.ranges.now i }
    {
        (0..self.table[MIPS + i] as usize).all(|m| self.mip_fits(i, m))
    }

    // Whether no range of mip m is exactly UNKNOWN.
    fn mip_known(&self, i: usize, m: usize) -> bool
        requires texture { Sized self.now.table.now i }
        requires mip { m < get_or self.now.table.now (mips_at i) 0 }
        requires fit { let t = self.now.table.now in mips_fit (flags_of t) self.now.at t self.now.ranges.now i ≡ true }
        ensures { let t = self.now.table.now in
            result ≡ every (is_known (get_or t unknown_at 0)) (mip_of (numbers_of t) self.now.at t self.now.ranges.now i m) }
    {
        self.mip(i, m).known(self.flags.unknown)
    }

    // Whether no range of texture i, whose mips fit, is exactly UNKNOWN.
    pub fn mips_known(&self, i: usize) -> bool
        requires texture { Sized self.now.table.now i }
        requires fit { let t = self.now.table.now in mips_fit (flags_of t) self.now.at t self.now.ranges.now i ≡ true }
        ensures { let t = self.now.table.now in
            result ≡ every (every (is_known (get_or t unknown_at 0))) (mips_of (numbers_of t) self.now.at t self.now.ranges.now i) }
    {
        (0..self.table[MIPS + i] as usize).all(|m| self.mip_known(i, m))
    }

    // Whether texture i is Many.
    pub fn is_many(&self, i: usize) -> bool
        requires { i < 64 }
        ensures { result ≡ is_many self.now.table.now self.now.at i }
    {
        self.table[self.at + i] == self.flags.complex
    }

    // What the half holds of texture i.
    pub fn fits(&self, i: usize) -> bool
        requires { Sized self.now.table.now i }
        ensures { let t = self.now.table.now in
            result ≡ held_fits (flags_of t) (extent_of t i) (held_of (numbers_of t) self.now.at t self.now.ranges.now i) }
    {
        if self.is_many(i) {
            return self.mips_fit(i);
        }
        single_fits(self.ones, self.flags, self.table[self.at + i])
    }
}
