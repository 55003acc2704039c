// A texture as it stands in one half of a set, borrowed to be read mip by mip.
ghost use Rattle.std.specs.Prelude.{◌≡◌, ◌*◌, ◌≤◌, ◌<◌, suc, length};
ghost use Rattle.range_states.specs.View.{decode};
ghost use Rattle.set_storage.specs.Storage.{end_half};
ghost use Rattle.set_storage.specs.Stored.{ReadyUpTo, ranges_of, word_of};

use crate::{Table, locate, wide};

// The ranges of a mip: the first `len` of a borrowed run.
#[derive(Clone, Copy)]
pub struct Run<'a> {
    pub records: &'a [u32],
    pub len: usize,
    ghost inside: { 3 * len ≤ length records.now },
}

// Texture i in one half of a set.
#[derive(Clone, Copy)]
pub struct Stored<'a> {
    pub table: &'a Table,
    pub ranges: &'a [u32],
    pub half: usize,
    pub i: usize,
}

impl<'a> Stored<'a> {
    // The ranges of mip m.
    pub fn mip(&self, m: u32) -> Run<'a>
        requires { ReadyUpTo self.now (suc m) }
        ensures { decode result.len result.records.now ≡ ranges_of self.now m }
    {
        let found = locate(self.table, self.ranges.len(), self.half, self.i, wide(m));
        Run {
            records: &self.ranges[found.base..found.end],
            len: found.len,
        }
    }

    // Its word: its state where it is Single, COMPLEX where it is Many.
    #[inline(always)]
    pub fn word(&self) -> u32
        requires { (self.now.half ≤ end_half) × (self.now.i < 64) }
        ensures { result ≡ word_of self.now }
    {
        self.table[self.half + self.i]
    }
}
