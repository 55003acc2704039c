// One bit of sixteen by a table: of a byte it tells no bit, one, or more, and a state has one bit where its two bytes' entries sum to one.
//
// What holds: the table's rule is proved once, over all of its entries, and is in its type. The table is no data of the program: its 256
// bytes are written to the stack wherever it is made. So the test of a set makes it once and hands it down by reference; a check or a
// merge, which tests a state here and there, makes it only for a state that meets EXCLUSIVE.
ghost use Rattle.std.specs.Prelude.{◌≡◌};
ghost use Rattle.model.specs.Flags.{one_bit, incompatible};
ghost use Rattle.usage.specs.Ones.{CountsOnes};

use crate::meets;
use model::UsageFlags;

// The bits set in a byte, counted to two: an entry a line, and each sixteenth names its byte.
const ONES: [u8; 256] = [
    0, // 0
    1, 1, 2, 1, 2, 2, 2, 1, 2, 2, 2, 2, 2, 2, 2, 1, // 16
    2, 2, 2, 2, 2, 2, 2, 2, 2, 2, 2, 2, 2, 2, 2, 1, // 32
    2, 2, 2, 2, 2, 2, 2, 2, 2, 2, 2, 2, 2, 2, 2, 2, // 48
    2, 2, 2, 2, 2, 2, 2, 2, 2, 2, 2, 2, 2, 2, 2, 1, // 64
    2, 2, 2, 2, 2, 2, 2, 2, 2, 2, 2, 2, 2, 2, 2, 2, // 80
    2, 2, 2, 2, 2, 2, 2, 2, 2, 2, 2, 2, 2, 2, 2, 2, // 96
    2, 2, 2, 2, 2, 2, 2, 2, 2, 2, 2, 2, 2, 2, 2, 2, // 112
    2, 2, 2, 2, 2, 2, 2, 2, 2, 2, 2, 2, 2, 2, 2, 1, // 128
    2, 2, 2, 2, 2, 2, 2, 2, 2, 2, 2, 2, 2, 2, 2, 2, // 144
    2, 2, 2, 2, 2, 2, 2, 2, 2, 2, 2, 2, 2, 2, 2, 2, // 160
    2, 2, 2, 2, 2, 2, 2, 2, 2, 2, 2, 2, 2, 2, 2, 2, // 176
    2, 2, 2, 2, 2, 2, 2, 2, 2, 2, 2, 2, 2, 2, 2, 2, // 192
    2, 2, 2, 2, 2, 2, 2, 2, 2, 2, 2, 2, 2, 2, 2, 2, // 208
    2, 2, 2, 2, 2, 2, 2, 2, 2, 2, 2, 2, 2, 2, 2, 2, // 224
    2, 2, 2, 2, 2, 2, 2, 2, 2, 2, 2, 2, 2, 2, 2, 2, // 240
    2, 2, 2, 2, 2, 2, 2, 2, 2, 2, 2, 2, 2, 2, 2,
];

// A table with an entry for each byte, for whoever looks up more than once.
#[derive(Clone, Copy)]
pub struct OnesTable {
    pub entries: [u8; 256],
    ghost counts: { CountsOnes entries },
}

impl OnesTable {
    pub fn new() -> OnesTable {
        OnesTable { entries: ONES }
    }

    // Whether exactly one of the sixteen bits is set, by two look-ups.
    pub fn one_bit(&self, s: u32) -> bool
        ensures { result ≡ one_bit s }
    {
        self.entries[(s & 255) as usize] + self.entries[((s >> 8) & 255) as usize] == 1
    }

    // `invalid_resource_state`: the state meets EXCLUSIVE and has other than one bit set.
    pub fn incompatible(&self, p: UsageFlags, s: u32) -> bool
        ensures { result ≡ incompatible p s }
    {
        meets(s, p.exclusive) && !self.one_bit(s)
    }
}

// Whether exactly one of the sixteen bits is set, by a table that is made for it. Out of line: so no caller has the table on its stack.
#[inline(never)]
pub fn one_bit(s: u32) -> bool
    ensures { result ≡ one_bit s }
{
    OnesTable::new().one_bit(s)
}
