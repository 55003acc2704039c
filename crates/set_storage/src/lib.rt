// Set storage: how a set of textures lies in the numbers that a caller lends, and how those numbers read as the model's sets.
//
// Place in the picture: over `model` and `range_states`, under `set_wellformed`, `texture_merge` and the public calls. Only this crate
// knows the layout.
//
//     table    0 N   1 M   2 W   3 EXCLUSIVE   4 UNINITIALIZED   5 COMPLEX   6 UNKNOWN   7 ordered mask (a tracker's)
//              OWNED + i    0 if index i is not owned
//              MIPS + i     its mips            LAYERS + i   its layers
//              half h (START: a scope's states, or a tracker's start; END: a tracker's end; a scope leaves it unused)
//                h + i                     the state where index i is Single, COMPLEX where it is Many (as the Rust's `simple`)
//                h + COUNTS + 16 i + m     how many ranges its mip m has
//     ranges   three numbers a range; those of (i, m) begin at 3 W (i M + m), with room for W
//
//     stored   a texture as it stands in one half, lent to be read mip by mip
//
// What holds: the view (specs/Storage) is total, any numbers read as a set. The mips of an index are read as at most M, since an index
// that is not owned may hold any extent and its view must not reach into another's; a count past W reads as no ranges.
#![tactic(auto)]

ghost use Rattle.std.specs.Prelude.{◌≡◌, ◌+◌, ◌*◌, ◌≤◌, ◌<◌, length, set};
ghost use Rattle.set_storage.specs.Part.{base_of, Within};
ghost use Rattle.set_storage.specs.Storage.{flags_of, extent_of, count_at, end_half, table_length};
ghost use Rattle.set_storage.specs.Locate.{Locates, LocatedAt};

pub mod stored;

use model::{Extent, UsageFlags};
pub use stored::{Run, Stored};

pub const TABLE_LENGTH: usize = 2376;

pub type Table = [u32; TABLE_LENGTH];

// The head: the opening numbers, the usage flags and the ordered mask.
pub const TEXTURES: usize = 0;

pub const MIP_LIMIT: usize = 1;

pub const LAYER_LIMIT: usize = 2;

pub const EXCLUSIVE: usize = 3;

pub const UNINITIALIZED: usize = 4;

pub const COMPLEX: usize = 5;

pub const UNKNOWN: usize = 6;

pub const MASK: usize = 7;

// The words of an index.
pub const OWNED: usize = 8;

pub const MIPS: usize = 72;

pub const LAYERS: usize = 136;

pub const START: usize = 200;

pub const END: usize = 1288;

pub const COUNTS: usize = 64;

// A stored number as a position.
pub fn wide(x: u32) -> usize
    ensures { (result ≡ x) × (x < 4294967296) }
{
    x as usize
}

fn count(s: &[u32]) -> usize
    ensures { result ≡ length s.now }
{
    s.len()
}

// Tells a proof how long a table is.
pub fn table_len(table: &Table) -> usize
    ensures { (result ≡ table_length) × (length table.now ≡ table_length) }
{
    count(table);
    TABLE_LENGTH
}

// The usage flags that a table holds.
pub fn flags_of(table: &Table) -> UsageFlags
    ensures { result ≡ flags_of table.now }
{
    UsageFlags {
        exclusive: table[EXCLUSIVE],
        uninitialized: table[UNINITIALIZED],
        complex: table[COMPLEX],
        unknown: table[UNKNOWN],
    }
}

// How many mips and layers texture i has, if it is owned.
pub fn extent_of(table: &Table, i: usize) -> Extent
    requires { i < 64 }
    ensures { result ≡ extent_of table.now i }
{
    Extent {
        mips: table[MIPS + i],
        layers: table[LAYERS + i],
    }
}

// Where the ranges of (i, m) begin.
pub fn base(i: usize, m: usize, mips: usize, layers: usize, room: usize) -> usize
    requires { Within i m mips layers room }
    ensures { (result ≡ base_of i m mips layers) × (result + 3 * layers ≤ room) }
{
    (i * mips + m) * layers * 3
}

// Where the ranges of a mip lie, and how many there are.
#[derive(Clone, Copy)]
pub struct Located {
    pub base: usize,
    pub end: usize,
    pub len: usize,
}

// Finds the ranges of mip m of texture i in one half.
pub fn locate(table: &Table, room: usize, half: usize, i: usize, m: usize) -> Located
    requires { Locates table.now half i m room }
    ensures { LocatedAt table.now half i m room result }
{
    let mips = wide(table[MIP_LIMIT]);
    let layers = wide(table[LAYER_LIMIT]);
    let b = base(i, m, mips, layers, room);
    Located {
        base: b,
        end: b + layers * 3,
        len: wide(table[half + COUNTS + (16 * i + m)]),
    }
}

// Writes how many ranges mip m of texture i has.
pub fn set_count(table: &mut Table, half: usize, i: usize, m: usize, n: usize)
    requires { (half ≤ end_half) × ((i < 64) × ((m < 16) × (n < 4294967296))) }
    ensures { table.new ≡ set table.old (count_at half i m) n }
{
    table[half + COUNTS + (16 * i + m)] = n as u32;
}
