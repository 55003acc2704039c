// Call open: a scope or a tracker begins in lent storage, with no index owned and each state UNINITIALIZED.
//
// Place in the picture: the first of the public calls, over `set_storage` and the tests of `set_wellformed` and `usage`. Nothing is
// required of the caller: the checks 1, 2 and 3 of 01's table come first, and a refusal leaves every number as it was.
//
// What holds: the answer is the model's (Refusals: `opening_refusal`); otherwise the table is written as specs/Open says, number by
// number, and its view is the model's newly opened set. The ranges are not written: room that is not needed stays untouched, and what
// is lent beyond it is ignored.
#![tactic(auto)]

ghost use Rattle.std.specs.Prelude.{◌≡◌, ◌≤◌};
ghost use Rattle.std.specs.Result.{result_err};
ghost use Rattle.model.specs.Refusals.{opening_refusal};
ghost use Rattle.model.specs.Log.{unless_refused};
ghost use Rattle.call_open.specs.Open.{asked, headed, cleared, TableOpened, OpenedScope, OpenedTracker};

use model::{Refusal, UsageFlags};
use set_storage::{
    COMPLEX, END, EXCLUSIVE, LAYER_LIMIT, LAYERS, MASK, MIP_LIMIT, MIPS, OWNED, START, TEXTURES,
    Table, UNINITIALIZED, UNKNOWN, wide,
};
use set_wellformed::numbers_fit;
use usage::flags_fit;

// The checks 1, 2 and 3, for room of so many ranges.
#[tactic(auto, unfolding(model::specs::Refusals::opening_refusal, model::specs::Refusals::first_failing))]
pub fn check(n: u32, m: u32, w: u32, p: UsageFlags, room: usize) -> Result<(), Refusal>
    ensures { opening_refusal (asked n m w p 0 room) ≡ result_err result }
{
    if !numbers_fit(n, m, w) {
        return Err(Refusal::NumbersOutOfLimits);
    }
    if !flags_fit(p) {
        return Err(Refusal::FlagsBreakRule);
    }
    if room < wide(n) * wide(m) * wide(w) {
        return Err(Refusal::ShortRoom);
    }
    Ok(())
}

// The numbers, the flags and the mask.
pub fn write_head(table: &mut Table, n: u32, m: u32, w: u32, p: UsageFlags, mask: u32)
    ensures { table.new ≡ headed table.old n m w p mask }
{
    table[TEXTURES] = n;
    table[MIP_LIMIT] = m;
    table[LAYER_LIMIT] = w;
    table[EXCLUSIVE] = p.exclusive;
    table[UNINITIALIZED] = p.uninitialized;
    table[COMPLEX] = p.complex;
    table[UNKNOWN] = p.unknown;
    table[MASK] = mask;
}

// The first n indices: not owned, and UNINITIALIZED in both halves.
#[tactic(auto, unfolding(crate::specs::Open::cleared))]
pub fn clear(table: &mut Table, n: usize, state: u32)
    requires { n ≤ 64 }
    ensures { table.new ≡ cleared table.old state n }
{
    for i in 0..n {
        table[OWNED + i] = 0;
        table[MIPS + i] = 0;
        table[LAYERS + i] = 0;
        table[START + i] = state;
        table[END + i] = state;
    }
}

// Opens a table: it is written if the checks let it pass.
// N, M and W come as three numbers, as the C interface hands them in.
fn open_table(
    table: &mut Table,
    n: u32,
    m: u32,
    w: u32,
    p: UsageFlags,
    mask: u32,
    room: usize,
) -> Result<(), Refusal>
    ensures { TableOpened table.old n m w p mask room (unless_refused result) table.new }
{
    check(n, m, w, p, room)?;
    write_head(table, n, m, w, p, mask);
    clear(table, wide(n), p.uninitialized);
    Ok(())
}

// Opens a scope for n textures of m mips and w layers.
pub fn open_scope(
    table: &mut Table,
    ranges: &[u32],
    n: u32,
    m: u32,
    w: u32,
    p: UsageFlags,
) -> Result<(), Refusal>
    ensures { OpenedScope table.old ranges.now n m w p (unless_refused result) table.new }
{
    open_table(table, n, m, w, p, 0, ranges.len() / 3)
}

// Opens a tracker, with an ordered mask.
pub fn open_tracker(
    table: &mut Table,
    starts: &[u32],
    ends: &[u32],
    n: u32,
    m: u32,
    w: u32,
    p: UsageFlags,
    mask: u16,
) -> Result<(), Refusal>
    ensures { OpenedTracker table.old starts.now ends.now n m w p mask (unless_refused result) table.new }
{
    let room = (starts.len() / 3).min(ends.len() / 3);
    open_table(table, n, m, w, p, mask as u32, room)
}
