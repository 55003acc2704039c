// The listed textures that a scope owns go into a tracker, and the scope no longer owns them.
ghost use Rattle.std.specs.Prelude.{◌≡◌};
ghost use Rattle.set_storage.specs.Storage.{flags_of, start_half};
ghost use Rattle.texture_track.specs.GivenSlot.{SetsAt};
ghost use Rattle.call_remove.specs.Taken.{Listing, TakenAt, Takes};

use model::UsageFlags;
use set_storage::{OWNED, START, Table, wide};
use texture_track::given::{GivenSet, set_at};

// Texture i, if the scope owns it.
pub fn take_at(
    table: &mut Table,
    starts: &mut [u32],
    ends: &mut [u32],
    given: &mut Table,
    lent: &[u32],
    i: usize,
    p: UsageFlags,
)
    requires { SetsAt table.old starts.old ends.old i start_half start_half given.old lent.now lent.now p }
    ensures { let t = table.old in let s = starts.old in let e = ends.old in let g = given.old in
        let r = lent.now in
        TakenAt t s e g r i p table.new starts.new ends.new given.new }
{
    if given[OWNED + i] == 0 {
        return;
    }
    let set = GivenSet {
        table: given,
        first: lent,
        from: START,
        last: lent,
        to: START,
    };
    set_at(table, starts, ends, i, set, p);
    given[OWNED + i] = 0;
}

// All that are listed, in list order.
pub fn set_listed(
    table: &mut Table,
    starts: &mut [u32],
    ends: &mut [u32],
    given: &mut Table,
    lent: &[u32],
    indices: &[u32],
    p: UsageFlags,
)
    requires listing { Listing table.old starts.old ends.old given.old lent.now indices.now }
    requires p_value { p ≡ flags_of table.old }
    ensures { let t = table.old in let s = starts.old in let e = ends.old in let g = given.old in
        let is = indices.now in let r = lent.now in
        Takes t s e g r is table.new starts.new ends.new given.new }
{
    for &index in indices {
        take_at(table, starts, ends, given, lent, wide(index), p);
    }
}
