// A texture of a tracker, for one use of it.
ghost use Rattle.model.specs.Calls.{set_slot};
ghost use Rattle.model.specs.Texture.{ranged};
ghost use Rattle.set_storage.specs.Stays.{Only};
ghost use Rattle.set_storage.specs.Storage.{tracker_slot};
ghost use Rattle.set_storage.specs.Uses.{use_of};
ghost use Rattle.texture_track.specs.Slot.{SlotSet};
ghost use Rattle.texture_track.specs.Used.{using_entries, UsingReady};
ghost use Rattle.set_ready.specs.Half.{BothReady};
ghost use Rattle.set_ready.specs.Checked.{TakenUse};

use log_head::Transitions;
use model::{Extent, Selector, UsageFlags};
use set_storage::{END, OWNED, START, Stored, Table};
use texture_barrier::{Sink, barrier_use};
use texture_merge::using::{insert_use, own};
use texture_update::using::{update_state, update_use};

// What the texture becomes.
pub fn set_use_at(
    table: &mut Table,
    starts: &mut [u32],
    ends: &mut [u32],
    i: usize,
    extent: Extent,
    part: Option<Selector>,
    p: UsageFlags,
    new: u32,
)
    requires both_ready { BothReady table.old starts.old ends.old i extent }
    requires taken_use { TakenUse table.old extent part p new }
    ensures { let t = table.old in let s = starts.old in let e = ends.old in
        SlotSet (Only i) t s e i (set_slot ranged p extent (use_of part new) (use_of part new) (tracker_slot t s e i)) table.new
        starts.new ends.new }
{
    if table[OWNED + i] == 0 {
        own(table, i, extent);
        insert_use(table, starts, START, i, extent, part, p, new);
        insert_use(table, ends, END, i, extent, part, p, new);
        return;
    }
    match part {
        None => update_state(table, starts, ends, i, extent, p, new),
        Some(q) => update_use(table, starts, ends, i, extent, q, p, new),
    }
}

// What a use of texture i adds to the log.
#[derive(Clone, Copy)]
pub struct Using<'a> {
    pub table: &'a Table,
    pub ends: &'a [u32],
    pub i: usize,
    pub extent: Extent,
    pub part: Option<Selector>,
    pub p: UsageFlags,
    pub mask: u32,
    pub new: u32,
}

// Its transitions: none where the texture is not owned.
impl Transitions for Using<'_> {
    ghost entries = { using_entries };

    ghost ready = { UsingReady };

    #[inline(always)]
    fn log<K: Sink>(&self, sink: &mut K) {
        if self.table[OWNED + self.i] == 0 {
            return;
        }
        let held = Stored {
            table: self.table,
            ranges: self.ends,
            half: END,
            i: self.i,
        };
        barrier_use(
            held,
            self.extent,
            self.part,
            self.p,
            self.mask,
            self.new,
            sink,
        );
    }
}
