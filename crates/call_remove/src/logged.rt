// The transitions of the listed textures that a scope owns.
ghost use Rattle.call_remove.specs.Logs.{LogsListed, listing_entries};

use log_head::Transitions;
use model::UsageFlags;
use set_storage::{START, Table, wide};
use texture_barrier::Sink;
use texture_track::given::{GivenSet, log_at};

// What the listed textures add to the log.
#[derive(Clone, Copy)]
pub struct Listed<'a> {
    pub table: &'a Table,
    pub ends: &'a [u32],
    pub given: &'a Table,
    pub lent: &'a [u32],
    pub indices: &'a [u32],
    pub p: UsageFlags,
    pub mask: u32,
}

// Those of all, in list order: none of an index that the scope does not own, nor of one that was listed before. `seen` is true at each
// index that was listed so far.
impl Transitions for Listed<'_> {
    ghost entries = { listing_entries };

    ghost ready = { λ x. LogsListed x.table.now x.ends.now x.given.now x.lent.now x.indices.now };

    fn log<K: Sink>(&self, sink: &mut K) {
        let set = GivenSet {
            table: self.given,
            first: self.lent,
            from: START,
            last: self.lent,
            to: START,
        };
        let mut seen = [false; 64];
        for &index in self.indices {
            let i = wide(index);
            let again = seen[i];
            seen[i] = true;
            if again {
                continue;
            }
            log_at(self.table, self.ends, i, self.p, self.mask, set, sink);
        }
    }
}
