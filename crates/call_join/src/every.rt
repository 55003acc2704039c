// Every texture that a given set owns: its transitions, and what it becomes.
ghost use Rattle.std.specs.Prelude.{◌≡◌, ◌≤◌, length, get_or};
ghost use Rattle.set_storage.specs.Storage.{flags_of, textures_at};
ghost use Rattle.call_join.specs.Join.{Joins, JoiningReady, SetsAll, joining_entries};

use log_head::Transitions;
use model::UsageFlags;
use set_storage::Table;
use texture_barrier::Sink;
use texture_track::given::{GivenSet, log_at, set_at};

// What a given set adds to the log.
#[derive(Clone, Copy)]
pub struct Joining<'a> {
    pub table: &'a Table,
    pub ends: &'a [u32],
    pub given: GivenSet<'a>,
    // the given set's N
    pub n: usize,
    pub p: UsageFlags,
    pub mask: u32,
}

// The transitions by ascending index; a texture adds 1,048,576 at most.
#[tactic(auto, using(crate::proofs::Few::joining_few))]
pub fn log_set<K: Sink>(set: &Joining<'_>, sink: &mut K)
    requires ready { JoiningReady set.now }
    requires room { K.room sink.old (joining_entries set.now) }
    ensures taken { K.takes sink.old (joining_entries set.now) sink.new }
    ensures few { length (joining_entries set.now) ≤ 67108864 }
{
    for k in 0..set.n {
        log_at(set.table, set.ends, k, set.p, set.mask, set.given, sink);
    }
}

impl Transitions for Joining<'_> {
    ghost entries = { joining_entries };

    ghost ready = { JoiningReady };

    fn log<K: Sink>(&self, sink: &mut K) {
        log_set(self, sink)
    }
}

// What the textures become.
pub fn set_slots(
    table: &mut Table,
    starts: &mut [u32],
    ends: &mut [u32],
    given: GivenSet<'_>,
    n: usize,
    p: UsageFlags,
)
    requires joins { Joins table.old starts.old ends.old given.from given.to given.table.now given.first.now given.last.now }
    requires n_value { (n ≡ get_or given.table.now textures_at 0) × (p ≡ flags_of table.old) }
    ensures { let t = table.old in let s = starts.old in let e = ends.old in let g = given.entry in
        SetsAll t s e g.from g.to g.table.now g.first.now g.last.now table.new starts.new ends.new }
{
    for k in 0..n {
        set_at(table, starts, ends, k, given, p);
    }
}
