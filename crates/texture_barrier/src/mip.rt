// The transitions of one mip: what is added for each of its ranges.
ghost use Rattle.std.specs.Prelude.{◌≡◌, ℕ, List, ◌<◌};
ghost use Rattle.model.specs.declared.Range.{Range};
ghost use Rattle.model.specs.Base.{each};
ghost use Rattle.model.specs.Texture.{Entry};
ghost use Rattle.range_states.specs.View.{decode};
ghost use Rattle.texture_barrier.specs.declared.transition.Task.{Task};
ghost use Rattle.texture_barrier.specs.Entries.{entries_at};
ghost use Rattle.texture_barrier.specs.Steps.{to_change, from_change, within_change, change_entries};
ghost use Rattle.texture_barrier.specs.Steps.{to_state, from_state, within, against};

use crate::sink::Sink;
use crate::transition::Task;
use model::{Range, Selector};
use range_states::filtering::{clipped, overlap};
use range_states::get;
use set_storage::Run;

// What is added for each range of a texture that is Many.
pub trait Step {
    // what is added for a range of a mip
    ghost entries: { Self → Task → ℕ → Range → List Entry };

    // what is required at a mip
    ghost usable: { Self → ℕ → Type 0 };

    // Hands a sink what is added for one range.
    fn log<K: Sink>(&self, r: Range, mip: u32, t: Task, sink: &mut K)
        requires usable_there { usable self.now mip }
        requires room_for { K.room sink.old (entries_at t.index.0 (entries self.now t mip r)) }
        ensures { K.takes sink.old (entries_at t.index.0 (entries self.now t mip r)) sink.new };
}

// What is made of a range: whether anything, of which layers, from which state to which.
#[derive(Clone, Copy)]
pub struct Change {
    pub made: bool,
    pub start: u32,
    pub end: u32,
    pub old: u32,
    pub new: u32,
}

impl Change {
    // Its transition on a mip, if there is one.
    #[inline(always)]
    fn log<K: Sink>(self, mip: u32, t: Task, sink: &mut K)
        requires mip_bound { mip < 16 }
        requires room_for { K.room sink.old (entries_at t.index.0 (change_entries t.unknown t.mask mip self)) }
        ensures { K.takes sink.old (entries_at t.index.0 (change_entries t.unknown t.mask mip self)) sink.new }
    {
        if self.made {
            t.log_move(
                Selector::on_mip(mip, self.start, self.end),
                self.old,
                self.new,
                sink,
            )
        }
    }
}

// It goes to one state.
#[derive(Clone, Copy)]
pub struct ToState(pub u32);

impl ToState {
    // What that makes of a range.
    pub fn change(self, r: Range) -> Change
        ensures { result ≡ to_change self.0 r }
    {
        Change {
            made: true,
            start: r.start,
            end: r.end,
            old: r.state,
            new: self.0,
        }
    }
}

impl Step for ToState {
    ghost entries = { λ s t. to_state s.0 t.unknown t.mask };

    ghost usable = { λ _ m. m < 16 };

    fn log<K: Sink>(&self, r: Range, mip: u32, t: Task, sink: &mut K) {
        self.change(r).log(mip, t, sink)
    }
}

// It is given, and one state goes to its state.
#[derive(Clone, Copy)]
pub struct FromState(pub u32);

impl FromState {
    // What that makes of a range.
    pub fn change(self, r: Range) -> Change
        ensures { result ≡ from_change self.0 r }
    {
        Change {
            made: true,
            start: r.start,
            end: r.end,
            old: self.0,
            new: r.state,
        }
    }
}

impl Step for FromState {
    ghost entries = { λ s t. from_state s.0 t.unknown t.mask };

    ghost usable = { λ _ m. m < 16 };

    fn log<K: Sink>(&self, r: Range, mip: u32, t: Task, sink: &mut K) {
        self.change(r).log(mip, t, sink)
    }
}

// What of it lies within a range goes to that range's state.
#[derive(Clone, Copy)]
pub struct Within(pub Range);

impl Within {
    // What that makes of a range.
    pub fn change(self, r: Range) -> Change
        ensures { result ≡ within_change self.0 r }
    {
        let to = self.0;
        let part = clipped(r, to.start, to.end);
        Change {
            made: overlap(r, to.start, to.end),
            start: part.start,
            end: part.end,
            old: part.state,
            new: to.state,
        }
    }
}

impl Step for Within {
    ghost entries = { λ s t. within s.0 t.unknown t.mask };

    ghost usable = { λ _ m. m < 16 };

    fn log<K: Sink>(&self, r: Range, mip: u32, t: Task, sink: &mut K) {
        self.change(r).log(mip, t, sink)
    }
}

// It is given to a mip with these ranges: what of each of them lies within it goes to its state.
impl Step for Run<'_> {
    ghost entries = { λ s t. against (λ _. decode s.len s.records.now) t.unknown t.mask };

    ghost usable = { λ _ m. m < 16 };

    fn log<K: Sink>(&self, r: Range, mip: u32, t: Task, sink: &mut K) {
        log_each(*self, &Within(r), mip, t, sink)
    }
}

// A step's transitions of the ranges of a mip.
pub fn log_each<S: Step, K: Sink>(run: Run<'_>, step: &S, mip: u32, t: Task, sink: &mut K)
    requires usable { S.usable step.now mip }
    requires room_for { K.room sink.old (entries_at t.index.0 (each (S.entries step.now t mip) (decode run.len run.records.now))) }
    ensures { let es = each (S.entries step.now t mip) (decode run.entry.len run.entry.records.now) in
        K.takes sink.old (entries_at t.index.0 es) sink.new }
{
    for k in 0..run.len {
        step.log(get(run.records, k), mip, t, sink);
    }
}
