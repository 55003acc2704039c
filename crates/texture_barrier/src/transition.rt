// One transition: whether a change of state makes one, and its entry.
ghost use Rattle.std.specs.Prelude.{◌≡◌, ◌<◌};
ghost use Rattle.model.specs.StateRules.{move_of};
ghost use Rattle.model.specs.Texture.{entry};
ghost use Rattle.texture_barrier.specs.Entries.{entries_at};
ghost use Rattle.texture_barrier.specs.Steps.{is_made};
ghost use Rattle.texture_barrier.specs.Textures.{task_of};

use crate::sink::Sink;
use model::{PendingTransition, Selector, TrackerIndex, UsageFlags};
use usage::skips;

// What stays the same during one `barrier`: whose transitions they are, and what decides whether there is one.
#[derive(Clone, Copy)]
pub struct Task {
    pub index: TrackerIndex,
    pub unknown: u32,
    pub mask: u32,
}

impl Task {
    // That of texture i.
    pub fn of(i: usize, p: UsageFlags, mask: u32) -> Task
        requires { i < 64 }
        ensures { result ≡ task_of i p mask }
    {
        Task {
            index: TrackerIndex(i as u32),
            unknown: p.unknown,
            mask,
        }
    }

    // Whether `old` to `new` makes a transition: neither is UNKNOWN, and it is not skipped.
    pub fn moves(self, old: u32, new: u32) -> bool
        ensures { result ≡ is_made (move_of self.unknown self.mask old new) }
    {
        if old == self.unknown || new == self.unknown {
            return false;
        }
        !skips(self.mask, old, new)
    }

    // The transition of what `selector` names from `old` to `new`, if there is one.
    #[inline(always)]
    pub fn log_move<K: Sink>(self, selector: Selector, old: u32, new: u32, sink: &mut K)
        requires { K.room sink.old (entries_at self.index.0 (entry selector (move_of self.unknown self.mask old new))) }
        ensures { K.takes sink.old (entries_at self.index.0 (entry selector (move_of self.unknown self.mask old new))) sink.new }
    {
        if self.moves(old, new) {
            let index = self.index;
            sink.put(PendingTransition {
                index,
                selector,
                old,
                new,
            });
        }
    }
}
