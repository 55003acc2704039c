// The transitions of a texture that is held, or given, as Many: mip by mip.
ghost use Rattle.std.specs.Prelude.{ℕ, ◌<◌, ◌≤◌, suc};
ghost use Rattle.set_storage.specs.Stored.{ReadyUpTo, ranges_of};
ghost use Rattle.texture_barrier.specs.Entries.{entries_at};
ghost use Rattle.texture_barrier.specs.Mips.{mips_entries};
ghost use Rattle.texture_barrier.specs.Steps.{against, step_entries};

use crate::mip::{Step, log_each};
use crate::sink::Sink;
use crate::transition::Task;
use model::Range;
use set_storage::Stored;

// A step's transitions of the mips from `low` up to, not including, `high`.
pub fn log_mips<S: Step, K: Sink>(
    held: Stored<'_>,
    low: u32,
    high: u32,
    step: &S,
    t: Task,
    sink: &mut K,
)
    requires ready { ReadyUpTo held high }
    requires low_le_high { low ≤ high }
    requires usable { (m : ℕ) → m < high → S.usable step.now m }
    requires room_for { let es = mips_entries (step_entries (S.entries step.now t)) (ranges_of held) low high in
        K.room sink.old (entries_at t.index.0 es) }
    ensures { let es = mips_entries (step_entries (S.entries step.now t)) (ranges_of held.entry) low high in
        K.takes sink.old (entries_at t.index.0 es) sink.new }
{
    for m in low..high {
        log_each(held.mip(m), step, m, t, sink);
    }
}

// Each of the texture's ranges on its mip goes to the given range, what of it lies within; a given range is on one mip, so no other is
// looked at.
impl Step for Stored<'_> {
    ghost entries = { λ s t. against (ranges_of s) t.unknown t.mask };

    ghost usable = { λ s m. ReadyUpTo s (suc m) };

    fn log<K: Sink>(&self, r: Range, mip: u32, t: Task, sink: &mut K) {
        self.mip(mip).log(r, mip, t, sink)
    }
}
