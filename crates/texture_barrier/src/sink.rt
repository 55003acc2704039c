// Where transitions go: a sink takes them one by one, and counts them or writes them to a log.
ghost use Rattle.std.specs.Prelude.{◌≡◌, List, [], ◌∷◌, ◌+◌, ◌*◌, ◌^◌, ◌<◌, ◌≤◌, length};
ghost use Rattle.model.specs.declared.PendingTransition.{PendingTransition};
ghost use Rattle.texture_barrier.specs.Sinks.{SinkLaws, Writes, counting_laws, writing_laws};

use crate::entries::put_entry;
use model::PendingTransition;

// What takes transitions.
pub trait Sink {
    // there is room for these
    ghost room: { Self → List PendingTransition → Type 0 };

    // what it becomes when it takes them
    ghost takes: { Self → List PendingTransition → Self → Type 0 };

    // Takes one.
    fn put(&mut self, e: PendingTransition)
        requires { room self.old (e ∷ []) }
        ensures { takes self.old (e ∷ []) self.new };

    ghost laws: { SinkLaws room takes };
}

// Counts them.
#[derive(Drop)]
pub struct Counting(pub usize);

impl Sink for Counting {
    ghost room = { λ s es. s.0 + length es < 2 ^ 64 };

    ghost takes = { λ s es t. t.0 ≡ s.0 + length es };

    #[inline(always)]
    fn put(&mut self, _e: PendingTransition) {
        self.0 += 1;
    }

    ghost laws = { counting_laws };
}

// Writes them to a log, the next as its entry `at`.
#[derive(Drop)]
pub struct Writing<'a> {
    pub log: &'a mut [u32],
    pub at: usize,
}

impl Sink for Writing<'_> {
    ghost room = { λ s es. 7 * (s.at + length es) ≤ length s.log.now };

    ghost takes = { Writes };

    #[inline(always)]
    #[tactic(auto, using(crate::specs::Written::written_one))]
    fn put(&mut self, e: PendingTransition) {
        put_entry(self.log, self.at, e);
        self.at += 1;
    }

    ghost laws = { writing_laws };
}
