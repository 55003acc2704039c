// A run of ranges takes one state: what `insert`, `merge` of Single with Many, and `update` do with an isolated run.
ghost use Rattle.std.specs.Prelude.{[], ◌∷◌, ◌++◌, map, ◌*◌, ◌≤◌, length, drop};
ghost use Rattle.model.specs.RangedStates.{range, in_state, coalesce as coalesce_of, paint as paint_of};
ghost use Rattle.range_states.specs.View.{decode, Becomes};
ghost use Rattle.range_isolate.specs.Isolation.{IsolateRoom};
ghost use Rattle.texture_mips.specs.Paint.{Leaves};

use model::Range;
use range_isolate::isolate;
use range_states::{coalesce, get, put};

// The ranges from `from` up to `to` take a state.
pub fn set_run(s: &mut [u32], from: usize, to: usize, state: u32)
    requires from_le_to { from ≤ to }
    requires to_in_bounds { 3 * to ≤ length s.old }
    ensures { let l = s.old in
        Becomes l to (decode from l ++ map (in_state state) (drop from (decode to l))) s.new }
{
    for k in from..to {
        let r = get(s, k);
        put(s, k, Range { state, ..r });
    }
}

// The layers from `start` to `end` take a state; gaps there come from `unknown`. Tells the new count.
pub fn paint(s: &mut [u32], len: usize, start: u32, end: u32, unknown: u32, state: u32) -> usize
    requires { IsolateRoom s.old len start end unknown }
    ensures { Leaves s.old result (paint_of unknown start end state (decode len s.old)) s.new }
{
    let i = isolate(s, len, start, end, unknown);
    set_run(s, i.position, i.end, state);
    i.len
}

// `update` on a mip of the end: the layers of a piece take its state, and the mip is coalesced.
pub fn update(s: &mut [u32], len: usize, start: u32, end: u32, unknown: u32, state: u32) -> usize
    requires { IsolateRoom s.old len start end unknown }
    ensures { let l = s.old in
        Leaves l result (coalesce_of (paint_of unknown start end state (decode len l))) s.new }
{
    let n = paint(s, len, start, end, unknown, state);
    coalesce(s, n)
}

// One range over all layers.
pub fn fresh(s: &mut [u32], layers: u32, state: u32)
    requires { 3 ≤ length s.old }
    ensures { Leaves s.old 1 (range 0 layers state ∷ []) s.new }
{
    put(
        s,
        0,
        Range {
            start: 0,
            end: layers,
            state,
        },
    );
}
