// A given state on the ranges of one mip: texture.rs, `merge`, where the texture is held by ranges.
ghost use Rattle.std.specs.Prelude.{◌*◌, ◌≤◌, length};
ghost use Rattle.range_isolate.specs.Isolation.{IsolateRoom};
ghost use Rattle.texture_mips.specs.Pass.{Passed};
ghost use Rattle.texture_mips.specs.Merge.{run_stops, run_takes, PieceMerged, EveryMerged};

use model::{Range, UsageFlags};
use range_isolate::isolate;
use range_states::{coalesce, get, put};
use usage::unite_known;

// The new count, and what the merge met, if anything: a range, with its old state, that cannot be united with the given one.
#[derive(Clone, Copy)]
pub struct Merged {
    pub len: usize,
    pub met: Option<Range>,
}

// The ranges from `from` up to `to` take `new`, up to the first that cannot. Tells where that is, or `to`.
pub fn merge_run(s: &mut [u32], from: usize, to: usize, p: UsageFlags, new: u32) -> usize
    requires from_le_to { from ≤ to }
    requires to_in_bounds { 3 * to ≤ length s.old }
    ensures { Passed (run_stops p new) (run_takes p new) s.old from to result s.new }
{
    for k in from..to {
        let r = get(s, k);
        let Some(state) = unite_known(p, r.state, new) else {
            return k;
        };
        put(s, k, Range { state, ..r });
    }
    to
}

// Many with Many: a piece with the layers from `start` to `end`. The mip is coalesced unless a conflict stopped the walk.
pub fn merge_piece(
    s: &mut [u32],
    len: usize,
    start: u32,
    end: u32,
    p: UsageFlags,
    new: u32,
) -> Merged
    requires { IsolateRoom s.old len start end p.unknown }
    ensures { PieceMerged p start end new s.old len result s.new }
{
    let i = isolate(s, len, start, end, p.unknown);
    let k = merge_run(s, i.position, i.end, p, new);
    if k < i.end {
        return Merged {
            len: i.len,
            met: Some(get(s, k)),
        };
    }
    Merged {
        len: coalesce(s, i.len),
        met: None,
    }
}

// Many with Single: one state on every range of the mip. (What it shares with `merge_piece` is `merge_run`: only a piece is isolated.)
pub fn merge_every(s: &mut [u32], len: usize, p: UsageFlags, new: u32) -> Merged
    requires { 3 * len ≤ length s.old }
    ensures { EveryMerged p new s.old len result s.new }
{
    let k = merge_run(s, 0, len, p, new);
    if k < len {
        return Merged {
            len,
            met: Some(get(s, k)),
        };
    }
    Merged {
        len: coalesce(s, len),
        met: None,
    }
}
