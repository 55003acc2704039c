// A mip of a tracker's start learns: texture.rs, `update`, the start's ranges where the end is held by ranges.
ghost use Rattle.std.specs.Prelude.{◌*◌, ◌≤◌, length, drop};
ghost use Rattle.model.specs.Texture.{learn as learn_of};
ghost use Rattle.range_states.specs.View.{decode};
ghost use Rattle.texture_mips.specs.Paint.{Leaves};
ghost use Rattle.texture_mips.specs.Learn.{LearnRoom};

use crate::painting::update;
use range_states::get;

// Takes `new` where the ranges of `ends`, a mip of the end, from position `from` up to `to` are exactly UNKNOWN. Tells the new count.
pub fn learn(
    s: &mut [u32],
    len: usize,
    ends: &[u32],
    from: usize,
    to: usize,
    unknown: u32,
    new: u32,
) -> usize
    requires from_le_to { from ≤ to }
    requires to_in_bounds { 3 * to ≤ length ends.now }
    requires learn_room { LearnRoom s.old len unknown new (drop from (decode to ends.now)) }
    ensures { let l = s.old in
        Leaves l result (learn_of unknown new (drop from (decode to ends.now)) (decode len l)) s.new }
{
    let mut n = len;
    for k in from..to {
        let r = get(ends, k);
        if r.state == unknown {
            n = update(s, n, r.start, r.end, unknown, new);
        }
    }
    n
}
