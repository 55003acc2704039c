// Set ready: what the test of a set and the checks of a call have shown, in the form that the functions on one texture require.
//
// Place in the picture: between the test (`set_wellformed`), the checks (`set_checks`) and the functions on one texture (`texture_merge`,
// `texture_update`, `texture_barrier`) below, and the public calls above, which test and check first. Laws, and one function, which
// tells what a selection names of a texture.
//
//     Tested    a set that passed the test, index by index
//     Parts     what a selection names of a texture: all of it, or a part
//     Checked   a use and a texture that passed the checks: `TextureReady` and `TextureHeld`, made once
//     Half      one half of a texture, or both, for the functions over it; still ready while other textures change
//     Given     what another set holds at the same index, for the functions that take it
//     Owned     a texture that was owned before or has just become so: ready, how its slot reads after a change, and the view of the set
//     Walked    a walk over slots by any relation: which are done, and which are left as they were
//     SetWalk   such a walk over a set as it is lent
//     Named     what the frame of a call says of the numbers that no texture uses, and of a texture that it does not name
#![tactic(auto)]

ghost use Rattle.std.specs.Prelude.{◌≡◌};
ghost use Rattle.set_ready.specs.Parts.{part_named};

use model::{Extent, Selector};

// What a selection names: none for all of the texture. 01: a use is whole if no selector is given or it equals the full shape.
pub fn part_named(extent: Extent, selection: Option<Selector>) -> Option<Selector>
    ensures { result ≡ part_named extent selection }
{
    selection.filter(|q| *q != extent.full())
}
