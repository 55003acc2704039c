// A new state from an old and a given one: texture.rs, in `merge`. None, where they cannot be had together.
ghost use Rattle.std.specs.Prelude.{◌≡◌};
ghost use Rattle.model.specs.StateRules.{unite, unite_known};

use crate::{incompatible, less, union};
use model::UsageFlags;

// The state of a Single texture with a given one.
pub fn unite(p: UsageFlags, old: u32, new: u32) -> Option<u32>
    ensures { result ≡ unite p old new }
{
    let u = union(old, new);
    if incompatible(p, u) { None } else { Some(u) }
}

// The state of a range with a given one: less UNKNOWN, and where nothing is left the old one stays.
pub fn unite_known(p: UsageFlags, old: u32, new: u32) -> Option<u32>
    ensures { result ≡ unite_known p old new }
{
    let u = less(p.unknown, union(old, new));
    if u == 0 {
        return Some(old);
    }
    if incompatible(p, u) {
        return None;
    }
    Some(u)
}
