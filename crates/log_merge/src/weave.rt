// The merge itself. What is left of each log is kept as a slice, and the two indices that are compared next as values: so a lap reads one
// index, multiplies nothing, and each way round it ends by itself.
ghost use Rattle.std.specs.Prelude.{◌<◌, length};
ghost use Rattle.log_merge.specs.Weaves.{Weavable, Weaves};

use crate::Rest;
use texture_barrier::{get_entry, put_entry};

// Merges two logs, neither of them empty, into the third after its first `at` entries, until one is used up.
fn weave_both(first: &[u32], second: &[u32], third: &mut [u32], at: usize) -> Rest
    requires not_empty { (0 < length first.now) × (0 < length second.now) }
    requires weavable { Weavable first.now second.now third.old at }
    ensures { Weaves first.now second.now third.old at result third.new }
{
    let mut a = first;
    let mut b = second;
    let mut k = at;
    let mut x = a[0];
    let mut y = b[0];
    loop {
        if y < x {
            put_entry(third, k, get_entry(b, 0));
            k += 1;
            b = &b[7..];
            if b.is_empty() {
                return Rest::First(first.len() - a.len());
            }
            y = b[0];
        } else {
            put_entry(third, k, get_entry(a, 0));
            k += 1;
            a = &a[7..];
            if a.is_empty() {
                return Rest::Second(second.len() - b.len());
            }
            x = a[0];
        }
    }
}

// The same where one may be empty: nothing is merged then, and the other is the rest.
pub fn weave(first: &[u32], second: &[u32], third: &mut [u32], at: usize) -> Rest
    requires { Weavable first.now second.now third.old at }
    ensures { Weaves first.now second.now third.old at result third.new }
{
    if first.is_empty() {
        return Rest::Second(0);
    }
    if second.is_empty() {
        return Rest::First(0);
    }
    weave_both(first, second, third, at)
}
