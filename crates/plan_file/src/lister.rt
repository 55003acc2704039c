// The uses of a plan as a list of numbers, eight each, in the order of a use's bytes: index, mips, layers, mip start, mip end, layer start,
// layer end, state.
ghost use Rattle.std.specs.Prelude.{◌≡◌, ◌+◌, ◌≤◌, [], ◌∷◌, length};
ghost use Rattle.std.proofs.lemmas.List.Edits.{sets};
ghost use Rattle.plan_file.specs.Bytes.{low_first};
ghost use Rattle.plan_file.specs.Items.{event_in, events_in, use_bytes};
ghost use Rattle.plan_file.specs.Uses.{is_use, count_of, numbers_of, UsesListed};

use crate::kinds::ItemKind;
use model::Refusal;

// Whether an item is a use.
fn is_use(item: &[u8; 16]) -> bool
    ensures { result ≡ is_use (event_in item.now) }
{
    matches!(ItemKind::of(item[0]), Some(ItemKind::Used))
}

// Two bytes as a number, low byte first.
fn two(low: u8, high: u8) -> u32
    ensures { result ≡ low_first (low ∷ high ∷ []) }
{
    u32::from(u16::from_le_bytes([low, high]))
}

// How many items are uses. A loop, since `filter` and `count` were tried and take twice its instructions.
fn count_of(items: &[[u8; 16]]) -> usize
    ensures { result ≡ count_of (events_in items.now) }
{
    let mut count = 0;
    for item in items {
        if is_use(item) {
            count += 1;
        }
    }
    count
}

// Writes the eight numbers of an item that is a use to the list from `at` on. All are read before the first is written, so that four of
// them are written at once; one by one they take a quarter more time. An array of eight and `copy_from_slice` were tried, and take a
// quarter more instructions.
fn put_use(item: &[u8; 16], list: &mut [u32], at: usize)
    requires { at + 8 ≤ length list.old }
    ensures { list.new ≡ sets list.old at (numbers_of (use_bytes item.now)) }
{
    let index = u32::from_le_bytes([item[1], item[2], item[3], item[4]]);
    let mips = u32::from(item[5]);
    let layers = two(item[6], item[7]);
    let mip_start = u32::from(item[8]);
    let mip_end = u32::from(item[9]);
    let layer_start = two(item[10], item[11]);
    let layer_end = two(item[12], item[13]);
    let state = two(item[14], item[15]);
    list[at] = index;
    list[at + 1] = mips;
    list[at + 2] = layers;
    list[at + 3] = mip_start;
    list[at + 4] = mip_end;
    list[at + 5] = layer_start;
    list[at + 6] = layer_end;
    list[at + 7] = state;
}

// Lists the uses of a plan, in its order. They are counted first, so that nothing is written where there is no room for all.
pub fn uses(items: &[u8], list: &mut [u32]) -> Result<usize, Refusal>
    ensures { UsesListed items.now list.old result list.new }
{
    let (items, _) = items.as_chunks::<16>();
    let count = count_of(items);
    if list.len() / 8 < count {
        return Err(Refusal::NoFreeEntry);
    }
    let mut at = 0;
    for item in items {
        if is_use(item) {
            put_use(item, list, at);
            at += 8;
        }
    }
    Ok(count)
}
