// Writing. A group's length stands before what it holds, so a list is gone through from its last item to its first.
ghost use Rattle.std.specs.Prelude.{◌≡◌, ◌+◌, ◌<◌, ◌++◌, ltb, length};
ghost use Rattle.plan_file.specs.Items.{events_in, use_bytes};
ghost use Rattle.plan_file.specs.Kinds.{tag_byte};
ghost use Rattle.plan_file.specs.Write.{head, widest};
ghost use Rattle.plan_file.specs.Writing.{put_at, judged, Fine, Laid, PlanWritten};

use crate::kinds::{ItemKind, Tag};
use model::Refusal;

// How many bytes a list makes, if it is balanced and not too deep: 24, then 23.
fn weigh(items: &[[u8; 16]]) -> Result<usize, Refusal>
    ensures { result ≡ judged (events_in items.now) }
{
    let mut level: usize = 0;
    let mut deepest: usize = 0;
    let mut total: usize = 0;
    for item in items.iter().rev() {
        match ItemKind::of(item[0]) {
            Some(ItemKind::Opened) => {
                level = level.checked_sub(1).ok_or(Refusal::PlanUnbalanced)?;
                total += 3;
            }
            Some(ItemKind::Used) => total += 18,
            Some(ItemKind::Closed) => {
                level += 1;
                deepest = deepest.max(level);
            }
            None => return Err(Refusal::PlanUnbalanced),
        }
    }
    if level != 0 {
        return Err(Refusal::PlanUnbalanced);
    }
    if 8 < deepest {
        return Err(Refusal::GroupsTooDeep);
    }
    Ok(total)
}

// Writes bytes at p, if they fit.
fn put_at(file: &mut [u8], p: usize, part: &[u8])
    requires { p + length part.now < 18446744073709551616 }
    ensures { file.new ≡ put_at p part.now file.old }
{
    let end = p + part.len();
    if end <= file.len() {
        file[p..end].copy_from_slice(part);
    }
}

// The tag and the length of a field.
fn head(tag: Tag, n: usize) -> [u8; 3]
    ensures { result ≡ head (tag_byte tag) n }
{
    let [low, high, ..] = n.to_le_bytes();
    [tag.byte(), low, high]
}

// The field of a use, put together before it is written: so the compiler moves it as words.
fn use_field(item: &[u8; 16]) -> [u8; 18]
    ensures { result ≡ head 2 15 ++ use_bytes item.now }
{
    let mut field = [0u8; 18];
    field[..3].copy_from_slice(&head(Tag::Use, 15));
    field[3..].copy_from_slice(&item[1..]);
    field
}

// Lays out the items, which make `total` bytes, from the last to the first, and returns how many bytes the longest group holds. A part that
// has no room is left out.
fn lay(items: &[[u8; 16]], total: usize, file: &mut [u8]) -> usize
    requires { Fine (events_in items.now) total }
    ensures { Laid (events_in items.now) total file.old result file.new }
{
    // Where the open groups end. There is no heap, and no more than eight are open.
    let mut ends = [0usize; 8];
    let mut level: usize = 0;
    let mut p = total;
    let mut longest: usize = 0;
    for item in items.iter().rev() {
        match ItemKind::of(item[0]) {
            Some(ItemKind::Opened) => {
                level -= 1;
                let size = ends[level] - p;
                p -= 3;
                put_at(file, p, &head(Tag::Group, size));
                longest = longest.max(size);
            }
            Some(ItemKind::Used) => {
                p -= 18;
                put_at(file, p, &use_field(item));
            }
            Some(ItemKind::Closed) => {
                ends[level] = p;
                level += 1;
            }
            None => unreachable!(),
        }
    }
    longest
}

// Whether a group holds more than 65,535 bytes: none does in a file of at most 65,538.
fn too_long(items: &[[u8; 16]], total: usize) -> bool
    requires { Fine (events_in items.now) total }
    ensures { result ≡ ltb 65535 (widest (events_in items.now)) }
{
    if total <= 65538 {
        return false;
    }
    65535 < lay(items, total, &mut [])
}

// Writes the list of items into the borrowed file, once it is judged and measured.
pub fn write(items: &[u8], file: &mut [u8]) -> Result<usize, Refusal>
    ensures { PlanWritten items.now file.old result file.new }
{
    let (items, _) = items.as_chunks::<16>();
    let total = weigh(items)?;
    if too_long(items, total) {
        return Err(Refusal::GroupTooLong);
    }
    if file.len() < total {
        return Err(Refusal::NoFreeEntry);
    }
    lay(items, total, file);
    Ok(total)
}
