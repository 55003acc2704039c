// Reading. Both readers take how many groups may still stand one in another, and the items with the number of those already counted; they
// answer how many there are then. Depth falls from a group to what it holds. Items and number are no struct, which would be no plainer: it
// would hold a `&mut` behind a `&mut`, and each contract would name its fields.
ghost use Rattle.std.specs.Prelude.{◌≡◌, ◌∷◌, ◌+◌, ◌<◌, length, replicate, true, MatchOption};
ghost use Rattle.plan_file.specs.Kinds.{kind_byte};
ghost use Rattle.plan_file.specs.Plan.{cut_short};
ghost use Rattle.plan_file.specs.Reading.{put_item, FieldSplit, UseRead, FieldRead, GroupRead, PlanRead};

use crate::kinds::{ItemKind, Tag};
use model::Refusal;

// A field, and what follows it.
#[derive(Clone, Copy)]
struct Field<'a> {
    tag: u8,
    content: &'a [u8],
    after: &'a [u8],
}

// The field that s begins with, unless its tag and length are cut short or its length goes past s.
fn split_field(s: &[u8]) -> Option<Field<'_>>
    ensures { MatchOption result (cut_short s.now ≡ true) (λ f. FieldSplit s.now f.tag f.content.now f.after.now) }
{
    let [tag, low, high, rest @ ..] = s else {
        return None;
    };
    let n = usize::from(u16::from_le_bytes([*low, *high]));
    if rest.len() < n {
        return None;
    }
    let (content, after) = rest.split_at(n);
    Some(Field {
        tag: *tag,
        content,
        after,
    })
}

// An item of a kind, with 0 for each byte of a use.
fn bare_item(kind: ItemKind) -> [u8; 16]
    ensures { result ≡ kind_byte kind ∷ replicate 15 0 }
{
    let mut item = [0u8; 16];
    item[0] = kind.byte();
    item
}

// Writes the k-th item, if there is room for it.
fn put(items: &mut [u8], k: usize, item: [u8; 16])
    ensures { items.new ≡ put_item k item items.old }
{
    if k < items.len() / 16 {
        let at = 16 * k;
        items[at..at + 16].copy_from_slice(&item);
    }
}

// Reads a use, of which these are the bytes. The item is put together before it is written: so the compiler moves it as words.
fn read_use(content: &[u8], items: &mut [u8], k: usize) -> Result<usize, Refusal>
    requires { k + 1 < 18446744073709551616 }
    ensures { UseRead content.now k items.old result items.new }
{
    if content.len() != 15 {
        return Err(Refusal::UseOfWrongSize);
    }
    let mut item = bare_item(ItemKind::Used);
    item[1..].copy_from_slice(content);
    put(items, k, item);
    Ok(k + 1)
}

// The field reader. What a group holds goes to the group reader.
#[cycle(reading)]
fn read_field(field: Field<'_>, depth: usize, items: &mut [u8], k: usize) -> Result<usize, Refusal>
    requires { k + length field.content.now + 2 < 18446744073709551616 }
    ensures { FieldRead field.entry.tag field.entry.content.now depth k items.old result items.new }
{
    match Tag::of(field.tag) {
        Some(Tag::Use) => read_use(field.content, items, k),
        Some(Tag::Group) => {
            if depth == 0 {
                return Err(Refusal::GroupsTooDeep);
            }
            put(items, k, bare_item(ItemKind::Opened));
            let count = read_group(field.content, depth - 1, items, k + 1)?;
            put(items, count, bare_item(ItemKind::Closed));
            Ok(count + 1)
        }
        None => Err(Refusal::UnknownTag),
    }
}

// The group reader: what a group holds, or a file, field by field to the end of s.
#[cycle(reading)]
fn read_group(s: &[u8], depth: usize, items: &mut [u8], k: usize) -> Result<usize, Refusal>
    requires { k + length s.now < 18446744073709551616 }
    ensures { GroupRead s.now depth k items.old result items.new }
{
    let mut rest = s;
    let mut count = k;
    while !rest.is_empty() {
        let field = split_field(rest).ok_or(Refusal::FieldCutShort)?;
        count = read_field(field, depth, items, count)?;
        rest = field.after;
    }
    Ok(count)
}

// Reads a file into the borrowed items. First it is judged, without room for any item; only then items are written.
pub fn read(file: &[u8], items: &mut [u8]) -> Result<usize, Refusal>
    ensures { PlanRead file.now items.old result items.new }
{
    let count = read_group(file, 8, &mut [], 0)?;
    if items.len() / 16 < count {
        return Err(Refusal::NoFreeEntry);
    }
    read_group(file, 8, items, 0)
}
