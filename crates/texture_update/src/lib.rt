// Texture update: `update` of texture.rs on one texture of a tracker, whose start and end lie in one table and two slices of ranges.
//
// Place in the picture: over `texture_merge`, which changes one half of a texture, and `texture_mips`, whose `learn` reads the end while
// the start changes; under the public calls of a tracker. The start's half begins at `set_storage::START`, the end's at `set_storage::END`.
//
//     using      one use of the texture, for all of it or for a selector
//     from_set   a texture of another set
//     both       one mip, or every mip, of a texture: the start learns where the end is UNKNOWN, and the end takes the new state
//     pair       one mip of both halves, as two borrowed parts
//
// What holds: a half that is Many has ranges that tile the layers, and every function requires that (`TextureHeld` of each half, in
// specs/Update: `UpdateReady` and specs/FromSet: `UpdateFromReady`). The texture becomes what the model's `update` gives, and nothing but
// its states, counts and ranges changes (specs/Both: `BothBecome`, with set_storage's `BothFrame`).
//
// `(table, starts, ends, i)` stay parameters: of a struct with `&mut` fields, each method would have to promise them back (tried).
#![tactic(auto)]

pub mod both;
pub mod from_set;
pub mod pair;
pub mod using;
