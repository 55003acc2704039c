// Texture merge: one half of one texture of a set, in its storage: `insert` and `merge` of texture.rs, from each source.
//
// Place in the picture: over `set_storage`, which says where a texture lies, and `texture_mips`, which changes the ranges of one mip; under
// `texture_update`, which changes both halves of a tracker's texture, and the public calls.
//
//     mip        one mip: `texture_mips` is lent its ranges, and their new count is written; the conflict that a merge tells
//     every      every mip, or those of a selector, up to the first conflict
//     using      one use of the texture, of all of it or of the part that a selector names
//     doing      what is done with a piece of another set's texture
//     giving     the ranges of another set's texture, as it stands there (`Stored`), one after another
//     from_set   another set's texture: its state as a use, or its ranges
//
// `(table, ranges, half, i)` stay parameters: of a struct with `&mut` fields, each method would have to promise them back (tried).
//
// What holds: a texture's words tell its extent, and where the half is Many its ranges tile the layers; every function requires that
// (set_storage/specs/Texture: `TextureReady`, `TextureHeld`, which `UseReady`, `SetReady` and `MergeReady` extend) and keeps it. The half
// becomes what the model's definition gives (`HalfBecomes`, `MipsBecome`), a conflict is the model's (`HalfMerged`, `MipsWalked`), and no
// other number of the storage changes (`HalfFrame`, `Frame`).
#![tactic(auto)]

pub mod doing;
pub mod every;
pub mod from_set;
pub mod giving;
pub mod mip;
pub mod using;
