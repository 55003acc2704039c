// Usage: states of sixteen bits, and the rules that make one of two (the Rust's mod.rs, and the state rules of texture.rs).
//
// Place in the picture: a leaf over `model`. `texture_mips` and `texture_merge` unite states with it, `set_wellformed` and the public calls
// test them. It knows of no texture, range or log, so that buffers can use it as it stands.
//
// What holds of every function: a state is any u32, the usage flags are any, and the answer equals a definition, the model's where it has
// one; nothing is required, and a table that is handed in is by its type the one that counts bits. The definitions count sixteen bits, so
// `one_bit` looks at the low sixteen. specs/StateLaws has that wgpu-core's test is 01's, Ones the table's rule, Gathered how the states of
// a set are tested together, BitLaws and CountLaws laws on bits and on counts of them.
#![tactic(auto)]

pub mod flags;
pub mod table;
pub mod united;

ghost use Rattle.std.specs.Prelude.{◌≡◌, eqb};
ghost use Rattle.std.specs.Int.Bits.{bit_or};
ghost use Rattle.model.specs.Flags.{meets as meets_of, incompatible as incompatible_of};
ghost use Rattle.model.specs.StateRules.{skip_barrier, less as less_of};
ghost use Rattle.usage.specs.Gathered.{exclusive_part};

pub use flags::{flags_fit, flags_fit_by, state_reserved};
use model::UsageFlags;
pub use table::{OnesTable, one_bit};
pub use united::{unite, unite_known};

// Whether two states share a bit.
pub fn meets(a: u32, b: u32) -> bool
    ensures { result ≡ meets_of a b }
{
    (a & b) != 0
}

// `invalid_resource_state`: the state meets EXCLUSIVE and has other than one bit set. The branch saves the table where it does not meet it.
pub fn incompatible(p: UsageFlags, s: u32) -> bool
    ensures { result ≡ incompatible_of p s }
{
    meets(s, p.exclusive) && !one_bit(s)
}

// What a state adds to the union of those that meet EXCLUSIVE: where that union has at most one bit, each of them has one.
pub fn exclusive_part(p: UsageFlags, s: u32) -> u32
    ensures { result ≡ exclusive_part p s }
{
    if meets(s, p.exclusive) { s } else { 0 }
}

// `skip_barrier`: old equals new and the mask contains old.
pub fn skips(mask: u32, old: u32, new: u32) -> bool
    ensures { result ≡ skip_barrier mask old new }
{
    old == new && (mask & old) == old
}

// All bits of both states.
pub fn union(a: u32, b: u32) -> u32
    ensures { result ≡ bit_or a b }
{
    a | b
}

// The state without some bits.
pub fn less(bits: u32, s: u32) -> u32
    ensures { result ≡ less_of bits s }
{
    s - (bits & s)
}

// Whether a state is exactly UNKNOWN: beside another bit UNKNOWN is an ordinary one.
pub fn is_unknown(p: UsageFlags, s: u32) -> bool
    ensures { result ≡ eqb s p.unknown }
{
    s == p.unknown
}
