// Model: what the tracker is, before how it is stored.
//
// This crate is the root of the picture. Its plain values, below, are shared by the code of every other crate and by the definitions in
// specs/, so that a contract and a definition speak of the same thing. specs/ says what each call means, in the order that
// docs/ARCHITECTURE.md gives; the code of the other crates is proved equal to it, and crate `agreement` proves what holds of it.
//
// BoolLaws, ListLaws, CheckLaws and RangeLaws hold laws of tests, lists, checks and ranges that every other crate cites; Prelude passes on
// names of the libraries.
//
// A usage state is a number of 16 bits, here in a u32. A tracker index, a mip and a layer are kept apart by their types.
#![tactic(auto)]

ghost use Rattle.std.specs.Prelude.{◌≡◌, suc, ◌^◌, ◌<◌};
ghost use Rattle.model.specs.Refusals.{number_of, place_of};
ghost use Rattle.model.specs.Representation.{select, full as full_of};
ghost use Rattle.model.specs.declared.CallError.TheVariants.{Refused, Conflict as Conflicting};

// The position of a texture in a set: the Rust's `TrackerIndex`.
#[derive(Clone, Copy, PartialEq, Eq)]
pub struct TrackerIndex(pub u32);

// The number of a mip level.
#[derive(Clone, Copy, PartialEq, Eq)]
pub struct Mip(pub u32);

// The number of an array layer.
#[derive(Clone, Copy, PartialEq, Eq)]
pub struct Layer(pub u32);

// The constants of the Rust's `TextureUses` that the tracker reads (01: a palette). `exclusive` is a mask, the others are one bit each.
#[derive(Clone, Copy, PartialEq, Eq)]
pub struct UsageFlags {
    pub exclusive: u32,
    pub uninitialized: u32,
    pub complex: u32,
    pub unknown: u32,
}

// How many mips and layers a texture has (01: its shape).
#[derive(Clone, Copy, PartialEq, Eq)]
pub struct Extent {
    pub mips: u32,
    pub layers: u32,
}

// What lies from `start` up to, not including, `end`.
#[derive(Clone, Copy, PartialEq, Eq)]
pub struct Interval<T> {
    pub start: T,
    pub end: T,
}

// Some mips and some layers of a texture: the Rust's `TextureSelector`.
#[derive(Clone, Copy, PartialEq, Eq)]
pub struct Selector {
    pub mips: Interval<Mip>,
    pub layers: Interval<Layer>,
}

impl Selector {
    // Of the mips and layers between these bounds.
    pub fn new(mip_start: u32, mip_end: u32, layer_start: u32, layer_end: u32) -> Selector
        ensures { result ≡ select mip_start mip_end layer_start layer_end }
    {
        Selector {
            mips: Interval {
                start: Mip(mip_start),
                end: Mip(mip_end),
            },
            layers: Interval {
                start: Layer(layer_start),
                end: Layer(layer_end),
            },
        }
    }

    // Of some layers of one mip.
    pub fn on_mip(mip: u32, layer_start: u32, layer_end: u32) -> Selector
        requires { suc mip < 2 ^ 32 }
        ensures { result ≡ select mip (suc mip) layer_start layer_end }
    {
        Selector::new(mip, mip + 1, layer_start, layer_end)
    }
}

impl Extent {
    // The selector of all of a texture.
    pub fn full(self) -> Selector
        ensures { result ≡ full_of self }
    {
        Selector::new(0, self.mips, 0, self.layers)
    }
}

// One entry of ranged states (01: a strip): what lies from `start` up to, not including, `end` is in `state`.
#[derive(Clone, Copy)]
pub struct Range {
    pub start: u32,
    pub end: u32,
    pub state: u32,
}

// A log entry of seven numbers: the Rust's `PendingTransition`.
#[derive(Clone, Copy)]
pub struct PendingTransition {
    pub index: TrackerIndex,
    pub selector: Selector,
    pub old: u32,
    pub new: u32,
}

// How many entries of the lent log are written, and how many after them are free.
#[derive(Clone, Copy, PartialEq, Eq)]
pub struct LogHead {
    pub written: usize,
    pub free: usize,
}

// Two states that one subresource cannot have together, and where: the Rust's `InvalidUse` with its selector.
#[derive(Clone, Copy)]
pub struct InvalidUse {
    pub selector: Selector,
    pub old: u32,
    pub new: u32,
}

// An invalid use of a texture of a set (01: a clash): the Rust's `ResourceUsageCompatibilityError`.
#[derive(Clone, Copy)]
pub struct Conflict {
    pub index: TrackerIndex,
    pub found: InvalidUse,
}

// Why a call is turned away, one case for each number of 01's table, in its order. 10 is reserved: 16 to 19 stand in its place. Before
// 15, which is last in every call, stand 31, request 14's, and 20 to 25, request 08's.
#[derive(Clone, Copy)]
pub enum Refusal {
    NumbersOutOfLimits,
    FlagsBreakRule,
    ShortRoom,
    NotWellFormed,
    LogTooShort,
    FlagsDiffer,
    NoSuchIndex(TrackerIndex),
    ExtentOutOfLimits(TrackerIndex),
    ExtentDiffers(TrackerIndex),
    MipsEmpty,
    MipsReversed,
    LayersEmpty,
    LayersReversed,
    SelectorPastExtent,
    StateReserved,
    StateIncompatible,
    RangesOutOfOrder,
    LogOutOfOrder,
    FieldCutShort,
    UnknownTag,
    UseOfWrongSize,
    GroupsTooDeep,
    PlanUnbalanced,
    GroupTooLong,
    NoFreeEntry,
}

impl Refusal {
    // 01's number of a refusal.
    pub fn number(self) -> u32
        ensures { result ≡ number_of self }
    {
        match self {
            Refusal::NumbersOutOfLimits => 1,
            Refusal::FlagsBreakRule => 2,
            Refusal::ShortRoom => 3,
            Refusal::NotWellFormed => 4,
            Refusal::LogTooShort => 5,
            Refusal::FlagsDiffer => 6,
            Refusal::NoSuchIndex(_) => 7,
            Refusal::ExtentOutOfLimits(_) => 8,
            Refusal::ExtentDiffers(_) => 9,
            Refusal::MipsEmpty => 16,
            Refusal::MipsReversed => 17,
            Refusal::LayersEmpty => 18,
            Refusal::LayersReversed => 19,
            Refusal::SelectorPastExtent => 11,
            Refusal::StateReserved => 12,
            Refusal::StateIncompatible => 13,
            Refusal::RangesOutOfOrder => 14,
            Refusal::LogOutOfOrder => 31,
            Refusal::FieldCutShort => 20,
            Refusal::UnknownTag => 21,
            Refusal::UseOfWrongSize => 22,
            Refusal::GroupsTooDeep => 23,
            Refusal::PlanUnbalanced => 24,
            Refusal::GroupTooLong => 25,
            Refusal::NoFreeEntry => 15,
        }
    }

    // 01's place of a refusal: the index for 7 to 9, otherwise 0.
    pub fn place(self) -> u32
        ensures { result ≡ place_of self }
    {
        match self {
            Refusal::NoSuchIndex(i) | Refusal::ExtentOutOfLimits(i) | Refusal::ExtentDiffers(i) =>
                i.0,
            _ => 0,
        }
    }
}

// Why a call that merges is not done, or stopped on the way: it is refused, or it met two states that one subresource cannot have together.
#[derive(Clone, Copy)]
pub enum CallError {
    Refused(Refusal),
    Conflict(Conflict),
}

impl From<Refusal> for CallError {
    ghost from_gives = { λ r e. e ≡ Refused r };

    fn from(r: Refusal) -> CallError {
        CallError::Refused(r)
    }
}

impl From<Conflict> for CallError {
    ghost from_gives = { λ c e. e ≡ Conflicting c };

    fn from(c: Conflict) -> CallError {
        CallError::Conflict(c)
    }
}
