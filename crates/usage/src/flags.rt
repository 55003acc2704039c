// The rule of the usage flags, and what of a state the flags alone decide.
ghost use Rattle.std.specs.Prelude.{◌≡◌};
ghost use Rattle.model.specs.Flags.{is_bit, apart as apart_of, flags_fit};
ghost use Rattle.model.specs.Refusals.{state_reserved};

use crate::{OnesTable, meets};
use model::UsageFlags;

// Whether a state of sixteen bits has one of them set.
fn is_bit(ones: &OnesTable, s: u32) -> bool
    ensures { result ≡ is_bit s }
{
    ones.one_bit(s) & (s < 65536)
}

// All of the flags' rule but for UNKNOWN's own bit.
fn apart(ones: &OnesTable, p: UsageFlags) -> bool
    ensures { result ≡ apart_of p }
{
    (p.exclusive < 65536)
        & is_bit(ones, p.uninitialized)
        & is_bit(ones, p.complex)
        & (p.uninitialized != p.complex)
        & (p.uninitialized != p.unknown)
        & (p.complex != p.unknown)
        & !meets(p.complex, p.exclusive)
        & !meets(p.unknown, p.exclusive)
}

// 01, check 2: EXCLUSIVE is a mask, the others one bit each, all different, COMPLEX and UNKNOWN outside EXCLUSIVE.
pub fn flags_fit(p: UsageFlags) -> bool
    ensures { result ≡ flags_fit p }
{
    flags_fit_by(&OnesTable::new(), p)
}

// The same by a table that the caller has.
pub fn flags_fit_by(ones: &OnesTable, p: UsageFlags) -> bool
    ensures { result ≡ flags_fit p }
{
    is_bit(ones, p.unknown) & apart(ones, p)
}

// 01, check 12: the state is zero or has UNKNOWN or COMPLEX. (Check 13 is `incompatible`.)
pub fn state_reserved(p: UsageFlags, st: u32) -> bool
    ensures { result ≡ state_reserved p st }
{
    st == 0 || meets(st, p.unknown) || meets(st, p.complex)
}
