// Checks over sets: 01's table from 6 to 9, for every texture that a given set owns, or for the listed ones of a scope.
//
// What holds: 7, 8 and 9 are `check_texture`'s, at the extent that the given set has. A set is looked at by ascending index, a list in
// its order, and the first check that fails is told. Of a set it is first asked whether all pass, which finds out faster.
ghost use Rattle.std.specs.Prelude.{◌≡◌, true, ◌≤◌, ◌<◌};
ghost use Rattle.model.specs.Flags.{same_flags};
ghost use Rattle.set_storage.specs.Storage.{flags_of};
ghost use Rattle.set_checks.specs.Head.{Few, BothFew};
ghost use Rattle.set_checks.specs.Sets.{owned_passes, AllPass, OwnedTold, ListedTold, SetTold, SparseTold};

use crate::{check_texture, extent_outside, other_extent};
use model::{Refusal, TrackerIndex};
use set_storage::{OWNED, TEXTURES, Table, extent_of, flags_of, wide};

// 6: whether two tables hold the same flags.
pub fn same_flags(table: &Table, given: &Table) -> bool
    ensures { result ≡ same_flags (flags_of table.now) (flags_of given.now) }
{
    flags_of(table) == flags_of(given)
}

// 7, 8, 9: a texture with the extent that the given set has, if it owns it.
#[tactic(auto, unfolding(crate::specs::Sets::owned_refusal, crate::specs::Head::texture_refusal, model::specs::Refusals::first_failing))]
pub fn check_owned(table: &Table, given: &Table, index: TrackerIndex) -> Result<(), Refusal>
    requires { Few table.now × (index.0 < 64) }
    ensures { OwnedTold table.now given.now index.0 result }
{
    let k = wide(index.0);
    if given[OWNED + k] == 0 {
        return Ok(());
    }
    check_texture(table, index, extent_of(given, k))
}

// 7, 8, 9: a listed index, which is to be below the given set's N.
#[tactic(auto, using(crate::specs::Sets::listed_in, crate::specs::Sets::listed_past))]
pub fn check_listed(table: &Table, given: &Table, index: TrackerIndex) -> Result<(), Refusal>
    requires { BothFew table.now given.now }
    ensures { ListedTold table.now given.now index.0 result }
{
    if given[TEXTURES] <= index.0 {
        return Err(Refusal::NoSuchIndex(index));
    }
    check_owned(table, given, index)
}

// Whether 8 and 9 pass at index k, with the extent that the given set has, if it owns it.
fn owned_passes(table: &Table, given: &Table, k: usize) -> bool
    requires { k < 64 }
    ensures { result ≡ owned_passes table.now given.now k }
{
    let extent = extent_of(given, k);
    (given[OWNED + k] == 0) | !(extent_outside(table, extent) | other_extent(table, k, extent))
}

// Whether they pass at every index below n, in one pass without branches, which `all` would have.
fn all_pass(table: &Table, given: &Table, n: usize) -> bool
    requires { n ≤ 64 }
    ensures { result ≡ true → AllPass table.now given.now n }
{
    let mut pass = true;
    for i in 0..n {
        pass &= owned_passes(table, given, i);
    }
    pass
}

// 7 to 9: every texture that a given set owns, ascending, up to the first that does not pass.
#[tactic(auto, using(crate::proofs::Firsts::set_passes))]
fn check_each(table: &Table, given: &Table) -> Result<(), Refusal>
    requires textures_at_bound { BothFew table.now given.now }
    requires given_value { same_flags (flags_of table.now) (flags_of given.now) ≡ true }
    ensures { SetTold table.now given.now result }
{
    for i in 0..given[TEXTURES] {
        check_owned(table, given, TrackerIndex(i))?;
    }
    Ok(())
}

// 6 to 9: every texture that a given set owns. Nearly always all pass; only where one may not are they looked at one by one.
pub fn check_set(table: &Table, given: &Table) -> Result<(), Refusal>
    requires { BothFew table.now given.now }
    ensures { SetTold table.now given.now result }
{
    if !same_flags(table, given) {
        return Err(Refusal::FlagsDiffer);
    }
    let n = given[TEXTURES];
    if table[TEXTURES] < n || !all_pass(table, given, wide(n)) {
        return check_each(table, given);
    }
    Ok(())
}

// 6 to 9: the listed textures, in list order.
#[tactic(auto, using(crate::proofs::Firsts::sparse_differs, crate::proofs::Firsts::sparse_passes))]
pub fn check_sparse(table: &Table, given: &Table, indices: &[u32]) -> Result<(), Refusal>
    requires { BothFew table.now given.now }
    ensures { SparseTold table.now given.now indices.now result }
{
    if !same_flags(table, given) {
        return Err(Refusal::FlagsDiffer);
    }
    for &i in indices {
        check_listed(table, given, TrackerIndex(i))?;
    }
    Ok(())
}
