// The calls on ranged states: the storage filled as the line says, the call made and told.
ghost use Rattle.std.specs.Prelude.{◌≤◌};

use crate::tell;
use crate::tell::{Answers, run};
use crate::words::{Source, Words};
use std::alloc::{AllocError, Global};
use std::io;
use std::io::Write;

// How many records a call is lent at most: the stored calls ask for no more.
const MOST: usize = 341;

// LENT.
fn lent<S: Source>(words: &mut Words<'_, S>) -> usize
    ensures { result ≤ 341 }
{
    words.size().min(MOST)
}

// As many records as are lent: those in use as the line has them, then such as tell their places.
fn records<S: Source>(
    words: &mut Words<'_, S>,
    lent: usize,
    in_use: usize,
    alloc: Global,
) -> Result<Vec<u32>, AllocError>
    requires { lent ≤ 341 }
{
    let told = in_use.min(lent);
    let mut records = words.numbers(3 * told, alloc)?;
    for k in told..lent {
        let k = k as u32;
        records.extend_from_slice(&[1000 + k, 2000 + k, 3000 + k])?;
    }
    Ok(records)
}

// isolate START END DEFAULT LENGTH LENT RECORD*
//
// Here as below, what is refused is kept: the contracts of `range_calls`.
pub fn isolate<S: Source, W: Answers>(
    words: &mut Words<'_, S>,
    out: &mut W,
    alloc: Global,
) -> io::Result<()> {
    let start = words.number();
    let end = words.number();
    let default = words.number();
    let in_use = words.size();
    let lent = lent(words);
    let mut s = records(words, lent, in_use, alloc)?;
    match range_calls::isolate(&mut s, in_use, start, end, default) {
        Err(r) => tell::refused(out, r, true),
        Ok(i) => {
            write!(out, "isolated {} {} {}", i.position, i.count, i.told)?;
            run(out, &s)
        }
    }
}

// coalesce LENGTH LENT RECORD*
pub fn coalesce<S: Source, W: Answers>(
    words: &mut Words<'_, S>,
    out: &mut W,
    alloc: Global,
) -> io::Result<()> {
    let in_use = words.size();
    let lent = lent(words);
    let mut s = records(words, lent, in_use, alloc)?;
    match range_calls::coalesce(&mut s, in_use) {
        Err(r) => tell::refused(out, r, true),
        Ok(n) => {
            write!(out, "coalesced {n}")?;
            run(out, &s)
        }
    }
}

// iter_filter START END LENGTH LENT LENTOUT RECORD*
pub fn iter_filter<S: Source, W: Answers>(
    words: &mut Words<'_, S>,
    out: &mut W,
    alloc: Global,
) -> io::Result<()> {
    let start = words.number();
    let end = words.number();
    let in_use = words.size();
    let given = lent(words);
    let room = lent(words);
    let s = records(words, given, in_use, alloc)?;
    let mut found = records(words, room, 0, alloc)?;
    match range_calls::iter_filter(&s, in_use, start, end, &mut found) {
        Err(r) => tell::refused(out, r, true),
        Ok(n) => {
            write!(out, "filtered {n}")?;
            run(out, &found)
        }
    }
}
