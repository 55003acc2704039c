// Plan files: read, written, and the uses of a list told, as the line says.
use crate::logs::Log;
use crate::tell;
use crate::tell::{Answers, run};
use crate::words::{Source, Words};
use model::Refusal;
use std::alloc::{AllocError, Global};
use std::io;
use std::io::Write;

// Room for what a line has and for what it says is lent.
const ROOM: usize = 65536;

// What byte i of borrowed memory is before a call.
fn before(i: usize) -> u8 {
    (89 + i % 11) as u8
}

// Memory of this many bytes, as it is lent.
fn lend(room: usize, alloc: Global) -> Result<Vec<u8>, AllocError> {
    (0..room.min(ROOM)).map(before).collect(alloc)
}

// Whether memory is as it was lent.
fn is_kept(memory: &[u8]) -> bool {
    memory.iter().enumerate().all(|(i, b)| *b == before(i))
}

// N BYTE*
fn given<S: Source>(words: &mut Words<'_, S>, alloc: Global) -> Result<Vec<u8>, AllocError> {
    let n = words.size();
    words.bytes(n.min(ROOM), alloc)
}

// read_plan LENT N BYTE*
pub fn read_plan<S: Source, W: Answers>(
    words: &mut Words<'_, S>,
    out: &mut W,
    alloc: Global,
) -> io::Result<()> {
    let mut items = lend(words.size(), alloc)?;
    let file = given(words, alloc)?;
    let answer = plan_file::read(&file, &mut items);
    tell_bytes(out, "read", answer, &items)
}

// write_plan LENT N BYTE*
pub fn write_plan<S: Source, W: Answers>(
    words: &mut Words<'_, S>,
    out: &mut W,
    alloc: Global,
) -> io::Result<()> {
    let mut file = lend(words.size(), alloc)?;
    let items = given(words, alloc)?;
    let answer = plan_file::write(&items, &mut file);
    tell_bytes(out, "written", answer, &file)
}

// The refusal, or the word, how many were written, and all bytes that were borrowed.
fn tell_bytes<W: Answers>(
    out: &mut W,
    word: &str,
    answer: Result<usize, Refusal>,
    bytes: &[u8],
) -> io::Result<()> {
    match answer {
        Ok(n) => {
            write!(out, "{word} {n}")?;
            for b in bytes {
                out.number(u32::from(*b))?;
            }
            writeln!(out)
        }
        Err(r) => tell::refused(out, r, is_kept(bytes)),
    }
}

// plan_uses LENT N BYTE*. The list is lent as a log is.
pub fn plan_uses<S: Source, W: Answers>(
    words: &mut Words<'_, S>,
    out: &mut W,
    list: &mut Log,
    alloc: Global,
) -> io::Result<()> {
    list.lend(list.head, words.size())?;
    let items = given(words, alloc)?;
    match plan_file::uses(&items, &mut list.numbers) {
        Ok(n) => {
            write!(out, "listed {n}")?;
            run(out, &list.numbers)
        }
        Err(r) => tell::refused(out, r, list.is_kept()),
    }
}
