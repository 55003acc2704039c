// Answers, as oracle/README.md says them.
ghost use Rattle.std.specs.Prelude.{◌<◌, ◌≤◌};

use crate::sets::{Half, Kind, Place, SetId, Sets};
use model::{Conflict, LogHead, Refusal};
use set_storage::{COMPLEX, LAYERS, MIPS, OWNED, TEXTURES};
use std::alloc::{AllocError, Global};
use std::fmt::Display;
use std::io::{BufWriter, StdoutLock, Write};
use std::{fmt, io};

// How many bytes go out at once, and room for as many and a number after them.
const ROOM: usize = 65536;

type Bytes = [u8; 65547];

// Where answers go: the bytes that wait, how many they are, and what they are written to. None is written again after a write that failed.
#[derive(Drop)]
pub struct Out {
    bytes: Box<Bytes>,
    used: usize,
    to: StdoutLock<'static>,
    ghost fits: { used < 65536 },
}

impl Out {
    pub fn new(to: StdoutLock<'static>, alloc: Global) -> Result<Out, AllocError> {
        Ok(Out {
            bytes: Box::new(alloc, [0; 65547])?,
            used: 0,
            to,
        })
    }

    // Numbers, each after a space.
    pub fn numbers(&mut self, numbers: &[u32]) -> io::Result<()> {
        Answers::numbers(self, numbers)
    }

    // A number after a space.
    #[inline(always)]
    pub fn number(&mut self, n: u32) -> io::Result<()> {
        Answers::number(self, n)
    }

    // Of the bytes that wait those that go out at once; the others come to the front.
    fn send(&mut self, used: usize) -> io::Result<()>
        requires { (65536 ≤ used) × (used ≤ 65547) }
    {
        self.used = 0;
        self.to.write_all(&self.bytes[..ROOM])?;
        for i in ROOM..used {
            self.bytes[i - ROOM] = self.bytes[i];
        }
        self.used = used - ROOM;
        Ok(())
    }
}

// How many digits a number has.
#[inline(always)]
fn width(n: u32) -> usize
    ensures { result ≤ 10 }
{
    match n {
        0..=9 => 1,
        10..=99 => 2,
        100..=999 => 3,
        1000..=9999 => 4,
        10000..=99999 => 5,
        100000..=999999 => 6,
        1000000..=9999999 => 7,
        10000000..=99999999 => 8,
        100000000..=999999999 => 9,
        _ => 10,
    }
}

// Puts a number after a space, and tells where it ends.
#[inline(always)]
fn put(bytes: &mut Bytes, at: usize, n: u32) -> usize
    requires { at < 65536 }
    ensures { result ≤ 65546 }
{
    let end = at + 1 + width(n);
    bytes[at] = b' ';
    let mut rest = n;
    for i in (at + 1..end).rev() {
        bytes[i] = b'0' + (rest % 10) as u8;
        rest /= 10;
    }
    end
}

impl Write for Out {
    fn write(&mut self, buf: &[u8]) -> io::Result<usize> {
        let from = self.used;
        let n = buf.len().min(ROOM - from);
        self.bytes[from..from + n].copy_from_slice(&buf[..n]);
        if from + n < ROOM {
            self.used = from + n;
        } else {
            self.send(from + n)?;
        }
        Ok(n)
    }

    // Nearly always there is room for all of it.
    fn write_all(&mut self, buf: &[u8]) -> io::Result<()> {
        let mut rest = buf;
        for _ in 0..=buf.len() {
            let n = self.write(rest)?;
            rest = &rest[n..];
            if rest.is_empty() {
                break;
            }
        }
        Ok(())
    }

    fn flush(&mut self) -> io::Result<()> {
        let n = self.used;
        self.used = 0;
        self.to.write_all(&self.bytes[..n])
    }
}

// Numbers, each after a space, for whatever takes text; `Out` takes them faster by itself.
#[derive(Drop)]
pub struct Numbers<'a, T>(pub &'a [T]);

impl<T: Display + Drop> Display for Numbers<'_, T> {
    fn fmt<W: fmt::Write>(&self, f: &mut fmt::Formatter<W>) -> fmt::Result {
        for n in self.0 {
            write!(f, " {n}")?;
        }
        Ok(())
    }
}

// What answers are told to. It takes text, and numbers, each after a space.
pub trait Answers: Write {
    fn number(&mut self, n: u32) -> io::Result<()>;

    fn numbers(&mut self, numbers: &[u32]) -> io::Result<()>;
}

impl Answers for Out {
    #[inline(always)]
    fn number(&mut self, n: u32) -> io::Result<()> {
        let used = put(&mut self.bytes, self.used, n);
        if used < ROOM {
            self.used = used;
            return Ok(());
        }
        self.send(used)
    }

    fn numbers(&mut self, numbers: &[u32]) -> io::Result<()> {
        for n in numbers {
            Answers::number(self, *n)?;
        }
        Ok(())
    }
}

impl Answers for BufWriter<StdoutLock<'static>> {
    fn number(&mut self, n: u32) -> io::Result<()> {
        write!(self, " {n}")
    }

    fn numbers(&mut self, numbers: &[u32]) -> io::Result<()> {
        write!(self, "{}", Numbers(numbers))
    }
}

// All numbers of a run, and the end of the line.
pub fn run<W: Answers>(out: &mut W, numbers: &[u32]) -> io::Result<()> {
    out.numbers(numbers)?;
    writeln!(out)
}

pub fn refused<W: Write>(out: &mut W, r: Refusal, kept: bool) -> io::Result<()> {
    let number = r.number();
    let place = r.place();
    let then = if kept { "kept" } else { "changed" };
    writeln!(out, "refused {number} {place} {then}")
}

// `word` and a head.
pub fn head<W: Write>(out: &mut W, word: &str, head: LogHead) -> io::Result<()> {
    writeln!(out, "{word} {} {}", head.written, head.free)
}

pub fn conflict<W: Write>(out: &mut W, c: Conflict) -> io::Result<()> {
    let index = c.index.0;
    let found = c.found;
    let mips = found.selector.mips;
    let layers = found.selector.layers;
    writeln!(
        out,
        "conflict {index} {} {} {} {} {} {}",
        mips.start.0, mips.end.0, layers.start.0, layers.end.0, found.old, found.new
    )
}

// The entries that a call wrote to a log.
pub fn transitions<W: Answers>(
    out: &mut W,
    log: &[u32],
    before: LogHead,
    after: LogHead,
) -> io::Result<()> {
    let count = after.written.saturating_sub(before.written);
    for entry in log.chunks(7).skip(before.written).take(count) {
        write!(out, "transition")?;
        run(out, entry)?;
    }
    Ok(())
}

// Every opened set.
pub fn all<W: Answers>(out: &mut W, sets: &Sets) -> io::Result<()> {
    for number in 0..4 {
        let id = SetId { number };
        if let Some(kind) = sets.get(id).kind {
            writeln!(out, "{kind} {number}")?;
            textures(out, sets, id, kind)?;
        }
    }
    Ok(())
}

// What the set owns.
fn textures<W: Answers>(out: &mut W, sets: &Sets, id: SetId, kind: Kind) -> io::Result<()> {
    let table = &sets.get(id).table;
    for index in 0..table[TEXTURES].min(64) as usize {
        if table[OWNED + index] != 0 {
            write!(
                out,
                "texture {index} {} {}",
                table[MIPS + index],
                table[LAYERS + index]
            )?;
            half(out, sets, id, Half::Start, index)?;
            if kind == Kind::Tracker {
                half(out, sets, id, Half::End, index)?;
            }
            writeln!(out)?;
        }
    }
    Ok(())
}

// single STATE | many MIP*
fn half<W: Answers>(out: &mut W, sets: &Sets, id: SetId, half: Half, index: usize) -> io::Result<()>
    requires { index < 64 }
{
    let table = &sets.get(id).table;
    let state = table[half.states() + index];
    if state != table[COMPLEX] {
        return write!(out, " single {state}");
    }
    write!(out, " many")?;
    for mip in 0..table[MIPS + index].min(16) as usize {
        mip_ranges(out, sets, id, half, Place { index, mip })?;
    }
    Ok(())
}

// MIP = COUNT RECORD*. What a half has no room for is told as it stands in the store after it.
fn mip_ranges<W: Answers>(
    out: &mut W,
    sets: &Sets,
    id: SetId,
    half: Half,
    place: Place,
) -> io::Result<()> {
    let table = &sets.get(id).table;
    let count = table[place.count_at(half)].min(256) as usize;
    let first = place.ranges_at(table);
    out.number(count as u32)?;
    if let Some(numbers) = sets.get(id).ranges(half).get(first..first + 3 * count) {
        return out.numbers(numbers);
    }
    let from = id.half_at(half) + first;
    for i in 0..3 * count {
        out.number(sets.number_at(from + i))?;
    }
    Ok(())
}
