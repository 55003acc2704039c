// The four sets between calls, and what of them is lent to a call.
//
// A call works on copies: they are lent before it, and saved after it, or compared where it was refused. A line that puts or pokes numbers,
// or tells ranges, sees the sets as one store, a part for each, one after the other: the table, then the ranges of the halves.
ghost use Rattle.std.specs.Prelude.{◌≡◌, ◌<◌, ◌≤◌, min, OnOk, None};

use model::LogHead;
use set_storage::{COUNTS, END, LAYER_LIMIT, MIP_LIMIT, START, TABLE_LENGTH, TEXTURES, Table};
use std::alloc::{AllocError, Global};
use std::fmt;
use std::fmt::Display;

// Room for 4,096 ranges a half.
const ROOM: usize = 12288;

// How many numbers a set has.
const PART: usize = 26952;

// The number of a set.
#[derive(Clone, Copy, PartialEq, Eq)]
pub struct SetId {
    pub number: usize,
    ghost is_set: { number < 4 },
}

impl SetId {
    // The set of this number; past the last one, the last.
    pub fn nearest(number: usize) -> SetId
        ensures { result.number ≡ min number 3 }
    {
        SetId {
            number: number.min(3),
        }
    }

    // Another set, the first that there is.
    pub fn other(self) -> SetId {
        SetId {
            number: usize::from(self.number == 0),
        }
    }

    // Where the table of the set begins in the store.
    pub fn table_at(self) -> usize
        ensures { result ≤ 80856 }
    {
        PART * self.number
    }

    // Where the ranges of a half begin in the store.
    pub fn half_at(self, half: Half) -> usize
        ensures { result ≤ 95520 }
    {
        let first = self.table_at() + TABLE_LENGTH;
        match half {
            Half::Start => first,
            Half::End => first + ROOM,
        }
    }
}

#[derive(Clone, Copy, PartialEq, Eq)]
pub enum Kind {
    Scope,
    Tracker,
}

impl Display for Kind {
    fn fmt<W: fmt::Write>(&self, f: &mut fmt::Formatter<W>) -> fmt::Result {
        match self {
            Kind::Scope => write!(f, "scope"),
            Kind::Tracker => write!(f, "tracker"),
        }
    }
}

// Half of a set's states: a tracker's start or its end; a scope has the first alone.
#[derive(Clone, Copy)]
pub enum Half {
    Start,
    End,
}

impl Half {
    // Where the half's states begin in the table.
    pub fn states(self) -> usize
        ensures { result ≤ 1288 }
    {
        match self {
            Half::Start => START,
            Half::End => END,
        }
    }
}

// A mip of a texture.
#[derive(Clone, Copy)]
pub struct Place {
    pub index: usize,
    pub mip: usize,
    ghost is_index: { index < 64 },
    ghost is_mip: { mip < 16 },
}

impl Place {
    // Where the table has how many ranges the mip has.
    pub fn count_at(self, half: Half) -> usize
        ensures { result < 2376 }
    {
        half.states() + COUNTS + 16 * self.index + self.mip
    }

    // Where its ranges begin in the ranges of a half: 3 W (index M + mip).
    pub fn ranges_at(self, table: &Table) -> usize
        ensures { result ≤ 785664 }
    {
        let mips = table[MIP_LIMIT].min(16) as usize;
        let layers = table[LAYER_LIMIT].min(256) as usize;
        let row = self.index * mips + self.mip;
        3 * (layers * row)
    }
}

// How many numbers of the ranges of each half are lent.
#[derive(Clone, Copy)]
pub struct Rooms {
    pub starts: usize,
    pub ends: usize,
}

// A set: what it is once it is opened, and its numbers; or the copy of them that a call is lent.
#[derive(Drop)]
pub struct Set {
    pub kind: Option<Kind>,
    pub rooms: Rooms,
    pub table: Box<Table>,
    pub starts: Vec<u32>,
    pub ends: Vec<u32>,
}

impl Set {
    pub fn new(alloc: Global) -> Result<Set, AllocError> {
        Ok(Set {
            kind: None,
            rooms: Rooms { starts: 0, ends: 0 },
            table: Box::new(alloc, [0; TABLE_LENGTH])?,
            starts: vec![in alloc; 0; ROOM]?,
            ends: vec![in alloc; 0; ROOM]?,
        })
    }

    // Makes `copy` a copy, with as much of the ranges as is lent.
    pub fn lend(&self, copy: &mut Set) -> Result<(), AllocError>
        ensures kind { OnOk result (copy.new.kind ≡ self.now.kind) }
        ensures rooms { OnOk result (copy.new.rooms ≡ self.now.rooms) }
    {
        self.lend_as(self.kind, self.rooms, copy)
    }

    // The copy that an opening is lent: what the set is from then on, with its rooms.
    pub fn lend_as(
        &self,
        kind: Option<Kind>,
        rooms: Rooms,
        copy: &mut Set,
    ) -> Result<(), AllocError>
        ensures kind { OnOk result (copy.new.kind ≡ kind) }
        ensures rooms { OnOk result (copy.new.rooms ≡ rooms) }
    {
        copy.kind = kind;
        copy.rooms = rooms;
        *copy.table = *self.table;
        refill(&mut copy.starts, prefix(&self.starts, rooms.starts))?;
        refill(&mut copy.ends, prefix(&self.ends, rooms.ends))
    }

    // What a call that only reads the set is lent of its ranges.
    pub fn lent_ranges(&self, half: Half) -> &[u32] {
        match half {
            Half::Start => prefix(&self.starts, self.rooms.starts),
            Half::End => prefix(&self.ends, self.rooms.ends),
        }
    }

    // All ranges of a half.
    pub fn ranges(&self, half: Half) -> &[u32] {
        match half {
            Half::Start => &self.starts,
            Half::End => &self.ends,
        }
    }

    // The number at a place of the set's part, or 0.
    fn number_at(&self, place: usize) -> u32 {
        if place < TABLE_LENGTH {
            return self.table[place];
        }
        let after = place - TABLE_LENGTH;
        if after < ROOM {
            return at(&self.starts, after);
        }
        at(&self.ends, after - ROOM)
    }

    // Writes x at a place of the set's part.
    fn write(&mut self, place: usize, x: u32) {
        if place < TABLE_LENGTH {
            self.table[place] = x;
            return;
        }
        let after = place - TABLE_LENGTH;
        if after < ROOM {
            put(&mut self.starts, after, x);
        } else {
            put(&mut self.ends, after - ROOM, x);
        }
    }

    // Takes over what a call made of its copy.
    pub fn save(&mut self, copy: &Set)
        ensures kind { self.new.kind ≡ copy.now.kind }
        ensures rooms { self.new.rooms ≡ copy.now.rooms }
    {
        self.kind = copy.kind;
        self.rooms = copy.rooms;
        *self.table = *copy.table;
        overwrite(&mut self.starts, &copy.starts);
        overwrite(&mut self.ends, &copy.ends);
    }

    // Whether a call left its copy as it was.
    pub fn is_kept(&self, copy: &Set) -> bool {
        *self.table == *copy.table
            && self.starts.starts_with(&copy.starts)
            && self.ends.starts_with(&copy.ends)
    }

    // How many subresources the set has.
    pub fn subresources(&self) -> u32
        ensures { result ≤ 262144 }
    {
        let table = &self.table;
        let rows = table[TEXTURES].min(64) * table[MIP_LIMIT].min(16);
        rows * table[LAYER_LIMIT].min(256)
    }
}

// The number at i, or 0.
fn at(run: &[u32], i: usize) -> u32 {
    run.get(i).copied().unwrap_or(0)
}

// Writes x at i, if there is room.
fn put(run: &mut [u32], i: usize, x: u32) {
    if let Some(number) = run.get_mut(i) {
        *number = x;
    }
}

// The first n numbers, or all.
fn prefix(s: &[u32], n: usize) -> &[u32] {
    s.get(..n).unwrap_or(s)
}

// Makes a run these numbers.
fn refill(run: &mut Vec<u32>, numbers: &[u32]) -> Result<(), AllocError> {
    run.clear();
    run.extend_from_slice(numbers)
}

// Writes numbers over the first of a run.
fn overwrite(run: &mut [u32], numbers: &[u32]) {
    if let Some(first) = run.get_mut(..numbers.len()) {
        first.copy_from_slice(numbers);
    }
}

// What a `log` line says of the log that the next call is lent.
#[derive(Clone, Copy)]
pub struct LentLog {
    pub head: LogHead,
    pub room: usize,
}

// The sets, and the log of the next call if a line told it.
#[derive(Drop)]
pub struct Sets {
    pub sets: [Set; 4],
    pub log: Option<LentLog>,
}

impl Sets {
    pub fn new(alloc: Global) -> Result<Sets, AllocError> {
        let sets = [
            Set::new(alloc)?,
            Set::new(alloc)?,
            Set::new(alloc)?,
            Set::new(alloc)?,
        ];
        Ok(Sets { sets, log: None })
    }

    pub fn get(&self, id: SetId) -> &Set {
        &self.sets[id.number]
    }

    pub fn get_mut(&mut self, id: SetId) -> &mut Set {
        &mut self.sets[id.number]
    }

    // The number at a place of the store, or 0.
    pub fn number_at(&self, place: usize) -> u32 {
        let Some(set) = self.sets.get(place / PART) else {
            return 0;
        };
        set.number_at(place % PART)
    }

    // Writes x at a place of the store, if there is one.
    pub fn write(&mut self, place: usize, x: u32) {
        if let Some(set) = self.sets.get_mut(place / PART) {
            set.write(place % PART, x);
        }
    }

    // No set is opened, and no log is lent. The numbers stay.
    pub fn forget(&mut self)
        ensures { self.new.log ≡ None }
    {
        for set in self.sets.iter_mut() {
            set.kind = None;
        }
        self.log = None;
    }
}
