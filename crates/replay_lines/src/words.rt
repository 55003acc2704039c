// A line as its bytes come in, and its words, read in turn. What a line lacks reads as 0.
//
// Each word is kept as a number: a number as itself, any other by its first byte and its length, which tells the words of a line apart.
ghost use Rattle.std.specs.Prelude.{ℕ, ◌≡◌, ◌+◌, ◌≤◌, length, IfOk, vec_len};

use crate::sets::{Rooms, SetId};
use model::{Extent, LogHead, Selector, TrackerIndex, UsageFlags};
use std::alloc::{AllocError, Global};
use std::marker::PhantomData;
use std::str::SplitWhitespace;

// The words of the language: 256 f + n, where f is the first byte and n the length.
pub const CASE: u32 = 25348;

pub const PUT: u32 = 28675;

pub const POKE: u32 = 28676;

pub const ROOM: u32 = 29188;

pub const LOG: u32 = 27651;

pub const ISOLATE: u32 = 26887;

pub const COALESCE: u32 = 25352;

pub const ITER_FILTER: u32 = 26891;

pub const OPEN_SCOPE: u32 = 28426;

pub const OPEN_TRACKER: u32 = 28428;

pub const MERGE_SINGLE: u32 = 27916;

pub const MERGE_USAGE_SCOPE: u32 = 27921;

pub const SET_SINGLE: u32 = 29450;

pub const SET_FROM_USAGE_SCOPE: u32 = 29460;

pub const SET_FROM_TRACKER: u32 = 29456;

pub const SPARSE: u32 = 29478;

pub const EMPTY_LOG: u32 = 25865;

pub const MERGE_LOGS: u32 = 27914;

pub const READ_PLAN: u32 = 29193;

pub const WRITE_PLAN: u32 = 30474;

pub const PLAN_USES: u32 = 28681;

pub const SINGLE: u32 = 29446;

pub const TABLE: u32 = 29701;

pub const START: u32 = 29445;

// How many words of a line are kept; it may have more.
const MOST: usize = 65536;

// Room for the words of a line.
pub fn room(alloc: Global) -> Result<Vec<u32>, AllocError> {
    vec![in alloc; 0; MOST]
}

// What is known of a line so far: how many words are stored, the value of the one that is being read, and 1 if it has begun. (As a `bool`
// this is slower.)
#[derive(Clone, Copy)]
pub struct Line {
    count: usize,
    value: u32,
    begun: u32,
}

impl Line {
    // A line of which nothing was read.
    pub const NEW: Line = Line {
        count: 0,
        value: 0,
        begun: 0,
    };

    // The line with one byte more: a digit of a number, modulo 2^32, since no number needs more; the end of a word, which is stored if
    // there is room; or the first byte of a word, or a further one. Digits are met most.
    #[inline(always)]
    pub fn take(self, b: u8, words: &mut [u32]) -> Line {
        let digit = b.wrapping_sub(b'0');
        if digit < 10 {
            return self.within(self.value.wrapping_mul(10).wrapping_add(u32::from(digit)));
        }
        if b == b' ' || b == b'\n' {
            return self.ended(words);
        }
        if self.begun == 0 {
            return self.within(u32::from(b) * 256 + 1);
        }
        self.within(if self.value < 65535 {
            self.value + 1
        } else {
            self.value
        })
    }

    // The line in a word of this value.
    #[inline(always)]
    fn within(self, value: u32) -> Line {
        Line {
            count: self.count,
            value,
            begun: 1,
        }
    }

    // The line behind a word, if one had begun.
    #[inline(always)]
    fn ended(self, words: &mut [u32]) -> Line {
        let mut count = self.count;
        if self.begun != 0 && count < words.len() {
            words[count] = self.value;
            count += 1;
        }
        Line { count, ..Line::NEW }
    }

    // The words that are stored.
    #[inline(always)]
    pub fn words(self, words: &[u32]) -> Kept<'_> {
        Words {
            rest: words.get(..self.count).unwrap_or(words),
            line: PhantomData,
        }
    }
}

// What words are read from.
pub trait Source {
    // how many are left, as far as that is counted: a text's are not, and its is 0
    ghost left: { Self → ℕ };

    // The next word as a number, if there is one.
    fn next_number(&mut self) -> Option<u32>
        ensures { left self.old ≤ left self.new + 1 };
}

// Words as they are kept.
impl Source for &[u32] {
    ghost left = { λ s. length s.now };

    #[inline(always)]
    fn next_number(&mut self) -> Option<u32> {
        let (first, rest) = self.split_first()?;
        *self = rest;
        Some(*first)
    }
}

// A text. Each of its words is the number as which it would be kept.
impl Source for SplitWhitespace<'_> {
    ghost left = { λ _. 0 };

    fn next_number(&mut self) -> Option<u32> {
        let word = self.next()?;
        Some(value(word))
    }
}

// The number as which a word would be kept.
fn value(word: &str) -> u32 {
    word.bytes()
        .fold(Line::NEW, |line, b| line.take(b, &mut []))
        .value
}

// The words of a line, read in turn: those of a text, where no source is named. `line` says that they are borrowed; a source need not.
#[derive(Drop)]
pub struct Words<'a, S = SplitWhitespace<'a>> {
    rest: S,
    line: PhantomData<&'a ()>,
}

// The words of a line as `Line` keeps them.
pub type Kept<'a> = Words<'a, &'a [u32]>;

impl<'a> Words<'a> {
    // The words of a text.
    pub fn new(line: &'a str) -> Words<'a> {
        Words {
            rest: line.split_whitespace(),
            line: PhantomData,
        }
    }

    // The next word, empty at the end of the line.
    pub fn word(&mut self) -> &'a str {
        self.rest.next().unwrap_or("")
    }

    // All numbers that follow.
    pub fn all_numbers(self, alloc: Global) -> Result<Vec<u32>, AllocError> {
        self.rest.map(value).collect(alloc)
    }
}

impl<'a> Words<'a, &'a [u32]> {
    // All numbers that follow.
    pub fn all_kept(self) -> &'a [u32] {
        self.rest
    }
}

impl<'a, S: Source> Words<'a, S> {
    // The next number, if there is one.
    #[inline(always)]
    fn next_number(&mut self) -> Option<u32>
        ensures { S.left self.old.rest ≤ S.left self.new.rest + 1 }
    {
        self.rest.next_number()
    }

    #[inline(always)]
    pub fn number(&mut self) -> u32
        ensures { S.left self.old.rest ≤ S.left self.new.rest + 1 }
    {
        self.next_number().unwrap_or(0)
    }

    // The next number as a count, a position or a size.
    #[inline(always)]
    pub fn size(&mut self) -> usize {
        self.number() as usize
    }

    // The next n numbers.
    pub fn numbers(&mut self, n: usize, alloc: Global) -> Result<Vec<u32>, AllocError>
        ensures { IfOk result (λ v. vec_len v ≡ n) }
    {
        (0..n).map(|_| self.number()).collect(alloc)
    }

    // The next n numbers, of which only the low bytes are read.
    pub fn bytes(&mut self, n: usize, alloc: Global) -> Result<Vec<u8>, AllocError>
        ensures { IfOk result (λ v. vec_len v ≡ n) }
    {
        (0..n).map(|_| (self.number() & 0xff) as u8).collect(alloc)
    }

    // SET.
    #[inline(always)]
    pub fn set(&mut self) -> SetId {
        SetId::nearest(self.size())
    }

    // ROOM [ROOM].
    #[inline(always)]
    pub fn rooms(&mut self) -> Rooms {
        Rooms {
            starts: self.size(),
            ends: self.size(),
        }
    }

    // WRITTEN FREE.
    #[inline(always)]
    pub fn head(&mut self) -> LogHead {
        LogHead {
            written: self.size(),
            free: self.size(),
        }
    }

    // FLAGS.
    pub fn flags(&mut self) -> UsageFlags {
        UsageFlags {
            exclusive: self.number(),
            uninitialized: self.number(),
            complex: self.number(),
            unknown: self.number(),
        }
    }

    // STATE, which has 16 bits.
    #[inline(always)]
    pub fn state(&mut self) -> u16 {
        (self.number() & 0xffff) as u16
    }

    // INDEX.
    pub fn index(&mut self) -> TrackerIndex {
        TrackerIndex(self.number())
    }

    // MIPS LAYERS.
    pub fn extent(&mut self) -> Extent {
        Extent {
            mips: self.number(),
            layers: self.number(),
        }
    }

    // SELECTOR, if the line has one.
    pub fn selector(&mut self) -> Option<Selector> {
        let mip_start = self.next_number()?;
        let mip_end = self.next_number()?;
        let layer_start = self.next_number()?;
        let layer_end = self.next_number()?;
        Some(Selector::new(mip_start, mip_end, layer_start, layer_end))
    }
}
