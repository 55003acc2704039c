// Logs: what their numbers are before a call, whether they stay, and the merge of two logs, made and told.
ghost use Rattle.std.specs.Prelude.{◌≡◌, min, OnOk, vec_len};

use crate::tell;
use crate::tell::{Answers, run};
use crate::words::Kept;
use log_merge::{Rest, merge_at, rest_of};
use model::LogHead;
use std::alloc::{AllocError, Global};
use std::io;
use std::io::Write;

// Room for 4,096 entries.
const ROOM: usize = 28672;

// What number i of a lent log is before a call: so the entries that stand there already descend.
fn before(i: usize) -> u32 {
    90000usize.saturating_sub(i) as u32
}

// Whether the numbers are what they were.
pub fn are_kept(numbers: &[u32]) -> bool {
    numbers.iter().enumerate().all(|(i, n)| *n == before(i))
}

// A log as a call is lent it, with its head before the call.
#[derive(Drop)]
pub struct Log {
    pub numbers: Vec<u32>,
    pub head: LogHead,
}

impl Log {
    pub fn new(alloc: Global) -> Result<Log, AllocError> {
        Ok(Log {
            numbers: vec![in alloc; 0; ROOM]?,
            head: LogHead {
                written: 0,
                free: 0,
            },
        })
    }

    // The log as the next call is lent it, with so many numbers.
    pub fn lend(&mut self, head: LogHead, room: usize) -> Result<(), AllocError>
        ensures numbers { OnOk result (vec_len self.new.numbers ≡ min room 28672) }
        ensures head { OnOk result (self.new.head ≡ head) }
    {
        self.numbers.resize(room.min(ROOM), 0)?;
        self.head = head;
        for (i, n) in self.numbers.iter_mut().enumerate() {
            *n = before(i);
        }
        Ok(())
    }

    // Whether the log is what it was; a call that is refused tells no other head.
    pub fn is_kept(&self) -> bool {
        are_kept(&self.numbers)
    }
}

// merge_logs WRITTEN FREE LENT N M NUMBER*
pub fn merge_logs<W: Answers>(mut words: Kept<'_>, out: &mut W, third: &mut Log) -> io::Result<()> {
    let head = words.head();
    third.lend(head, words.size())?;
    let n = words.size();
    let m = words.size();
    let both = words.all_kept();
    let (first, after) = both.split_at(n.min(both.len()));
    let second = &after[..m.min(after.len())];
    match merge_at(first, second, &mut third.numbers, head) {
        Ok(x) => {
            let head = x.head;
            write!(out, "merged {} {}", head.written, head.free)?;
            run(out, &third.numbers)?;
            rest(out, first, second, x.rest)
        }
        Err(u) => {
            tell::refused(out, u.refusal, third.is_kept())?;
            rest(out, first, second, u.rest)
        }
    }
}

// Which log the rest is of, from which of its numbers on, and its numbers.
fn rest<W: Answers>(out: &mut W, first: &[u32], second: &[u32], rest: Rest) -> io::Result<()> {
    let (log, from) = match rest {
        Rest::First(from) => ("first", from),
        Rest::Second(from) => ("second", from),
    };
    write!(out, "rest {log} {from}")?;
    run(out, rest_of(first, second, rest))
}
