// Replays calls with the answers that the Rust gave: every public call, on up to four sets, and the calls on ranged states, logs
// and plan files.
//
// Place in the picture: over all, a user of the public calls. The file `stdin` has the stored calls and `stdout` the answers, written by
// the oracle, which runs the Rust itself; `rt ci` runs this program and compares. `oracle/compare` hands it fresh calls. Lines, answers
// and storage: oracle/README.md. Crate `replay_lines` reads the words of a line and writes the answers; here the bytes come in, and `call`
// makes a call on sets: what it is lent, the call, and what it leaves.
#![tactic(auto)]

mod call;

ghost use Rattle.std.specs.Prelude.{◌≤◌, length, IfOk};

use replay_lines::logs::Log;
use replay_lines::sets::{Set, Sets};
use replay_lines::tell::Out;
use replay_lines::words::{Kept, Line};
use replay_lines::{changes, logs, plans, ranged, words};
use std::alloc::Global;
use std::io;
use std::io::{Lock, Read, Stdin, Write};

// What is read at once, and how many times.
const PIECE: usize = 65536;

const PIECES: usize = 65536;

// What was answered is written too where a read fails; nothing is written after a write that failed.
fn main(rt: HostRuntime) -> io::Result<()> {
    let alloc = rt.alloc();
    let mut input = rt.stdin();
    let mut replay = Replay {
        sets: Sets::new(alloc)?,
        lent: Set::new(alloc)?,
        given: Set::new(alloc)?,
        log: Log::new(alloc)?,
        out: Out::new(rt.stdout().lock(), alloc)?,
        answered: Ok(()),
        alloc,
    };
    let read = replay.answer_all(&mut input);
    let Replay {
        mut out,
        answered,
        ..
    } = replay;
    answered?;
    out.flush()?;
    read
}

// The next piece of the input: full, unless the input ends. Returns how many bytes it has.
fn read_full(input: &mut Stdin, piece: &mut [u8]) -> io::Result<usize>
    ensures { IfOk result (λ n. n ≤ length piece.new) }
{
    let mut done = 0;
    while done < piece.len() {
        let n = input.read(&mut piece[done..])?;
        if n == 0 {
            return Ok(done);
        }
        done += n;
    }
    Ok(done)
}

// The sets that calls are made on; what a call is lent: a copy of its set, and of a second one, and a log; where the answers go, what ended
// them if something did, and what allocates.
#[derive(Drop)]
struct Replay {
    sets: Sets,
    lent: Set,
    given: Set,
    log: Log,
    out: Out,
    answered: io::Result<()>,
    alloc: Global,
}

impl Replay {
    // The lines that are read, piece by piece, up to the end of the input, whether or not they can be answered. What no newline ends is no
    // line.
    fn answer_all(&mut self, input: &mut Stdin) -> io::Result<()> {
        let mut piece = vec![in self.alloc; 0u8; PIECE]?;
        let mut words = words::room(self.alloc)?;
        let mut line = Line::NEW;
        for _ in 0..PIECES {
            let n = read_full(input, &mut piece)?;
            if n == 0 {
                break;
            }
            line = self.take(&piece[..n], line, &mut words);
        }
        Ok(())
    }

    // Every byte in turn; a line is answered at its end.
    fn take(&mut self, bytes: &[u8], begun: Line, words: &mut [u32]) -> Line {
        let mut line = begun;
        for byte in bytes {
            let b = *byte;
            line = line.take(b, words);
            if b == b'\n' {
                self.make(line.words(words));
                line = Line::NEW;
            }
        }
        line
    }

    // A line that answers nothing, or one that is answered, unless something ended the answers.
    #[inline(always)]
    fn make(&mut self, mut words: Kept<'_>) {
        if self.answered.is_err() {
            return;
        }
        match words.number() {
            words::PUT => changes::put(&mut words, &mut self.sets),
            words::POKE => changes::poke(&mut words, &mut self.sets),
            words::ROOM => changes::room(&mut words, &mut self.sets),
            words::LOG => changes::log(&mut words, &mut self.sets),
            name => {
                if let Err(e) = self.answer(name, words) {
                    self.answered = Err(e);
                }
            }
        }
    }

    // The begin of a case, a call on ranged states, a merge of logs, a call on plan files, or a call on sets.
    fn answer(&mut self, name: u32, mut words: Kept<'_>) -> io::Result<()> {
        let alloc = self.alloc;
        match name {
            words::CASE => {
                self.sets.forget();
                writeln!(self.out, "case {}", words.number())?;
            }
            words::ISOLATE => ranged::isolate(&mut words, &mut self.out, alloc)?,
            words::COALESCE => ranged::coalesce(&mut words, &mut self.out, alloc)?,
            words::ITER_FILTER => ranged::iter_filter(&mut words, &mut self.out, alloc)?,
            words::MERGE_LOGS => logs::merge_logs(words, &mut self.out, &mut self.log)?,
            words::READ_PLAN => plans::read_plan(&mut words, &mut self.out, alloc)?,
            words::WRITE_PLAN => plans::write_plan(&mut words, &mut self.out, alloc)?,
            words::PLAN_USES => {
                plans::plan_uses(&mut words, &mut self.out, &mut self.log, alloc)?
            }
            _ => self.call(name, words)?,
        }
        Ok(())
    }
}
