// What no clause says: the words of a text, how answers are told, and that what is lent is kept until it changes.
use crate::logs::{Log, are_kept};
use crate::sets::{Half, Kind, SetId, Sets};
use crate::tell::Numbers;
use crate::words::{Line, Words};
use crate::{changes, plans, ranged, tell};
use model::{Conflict, Extent, InvalidUse, LogHead, Refusal, Selector, TrackerIndex};
use std::fmt::Write;
use std::io::{BufWriter, Lock};
use std::test::Fail;

#[test]
fn words_of_a_text(rt: HostRuntime) {
    let mut words = Words::new(" put 1\tsingle\r");
    for want in ["put", "1", "single", "", ""] {
        assert_eq!(rt; words.word(), want);
    }
}

// Each word of a text is the number as which `Line` keeps it.
#[test]
fn numbers_of_a_text(rt: HostRuntime) -> Result<(), Fail> {
    let text = "poke 3 single 5x x -1 4294967297 ";
    let mut buffer = [0; 9];
    let mut line = Line::NEW;
    for b in text.bytes() {
        line = line.take(b, &mut buffer);
    }
    let kept = line.words(&buffer).all_kept();
    let read = Words::new(text).all_numbers(rt.alloc())?;
    assert_eq!(rt; read.as_slice(), kept);
    let mut words = Words::new(text);
    for want in kept {
        assert_eq!(rt; words.number(), *want);
    }
    assert_eq!(rt; words.number(), 0);
    Ok(())
}

#[test]
fn values_of_a_text(rt: HostRuntime) -> Result<(), Fail> {
    let mut words = Words::new("7 2 3 4 5 6 11 12 13 14 65537 8 9 10 15 16 17 18 1 2 259 ");
    assert_eq!(rt; words.size(), 7);
    assert_eq!(rt; words.set().number, 2);
    let rooms = words.rooms();
    assert_eq!(rt; [rooms.starts, rooms.ends], [3, 4]);
    let head = words.head();
    assert_eq!(rt; [head.written, head.free], [5, 6]);
    let flags = words.flags();
    assert_eq!(rt;
        [
            flags.exclusive,
            flags.uninitialized,
            flags.complex,
            flags.unknown
        ],
        [11, 12, 13, 14]
    );
    assert_eq!(rt; words.state(), 1);
    assert_eq!(rt; words.index().0, 8);
    let extent = words.extent();
    assert_eq!(rt; [extent.mips, extent.layers], [9, 10]);
    assert!(rt; words.selector() == Some(Selector::new(15, 16, 17, 18)));
    assert_eq!(rt; words.numbers(1, rt.alloc())?.as_slice(), [1].as_slice());
    assert_eq!(rt; words.bytes(2, rt.alloc())?.as_slice(), [2, 3].as_slice());
    assert!(rt; words.selector().is_none());
    Ok(())
}

// The lines that answer nothing, by their texts, and what they leave.
#[test]
fn a_text_changes_a_set(rt: HostRuntime) -> Result<(), Fail> {
    let mut sets = Sets::new(rt.alloc())?;
    let id = SetId::nearest(2);
    sets.get_mut(id).kind = Some(Kind::Scope);
    changes::poke(&mut Words::new("2 table 3 1"), &mut sets);
    assert_eq!(rt; sets.get(id).table[3], 1);
    changes::room(&mut Words::new("2 6 5"), &mut sets);
    assert_eq!(rt; sets.get(id).rooms.starts, 6);
    assert_eq!(rt; sets.get(id).lent_ranges(Half::End).len(), 5);
    changes::log(&mut Words::new("1 2 21"), &mut sets);
    let lent = sets.log.ok_or("no log")?;
    assert_eq!(rt; [lent.head.written, lent.head.free, lent.room], [1, 2, 21]);
    changes::poke(&mut Words::new("2 table 0 1"), &mut sets);
    changes::put(&mut Words::new("2 0 1 3 single 8"), &mut sets);
    let mut out = BufWriter::new(rt.alloc(), rt.stdout().lock())?;
    tell::all(&mut out, &sets)?;
    assert_eq!(rt;
        out.buffer(),
        b"scope 2\ntexture 0 1 3 single 8\n".as_slice()
    );
    Ok(())
}

// The lines that are calls on ranges and plan files, by their texts, told to a `BufWriter`: what the program answers to them.
#[test]
fn a_text_calls(rt: HostRuntime) -> Result<(), Fail> {
    let mut out = BufWriter::new(rt.alloc(), rt.stdout().lock())?;
    let alloc = rt.alloc();
    ranged::isolate(&mut Words::new("1 2 9 1 3 0 4 8"), &mut out, alloc)?;
    ranged::coalesce(&mut Words::new("2 2 0 1 8 1 2 8"), &mut out, alloc)?;
    ranged::iter_filter(&mut Words::new("1 3 1 1 1 0 2 8"), &mut out, alloc)?;
    plans::read_plan(&mut Words::new("3 0"), &mut out, alloc)?;
    plans::write_plan(&mut Words::new("3 0"), &mut out, alloc)?;
    let mut list = Log::new(alloc)?;
    plans::plan_uses(&mut Words::new("2 0"), &mut out, &mut list, alloc)?;
    let want = b"isolated 1 1 3 0 1 8 1 2 8 2 4 8\ncoalesced 1 0 2 8 0 0 0\nfiltered 1 1 2 8\n\
        read 0 89 90 91\nwritten 0 89 90 91\nlisted 0 90000 89999\n";
    assert_eq!(rt; out.buffer(), want.as_slice());
    Ok(())
}

#[test]
fn numbers_after_spaces(rt: HostRuntime) -> Result<(), Fail> {
    let mut text = String::new(rt.alloc());
    write!(
        text,
        "{}:{}",
        Numbers(&[7u32, 0, 4294967295]),
        Numbers(&[1u8, 255])
    )?;
    assert_eq!(rt; text.as_str(), " 7 0 4294967295: 1 255");
    Ok(())
}

#[test]
fn answers_are_buffered(rt: HostRuntime) -> Result<(), Fail> {
    let mut out = BufWriter::new(rt.alloc(), rt.stdout().lock())?;
    let before = LogHead {
        written: 0,
        free: 1,
    };
    let after = LogHead {
        written: 1,
        free: 0,
    };
    tell::transitions(&mut out, &[1, 2, 3, 4, 5, 6, 7], before, after)?;
    tell::head(&mut out, "log", after)?;
    tell::refused(&mut out, Refusal::LogTooShort, true)?;
    let found = InvalidUse {
        selector: Selector::new(0, 1, 2, 3),
        old: 4,
        new: 8,
    };
    let index = TrackerIndex(5);
    tell::conflict(&mut out, Conflict { index, found })?;
    let want = b"transition 1 2 3 4 5 6 7\nlog 1 0\nrefused 5 0 kept\nconflict 5 0 1 2 3 4 8\n";
    assert_eq!(rt; out.buffer(), want.as_slice());
    Ok(())
}

#[test]
fn a_lent_log_is_kept_until_it_changes(rt: HostRuntime) -> Result<(), Fail> {
    let mut log = Log::new(rt.alloc())?;
    let head = LogHead {
        written: 0,
        free: 1,
    };
    log.lend(head, 7)?;
    assert!(rt; log.is_kept());
    assert!(rt; are_kept(&log.numbers));
    if let Some(number) = log.numbers.get_mut(6) {
        *number = 0;
    }
    assert!(rt; !log.is_kept());
    assert!(rt; !are_kept(&log.numbers));
    assert!(rt; are_kept(&[90000, 89999]));
    Ok(())
}
