// The calls on sets: what a call is lent, the call, and what it leaves.
use crate::Replay;
use model::{CallError, LogHead, Refusal};
use replay_lines::sets::{Half, Kind, LentLog, Rooms, SetId};
use replay_lines::words::Kept;
use replay_lines::{tell, words};
use std::alloc::AllocError;
use std::io;
use std::io::Write;

impl Replay {
    // The call of this name, which takes the rest of the line.
    pub fn call(&mut self, name: u32, mut words: Kept<'_>) -> io::Result<()> {
        match name {
            words::OPEN_SCOPE => self.open_scope(&mut words)?,
            words::OPEN_TRACKER => self.open_tracker(&mut words)?,
            words::MERGE_SINGLE => self.merge_single(&mut words)?,
            words::MERGE_USAGE_SCOPE => self.merge_usage_scope(&mut words)?,
            words::SET_SINGLE => self.set_single(&mut words)?,
            words::SET_FROM_USAGE_SCOPE => self.set_from_usage_scope(&mut words)?,
            words::SET_FROM_TRACKER => self.set_from_tracker(&mut words)?,
            words::SPARSE => self.set_and_remove(words)?,
            words::EMPTY_LOG => self.empty_log(&mut words)?,
            _ => self.merge_unnamed(&mut words)?,
        }
        self.sets.log = None;
        Ok(())
    }

    // open_scope SET N M W FLAGS ROOM
    fn open_scope(&mut self, words: &mut Kept<'_>) -> io::Result<()> {
        let id = words.set();
        let n = words.number();
        let m = words.number();
        let w = words.number();
        let flags = words.flags();
        let rooms = Rooms {
            starts: words.size(),
            ends: 0,
        };
        let set = &mut self.lent;
        self.sets.get(id).lend_as(Some(Kind::Scope), rooms, set)?;
        let outcome = track::open_scope(&mut set.table, &set.starts, n, m, w, flags).map_err(
            CallError::Refused,
        );
        self.leave(outcome, id, None)
    }

    // open_tracker SET N M W FLAGS MASK ROOM ROOM
    fn open_tracker(&mut self, words: &mut Kept<'_>) -> io::Result<()> {
        let id = words.set();
        let n = words.number();
        let m = words.number();
        let w = words.number();
        let flags = words.flags();
        let mask = words.state();
        let rooms = words.rooms();
        let set = &mut self.lent;
        self.sets.get(id).lend_as(Some(Kind::Tracker), rooms, set)?;
        let outcome = track::open_tracker(
            &mut set.table,
            &set.starts,
            &set.ends,
            n,
            m,
            w,
            flags,
            mask,
        ).map_err(CallError::Refused);
        self.leave(outcome, id, None)
    }

    // merge_single SCOPE TEXTURE STATE [SELECTOR]
    fn merge_single(&mut self, words: &mut Kept<'_>) -> io::Result<()> {
        let id = words.set();
        let index = words.index();
        let extent = words.extent();
        let state = words.state();
        let selection = words.selector();
        let set = &mut self.lent;
        self.sets.get(id).lend(set)?;
        let outcome = track::merge_single(
            &mut set.table,
            &mut set.starts,
            index,
            extent,
            selection,
            state,
        );
        self.leave(outcome, id, None)
    }

    // merge_usage_scope TO FROM
    fn merge_usage_scope(&mut self, words: &mut Kept<'_>) -> io::Result<()> {
        let id = words.set();
        let from = words.set();
        let set = &mut self.lent;
        self.sets.get(id).lend(set)?;
        let given = self.sets.get(from);
        let ranges = given.lent_ranges(Half::Start);
        let outcome = track::merge_usage_scope(
            &mut set.table,
            &mut set.starts,
            &given.table,
            ranges,
        );
        self.leave(outcome, id, Some(from))
    }

    // A line of another name, or of none, is a merge of another set, of which no ranges are lent.
    fn merge_unnamed(&mut self, words: &mut Kept<'_>) -> io::Result<()> {
        let id = words.set();
        let set = &mut self.lent;
        self.sets.get(id).lend(set)?;
        let given = self.sets.get(id.other());
        let outcome = track::merge_usage_scope(&mut set.table, &mut set.starts, &given.table, &[]);
        self.leave(outcome, id, None)
    }

    // Saves what a call made of its copy of the set. Where the line names that set a second time, what it was lent then is what stays.
    fn save(&mut self, id: SetId, from: Option<SetId>) {
        if from != Some(id) {
            self.sets.get_mut(id).save(&self.lent);
        }
    }

    // What an opening or a merge leaves: nothing where it was refused, otherwise the set as it is now.
    fn leave(
        &mut self,
        outcome: Result<(), CallError>,
        id: SetId,
        from: Option<SetId>,
    ) -> io::Result<()> {
        match outcome {
            Ok(()) => writeln!(self.out, "done")?,
            Err(CallError::Refused(r)) => {
                let kept = self.sets.get(id).is_kept(&self.lent);
                return tell::refused(&mut self.out, r, kept);
            }
            Err(CallError::Conflict(c)) => tell::conflict(&mut self.out, c)?,
        }
        self.save(id, from);
        tell::all(&mut self.out, &self.sets)
    }

    // What a tracker's call is lent: a copy of the tracker, and a log. Where no line told the log, it is empty, with a free entry for every
    // subresource. Returns the log's head.
    fn lend_tracker(&mut self, id: SetId) -> Result<LogHead, AllocError> {
        let set = self.sets.get(id);
        set.lend(&mut self.lent)?;
        let free = set.subresources() as usize;
        let told = self.sets.log.unwrap_or(LentLog {
            head: LogHead { written: 0, free },
            room: 7 * free,
        });
        self.log.lend(told.head, told.room)?;
        Ok(told.head)
    }

    // set_single TRACKER TEXTURE STATE [SELECTOR]
    fn set_single(&mut self, words: &mut Kept<'_>) -> io::Result<()> {
        let id = words.set();
        let index = words.index();
        let extent = words.extent();
        let state = words.state();
        let selector = words.selector().unwrap_or(extent.full());
        let head = self.lend_tracker(id)?;
        let set = &mut self.lent;
        let answered = track::set_single(
            &mut set.table,
            &mut set.starts,
            &mut set.ends,
            index,
            extent,
            selector,
            state,
            &mut self.log.numbers,
            head,
        );
        self.leave_tracker(answered, id, None)
    }

    // set_from_usage_scope TRACKER SCOPE
    fn set_from_usage_scope(&mut self, words: &mut Kept<'_>) -> io::Result<()> {
        let id = words.set();
        let from = words.set();
        let head = self.lend_tracker(id)?;
        let given = self.sets.get(from);
        let set = &mut self.lent;
        let answered = track::set_from_usage_scope(
            &mut set.table,
            &mut set.starts,
            &mut set.ends,
            &given.table,
            given.lent_ranges(Half::Start),
            &mut self.log.numbers,
            head,
        );
        self.leave_tracker(answered, id, Some(from))
    }

    // set_from_tracker TO FROM
    fn set_from_tracker(&mut self, words: &mut Kept<'_>) -> io::Result<()> {
        let id = words.set();
        let from = words.set();
        let head = self.lend_tracker(id)?;
        let given = self.sets.get(from);
        let set = &mut self.lent;
        let answered = track::set_from_tracker(
            &mut set.table,
            &mut set.starts,
            &mut set.ends,
            &given.table,
            given.lent_ranges(Half::Start),
            given.lent_ranges(Half::End),
            &mut self.log.numbers,
            head,
        );
        self.leave_tracker(answered, id, Some(from))
    }

    // What a tracker's call leaves: nothing where it was refused, otherwise the tracker as it is now.
    fn leave_tracker(
        &mut self,
        answered: Result<LogHead, Refusal>,
        id: SetId,
        from: Option<SetId>,
    ) -> io::Result<()> {
        match answered {
            Ok(after) => {
                self.save(id, from);
                self.tell_done(after)
            }
            Err(r) => {
                let kept = self.is_kept(id);
                tell::refused(&mut self.out, r, kept)
            }
        }
    }

    // Whether all that a tracker's call was lent is what it was.
    fn is_kept(&self, id: SetId) -> bool {
        self.log.is_kept() && self.sets.get(id).is_kept(&self.lent)
    }

    // set_and_remove_from_usage_scope_sparse TRACKER SCOPE INDEX*. The scope changes too.
    fn set_and_remove(&mut self, mut words: Kept<'_>) -> io::Result<()> {
        let id = words.set();
        let from = words.set();
        let indices = words.all_kept();
        let head = self.lend_tracker(id)?;
        self.sets.get(from).lend(&mut self.given)?;
        let set = &mut self.lent;
        let answered = track::set_and_remove_from_usage_scope_sparse(
            &mut set.table,
            &mut set.starts,
            &mut set.ends,
            &mut self.given.table,
            &self.given.starts,
            indices,
            &mut self.log.numbers,
            head,
        );
        match answered {
            Ok(after) => {
                self.save(id, Some(from));
                self.sets.get_mut(from).save(&self.given);
                self.tell_done(after)
            }
            Err(r) => {
                let kept = self.is_kept(id) && self.sets.get(from).is_kept(&self.given);
                tell::refused(&mut self.out, r, kept)
            }
        }
    }

    // A tracker's call that was made: its transitions, the head if a line told one, and the sets.
    fn tell_done(&mut self, after: LogHead) -> io::Result<()> {
        let out = &mut self.out;
        writeln!(out, "done")?;
        tell::transitions(out, &self.log.numbers, self.log.head, after)?;
        if self.sets.log.is_some() {
            tell::head(out, "log", after)?;
        }
        tell::all(out, &self.sets)
    }

    // empty_log WRITTEN FREE LENT
    fn empty_log(&mut self, words: &mut Kept<'_>) -> io::Result<()> {
        let head = words.head();
        self.log.lend(head, words.size())?;
        match track::empty_log(&self.log.numbers, head) {
            Ok(after) => tell::head(&mut self.out, "emptied", after),
            Err(r) => tell::refused(&mut self.out, r, self.log.is_kept()),
        }
    }
}
