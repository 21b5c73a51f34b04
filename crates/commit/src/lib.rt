// Advance and Abandon: a commit, step by step, and its end before that.
#![tactic(auto)]

ghost use Rattle.std.specs.Prelude.{◌≡◌, ℕ, ◌≤◌, ltb};
ghost use Rattle.clock.specs.Word.{is_locked, read_time};
ghost use Rattle.rules.specs.Layout.{most_reads, writes};
ghost use Rattle.rules.specs.Numbers.{abort_number};
ghost use Rattle.rules.specs.Lent.{lent, left};
ghost use Rattle.rules.specs.Advance.{held_locks, released, let_go, moved, lock_step, seen_time, commit_time};
ghost use Rattle.rules.specs.Advance.{due_time, time_step, is_blocked, by_word, passed_to, check_step};
ghost use Rattle.rules.specs.Advance.{seal_step, store_step, done_step, lock_phase, check_phase, store_phase, advance_in};
ghost use Rattle.rules.specs.declared.Answer.TheVariants.{Aborted};
ghost use Rattle.rules.specs.Work.{write_of};
ghost use Rattle.seats.specs.Heads.{head_row};
ghost use Rattle.seats.specs.Entries.{IsRead, IsWrite};
ghost use Rattle.seats.specs.Promises.{PlaceIs};
ghost use Rattle.commit.specs.Steps.{HasHead, Holding, Locking, LocksNext, Checking, ChecksNext, ChecksWord, Storing, StoresNext};
ghost use Rattle.commit.specs.Steps.{row_in, with_lent_words, with_lent_seats, Takes, TakesAll};
ghost use Rattle.commit.specs.Promises.{AdvanceAnswered, AbandonAnswered};

use rules::{Abort, Answer, Refusal, Verdict};
use seats::layout::*;
use seats::{
    Head, ReadEntry, WriteEntry, admit, at, free_row, give, greater, row_of, store, write_of,
};

// How many of its write entries a row in phases 1 to 3 holds the locks of.
fn held_locks(head: Head) -> u64
    ensures { result ≡ held_locks (head_row head) }
{
    if head.phase == CHECKING {
        return head.writes;
    }
    head.position
}

// The greatest of 0 and the kept write times of a row's first n read entries.
fn seen_time(row: &[u64], n: u64) -> u64
    ensures { result ≡ seen_time row.now n }
{
    (0..n)
        .map(|i| ReadEntry::of(row, i).kept_write)
        .fold(0, greater)
}

// The greatest of `from` and one more than the present read time of each of the first n records to be written.
fn due_time(words: &[u64], row: &[u64], from: u64, n: u64) -> u64
    ensures { result ≡ due_time words.now row.now from n }
{
    (0..n)
        .map(|i| clock::read_time(at(words, WriteEntry::of(row, i).item)) + 1)
        .fold(from, greater)
}

// Another transaction's lock, with a read time not above the time. `locked` and `read` are the word's.
fn is_blocked(locked: bool, read: u64, time: u64) -> bool
    ensures { (word : ℕ) → locked ≡ is_locked word → read ≡ read_time word → result ≡ is_blocked word time }
{
    locked && read <= time
}

// The check of a read entry by its word, where the kept read time does not cover the time.
fn judge(kept_write: u64, time: u64, word: u64, own: bool) -> Verdict
    ensures { result ≡ by_word kept_write time word own }
{
    if clock::write_time(word) != kept_write {
        return Verdict::Fails(Abort::VersionGone);
    }
    if own {
        return Verdict::Passes;
    }
    let read = clock::read_time(word);
    if is_blocked(clock::is_locked(word), read, time) {
        return Verdict::Fails(Abort::WordBlocked);
    }
    if read < time {
        return Verdict::Extends;
    }
    Verdict::Passes
}

// A commit's next step: the tables that it is lent, the seat that takes it, and the head of the seat's row as the step finds it.
// That the head is the row's is asked of most methods and is no ghost field: it holds where a step begins, and not after its first store.
#[derive(Drop)]
struct Step<'a> {
    words: &'a mut [u64],
    seats: &'a mut [u64],
    seat: u64,
    head: Head,
}

impl Step<'_> {
    // WHAT IT FINDS
    // The read entry at position.
    fn read_entry(&self) -> ReadEntry
        ensures { IsRead (row_in self.now) self.now.head.position result }
    {
        ReadEntry::of(row_of(self.seats, self.seat), self.head.position)
    }

    fn write_entry(&self, i: u64) -> WriteEntry
        ensures { IsWrite (row_in self.now) i result }
    {
        WriteEntry::of(row_of(self.seats, self.seat), i)
    }

    fn word(&self, item: u64) -> u64
        ensures { PlaceIs self.now.words.now item result }
    {
        at(self.words, item)
    }

    // Whether the seat writes the record too.
    fn is_own(&self, item: u64) -> bool
        requires { HasHead self.now }
        ensures { result ≡ ltb (write_of (row_in self.now) item) (writes (row_in self.now)) }
    {
        write_of(row_of(self.seats, self.seat), self.head.writes, item).is_some()
    }

    fn commit_time(&self) -> u64
        requires { HasHead self.now }
        ensures { result ≡ commit_time self.now.words.now (row_in self.now) }
    {
        let row = row_of(self.seats, self.seat);
        let seen = seen_time(row, self.head.reads);
        due_time(self.words, row, seen, self.head.writes)
    }

    // LETTING GO: an abort and Abandon
    // Clears the locks of the row's first n write entries.
    fn release(&mut self, n: u64)
        ensures { self.new ≡ with_lent_words self.old (released self.old.words.now (row_in self.old) n) }
    {
        // The row is taken once, for all n entries. Both tables are borrowed anew before it: the proof follows no use of a field while another is lent.
        let seat = self.seat;
        let words = &mut *self.words;
        let seats = &mut *self.seats;
        let row = row_of(seats, seat);
        for i in 0..n {
            let item = WriteEntry::of(row, i).item;
            let word = at(words, item);
            store(words, item, clock::unlock(word));
        }
    }

    fn let_go(&mut self, answer: Answer) -> Answer
        requires { Holding self.old }
        ensures { Takes (λ t s. let_go t s answer) self.old result self.new }
    {
        self.release(held_locks(self.head));
        free_row(self.seats, self.seat);
        answer
    }

    // Drawn in where it is called: else the step stands in memory on every path, and an abort of eight locks takes up to a seventh more time.
    #[inline(always)]
    fn abort(&mut self, why: Abort) -> Answer
        requires { Holding self.old }
        ensures { Takes (λ t s. let_go t s (Aborted (abort_number why))) self.old result self.new }
    {
        self.let_go(Answer::from(why))
    }

    // LOCKING
    fn move_to(&mut self, phase: u64, position: u64)
        ensures { self.new ≡ with_lent_seats self.old (moved self.old.seats.now self.old.seat phase position) }
    {
        give(self.seats, self.seat, PHASE, phase);
        give(self.seats, self.seat, POSITION, position);
    }

    fn lock_step(&mut self) -> Answer
        requires { LocksNext self.old }
        ensures { Takes lock_step self.old result self.new }
    {
        let position = self.head.position;
        let item = self.write_entry(position).item;
        let word = self.word(item);
        if clock::is_locked(word) {
            return self.abort(Abort::WordLocked);
        }
        store(self.words, item, clock::lock(word));
        self.move_to(LOCKING, position + 1);
        Answer::Locked(item)
    }

    fn time_step(&mut self) -> Answer
        requires { Locking self.old }
        ensures { Takes time_step self.old result self.new }
    {
        let time = self.commit_time();
        if clock::top() < time {
            return self.abort(Abort::TimeRunOut);
        }
        self.move_to(CHECKING, 0);
        give(self.seats, self.seat, TIME, time);
        Answer::Timed(time)
    }

    fn lock_phase(&mut self) -> Answer
        requires { Locking self.old }
        ensures { Takes lock_phase self.old result self.new }
    {
        let held = self.head.position;
        if held < self.head.writes {
            return self.lock_step();
        }
        self.time_step()
    }

    // CHECKING
    // Passing a check: position up by one.
    fn pass(&mut self, item: u64) -> Answer
        requires { self.old.head.position ≤ most_reads }
        ensures { Takes (λ t s. passed_to t s self.old.head.position item) self.old result self.new }
    {
        give(self.seats, self.seat, POSITION, self.head.position + 1);
        Answer::Checked(item)
    }

    fn check_word(&mut self, entry: ReadEntry) -> Answer
        requires { ChecksWord self.old entry }
        ensures { Takes check_step self.old result self.new }
    {
        let item = entry.item;
        let word = self.word(item);
        let own = self.is_own(item);
        match judge(entry.kept_write, self.head.time, word, own) {
            Verdict::Passes => self.pass(item),
            Verdict::Extends => {
                // The time is one that the word can take, so the clock gives a word.
                let longer = clock::extend(word, self.head.time).unwrap();
                store(self.words, item, longer);
                self.pass(item)
            }
            Verdict::Fails(why) => self.abort(why),
        }
    }

    // Where the kept read time covers the time, the entry passes and nothing else is looked at.
    fn check_step(&mut self) -> Answer
        requires { ChecksNext self.old }
        ensures { Takes check_step self.old result self.new }
    {
        let entry = self.read_entry();
        if self.head.time <= entry.kept_read {
            return self.pass(entry.item);
        }
        self.check_word(entry)
    }

    fn seal_step(&mut self) -> Answer
        requires { Checking self.old }
        ensures { Takes seal_step self.old result self.new }
    {
        self.move_to(STORING, 0);
        Answer::Sealed(self.head.time)
    }

    fn check_phase(&mut self) -> Answer
        requires { Checking self.old }
        ensures { Takes check_phase self.old result self.new }
    {
        if self.head.position < self.head.reads {
            return self.check_step();
        }
        self.seal_step()
    }

    // STORING
    fn store_step(&mut self, values: &mut [u64]) -> Answer
        requires { StoresNext self.old }
        ensures { TakesAll store_step values.old self.old result values.new self.new }
    {
        let position = self.head.position;
        let entry = self.write_entry(position);
        store(values, entry.item, entry.value);
        // The time is not above T, so the clock gives a word.
        let word = clock::fresh(self.head.time).unwrap();
        store(self.words, entry.item, word);
        give(self.seats, self.seat, POSITION, position + 1);
        Answer::Stored(entry.item)
    }

    fn done_step(&mut self) -> Answer
        requires { Storing self.old }
        ensures { Takes done_step self.old result self.new }
    {
        free_row(self.seats, self.seat);
        Answer::Done(self.head.time)
    }

    fn store_phase(&mut self, values: &mut [u64]) -> Answer
        requires { Storing self.old }
        ensures { TakesAll store_phase values.old self.old result values.new self.new }
    {
        if self.head.position < self.head.writes {
            return self.store_step(values);
        }
        self.done_step()
    }

    // BY ITS PHASE
    fn advance_in(&mut self, values: &mut [u64]) -> Answer
        requires { HasHead self.old }
        ensures { TakesAll advance_in values.old self.old result values.new self.new }
    {
        // A match on the phase number, with a range for damaged phases: document 01's form.
        match self.head.phase {
            WORKING | LOCKING => self.lock_phase(),
            CHECKING => self.check_phase(),
            STORING => self.store_phase(values),
            FREE | PAST_PHASES..=u64::MAX => Answer::from(Refusal::Damaged),
        }
    }
}

// ADVANCE: one step of a commit. It begins as `abandon` does, and is no function with it: one is lent the values to be changed and the other to be read.
pub fn advance(
    values: &mut [u64],
    words: &mut [u64],
    seats: &mut [u64],
    owner: u64,
    seat: u64,
) -> Answer
    ensures { AdvanceAnswered (lent values.old words.old seats.old) owner seat (left result values.new words.new seats.new) }
{
    match admit(values, words, seats, owner, seat, false, STORING) {
        Ok(head) => Step {
            words,
            seats,
            seat,
            head,
        }
        .advance_in(values),
        Err(why) => Answer::from(why),
    }
}

// ABANDON: releases the held locks and frees the row.
pub fn abandon(
    values: &[u64],
    words: &mut [u64],
    seats: &mut [u64],
    owner: u64,
    seat: u64,
) -> Answer
    ensures { AbandonAnswered (lent values.now words.old seats.old) owner seat (left result values.now words.new seats.new) }
{
    match admit(values, words, seats, owner, seat, false, CHECKING) {
        Ok(head) => Step {
            words,
            seats,
            seat,
            head,
        }
        .let_go(Answer::Dropped(seat)),
        Err(why) => Answer::from(why),
    }
}
