// Read and Write: what a seat notes while it works.
#![tactic(auto)]

ghost use Rattle.std.specs.Prelude.{◌≡◌, ◌-◌};
ghost use Rattle.rules.specs.Layout.{write_width, put};
ghost use Rattle.rules.specs.Tables.{Tables};
ghost use Rattle.rules.specs.Numbers.{told};
ghost use Rattle.rules.specs.Lent.{lent, left};
ghost use Rattle.rules.specs.Work.{read_noted, first_read, read_in, place_of, slid, placed, write_in};
ghost use Rattle.seats.specs.Promises.{PlaceIs, WriteEntryIs};
ghost use Rattle.work.specs.Entries.{Counted, ReadsNext, RoomAbove, WritesNext, row_in, noted, Stores, Notes};
ghost use Rattle.work.specs.Promises.{ReadAnswered, WriteAnswered};

use rules::{Answer, Refusal};
use seats::layout::*;
use seats::{Head, ReadEntry, WriteEntry, admit, at, give, read_of, row_of, write_of};

// What an admitted Read or Write notes in: the seat table that it is lent, the seat, and the head of the seat's row as the call finds it.
// What is known of the head is a clause (`Counted`) and no ghost field: it holds where a call begins, and not after its first store.
#[derive(Drop)]
struct Noting<'a> {
    seats: &'a mut [u64],
    seat: u64,
    head: Head,
}

impl Noting<'_> {
    fn give(&mut self, field: u64, v: u64)
        ensures { Stores (λ l s. put l s field v) self.old self.new }
    {
        give(self.seats, self.seat, field, v);
    }

    // The row's number at place p.
    fn number(&self, p: u64) -> u64
        ensures { PlaceIs (row_in self.now) p result }
    {
        at(row_of(self.seats, self.seat), p)
    }

    fn write_of(&self, item: u64) -> Option<u64>
        ensures { WriteEntryIs (row_in self.now) self.now.head.writes item result }
    {
        write_of(row_of(self.seats, self.seat), self.head.writes, item)
    }

    // READ
    // What the seat has noted of a record: the value that it writes, or else the value that it read.
    fn noted(&self, item: u64) -> Option<u64>
        requires { Counted self.now }
        ensures { result ≡ noted (row_in self.now) item }
    {
        let row = row_of(self.seats, self.seat);
        if let Some(w) = write_of(row, self.head.writes, item) {
            return Some(WriteEntry::of(row, w).value);
        }
        if let Some(r) = read_of(row, self.head.reads, item) {
            return Some(ReadEntry::of(row, r).value);
        }
        None
    }

    // A new read entry.
    fn note_read(&mut self, item: u64, value: u64, word: u64)
        requires { ReadsNext self.old }
        ensures { Stores (λ l s. read_noted l s item value word) self.old self.new }
    {
        let n = self.head.reads;
        let kept_write = clock::write_time(word);
        let kept_read = clock::read_time(word);
        self.give(READ_ITEM + READ_WIDTH * n, item);
        self.give(READ_VALUE + READ_WIDTH * n, value);
        self.give(KEPT_WRITE + READ_WIDTH * n, kept_write);
        self.give(KEPT_READ + READ_WIDTH * n, kept_read);
        self.give(READS, n + 1);
    }

    // A read of a record that the row does not name yet.
    fn first_read(&mut self, values: &[u64], words: &[u64], item: u64) -> Result<Answer, Refusal>
        requires { Counted self.old }
        ensures { Notes (λ t s. first_read t s item) (lent values.now words.now self.old.seats.now) self.old (told result) self.new }
    {
        if MOST_READS <= self.head.reads {
            return Err(Refusal::ReadsFull);
        }
        let word = at(words, item);
        if clock::is_locked(word) {
            return Err(Refusal::ItemLocked);
        }
        let value = at(values, item);
        self.note_read(item, value, word);
        Ok(Answer::Value(value))
    }

    fn read_in(&mut self, values: &[u64], words: &[u64], item: u64) -> Result<Answer, Refusal>
        requires { Counted self.old }
        ensures { Notes (λ t s. read_in t s item) (lent values.now words.now self.old.seats.now) self.old (told result) self.new }
    {
        if let Some(value) = self.noted(item) {
            return Ok(Answer::Value(value));
        }
        self.first_read(values, words, item)
    }

    // WRITE
    // Where a new write entry is placed: before the first one with a greater record number, or last.
    // No `partition_point`: `place_of` of the rules is said of any row, and a damaged one need not ascend.
    fn place_of(&self, item: u64) -> u64
        requires { Counted self.now }
        ensures { result ≡ place_of (row_in self.now) item }
    {
        let n = self.head.writes;
        let row = row_of(self.seats, self.seat);
        (0..n)
            .find(|&i| item < WriteEntry::of(row, i).item)
            .unwrap_or(n)
    }

    // The row's numbers from place `from` to place `to` move up by one write entry, the last first.
    // A `for` and no `copy_within`: `slid` is said of a table of any length, and past its end nothing is stored.
    fn slide(&mut self, from: u64, to: u64)
        requires { RoomAbove from to }
        ensures { Stores (λ l s. slid l s to write_width (to - from)) self.old self.new }
    {
        for p in (from..to).rev() {
            let v = self.number(p);
            self.give(p + WRITE_WIDTH, v);
        }
    }

    // A new write entry at place i.
    fn place(&mut self, i: u64, entry: WriteEntry)
        requires { WritesNext self.old i }
        ensures { Stores (λ l s. placed l s i entry.item entry.value) self.old self.new }
    {
        let n = self.head.writes;
        let from = WRITE_ITEM + WRITE_WIDTH * i;
        let to = WRITE_ITEM + WRITE_WIDTH * n;
        self.slide(from, to);
        self.give(from, entry.item);
        self.give(WRITE_VALUE + WRITE_WIDTH * i, entry.value);
        self.give(WRITES, n + 1);
    }

    fn write_in(&mut self, entry: WriteEntry) -> Result<Answer, Refusal>
        requires { Counted self.old }
        ensures { (t : Tables) → Notes (λ t s. write_in t s entry.item entry.value) t self.old (told result) self.new }
    {
        if let Some(w) = self.write_of(entry.item) {
            self.give(WRITE_VALUE + WRITE_WIDTH * w, entry.value);
            return Ok(Answer::Noted(entry.item));
        }
        if MOST_WRITES <= self.head.writes {
            return Err(Refusal::WritesFull);
        }
        let i = self.place_of(entry.item);
        self.place(i, entry);
        Ok(Answer::Noted(entry.item))
    }
}

fn try_read(
    values: &[u64],
    words: &[u64],
    seats: &mut [u64],
    owner: u64,
    seat: u64,
    item: u64,
) -> Result<Answer, Refusal>
    ensures { ReadAnswered (lent values.now words.now seats.old) owner seat item (left (told result) values.now words.now seats.new) }
{
    let unknown = words.len() as u64 <= item;
    let head = admit(values, words, seats, owner, seat, unknown, WORKING)?;
    Noting { seats, seat, head }.read_in(values, words, item)
}

// The value of a record as the seat sees it.
pub fn read(
    values: &[u64],
    words: &[u64],
    seats: &mut [u64],
    owner: u64,
    seat: u64,
    item: u64,
) -> Answer
    ensures { ReadAnswered (lent values.now words.now seats.old) owner seat item (left result values.now words.now seats.new) }
{
    try_read(values, words, seats, owner, seat, item).unwrap_or_else(Answer::from)
}

fn try_write(
    values: &[u64],
    words: &[u64],
    seats: &mut [u64],
    owner: u64,
    seat: u64,
    entry: WriteEntry,
) -> Result<Answer, Refusal>
    ensures { WriteAnswered (lent values.now words.now seats.old) owner seat entry.item entry.value
        (left (told result) values.now words.now seats.new) }
{
    let unknown = words.len() as u64 <= entry.item;
    let head = admit(values, words, seats, owner, seat, unknown, WORKING)?;
    Noting { seats, seat, head }.write_in(entry)
}

// A pending write.
pub fn write(
    values: &[u64],
    words: &[u64],
    seats: &mut [u64],
    owner: u64,
    seat: u64,
    item: u64,
    value: u64,
) -> Answer
    ensures { WriteAnswered (lent values.now words.now seats.old) owner seat item value (left result values.now words.now seats.new) }
{
    try_write(
        values,
        words,
        seats,
        owner,
        seat,
        WriteEntry { item, value },
    )
    .unwrap_or_else(Answer::from)
}
