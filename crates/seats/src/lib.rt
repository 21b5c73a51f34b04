// What the calls share: places of a table, a seat's row, and the refusals of a call that names a seat.
#![tactic(auto)]

ghost use Rattle.std.specs.Prelude.{◌≡◌, ◌+◌, ◌*◌, min, ◌≤◌, ◌<◌, eqb, get_or};
ghost use Rattle.rules.specs.Tests.{any};
ghost use Rattle.rules.specs.Layout.{row_width, read_width, row_at};
ghost use Rattle.rules.specs.Lent.{lent};
ghost use Rattle.rules.specs.Refusals.{misnamed, misplaced, late, bad_read, bad_write, bad_head, damaged, row_refusal};
ghost use Rattle.seats.specs.Heads.{head_of, HeadOf, head_row, admission, numbered};
ghost use Rattle.seats.specs.Promises.{PlaceIs, StoredAt, Filled, GreaterIs, RowIs, RowGiven, RowFreed, ReadEntryAt, WriteEntryAt};
ghost use Rattle.seats.specs.Search.{found};
ghost use Rattle.seats.specs.Promises.{ReadEntryIs, WriteEntryIs, UnsizedIs, Admitted};

pub mod layout;

use layout::*;
use rules::Refusal;

// The first six numbers of a row.
#[derive(Clone, Copy, Debug, PartialEq, Eq)]
pub struct Head {
    pub phase: u64,
    pub owner: u64,
    pub position: u64,
    pub reads: u64,
    pub writes: u64,
    pub time: u64,
}

// What stands at a place of a table; 0 past its end.
// Places are u64, as all numbers of the tables are; lengths are usize. Rust has no `From` between the two, and a `TryFrom` would need an `unwrap` each
// time: so `as` stands here and wherever they meet.
pub fn at(list: &[u64], i: u64) -> u64
    ensures { PlaceIs list.now i result }
{
    list.get(i as usize).copied().unwrap_or(0)
}

// A store at a place of a table; past its end there is none. No `get_mut`: its contract does not say what the table ends as.
pub fn store(list: &mut [u64], i: u64, v: u64)
    ensures { StoredAt list.old i v list.new }
{
    let k = i as usize;
    if k < list.len() {
        list[k] = v;
    }
}

// One number throughout a table. This is the library's `fill`, and `greater` its `max`, each under a promise that Promises.antt names.
pub fn fill(list: &mut [u64], v: u64)
    ensures { Filled list.old v list.new }
{
    list.fill(v);
}

pub fn greater(a: u64, b: u64) -> u64
    ensures { GreaterIs a b result }
{
    a.max(b)
}

// A SEAT'S ROW
// Where a row begins in a table of n numbers: at the table's end where that comes first.
fn row_from(n: u64, seat: u64) -> u64
    ensures { result ≡ min (row_at seat) n }
{
    PLAN_WIDTH
        .saturating_add(ROW_WIDTH.saturating_mul(seat))
        .min(n)
}

// The part of the seat table that is the seat's row.
pub fn row_of(seats: &[u64], seat: u64) -> &[u64]
    ensures { RowIs seats.now seat result.now }
{
    let n = seats.len() as u64;
    let from = row_from(n, seat);
    let to = (from + ROW_WIDTH).min(n);
    &seats[from as usize..to as usize]
}

// A store at a place of a seat's row.
pub fn give(seats: &mut [u64], seat: u64, field: u64, v: u64)
    ensures { RowGiven seats.old seat field v seats.new }
{
    let n = seats.len() as u64;
    let from = row_from(n, seat);
    if field < n - from {
        store(seats, from + field, v);
    }
}

// A row freed: zero throughout.
pub fn free_row(seats: &mut [u64], seat: u64)
    ensures { RowFreed seats.old seat seats.new }
{
    let n = seats.len() as u64;
    let from = row_from(n, seat);
    let to = (from + ROW_WIDTH).min(n);
    fill(&mut seats[from as usize..to as usize], 0);
}

// ITS ENTRIES
// One of the first entry's numbers, or the same number of the entry i places on: `first` is where it stands, `width` how far on the next one's does.
// An entry has at least one number, so from i = row.len() on the place is past the row's end; below that it is far from overflow, and is plainly reckoned.
fn number_of(row: &[u64], first: u64, width: u64, i: u64) -> u64
    requires { (first < row_width) × (1 ≤ width) × (width ≤ read_width) }
    ensures { result ≡ get_or row.now (first + width * i) 0 }
{
    if row.len() as u64 <= i {
        return 0;
    }
    at(row, first + width * i)
}

// A read entry.
#[derive(Clone, Copy, Debug, PartialEq, Eq)]
pub struct ReadEntry {
    pub item: u64,
    pub value: u64,
    pub kept_write: u64,
    pub kept_read: u64,
}

impl ReadEntry {
    // The row's read entry i.
    pub fn of(row: &[u64], i: u64) -> ReadEntry
        ensures { ReadEntryAt row.now i result }
    {
        ReadEntry {
            item: number_of(row, READ_ITEM, READ_WIDTH, i),
            value: number_of(row, READ_VALUE, READ_WIDTH, i),
            kept_write: number_of(row, KEPT_WRITE, READ_WIDTH, i),
            kept_read: number_of(row, KEPT_READ, READ_WIDTH, i),
        }
    }
}

// A write entry.
#[derive(Clone, Copy, Debug, PartialEq, Eq)]
pub struct WriteEntry {
    pub item: u64,
    pub value: u64,
}

impl WriteEntry {
    // The row's write entry i.
    pub fn of(row: &[u64], i: u64) -> WriteEntry
        ensures { WriteEntryAt row.now i result }
    {
        WriteEntry {
            item: number_of(row, WRITE_ITEM, WRITE_WIDTH, i),
            value: number_of(row, WRITE_VALUE, WRITE_WIDTH, i),
        }
    }
}

// The first of a row's n entries whose number there is the record's.
fn find(row: &[u64], first: u64, width: u64, n: u64, item: u64) -> Option<u64>
    requires { (first < row_width) × (1 ≤ width) × (width ≤ read_width) }
    ensures { result ≡ found (λ i. eqb (get_or row.now (first + width * i) 0) item) n }
{
    (0..n).find(|&i| number_of(row, first, width, i) == item)
}

// The first of a row's n read entries, of which there are no more than 16, that names the record.
pub fn read_of(row: &[u64], n: u64, item: u64) -> Option<u64>
    ensures { ReadEntryIs row.now n item result }
{
    find(row, READ_ITEM, READ_WIDTH, n.min(MOST_READS), item)
}

// The first of a row's n write entries, of which there are no more than 8, that names the record.
pub fn write_of(row: &[u64], n: u64, item: u64) -> Option<u64>
    ensures { WriteEntryIs row.now n item result }
{
    find(row, WRITE_ITEM, WRITE_WIDTH, n.min(MOST_WRITES), item)
}

// REFUSAL 1: the tables' lengths.
pub fn is_unsized(values: usize, words: usize, seats: usize) -> bool
    ensures { UnsizedIs values words seats result }
{
    if values != words {
        return true;
    }
    if words == 0 {
        return true;
    }
    if MOST_RECORDS < words as u64 {
        return true;
    }
    seats as u64 != SEATS_LENGTH
}

// REFUSAL 2: an owner, a seat or a record out of range.
fn is_misnamed(owner: u64, seat: u64, unknown: bool) -> bool
    ensures { result ≡ misnamed owner seat unknown }
{
    if OWNERS <= owner {
        return true;
    }
    if SEATS <= seat {
        return true;
    }
    unknown
}

// REFUSAL 3: a damaged row.
impl Head {
    fn of(row: &[u64]) -> Head
        ensures { result ≡ head_of row.now }
    {
        Head {
            phase: at(row, PHASE),
            owner: at(row, OWNER),
            position: at(row, POSITION),
            reads: at(row, READS),
            writes: at(row, WRITES),
            time: at(row, TIME),
        }
    }

    fn is_misplaced(self) -> bool
        ensures { result ≡ misplaced self.phase self.position self.reads self.writes }
    {
        // A match on the phase number: document 01's form.
        match self.phase {
            WORKING => self.position != 0,
            LOCKING => self.position == 0 || self.writes < self.position,
            CHECKING => self.reads < self.position,
            _ => self.writes < self.position,
        }
    }

    fn is_late(self) -> bool
        ensures { result ≡ late self.phase self.time }
    {
        CHECKING <= self.phase && clock::top() < self.time
    }

    fn is_bad(self) -> bool
        ensures { result ≡ bad_head (head_row self) }
    {
        if STORING < self.phase {
            return true;
        }
        if OWNERS <= self.owner {
            return true;
        }
        if MOST_READS < self.reads {
            return true;
        }
        if MOST_WRITES < self.writes {
            return true;
        }
        if self.is_misplaced() {
            return true;
        }
        self.is_late()
    }
}

// A row, read with its head.
#[derive(Clone, Copy)]
struct Row<'a> {
    numbers: &'a [u64],
    head: Head,
    ghost head_is: { head ≡ head_of numbers.now },
}

impl<'a> Row<'a> {
    fn of(numbers: &'a [u64]) -> Row<'a>
        ensures { result.numbers.now ≡ numbers.now }
    {
        let head = Head::of(numbers);
        Row { numbers, head }
    }

    fn is_bad_read(&self, i: u64, records: u64) -> bool
        ensures { result ≡ bad_read self.now.numbers.now records i }
    {
        let entry = ReadEntry::of(self.numbers, i);
        if records <= entry.item {
            return true;
        }
        CHECKING <= self.head.phase && self.head.time < entry.kept_write
    }

    fn some_bad_read(&self, records: u64) -> bool
        ensures { result ≡ any (bad_read self.now.numbers.now records) self.now.head.reads }
    {
        (0..self.head.reads).any(|i| self.is_bad_read(i, records))
    }

    fn some_bad_write(&self, records: u64) -> bool
        ensures { result ≡ any (bad_write self.now.numbers.now records) self.now.head.writes }
    {
        (0..self.head.writes).any(|i| records <= WriteEntry::of(self.numbers, i).item)
    }

    fn is_damaged(&self, records: u64) -> bool
        ensures { result ≡ damaged self.now.numbers.now records }
    {
        if self.head.phase == FREE {
            return false;
        }
        if self.head.is_bad() {
            return true;
        }
        if self.some_bad_read(records) {
            return true;
        }
        self.some_bad_write(records)
    }

    // ADMITTING A CALL: the row's head, or refusals 3 to 5. `last` is the last phase that the call is for.
    #[tactic(auto, using(crate::proofs::Admitting::refused_late))]
    fn admit(&self, records: u64, owner: u64, last: u64) -> Result<Head, Refusal>
        ensures { numbered result ≡ admission (row_refusal self.now.numbers.now records owner last) self.now.numbers.now }
    {
        let head = self.head;
        if self.is_damaged(records) {
            return Err(Refusal::Damaged);
        }
        if head.phase == FREE {
            return Err(Refusal::NotHeld);
        }
        if head.owner != owner {
            return Err(Refusal::NotHeld);
        }
        if last < head.phase {
            return Err(Refusal::TooLate);
        }
        Ok(head)
    }
}

// The head of its row; refused for the lowest number that is due. `unknown`: the call names a record, and there is no such record.
// The three tables are lent apart, here and in the calls: document 01's form is lent slices, and C lends some to be read and some to be changed.
pub fn admit(
    values: &[u64],
    words: &[u64],
    seats: &[u64],
    owner: u64,
    seat: u64,
    unknown: bool,
    last: u64,
) -> Result<Head, Refusal>
    ensures { Admitted (lent values.now words.now seats.now) owner seat unknown last result }
{
    if is_unsized(values.len(), words.len(), seats.len()) {
        return Err(Refusal::WrongSizes);
    }
    let records = words.len() as u64;
    if is_misnamed(owner, seat, unknown) {
        return Err(Refusal::OutOfRange);
    }
    Row::of(row_of(seats, seat)).admit(records, owner, last)
}
