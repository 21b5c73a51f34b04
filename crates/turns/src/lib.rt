// One turn at a tape: a call's bytes to its answer to its line.
#![tactic(auto)]

ghost use Rattle.std.specs.Prelude.{◌≡◌, length, take, drop};
ghost use Rattle.text.specs.Text.{Appended};
ghost use Rattle.rules.specs.Layout.{plan_width};
ghost use Rattle.frames.specs.Decode.{decoded, plan_from, setup_size};
ghost use Rattle.turns.specs.Lent.{lent_in, Answered};
ghost use Rattle.turns.specs.Faults.{fault_of, fault_for, stop_line};
ghost use Rattle.turns.specs.Calls.{PlanFits, FirstOf, performed, records_after};
ghost use Rattle.turns.specs.Turns.{line_of, call_turn, body_turn, turn_of};
ghost use Rattle.turns.specs.Promises.{Taken};

use frames::{BadCall, Call, Frame, LENGTH, PLAN_FROM, decode, split};
use rules::{Answer, Refusal};
use seats::layout::{MOST_RECORDS, PLAN_WIDTH};

// What stops a tape.
#[derive(Clone, Copy, Debug, PartialEq, Eq)]
pub enum Fault {
    NoVersion,
    CutShort,
    Misfit,
    Unknown,
}

impl From<BadCall> for Fault {
    ghost from_gives = { λ bad r. r ≡ fault_for bad };

    fn from(bad: BadCall) -> Fault {
        match bad {
            BadCall::Unknown => Fault::Unknown,
            BadCall::Misfit => Fault::Misfit,
        }
    }
}

// One turn at the rest of a tape.
#[derive(Clone, Copy, Debug, PartialEq, Eq)]
pub enum Turn {
    // More bytes are wanted.
    Wait,
    // A call was answered: the bytes that it took, its line's length, and the records lent from now on.
    Said {
        taken: usize,
        len: usize,
        records: u64,
    },
    // The tape is stopped, with a line of this length.
    Stop {
        len: usize,
    },
}

// The tables that a tape is played on, as they are lent. Who is lent the struct leaves the same references in it (`with_lent`).
#[derive(Drop)]
pub struct Tables<'a> {
    pub values: &'a mut [u64],
    pub words: &'a mut [u64],
    pub seats: &'a mut [u64],
}

// Where a call stands: its number, the offset of its length, and the records that are lent. `take_turn` is given the three apart, as `turn_of` names them.
#[derive(Clone, Copy, Debug, PartialEq, Eq)]
struct Place {
    n: u64,
    offset: u64,
    records: u64,
}

// A call of k bytes prints at most LINE_ROOM * k bytes, and a last line LAST_ROOM.
pub const LINE_ROOM: usize = 13;

pub const LAST_ROOM: usize = 40;

const PLAN: usize = PLAN_WIDTH as usize;

// The last line of a bad tape: its fault, and an offset.
pub fn stop(out: &mut [u8], at: usize, fault: Fault, offset: u64) -> usize
    ensures { Appended out.old at (stop_line (fault_of fault) offset) result out.new }
{
    let word: &[u8] = match fault {
        Fault::NoVersion => b"stopped 31",
        Fault::CutShort => b"stopped 32",
        Fault::Misfit => b"stopped 33",
        Fault::Unknown => b"stopped 34",
    };
    text::last(out, at, word, offset)
}

// One line for an answer.
fn say(out: &mut [u8], at: usize, n: u64, a: Answer) -> usize
    ensures { Appended out.old at (line_of n a) result out.new }
{
    text::numbered(out, at, n, answers::spell(a), answers::number_of(a))
}

// The sixteen shares and sixteen limits of a Setup's body. Its length is asked for, here and below: `decoded` and `performed` leave the plan in the body.
fn plan_of(b: &[u8]) -> [u64; PLAN]
    requires { length b.now ≡ setup_size }
    ensures { result ≡ take plan_width (drop plan_from b.now) }
{
    let bytes: [u8; PLAN] = b[PLAN_FROM..].try_into().unwrap();
    bytes.map(u64::from)
}

// The first n places of a table, or all where it has fewer.
fn first_of(n: u64, len: usize) -> usize
    ensures { FirstOf n len result }
{
    len.min(n as usize)
}

// Setup, as the tape allows it: once, and of at most 1024 records.
#[tactic(auto, using(crate::specs::Laws::setup_again_lem, crate::specs::Laws::setup_many))]
fn set_up(count: u64, start: u64, b: &[u8], records: u64, tables: &mut Tables<'_>) -> Answer
    requires { length b.now ≡ setup_size }
    ensures { Answered (performed records (lent_in tables.old) (Call.Setup count start) b.now) tables.old result tables.new }
{
    if 0 < records {
        return Answer::from(Refusal::SetupAgain);
    }
    if MOST_RECORDS < count {
        return Answer::from(Refusal::WrongSizes);
    }
    let plan = plan_of(b);
    let n = first_of(count, tables.values.len());
    let m = first_of(count, tables.words.len());
    let values = &mut tables.values[..n];
    let words = &mut tables.words[..m];
    let seats = &mut *tables.seats;
    plan::setup(values, words, seats, start, &plan)
}

// One call on the program's tables, of which it is lent what Setup gave. Their first n places are lent in the same lines as in `set_up`:
// a function that lends parts on has to promise what comes back of each, and is no plainer.
fn perform(c: Call, b: &[u8], records: u64, tables: &mut Tables<'_>) -> Answer
    requires { PlanFits c b.now }
    ensures { Answered (performed records (lent_in tables.old) c b.now) tables.old result tables.new }
{
    let n = first_of(records, tables.values.len());
    let m = first_of(records, tables.words.len());
    let values = &mut tables.values[..n];
    let words = &mut tables.words[..m];
    let seats = &mut *tables.seats;
    match c {
        Call::Setup { count, start } => set_up(count, start, b, records, tables),
        Call::Open(owner) => plan::open(values, words, seats, owner),
        Call::Read { owner, seat, item } => work::read(values, words, seats, owner, seat, item),
        Call::Write {
            owner,
            seat,
            item,
            value,
        } => work::write(values, words, seats, owner, seat, item, value),
        Call::Advance { owner, seat } => commit::advance(values, words, seats, owner, seat),
        Call::Abandon { owner, seat } => commit::abandon(values, words, seats, owner, seat),
    }
}

// The records that are lent from now on.
fn records_after(c: Call, a: Answer, records: u64) -> u64
    ensures { result ≡ records_after records c a }
{
    match (c, a) {
        (Call::Setup { count, .. }, Answer::Ready(_)) => count,
        _ => records,
    }
}

// Answers the call at a place, whose body is b, and puts its line at `at`.
fn call_turn(
    c: Call,
    b: &[u8],
    place: Place,
    tables: &mut Tables<'_>,
    out: &mut [u8],
    at: usize,
) -> Turn
    requires { PlanFits c b.now }
    ensures { Taken (call_turn place.n place.records (lent_in tables.old) b.now c) tables.old out.old at
        result tables.new out.new }
{
    let a = perform(c, b, place.records, tables);
    Turn::Said {
        taken: LENGTH + b.len(),
        len: say(out, at, place.n, a),
        records: records_after(c, a, place.records),
    }
}

// Takes the turn of a body: a call, or a fault that stops the tape.
fn body_turn(b: &[u8], place: Place, tables: &mut Tables<'_>, out: &mut [u8], at: usize) -> Turn
    ensures { Taken (body_turn place.n place.offset place.records (lent_in tables.old) b.now (decoded b.now))
        tables.old out.old at result tables.new out.new }
{
    match decode(b) {
        Ok(c) => call_turn(c, b, place, tables, out, at),
        Err(bad) => Turn::Stop {
            len: stop(out, at, Fault::from(bad), place.offset),
        },
    }
}

// Takes the turn at the start of the rest of a tape: its call has number n, and its length stands at the offset.
pub fn take_turn(
    rest: &[u8],
    n: u64,
    offset: u64,
    records: u64,
    tables: &mut Tables<'_>,
    out: &mut [u8],
    at: usize,
) -> Turn
    ensures { Taken (turn_of n offset records (lent_in tables.old) rest.now) tables.old out.old at
        result tables.new out.new }
{
    let Frame::Body(k) = split(rest) else {
        return Turn::Wait;
    };
    let place = Place { n, offset, records };
    body_turn(&rest[LENGTH..LENGTH + k], place, tables, out, at)
}
