// Tapes: a run over a part of a tape, turn by turn, and the whole.
#![tactic(auto)]

ghost use Rattle.std.specs.Prelude.{◌≡◌, ◌+◌, ◌≤◌, ◌<◌, length};
ghost use Rattle.text.specs.Text.{greatest};
ghost use Rattle.turns.specs.Lent.{lent_in};
ghost use Rattle.tape.specs.Lines.{fed, end_line, call_lines, lines_of};
ghost use Rattle.tape.specs.Inner.{state_of, Counted, Ran, LinesIn};
ghost use Rattle.tape.specs.Promises.{Written, Closed, Unfit, Absorbed};

use seats::layout::{MOST_RECORDS, SEATS_LENGTH};
use turns::{Fault, LAST_ROOM, LINE_ROOM, Tables, Turn, take_turn};

// What is kept from call to call beside the tables: the calls so far, the offset of the next, and the records that Setup gave.
// 0 records before a Setup, and no option: `performed`, `records_after` and `Taken` say so.
#[derive(Clone, Copy, Debug, PartialEq, Eq)]
pub struct Counts {
    pub calls: u64,
    pub offset: u64,
    pub records: u64,
}

impl Counts {
    // After a call more, of so many bytes.
    fn after(self, taken: usize, records: u64) -> Counts
        requires calls { self.calls < greatest }
        requires offset { self.offset + taken ≤ greatest }
        ensures { result ≡ record { calls = self.calls + 1; offset = self.offset + taken; records = records } }
    {
        Counts {
            calls: self.calls + 1,
            offset: self.offset + taken as u64,
            records,
        }
    }
}

// What a run over a part came to: the bytes that wait at its end, the counts, where the text ends, and whether the tape is stopped.
// A flag, as the numbers are promised of a tape that is stopped too (`intake_of`).
#[derive(Clone, Copy, Debug, PartialEq, Eq)]
pub struct Intake {
    pub waiting: usize,
    pub counts: Counts,
    pub end: usize,
    pub stopped: bool,
}

// The lengths of the program's tables.
pub const RECORDS: usize = MOST_RECORDS as usize;

pub const SEATS: usize = SEATS_LENGTH as usize;

// The byte that a tape begins with, and where its calls do.
pub const VERSION: u8 = 1;

pub const CALLS_FROM: usize = 1;

pub const FIRST_OFFSET: u64 = CALLS_FROM as u64;

// Before the first call: the version byte is read, and no Setup has succeeded.
pub const OPENING: Counts = Counts {
    calls: 0,
    offset: FIRST_OFFSET,
    records: 0,
};

// Numbers beyond this are too near the end of 64 bits to count on: 2^62.
pub const FAR_OFF: u64 = 1 << 62;

// Takes every whole call of a part of a tape, and puts the lines into out.
fn feed(part: &[u8], mut k: Counts, tables: &mut Tables<'_>, out: &mut [u8]) -> Intake
    requires { Counted k (length part.now) }
    ensures { Ran (fed (length part.now) (state_of k (lent_in tables.old)) part.now) tables.old out.old result tables.new out.new }
{
    let mut rest = part;
    let mut end = 0;
    let stopped = loop {
        // A call is numbered only where a byte is left: behind the last call there may be no number more.
        if rest.is_empty() {
            break false;
        }
        let n = k.calls + 1;
        match take_turn(rest, n, k.offset, k.records, tables, out, end) {
            Turn::Wait => break false,
            Turn::Stop { len } => {
                end = end.saturating_add(len);
                break true;
            }
            Turn::Said {
                taken,
                len,
                records,
            } => {
                rest = &rest[taken..];
                k = k.after(taken, records);
                end = end.saturating_add(len);
            }
        }
    };
    Intake {
        waiting: rest.len(),
        counts: k,
        end,
        stopped,
    }
}

// The last line of a tape that no call stopped: all of it was read, or a call is cut short. A flag and both numbers, as `Closed` of `end_line` has them.
pub fn finish(out: &mut [u8], at: usize, whole: bool, calls: u64, offset: u64) -> usize
    ensures { Closed out.old at (end_line whole calls offset) result out.new }
{
    let len = if whole {
        text::last(out, at, b"end", calls)
    } else {
        turns::stop(out, at, Fault::CutShort, offset)
    };
    at.saturating_add(len)
}

// The calls of a tape, after its version byte, over tables of zeros.
fn calls(part: &[u8], out: &mut [u8]) -> usize
    ensures { LinesIn (call_lines part.now) out.old result out.new }
{
    let mut values = [0; RECORDS];
    let mut words = [0; RECORDS];
    let mut seats = [0; SEATS];
    let mut tables = Tables {
        values: &mut values,
        words: &mut words,
        seats: &mut seats,
    };
    let r = feed(part, OPENING, &mut tables, out);
    if r.stopped {
        return r.end;
    }
    finish(out, r.end, r.waiting == 0, r.counts.calls, r.counts.offset)
}

// The lines of a tape: where their text would end, and the text in out where it fits whole.
fn lines(tape: &[u8], out: &mut [u8]) -> usize
    ensures { LinesIn (lines_of tape.now) out.old result out.new }
{
    match tape.strip_prefix(&[VERSION]) {
        Some(part) => calls(part, out),
        None => turns::stop(out, 0, Fault::NoVersion, 0),
    }
}

// Runs a tape from memory: its lines into out, and how many bytes they are. Where they do not fit, out stays and the answer is 2^64 - 1,
// the number that the C interface (`replay_run`) and `Written` fix.
// The first pass measures and writes nothing; the second writes.
pub fn run(tape: &[u8], out: &mut [u8]) -> u64
    ensures { Written tape.now out.old result out.new }
{
    let n = lines(tape, &mut []);
    if n <= out.len() {
        lines(tape, out);
        return n as u64;
    }
    u64::MAX
}

// Whether a buffer's bytes from `from` up to `to` are not to be absorbed. Two numbers and no slice, here, in `absorb` and in flow:
// `unfit` answers for a `to` past the buffer or below `from`.
#[tactic(auto, unfolding(crate::specs::Promises::unfit, rules::specs::Tests::one_of))]
pub fn is_unfit(
    buffer: usize,
    from: usize,
    to: usize,
    k: Counts,
    values: usize,
    words: usize,
    out: usize,
) -> bool
    ensures { Unfit buffer from to k values words out result }
{
    buffer < to
        || to < from
        || FAR_OFF < k.calls
        || FAR_OFF < k.offset
        || MOST_RECORDS < k.records
        || values != RECORDS
        || words != RECORDS
        || out < LAST_ROOM
        || (out - LAST_ROOM) / LINE_ROOM < to
}

// Takes every whole call of buf's bytes from `from` up to `to`, puts their lines into out, and moves what is left to buf's front.
pub fn absorb(
    buf: &mut [u8],
    from: usize,
    to: usize,
    k: Counts,
    tables: &mut Tables<'_>,
    out: &mut [u8],
) -> Intake
    ensures { Absorbed buf.old from to k tables.old out.old result buf.new tables.new out.new }
{
    if is_unfit(
        buf.len(),
        from,
        to,
        k,
        tables.values.len(),
        tables.words.len(),
        out.len(),
    ) {
        return Intake {
            waiting: 0,
            counts: k,
            end: 0,
            stopped: true,
        };
    }
    let r = feed(&buf[from..to], k, tables, out);
    buf.copy_within(to - r.waiting..to, 0);
    r
}
