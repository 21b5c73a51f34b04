// A tape that comes in parts: where it stands between two of them, and what each prints.
#![tactic(auto)]

ghost use Rattle.std.specs.Prelude.{◌≡◌, false};
ghost use Rattle.turns.specs.Lent.{lent_in};
ghost use Rattle.tape.specs.Inner.{state_of};
ghost use Rattle.tape.specs.Promises.{part, unfit_for};
ghost use Rattle.flow.specs.Parts.{onward, opened};
ghost use Rattle.flow.specs.Promises.{unready, Goes, Started, Stepped, Finished};

use tape::{CALLS_FROM, Counts, Intake, OPENING, VERSION};
use turns::{Fault, Tables};

// What is kept from one part of a tape to the next.
// Two flags and no enum of stages: all four pairs occur, as a flow that is stopped keeps `begun` (`halted_at`).
#[derive(Clone, Copy, Debug, PartialEq, Eq)]
pub struct Flow {
    // The version byte was read, and was 1.
    pub begun: bool,
    // The last line is printed.
    pub stopped: bool,
    // How many bytes wait at the buffer's front.
    pub waiting: usize,
    pub counts: Counts,
    // Where the text of the last part ends in the output.
    pub end: usize,
}

// Before any byte is read. The first call stands behind the version byte.
pub fn start() -> Flow
    ensures { Started result }
{
    Flow {
        begun: false,
        stopped: false,
        waiting: 0,
        counts: OPENING,
        end: 0,
    }
}

// Takes the calls of buf's bytes from `from` up to `to`.
fn take_calls(
    k: Counts,
    buf: &mut [u8],
    from: usize,
    to: usize,
    tables: &mut Tables<'_>,
    out: &mut [u8],
) -> Flow
    requires { unfit_for buf.old from to k (lent_in tables.old) out.old ≡ false }
    ensures { Goes (onward (state_of k (lent_in tables.old)) (part buf.old from to)) buf.old tables.old out.old
        result buf.new tables.new out.new }
{
    let Intake {
        waiting,
        counts,
        end,
        stopped,
    } = tape::absorb(buf, from, to, k, tables, out);
    Flow {
        begun: true,
        stopped,
        waiting,
        counts,
        end,
    }
}

// Takes the first bytes of a tape: its version byte, and the calls behind it.
fn open_tape(f: Flow, buf: &mut [u8], to: usize, tables: &mut Tables<'_>, out: &mut [u8]) -> Flow
    requires { unready f buf.old to (lent_in tables.old) out.old ≡ false }
    ensures { Goes (opened (state_of f.counts (lent_in tables.old)) (part buf.old 0 to)) buf.old tables.old out.old
        result buf.new tables.new out.new }
{
    if to == 0 {
        return Flow {
            begun: false,
            stopped: false,
            waiting: 0,
            end: 0,
            ..f
        };
    }
    // By an index: the buffer is lent to be changed, and the calls stand at a place in it.
    if buf[0] == VERSION {
        return take_calls(f.counts, buf, CALLS_FROM, to, tables, out);
    }
    let end = turns::stop(out, 0, Fault::NoVersion, 0);
    Flow {
        begun: false,
        stopped: true,
        waiting: 0,
        end,
        ..f
    }
}

// Takes a part of a tape: the first `to` bytes of buf are those that waited, and what was read behind them.
pub fn step(f: Flow, buf: &mut [u8], to: usize, tables: &mut Tables<'_>, out: &mut [u8]) -> Flow
    ensures { Stepped f buf.old to tables.old out.old result buf.new tables.new out.new }
{
    let unfit = tape::is_unfit(
        buf.len(),
        f.waiting,
        to,
        f.counts,
        tables.values.len(),
        tables.words.len(),
        out.len(),
    );
    if unfit || f.stopped {
        return Flow {
            stopped: true,
            end: 0,
            ..f
        };
    }
    if f.begun {
        return take_calls(f.counts, buf, 0, to, tables, out);
    }
    open_tape(f, buf, to, tables, out)
}

// Puts what is printed where the tape ends into out, and answers how many bytes it is.
pub fn finish(f: Flow, out: &mut [u8]) -> usize
    ensures { Finished f out.old result out.new }
{
    if f.stopped {
        return 0;
    }
    if f.begun {
        return tape::finish(out, 0, f.waiting == 0, f.counts.calls, f.counts.offset);
    }
    turns::stop(out, 0, Fault::NoVersion, 0)
}
