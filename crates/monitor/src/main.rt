// Runs the tape on standard input, of any length, and prints its lines. The buffers are fixed, so memory does not grow with the tape.
#![tactic(auto)]

ghost use Rattle.std.specs.Prelude.{◌≡◌, ◌≤◌, ◌<◌, length, IfOk};
ghost use Rattle.turns.specs.Lent.{lent_in};
ghost use Rattle.monitor.specs.Program.{output_length, Buffers, Fetched, Asked, Pumped, Ended};

use flow::Flow;
use frames::LONGEST;
use std::env::{Env, FillError};
use std::error::Error;
use std::io::{ErrorKind, Print, Read, Write};
use std::{fmt, io, thread};
use tape::FAR_OFF;
use turns::{LAST_ROOM, LINE_ROOM, Tables};

// One frame always fits.
const INPUT: usize = LONGEST;

// Room for the lines of a full input buffer.
const OUTPUT: usize = LINE_ROOM * INPUT + LAST_ROOM;

// A proved loop has to end, and nothing says that the input does. So many turns, each of a full input buffer, keep every number below FAR_OFF.
const TURNS: u64 = (FAR_OFF - 1) / (INPUT as u64);

// How the program is used. Each line is written by itself: where one can't be written, the others are.
const USAGE: [&str; 5] = [
    "usage: monitor < TAPE\n",
    "Plays a tape of calls, and prints a line to each: its number, a word, a number.\n",
    "The last line is 'end' and the number of calls, or 'stopped', the fault and its byte.\n",
    "A text tape is made into a tape by the program tape: tape encode my.txt | monitor\n",
    "The stack must have a megabyte.\n",
];

// Why a tape is not played to its end.
#[derive(Clone, Copy, Debug, PartialEq, Eq)]
enum Failure {
    Arguments,
    Read,
    Write,
    TooLong,
}

impl fmt::Display for Failure {
    fn fmt<W: fmt::Write>(&self, f: &mut fmt::Formatter<W>) -> fmt::Result {
        f.write_str(match self {
            Failure::Arguments => {
                "it takes no arguments, only a tape on standard input; monitor --help tells more"
            }
            Failure::Read => "the tape can't be read",
            Failure::Write => "the lines can't be written",
            Failure::TooLong => "the tape is too long",
        })
    }
}

impl Error for Failure {}

// Whether a read or a write that has just failed is to be made again: a signal came in between, or nothing was ready yet. Then others run first.
fn may_try_again(error: io::Error) -> bool {
    match error.kind() {
        ErrorKind::Interrupted => true,
        ErrorKind::WouldBlock => {
            thread::yield_now();
            true
        }
        _ => false,
    }
}

// Writes some of the bytes, and answers how many; none where it is to be tried again.
fn write_once(rt: &HostRuntime, bytes: &[u8]) -> Result<usize, Failure>
    ensures { IfOk result (λ n. n ≤ length bytes.now) }
{
    match rt.stdout().write(bytes) {
        Ok(0) => Err(Failure::Write),
        Ok(n) => Ok(n),
        Err(error) => {
            if may_try_again(error) {
                Ok(0)
            } else {
                Err(Failure::Write)
            }
        }
    }
}

// Writes all of the bytes.
fn put(rt: &HostRuntime, bytes: &[u8]) -> Result<(), Failure> {
    let mut rest = bytes;
    for _ in 0..TURNS {
        if rest.is_empty() {
            return Ok(());
        }
        let n = write_once(rt, rest)?;
        rest = &rest[n..];
    }
    Err(Failure::Write)
}

// Reads behind the bytes that wait, which stay, and answers where the bytes then end. There is room, so that no bytes are the end of the input.
fn fetch(rt: &HostRuntime, buf: &mut [u8], waiting: usize) -> Result<usize, Failure>
    requires { waiting < length buf.old }
    ensures { Fetched buf.old waiting result buf.new }
{
    for _ in 0..TURNS {
        match rt.stdin().read(&mut buf[waiting..]) {
            Ok(n) => return Ok(waiting + n),
            Err(error) => {
                if !may_try_again(error) {
                    break;
                }
            }
        }
    }
    Err(Failure::Read)
}

// Takes what was read: the step is done whole.
fn pump(f: Flow, buf: &mut [u8], to: usize, tables: &mut Tables<'_>, out: &mut [u8]) -> Flow
    requires { Asked f buf.old to (lent_in tables.old) out.old }
    ensures { Pumped f buf.old to tables.old out.old result buf.new tables.new out.new }
{
    flow::step(f, buf, to, tables, out)
}

// Takes the end of the input: the last line is whole.
fn close(f: Flow, out: &mut [u8]) -> usize
    requires { length out.old ≡ output_length }
    ensures { Ended f out.old result out.new }
{
    flow::finish(f, out)
}

// Reads, hands on what was read, and writes what is given, to the end of the tape.
fn play(
    rt: &HostRuntime,
    buf: &mut [u8],
    tables: &mut Tables<'_>,
    out: &mut [u8],
) -> Result<(), Failure>
    requires { Buffers buf.old (lent_in tables.old) out.old }
{
    let mut f = flow::start();
    for _ in 0..TURNS {
        let waiting = f.waiting;
        let to = fetch(rt, buf, waiting)?;
        // No bytes are the end, as `Read` of the standard library has it.
        if to == waiting {
            let end = close(f, out);
            return put(rt, &out[..end]);
        }
        f = pump(f, buf, to, tables, out);
        put(rt, &out[..f.end])?;
        if f.stopped {
            return Ok(());
        }
    }
    Err(Failure::TooLong)
}

// A buffer says its own length; that this is the length that `play` asks for is shown where it is called.
fn buffer<const N: usize>() -> [u8; N]
    ensures { N ≡ length result }
{
    [0; N]
}

// The tables and buffers are made, lent and played with.
fn play_input(rt: &HostRuntime) -> Result<(), Failure> {
    let mut buf = buffer::<INPUT>();
    let mut values = [0u64; tape::RECORDS];
    let mut words = [0u64; tape::RECORDS];
    let mut seats = [0u64; tape::SEATS];
    let mut out = buffer::<OUTPUT>();
    let mut tables = Tables {
        values: &mut values,
        words: &mut words,
        seats: &mut seats,
    };
    play(rt, &mut buf, &mut tables, &mut out)
}

// There is no argument to take but the one that asks how the program is used.
fn answer_argument(rt: &HostRuntime, word: &[u8]) -> Result<(), Failure> {
    if word == b"--help".as_slice() {
        for line in USAGE {
            let _ = rt.print(line);
        }
        return Ok(());
    }
    Err(Failure::Arguments)
}

// An argument's first bytes tell it.
fn run(rt: &HostRuntime) -> Result<(), Failure> {
    let mut word = [0u8; 8];
    match rt.arg(1, &mut word) {
        Ok(n) => answer_argument(rt, &word[..n]),
        Err(FillError::TooLong) => answer_argument(rt, &word),
        Err(FillError::NotPresent) => play_input(rt),
    }
}

// What goes wrong is told apart from the tape's lines.
fn main(rt: HostRuntime) {
    if let Err(failure) = run(&rt) {
        let _ = eprintln!(rt; "monitor: {failure}");
    }
}
