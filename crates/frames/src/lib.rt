// A tape's bytes to calls: where a call's body begins and ends, and which call it is.
#![tactic(auto)]

ghost use Rattle.std.specs.Prelude.{◌≡◌, ◌+◌, ◌*◌};
ghost use Rattle.frames.specs.Decode.{setup_size, open_size, read_size, write_size, seat_size, byte_span, sized};
ghost use Rattle.frames.specs.Decode.{setup_call, open_call, read_call, write_call, seat_of};
ghost use Rattle.frames.specs.Kinds.{kind_of, call_of};
ghost use Rattle.frames.specs.Promises.{FrameIs, CallIs};

// What stands at the start of the rest of a tape.
#[derive(Clone, Copy, Debug, PartialEq, Eq)]
pub enum Frame {
    Nothing,
    // Cut short: more bytes are wanted.
    Short,
    // A body of this many bytes, behind its length.
    Body(usize),
}

// A call on the tape. A Setup's plan stays in its body.
#[derive(Clone, Copy, Debug, PartialEq, Eq)]
pub enum Call {
    Setup {
        count: u64,
        start: u64,
    },
    Open(u64),
    Read {
        owner: u64,
        seat: u64,
        item: u64,
    },
    Write {
        owner: u64,
        seat: u64,
        item: u64,
        value: u64,
    },
    Advance {
        owner: u64,
        seat: u64,
    },
    Abandon {
        owner: u64,
        seat: u64,
    },
}

// Why a body is no call.
#[derive(Clone, Copy, Debug, PartialEq, Eq)]
pub enum BadCall {
    // A kind that is not known: 34.
    Unknown,
    // Another length than the kind has: 33.
    Misfit,
}

// What a body's first byte says.
#[derive(Clone, Copy, Debug, PartialEq, Eq)]
enum Kind {
    Setup,
    Open,
    Read,
    Write,
    Advance,
    Abandon,
}

// The tape by kind byte: a match on the byte, which document 01 asks for.
impl TryFrom<u8> for Kind {
    type Error = BadCall;

    ghost try_from_gives = { λ byte r. r ≡ kind_of byte };

    fn try_from(byte: u8) -> Result<Kind, BadCall> {
        match byte {
            0 => Ok(Kind::Setup),
            1 => Ok(Kind::Open),
            2 => Ok(Kind::Read),
            3 => Ok(Kind::Write),
            4 => Ok(Kind::Advance),
            5 => Ok(Kind::Abandon),
            _ => Err(BadCall::Unknown),
        }
    }
}

// The bytes of a body's length.
pub const LENGTH: usize = 2;

// A frame has at most so many bytes: its length is a number of two bytes.
pub const LONGEST: usize = LENGTH + u16::MAX as usize;

// The bytes of each kind's body, its kind byte counted.
const SETUP_SIZE: usize = 43;

const OPEN_SIZE: usize = 2;

const READ_SIZE: usize = 5;

const WRITE_SIZE: usize = 13;

const SEAT_SIZE: usize = 3;

// Where a Setup's sixteen shares and sixteen limits stand in its body.
pub const PLAN_FROM: usize = 11;

pub fn split(t: &[u8]) -> Frame
    ensures { FrameIs t.now result }
{
    match t {
        [] => Frame::Nothing,
        [hi, lo, rest @ ..] => {
            let n = usize::from(u16::from_be_bytes([*hi, *lo]));
            if n <= rest.len() {
                Frame::Body(n)
            } else {
                Frame::Short
            }
        }
        _ => Frame::Short,
    }
}

// The call that a body is, or its fault.
pub fn decode(b: &[u8]) -> Result<Call, BadCall>
    ensures { CallIs b.now result }
{
    let [kind, ..] = b else {
        return Err(BadCall::Misfit);
    };
    call_of(Kind::try_from(*kind)?, b)
}

fn call_of(kind: Kind, b: &[u8]) -> Result<Call, BadCall>
    ensures { result ≡ call_of kind b.now }
{
    // The six kinds are closed, and each has its own array pattern: so a match.
    match kind {
        Kind::Setup => setup_call(b),
        Kind::Open => open_call(b),
        Kind::Read => read_call(b),
        Kind::Write => write_call(b),
        Kind::Advance => seat_of(b).map(|(owner, seat)| Call::Advance { owner, seat }),
        Kind::Abandon => seat_of(b).map(|(owner, seat)| Call::Abandon { owner, seat }),
    }
}

fn setup_call(b: &[u8]) -> Result<Call, BadCall>
    ensures { result ≡ sized setup_size b.now (setup_call b.now) }
{
    let [_, n1, n0, s7, s6, s5, s4, s3, s2, s1, s0, ..] = exactly::<SETUP_SIZE>(b)?;
    Ok(Call::Setup {
        count: two(n1, n0),
        start: u64::from_be_bytes([s7, s6, s5, s4, s3, s2, s1, s0]),
    })
}

fn open_call(b: &[u8]) -> Result<Call, BadCall>
    ensures { result ≡ sized open_size b.now (open_call b.now) }
{
    let [_, owner] = exactly::<OPEN_SIZE>(b)?;
    Ok(Call::Open(u64::from(owner)))
}

fn read_call(b: &[u8]) -> Result<Call, BadCall>
    ensures { result ≡ sized read_size b.now (read_call b.now) }
{
    let [_, owner, seat, i1, i0] = exactly::<READ_SIZE>(b)?;
    Ok(Call::Read {
        owner: u64::from(owner),
        seat: u64::from(seat),
        item: two(i1, i0),
    })
}

fn write_call(b: &[u8]) -> Result<Call, BadCall>
    ensures { result ≡ sized write_size b.now (write_call b.now) }
{
    let [_, owner, seat, i1, i0, v7, v6, v5, v4, v3, v2, v1, v0] = exactly::<WRITE_SIZE>(b)?;
    Ok(Call::Write {
        owner: u64::from(owner),
        seat: u64::from(seat),
        item: two(i1, i0),
        value: u64::from_be_bytes([v7, v6, v5, v4, v3, v2, v1, v0]),
    })
}

// The owner and the seat that an Advance and an Abandon name.
fn seat_of(b: &[u8]) -> Result<(u64, u64), BadCall>
    ensures { result ≡ sized seat_size b.now (seat_of b.now) }
{
    let [_, owner, seat] = exactly::<SEAT_SIZE>(b)?;
    Ok((u64::from(owner), u64::from(seat)))
}

// A number of two bytes.
fn two(hi: u8, lo: u8) -> u64
    ensures { result ≡ hi * byte_span + lo }
{
    u64::from(u16::from_be_bytes([hi, lo]))
}

// A body of as many bytes as its kind has.
fn exactly<const N: usize>(b: &[u8]) -> Result<[u8; N], BadCall>
    ensures { result ≡ sized N b.now b.now }
{
    b.try_into().map_err(|_| BadCall::Misfit)
}
