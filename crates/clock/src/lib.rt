// The clock word: lock, distance and write time in 64 bits. This crate alone knows the bits.
#![tactic(auto)]

ghost use Rattle.std.specs.Prelude.{◌≡◌, ◌<◌, ◌≤◌};
ghost use Rattle.clock.specs.Word.{distance_span, top, word_of, with_lock};
ghost use Rattle.clock.specs.Promises.{TopIs, LockIs, DistanceIs, WriteTimeIs, ReadTimeIs, PartsAre, PackedIs, LockedIs, UnlockedIs, FreshIs, ExtendedIs};
ghost use Rattle.clock.specs.Promises.{NumberIs};

// Why there is no such word.
#[derive(Clone, Copy, Debug, PartialEq, Eq)]
pub enum Unfit {
    // Refusal 2: the parts or the time are not to be had in a word.
    OutOfRange = 2,
}

impl Unfit {
    // The refusal's number.
    pub fn number(self) -> u64
        ensures { NumberIs self result }
    {
        // `as`: an enum's number has no `From`.
        self as u64
    }
}

// A word read apart.
#[derive(Clone, Copy, Debug, PartialEq, Eq)]
pub struct Parts {
    pub locked: bool,
    pub distance: u64,
    pub written: u64,
    pub read: u64,
}

// One more than the greatest distance.
const DISTANCE_SPAN: u64 = 32768;

// One more than the greatest time.
const TIME_SPAN: u64 = 281474976710656;

const LOCK: u64 = DISTANCE_SPAN * TIME_SPAN;

// The word of parts that fit.
fn join(locked: bool, distance: u64, written: u64) -> u64
    requires { (distance < distance_span) × (written ≤ top) }
    ensures { result ≡ word_of locked distance written }
{
    u64::from(locked) * LOCK + distance * TIME_SPAN + written
}

// The greatest time, T.
pub fn top() -> u64
    ensures { TopIs result }
{
    TIME_SPAN - 1
}

pub fn is_locked(w: u64) -> bool
    ensures { LockIs w result }
{
    w / LOCK == 1
}

pub fn distance(w: u64) -> u64
    ensures { DistanceIs w result }
{
    w / TIME_SPAN % DISTANCE_SPAN
}

pub fn write_time(w: u64) -> u64
    ensures { WriteTimeIs w result }
{
    w % TIME_SPAN
}

pub fn read_time(w: u64) -> u64
    ensures { ReadTimeIs w result }
{
    write_time(w) + distance(w)
}

pub fn read_apart(w: u64) -> Parts
    ensures { PartsAre w result }
{
    Parts {
        locked: is_locked(w),
        distance: distance(w),
        written: write_time(w),
        read: read_time(w),
    }
}

pub fn pack(locked: bool, distance: u64, written: u64) -> Result<u64, Unfit>
    ensures { PackedIs locked distance written result }
{
    if distance >= DISTANCE_SPAN {
        return Err(Unfit::OutOfRange);
    }
    if written >= TIME_SPAN {
        return Err(Unfit::OutOfRange);
    }
    Ok(join(locked, distance, written))
}

// The same word, locked or not.
fn with_lock(locked: bool, w: u64) -> u64
    ensures { result ≡ with_lock locked w }
{
    join(locked, distance(w), write_time(w))
}

pub fn lock(w: u64) -> u64
    ensures { LockedIs w result }
{
    with_lock(true, w)
}

pub fn unlock(w: u64) -> u64
    ensures { UnlockedIs w result }
{
    with_lock(false, w)
}

// The unlocked word with both times t.
pub fn fresh(t: u64) -> Result<u64, Unfit>
    ensures { FreshIs t result }
{
    pack(false, 0, t)
}

// T has a test of its own: with write time T and t = T + 1 the parts would still fit.
pub fn extend(w: u64, t: u64) -> Result<u64, Unfit>
    ensures { ExtendedIs w t result }
{
    let written = write_time(w);
    if t < written {
        return Err(Unfit::OutOfRange);
    }
    if TIME_SPAN <= t {
        return Err(Unfit::OutOfRange);
    }
    let d = t - written;
    Ok(join(
        is_locked(w),
        d % DISTANCE_SPAN,
        written + d / DISTANCE_SPAN * DISTANCE_SPAN,
    ))
}
