// Document 01 as definitions, in specs/. The code here is the types that calls answer and decide with.
#![tactic(auto)]

ghost use Rattle.std.specs.Prelude.{◌≡◌};
ghost use Rattle.rules.specs.declared.Answer.TheVariants.{Refused, Aborted};
ghost use Rattle.rules.specs.declared.Refusal.TheVariants.{OutOfRange};
ghost use Rattle.rules.specs.Numbers.{refusal_number, abort_number};

use clock::Unfit;

// What a caller is told: one case for each word of the document, with its number.
// A refusal and an abort carry the document's number here, not their name: its form is 'Aborted or Refused with its number',
// and `every_refusal` of reach is said of any number.
#[derive(Clone, Copy, Debug, PartialEq, Eq)]
pub enum Answer {
    Ready(u64),
    Seat(u64),
    Value(u64),
    Noted(u64),
    Locked(u64),
    Timed(u64),
    Checked(u64),
    Sealed(u64),
    Stored(u64),
    Done(u64),
    Dropped(u64),
    Refused(u64),
    Aborted(u64),
}

// Why a call is refused, with the document's number.
#[derive(Clone, Copy, Debug, PartialEq, Eq)]
pub enum Refusal {
    WrongSizes = 1,
    OutOfRange = 2,
    Damaged = 3,
    NotHeld = 4,
    TooLate = 5,
    AtLimit = 6,
    Crowded = 7,
    ReadsFull = 8,
    WritesFull = 9,
    ItemLocked = 10,
    BadPlan = 11,
    SetupAgain = 35,
}

// Why a commit is aborted, with the document's number.
#[derive(Clone, Copy, Debug, PartialEq, Eq)]
pub enum Abort {
    WordLocked = 21,
    VersionGone = 22,
    WordBlocked = 23,
    TimeRunOut = 24,
}

// What the check of a read entry comes to.
#[derive(Clone, Copy, Debug, PartialEq, Eq)]
pub enum Verdict {
    Passes,
    Extends,
    Fails(Abort),
}

impl From<Unfit> for Refusal {
    ghost from_gives = { λ e why. why ≡ OutOfRange };

    fn from(_: Unfit) -> Self {
        Refusal::OutOfRange
    }
}

impl From<Refusal> for Answer {
    ghost from_gives = { λ why a. a ≡ Refused (refusal_number why) };

    fn from(why: Refusal) -> Self {
        // `as`: an enum's number has no `From`.
        Answer::Refused(why as u64)
    }
}

impl From<Abort> for Answer {
    ghost from_gives = { λ why a. a ≡ Aborted (abort_number why) };

    fn from(why: Abort) -> Self {
        Answer::Aborted(why as u64)
    }
}
