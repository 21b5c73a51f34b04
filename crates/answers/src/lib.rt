// The document's word and number of every answer, for lines of text and for hosts.
#![tactic(auto)]

ghost use Rattle.std.specs.Prelude.{◌≡◌};
ghost use Rattle.answers.specs.Promises.{KindIs, NumberIs, SpelledIs};

use rules::Answer;

// The number of an answer's word, by which C knows it.
pub fn kind_of(a: Answer) -> u64
    ensures { KindIs a result }
{
    match a {
        Answer::Ready(_) => 0,
        Answer::Seat(_) => 1,
        Answer::Value(_) => 2,
        Answer::Noted(_) => 3,
        Answer::Locked(_) => 4,
        Answer::Timed(_) => 5,
        Answer::Checked(_) => 6,
        Answer::Sealed(_) => 7,
        Answer::Stored(_) => 8,
        Answer::Done(_) => 9,
        Answer::Dropped(_) => 10,
        Answer::Refused(_) => 11,
        Answer::Aborted(_) => 12,
    }
}

// The number that an answer carries.
pub fn number_of(a: Answer) -> u64
    ensures { NumberIs a result }
{
    match a {
        Answer::Ready(n)
        | Answer::Seat(n)
        | Answer::Value(n)
        | Answer::Noted(n)
        | Answer::Locked(n)
        | Answer::Timed(n)
        | Answer::Checked(n)
        | Answer::Sealed(n)
        | Answer::Stored(n)
        | Answer::Done(n)
        | Answer::Dropped(n)
        | Answer::Refused(n)
        | Answer::Aborted(n) => n,
    }
}

// The letters of an answer's word.
pub fn spell(a: Answer) -> &'static [u8]
    ensures { SpelledIs a result.now }
{
    match a {
        Answer::Ready(_) => b"ready",
        Answer::Seat(_) => b"seat",
        Answer::Value(_) => b"value",
        Answer::Noted(_) => b"noted",
        Answer::Locked(_) => b"locked",
        Answer::Timed(_) => b"timed",
        Answer::Checked(_) => b"checked",
        Answer::Sealed(_) => b"sealed",
        Answer::Stored(_) => b"stored",
        Answer::Done(_) => b"done",
        Answer::Dropped(_) => b"dropped",
        Answer::Refused(_) => b"refused",
        Answer::Aborted(_) => b"aborted",
    }
}
