// The calls of `boundary`, as the archive for hosts in C and Rust has them: under the same names, with the same promises.
// Said twice, as C needs it: an archive is a crate of its own, and exports only what stands in it.
#![tactic(auto)]

ghost use Rattle.rules.specs.Lent.{lent, left_tables};
ghost use Rattle.rules.specs.Plan.{setup, open_seat};
ghost use Rattle.rules.specs.Work.{read, write};
ghost use Rattle.rules.specs.Advance.{advance, abandon};
ghost use Rattle.boundary.specs.Given.{Given};

#[unsafe(no_mangle)]
pub extern "C" fn ponsevran_setup(
    values: &[u64],
    words: &mut [u64],
    seats: &mut [u64],
    start: u64,
    plan: &[u64; 32],
    number: &mut u64,
) -> u64
    ensures { Given (setup (lent values.now words.old seats.old) start plan.now) result number.new (left_tables values.now words.new seats.new) }
{
    boundary::ponsevran_setup(values, words, seats, start, plan, number)
}

#[unsafe(no_mangle)]
pub extern "C" fn ponsevran_open(
    values: &[u64],
    words: &[u64],
    seats: &mut [u64],
    owner: u64,
    number: &mut u64,
) -> u64
    ensures { Given (open_seat (lent values.now words.now seats.old) owner) result number.new (left_tables values.now words.now seats.new) }
{
    boundary::ponsevran_open(values, words, seats, owner, number)
}

#[unsafe(no_mangle)]
pub extern "C" fn ponsevran_read(
    values: &[u64],
    words: &[u64],
    seats: &mut [u64],
    owner: u64,
    seat: u64,
    item: u64,
    number: &mut u64,
) -> u64
    ensures { Given (read (lent values.now words.now seats.old) owner seat item) result number.new (left_tables values.now words.now seats.new) }
{
    boundary::ponsevran_read(values, words, seats, owner, seat, item, number)
}

#[unsafe(no_mangle)]
pub extern "C" fn ponsevran_write(
    values: &[u64],
    words: &[u64],
    seats: &mut [u64],
    owner: u64,
    seat: u64,
    item: u64,
    value: u64,
    number: &mut u64,
) -> u64
    ensures { Given (write (lent values.now words.now seats.old) owner seat item value) result number.new (left_tables values.now words.now seats.new) }
{
    boundary::ponsevran_write(values, words, seats, owner, seat, item, value, number)
}

#[unsafe(no_mangle)]
pub extern "C" fn ponsevran_advance(
    values: &mut [u64],
    words: &mut [u64],
    seats: &mut [u64],
    owner: u64,
    seat: u64,
    number: &mut u64,
) -> u64
    ensures { Given (advance (lent values.old words.old seats.old) owner seat) result number.new (left_tables values.new words.new seats.new) }
{
    boundary::ponsevran_advance(values, words, seats, owner, seat, number)
}

#[unsafe(no_mangle)]
pub extern "C" fn ponsevran_abandon(
    values: &[u64],
    words: &mut [u64],
    seats: &mut [u64],
    owner: u64,
    seat: u64,
    number: &mut u64,
) -> u64
    ensures { Given (abandon (lent values.now words.old seats.old) owner seat) result number.new (left_tables values.now words.new seats.new) }
{
    boundary::ponsevran_abandon(values, words, seats, owner, seat, number)
}
