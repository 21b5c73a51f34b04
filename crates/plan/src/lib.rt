// Setup and Open: the plan of shares and limits, the seats held under it, and the seat that is given.
#![tactic(auto)]

ghost use Rattle.std.specs.Prelude.{◌≡◌, List, ℕ, ◌+◌, ◌<◌, ◌≤◌, true, false, length, get_or, IfOk, IfErr};
ghost use Rattle.rules.specs.Tests.{any};
ghost use Rattle.rules.specs.Layout.{owners, seat_count, seats_length, plan_width, row, phase as phase_of, share as share_of};
ghost use Rattle.rules.specs.Numbers.{told, refused_for};
ghost use Rattle.rules.specs.Lent.{lent, left};
ghost use Rattle.rules.specs.Plan.{bad_plan, laid, held as held_by, bad_row, over_limit, claims as claims_of, crowded, owner_refusal, plan_refusal, opened};
ghost use Rattle.plan.specs.Census.{RowOf, Counts, Lowest, Sound, OwnerOf};
ghost use Rattle.rules.specs.declared.Refusal.TheVariants.{Damaged};
ghost use Rattle.plan.specs.Promises.{SetupAnswered, OpenAnswered};

use rules::{Answer, Refusal};
use seats::layout::*;
use seats::{at, fill, free_row, give, greater, is_unsized, store};

// A plan that Setup would refuse. `plan` is Setup's own, or a seat table, which begins with one. One pass: the sum is taken while the shares are read.
fn is_bad_plan(plan: &[u64]) -> bool
    ensures { result ≡ bad_plan plan.now }
{
    let mut sum = 0;
    for o in 0..OWNERS {
        let share = at(plan, o);
        let limit = at(plan, LIMITS_FROM + o);
        if limit < share || SEATS < limit {
            return true;
        }
        sum += share;
    }
    SEATS < sum
}

// SETUP
// A `for` and no copy: `laid` is said of a table of any length.
fn lay(seats: &mut [u64], plan: &[u64])
    ensures { seats.new ≡ laid seats.old plan.now plan_width }
{
    for i in 0..PLAN_WIDTH {
        store(seats, i, at(plan, i));
    }
}

fn try_setup(
    values: &[u64],
    words: &mut [u64],
    seats: &mut [u64],
    start: u64,
    plan: &[u64; PLAN_WIDTH as usize],
) -> Result<Answer, Refusal>
    ensures { SetupAnswered (lent values.now words.old seats.old) start plan.now (left (told result) values.now words.new seats.new) }
{
    if is_unsized(values.len(), words.len(), seats.len()) {
        return Err(Refusal::WrongSizes);
    }
    let word = clock::fresh(start)?;
    if is_bad_plan(plan) {
        return Err(Refusal::BadPlan);
    }
    let records = words.len() as u64;
    fill(words, word);
    fill(seats, 0);
    lay(seats, plan);
    Ok(Answer::Ready(records))
}

// Every word fresh at `start`, the plan stored, every row free. Values stay.
pub fn setup(
    values: &[u64],
    words: &mut [u64],
    seats: &mut [u64],
    start: u64,
    plan: &[u64; PLAN_WIDTH as usize],
) -> Answer
    ensures { SetupAnswered (lent values.now words.old seats.old) start plan.now (left result values.now words.new seats.new) }
{
    try_setup(values, words, seats, start, plan).unwrap_or_else(Answer::from)
}

// OPEN
// A row's phase and owner are two numbers, here and below: the clauses are over any table that has such a row, and a struct would name the same two.
fn is_bad_row(phase: u64, owner: u64) -> bool
    ensures { (seats : List ℕ) (s : ℕ) → RowOf seats s phase owner → result ≡ bad_row seats s }
{
    if STORING < phase {
        return true;
    }
    phase != FREE && OWNERS <= owner
}

// One more for the owner of a row that is not free.
fn count(held: &mut [u64], phase: u64, owner: u64)
    requires { get_or held.old owner 0 ≤ seat_count }
    ensures { (seats : List ℕ) (s : ℕ) → RowOf seats s phase owner → Counts seats held.old s → Counts seats held.new (s + 1) }
{
    if phase == FREE {
        return;
    }
    let n = at(held, owner);
    store(held, owner, n + 1);
}

// The lowest free seat so far, and this one.
fn lowest(free: Option<u64>, seat: u64, phase: u64) -> Option<u64>
    requires { seat < seat_count }
    ensures { (seats : List ℕ) → phase ≡ phase_of (row seats seat) → Lowest seats seat free → Lowest seats (seat + 1) result }
{
    if phase != FREE {
        return free;
    }
    free.or(Some(seat))
}

fn is_crowded(share: u64, mine: u64, claims: u64) -> bool
    ensures { (seats : List ℕ) (o : ℕ) → share ≡ share_of seats o → mine ≡ held_by seats o → claims ≡ claims_of seats → result ≡ crowded seats o }
{
    share <= mine && claims == SEATS
}

// Refusals 6 and 7, from an owner's share and limit, what it holds, and U.
fn check_owner(share: u64, limit: u64, mine: u64, claims: u64) -> Result<(), Refusal>
    ensures { (seats : List ℕ) (o : ℕ) → OwnerOf seats o share limit mine claims → refused_for result ≡ owner_refusal seats o }
{
    if limit <= mine {
        return Err(Refusal::AtLimit);
    }
    if is_crowded(share, mine, claims) {
        return Err(Refusal::Crowded);
    }
    Ok(())
}

// What one pass over the rows finds: the seats that each owner holds, and the lowest free one.
#[derive(Drop)]
struct Census<'a> {
    seats: &'a [u64],
    held: [u64; OWNERS as usize],
    free: Option<u64>,
    ghost sound: { Sound seats.now held free },
}

impl<'a> Census<'a> {
    // Refusal 3 where a row is one that Open refuses.
    fn take(seats: &'a [u64]) -> Result<Census<'a>, Refusal>
        requires { length seats.now ≡ seats_length }
        ensures ok { IfOk result (λ census. census.seats.now ≡ seats.now) }
        ensures err { IfErr result (λ why. (why ≡ Damaged) × (any (bad_row seats.now) seat_count ≡ true)) }
    {
        let mut held = [0; OWNERS as usize];
        let mut free = None;
        for i in 0..SEATS {
            let phase = at(seats, PLAN_WIDTH + ROW_WIDTH * i + PHASE);
            let owner = at(seats, PLAN_WIDTH + ROW_WIDTH * i + OWNER);
            if is_bad_row(phase, owner) {
                return Err(Refusal::Damaged);
            }
            count(&mut held, phase, owner);
            free = lowest(free, i, phase);
        }
        Ok(Census { seats, held, free })
    }

    fn some_over(&self) -> bool
        ensures { result ≡ any (over_limit self.now.seats.now) owners }
    {
        (0..OWNERS).any(|o| at(self.seats, LIMITS_FROM + o) < at(&self.held, o))
    }

    // U: over all owners, the greater of held and share.
    fn claims(&self) -> u64
        requires { bad_plan self.now.seats.now ≡ false }
        ensures { result ≡ claims_of self.now.seats.now }
    {
        (0..OWNERS)
            .map(|o| greater(at(&self.held, o), at(self.seats, o)))
            .sum()
    }

    // Refusals 3, 6 and 7.
    fn check(&self, owner: u64) -> Result<(), Refusal>
        requires { owner < owners }
        ensures { refused_for result ≡ plan_refusal self.now.seats.now owner }
    {
        if is_bad_plan(self.seats) || self.some_over() {
            return Err(Refusal::Damaged);
        }
        let claims = self.claims();
        if SEATS < claims {
            return Err(Refusal::Damaged);
        }
        let share = at(self.seats, owner);
        let limit = at(self.seats, LIMITS_FROM + owner);
        check_owner(share, limit, at(&self.held, owner), claims)
    }
}

fn open_row(seats: &mut [u64], seat: u64, owner: u64)
    ensures { seats.new ≡ opened seats.old seat owner }
{
    free_row(seats, seat);
    give(seats, seat, PHASE, WORKING);
    give(seats, seat, OWNER, owner);
}

fn try_open(values: &[u64], words: &[u64], seats: &mut [u64], owner: u64) -> Result<Answer, Refusal>
    ensures { OpenAnswered (lent values.now words.now seats.old) owner (left (told result) values.now words.now seats.new) }
{
    if is_unsized(values.len(), words.len(), seats.len()) {
        return Err(Refusal::WrongSizes);
    }
    if OWNERS <= owner {
        return Err(Refusal::OutOfRange);
    }
    let census = Census::take(seats)?;
    census.check(owner)?;
    // An Open that is not refused finds a seat.
    let free = census.free.unwrap();
    open_row(seats, free, owner);
    Ok(Answer::Seat(free))
}

// The lowest free seat, where the plan allows the owner one.
pub fn open(values: &[u64], words: &[u64], seats: &mut [u64], owner: u64) -> Answer
    ensures { OpenAnswered (lent values.now words.now seats.old) owner (left result values.now words.now seats.new) }
{
    try_open(values, words, seats, owner).unwrap_or_else(Answer::from)
}
