// The numbers of document 01's tables, once for all the code that reads and writes them.

// The sizes.
pub const MOST_RECORDS: u64 = 1024;

pub const OWNERS: u64 = 16;

pub const SEATS: u64 = 64;

pub const MOST_READS: u64 = 16;

pub const MOST_WRITES: u64 = 8;

// The seat table: shares, limits, then the rows. Numbers beside each other: document 01's layout, which C lends.
pub const LIMITS_FROM: u64 = OWNERS;

pub const PLAN_WIDTH: u64 = LIMITS_FROM + OWNERS;

// A row: its head.
pub const PHASE: u64 = 0;

pub const OWNER: u64 = 1;

pub const POSITION: u64 = 2;

pub const READS: u64 = 3;

pub const WRITES: u64 = 4;

pub const TIME: u64 = 5;

pub const HEAD_WIDTH: u64 = 6;

// Its read entries: where the first one's numbers stand, and how far on the next one's do.
pub const READ_ITEM: u64 = HEAD_WIDTH;

pub const READ_VALUE: u64 = READ_ITEM + 1;

pub const KEPT_WRITE: u64 = READ_ITEM + 2;

pub const KEPT_READ: u64 = READ_ITEM + 3;

pub const READ_WIDTH: u64 = 4;

// Its write entries, the same way.
pub const WRITE_ITEM: u64 = READ_ITEM + READ_WIDTH * MOST_READS;

pub const WRITE_VALUE: u64 = WRITE_ITEM + 1;

pub const WRITE_WIDTH: u64 = 2;

// What they come to.
pub const ROW_WIDTH: u64 = WRITE_ITEM + WRITE_WIDTH * MOST_WRITES;

pub const SEATS_LENGTH: u64 = PLAN_WIDTH + ROW_WIDTH * SEATS;

// The phases. Numbers and no enum: document 01's form is a match on the phase number, with a range for damaged phases.
pub const FREE: u64 = 0;

pub const WORKING: u64 = 1;

pub const LOCKING: u64 = 2;

pub const CHECKING: u64 = 3;

pub const STORING: u64 = 4;

// The numbers that no phase has: from this one on.
pub const PAST_PHASES: u64 = STORING + 1;
