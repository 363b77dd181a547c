// The limits of document 01 and of the requests of document 02 as the code names them. The contracts name them by specs/Limits, so a number that differs
// is refused. (The missing rank is a number in clauses, and the rooms of sheets stand in none.)
// Money is whole thousands of rupees.
#![tactic(auto)]

// "Members are numbered 1 to 64."
pub const MEMBER_LIMIT: usize = 64;

// the same, as the highest member's number
pub const LAST_MEMBER: u64 = MEMBER_LIMIT as u64;

// "1 is most senior, 64 most junior"; document 02, request 2: "The limit of 64 becomes 24 in refusal 15"
pub const RANK_LIMIT: u8 = 24;

// the same, as how many ranks there are
pub const RANKS: usize = RANK_LIMIT as usize;

// "255 missing"
pub const MISSING_RANK: u8 = 255;

// document 02, request 3: "A default may name 1 to 4 pools"
pub const POOL_LIMIT: usize = 4;

// "An amount is 0 to 400,000,000"
pub const AMOUNT_LIMIT: u64 = 400_000_000;

// "Hexadecimal FFFFFFFF means missing."
pub const MISSING_AMOUNT: u32 = 0xffff_ffff;

// "a sum handed alone (..) is 0 to 25,600,000,000"
pub const SUM_LIMIT: u64 = 25_600_000_000;

// "contribution (at least 10,000: one crore, ..)"; the least requirement
pub const CONTRIBUTION_FLOOR: u64 = 10_000;

// "A stress sheet has 1 to 4,096 records: bytes 0-1 day (1 to 184), 2-3 scenario (1 to 64)"
pub const STRESS_LIMIT: usize = 4_096;

pub const DAY_LIMIT: u64 = 184;

pub const SCENARIO_LIMIT: u64 = 64;

// the weak flags that a block may have: the sixth is refused
pub const WEAK_LIMIT: u64 = 5;

// document 02, request 5: "the group, 1 to 64"
pub const GROUP_LIMIT: u64 = 64;

// the largest amount on a printed page
pub const PRINTED_LIMIT: u64 = 26_000_000_000;

// A sheet is read as far as one record more than it may have: with that it is overlong.
pub const STRESS_ROOM: usize = 16 * (STRESS_LIMIT + 1);

pub const MEMBER_ROOM: usize = 16 * (MEMBER_LIMIT + 1);
