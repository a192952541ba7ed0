// What a call is asked: drawn right, and then with faults.
ghost use Rattle.std.specs.Prelude.{◌≤◌};

use test_chance::{calls, lists, number, parts};

// "n, bidders, 1 to 64" and "m, places, 1 to 16"
pub const MAX_BIDDERS: u32 = 64;

pub const MAX_SLOTS: u32 = 16;

// Room for rivals or members, and for the rival sets of all bidders.
pub const LIST_ROOM: usize = 80;

pub const SETS_ROOM: usize = 640;

// No more members are lent, since the second engine tries all their orders.
const MOST_MEMBERS: u32 = 6;

// A call of the profile, which names an owner, or of sharing, which has rival sets: its numbers, how many rivals or members are lent, and how many bytes of sets.
// Kept: an enum of the two kinds would be no plainer, since a fault may give either kind another owner or other bytes.
#[derive(Clone, Copy)]
pub struct Call {
    pub sharing: bool,
    pub n: u32,
    pub m: u32,
    pub owner: u32,
    pub listed: u32,
    pub bytes: u32,
}

// A bidder that is not the owner. Where there is no other, it is the owner.
fn another(state: &mut u64, n: u32, owner: u32) -> u32 {
    let drawn = lists::one_of(state, n);
    if drawn != owner {
        return drawn;
    }
    if drawn < n {
        return drawn + 1;
    }
    1
}

// Bidders other than the owner, from an offset on, some of them at times twice.
fn set_bidders(state: &mut u64, list: &mut [u8], start: u32, count: u32, n: u32, owner: u32) {
    for left in (0..count).rev() {
        let bidder = another(state, n, owner);
        parts::set_byte(list, start as usize + left as usize, bidder);
    }
}

// How many numbers a rival set has. Where there are no rivals it has none.
fn how_many(state: &mut u64, n: u32, most: u32) -> u32
    ensures { result ≤ most }
{
    if n < 2 {
        return 0;
    }
    number::up_to(state, most)
}

// The rival set of a bidder at an offset, and where it ends.
fn set_set(state: &mut u64, sets: &mut [u8], at: u32, n: u32, owner: u32, most: u32) -> u32 {
    let count = how_many(state, n, most);
    let start = at.wrapping_add(1);
    parts::set_byte(sets, at as usize, count);
    set_bidders(state, sets, start, count, n, owner);
    start.wrapping_add(count)
}

// A rival set for each bidder, one after another, and how many bytes they take.
fn set_sets(state: &mut u64, sets: &mut [u8], n: u32, most: u32) -> u32 {
    let mut at: u32 = 0;
    for owner in 1..=n {
        at = set_set(state, sets, at, n, owner, most);
    }
    at
}

// A right call of the profile, unless there are too many conditions. The rivals are few or many.
fn profile(state: &mut u64, n: u32, m: u32, list: &mut [u8]) -> Call {
    let owner = lists::one_of(state, n);
    let most = if number::once_in(state, 3) { 70 } else { 4 };
    let listed = how_many(state, n, most);
    set_bidders(state, list, 0, listed, n, owner);
    Call {
        sharing: false,
        n,
        m,
        owner,
        listed,
        bytes: 0,
    }
}

// A right call of sharing.
pub fn sharing(state: &mut u64, n: u32, m: u32, list: &mut [u8], sets: &mut [u8]) -> Call {
    let listed = number::up_to(state, MOST_MEMBERS);
    set_bidders(state, list, 0, listed, n, 0);
    let most = number::up_to(state, 3);
    let bytes = set_sets(state, sets, n, most);
    Call {
        sharing: true,
        n,
        m,
        owner: 0,
        listed,
        bytes,
    }
}

pub fn right(
    state: &mut u64,
    shared: bool,
    n: u32,
    m: u32,
    list: &mut [u8],
    sets: &mut [u8],
) -> Call {
    if shared {
        return sharing(state, n, m, list, sets);
    }
    profile(state, n, m, list)
}

// A number that may be wrong in a set: 0, one too high, the owner, any bidder or any byte.
fn doubtful(state: &mut u64, call: Call) -> u32 {
    let drawn = number::up_to(state, 4);
    match drawn {
        0 => 0,
        1 => call.n.wrapping_add(1),
        2 => call.owner,
        3 => lists::one_of(state, call.n),
        _ => number::up_to(state, 255),
    }
}

// A byte less or more, or any number of them.
fn other_length(state: &mut u64, bytes: u32) -> u32 {
    let drawn = number::up_to(state, 2);
    match drawn {
        0 => { if 0 < bytes { bytes - 1 } else { 1 } }
        1 => bytes.wrapping_add(1),
        _ => number::up_to(state, SETS_ROOM as u32),
    }
}

fn with_numbers(state: &mut u64, call: Call, fault: u32) -> Call {
    let mut other = call;
    match fault {
        0 => other.n = calls::outside(state, call.n, MAX_BIDDERS),
        1 => other.m = calls::outside(state, call.m, MAX_SLOTS),
        2 => other.owner = calls::outside(state, call.owner, call.n),
        _ => other.bytes = other_length(state, call.bytes),
    }
    other
}

// The call with one fault more. Of the sets any byte may change, a length too; or the last bidder comes into its own set, where that has rivals.
pub fn with_fault(state: &mut u64, call: Call, list: &mut [u8], sets: &mut [u8]) -> Call {
    let fault = number::up_to(state, 8);
    if fault < 4 {
        return with_numbers(state, call, fault);
    }
    let value = doubtful(state, call);
    let at = number::up_to(state, call.bytes);
    let last = call.bytes.wrapping_sub(1);
    match fault {
        4 | 5 => parts::set_byte(list, number::up_to(state, call.listed) as usize, value),
        6 | 7 => parts::set_byte(sets, at as usize, value),
        _ => parts::set_byte(sets, last as usize, call.n),
    }
    call
}
