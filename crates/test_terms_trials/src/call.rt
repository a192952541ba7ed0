// What a call is asked: drawn right, and then with faults.
ghost use Rattle.std.specs.Prelude.{◌≤◌};

use test_chance::{calls, lists, number, parts};

// "n, bidders, 1 to 64" and "m, places, 1 to 16"
pub const MAX_BIDDERS: u32 = 64;

pub const MAX_SLOTS: u32 = 16;

// Room for bars, some more than there can be bidders.
pub const BARS_ROOM: usize = 80;

// The call's numbers, and how many bars are lent.
#[derive(Clone, Copy)]
pub struct Call {
    pub n: u32,
    pub m: u32,
    pub owner: u32,
    pub limit: u32,
    pub bars: u32,
}

// A bar: in a list with none, of all slots ("places"), of any number of them, or with few.
fn bar(state: &mut u64, kind: u32, m: u32) -> u32 {
    let drawn = number::up_to(state, m);
    let seldom = number::once_in(state, 4);
    match kind {
        0 => 0,
        1 => m,
        2 | 3 => drawn,
        _ => { if seldom { drawn } else { 0 } }
    }
}

fn set_bars(state: &mut u64, bars: &mut [u8], kind: u32, m: u32) {
    for left in (0..bars.len()).rev() {
        let value = bar(state, kind, m);
        parts::set_byte(bars, left, value);
    }
}

// The bar against a bidder. Bidder 0 has none.
fn set_bar(bars: &mut [u8], bidder: u32, value: u32) {
    if 0 < bidder {
        parts::set_byte(bars, bidder as usize - 1, value);
    }
}

// The strictest limit, none, or any.
fn limit(state: &mut u64, m: u32) -> u32 {
    let drawn = number::up_to(state, 4);
    match drawn {
        0 => 1,
        1 => m,
        _ => lists::one_of(state, m),
    }
}

// A right call for n bidders and m slots.
pub fn right(state: &mut u64, n: u32, m: u32, bars: &mut [u8]) -> Call {
    let kind = number::up_to(state, 5);
    set_bars(state, bars, kind, m);
    let owner = lists::one_of(state, n);
    set_bar(bars, owner, 0);
    Call {
        n,
        m,
        owner,
        limit: limit(state, m),
        bars: n,
    }
}

// Another number of bars: one fewer, one more, none or any.
fn other_length(state: &mut u64, n: u32) -> u32 {
    let drawn = number::up_to(state, 3);
    match drawn {
        0 => { if 0 < n { n - 1 } else { 1 } }
        1 => n.wrapping_add(1),
        2 => 0,
        _ => number::up_to(state, BARS_ROOM as u32),
    }
}

// A bar above m: by 1, or any.
fn too_high(state: &mut u64, m: u32) -> u32 {
    let above = m.wrapping_add(1);
    if number::once_in(state, 2) {
        return above;
    }
    number::between(state, above, 255)
}

fn with_numbers(state: &mut u64, call: Call, fault: u32) -> Call {
    let mut other = call;
    match fault {
        0 => other.n = calls::outside(state, call.n, MAX_BIDDERS),
        1 => other.m = calls::outside(state, call.m, MAX_SLOTS),
        2 => other.owner = calls::outside(state, call.owner, call.n),
        3 => other.limit = calls::outside(state, call.limit, call.m),
        _ => other.bars = other_length(state, call.n),
    }
    other
}

fn with_bars(state: &mut u64, call: Call, bars: &mut [u8], fault: u32) {
    let any = lists::one_of(state, call.n);
    let high = too_high(state, call.m);
    let low = lists::one_of(state, call.m);
    match fault {
        5 => set_bar(bars, any, high),
        6 => set_bar(bars, call.owner, high),
        _ => set_bar(bars, call.owner, low),
    }
}

// The call with one fault more.
pub fn with_fault(state: &mut u64, call: Call, bars: &mut [u8]) -> Call {
    let fault = number::up_to(state, 7);
    if fault < 5 {
        return with_numbers(state, call, fault);
    }
    with_bars(state, call, bars, fault);
    call
}
