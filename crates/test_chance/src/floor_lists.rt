// Lists of floors, one for each slot ("place") of a sheet, by document 02's S-7, and what a list is like.
ghost use Rattle.std.specs.Prelude.{◌≡◌, ◌≤◌, slice_index};

use crate::{lists, number, parts};

// "31 for a floor above 1,000,000,000"
pub const MAX_FLOOR: u32 = 1000000000;

// "m, places, 1 to 16"
const MAX_SLOTS: u32 = 16;

// Room for the longest list here, of five floors more than a page has slots, and for a few numbers around it.
pub const ROOM: usize = 32;

// Shapes of a list; any larger number is a mixture.
pub const ZEROS: u32 = 0;

pub const RISING: u32 = 1;

pub const FALLING: u32 = 2;

pub const ABOVE_BIDS: u32 = 3;

pub const OFF_TICK: u32 = 4;

pub const AT_BIDS: u32 = 5;

pub const MIXED: u32 = 6;

// A floor, 0 past the end.
pub fn of(floors: &[u32], at: u32) -> u32
    ensures { result ≡ slice_index floors.now at }
{
    let index = at as usize;
    if index < floors.len() {
        floors[index]
    } else {
        0
    }
}

pub fn set(floors: &mut [u32], at: u32, floor: u32) {
    let index = at as usize;
    if index < floors.len() {
        floors[index] = floor;
    }
}

// The first floors of another list, from a start on.
pub fn paste(from: &[u32], to: &mut [u32], start: u32, count: u32) {
    for at in 0..count {
        set(to, start.wrapping_add(at), of(from, at));
    }
}

// So many floors from a start on, to be lent; all where there are fewer.
pub fn part(floors: &[u32], start: u32, count: u32) -> &[u32] {
    let from = start as usize;
    floors.get(from..from + count as usize).unwrap_or(floors)
}

// The floors that a sheet asks for, also where its m is not allowed.
pub fn count(sheet: &[u8]) -> u32
    ensures { result ≤ 16 }
{
    parts::slots(sheet).min(MAX_SLOTS)
}

// Higher by so much, as far as a floor goes.
fn more(floor: u32, by: u32) -> u32 {
    floor.saturating_add(by).min(MAX_FLOOR)
}

fn bid_of(sheet: &[u8], bidder: u32) -> u32 {
    if bidder == 0 {
        return 0;
    }
    parts::word(sheet, parts::bid_at(sheet, bidder - 1)).min(MAX_FLOOR)
}

fn any_bid(state: &mut u64, sheet: &[u8]) -> u32 {
    let bidder = lists::one_of(state, parts::bidders(sheet));
    bid_of(sheet, bidder)
}

fn highest_bid(sheet: &[u8]) -> u32 {
    let mut highest: u32 = 0;
    for bidder in 1..=parts::bidders(sheet) {
        highest = highest.max(bid_of(sheet, bidder));
    }
    highest
}

fn is_bid(sheet: &[u8], amount: u32) -> bool {
    (1..=parts::bidders(sheet)).any(|bidder| bid_of(sheet, bidder) == amount)
}

// A bid, one more or less than it, or a tick more or less.
fn near_bid(state: &mut u64, sheet: &[u8]) -> u32 {
    let bid = any_bid(state, sheet);
    let tick = parts::tick(sheet);
    let drawn = number::up_to(state, 5);
    match drawn {
        0 | 1 => bid,
        2 => more(bid, 1),
        3 => bid.saturating_sub(1),
        4 => more(bid, tick),
        _ => bid.saturating_sub(tick),
    }
}

// Between two multiples of the tick, below a bid where that is above 0. A tick of 1 has no such floor, and a bid takes its place.
fn off_tick(state: &mut u64, sheet: &[u8]) -> u32 {
    let bid = any_bid(state, sheet);
    let tick = parts::tick(sheet);
    if tick < 2 {
        return bid;
    }
    let by = 1 + number::up_to(state, tick - 2);
    if by < bid {
        return bid - by;
    }
    by.min(MAX_FLOOR)
}

// Above every bid: by 1, by any number, or the highest floor; no more than this where a bid is as high.
fn above_bids(state: &mut u64, sheet: &[u8]) -> u32 {
    let least = more(highest_bid(sheet), 1);
    let drawn = number::up_to(state, 2);
    match drawn {
        0 => least,
        1 => number::between(state, least, MAX_FLOOR),
        _ => MAX_FLOOR,
    }
}

// A floor of a mixture.
fn any(state: &mut u64, sheet: &[u8]) -> u32 {
    let drawn = number::up_to(state, 9);
    match drawn {
        0 | 1 => 0,
        2 | 3 | 4 => near_bid(state, sheet),
        5 => off_tick(state, sheet),
        6 => above_bids(state, sheet),
        7 | 8 => number::up_to(state, highest_bid(sheet)),
        _ => number::up_to(state, MAX_FLOOR),
    }
}

fn one(state: &mut u64, shape: u32, sheet: &[u8]) -> u32 {
    match shape {
        ZEROS => 0,
        ABOVE_BIDS => above_bids(state, sheet),
        OFF_TICK => off_tick(state, sheet),
        AT_BIDS => any_bid(state, sheet),
        _ => any(state, sheet),
    }
}

fn set_each(state: &mut u64, shape: u32, sheet: &[u8], floors: &mut [u32], slots: u32) {
    for at in (0..slots).rev() {
        let floor = one(state, shape, sheet);
        set(floors, at, floor);
    }
}

// The last multiple of the tick that is not above the floor.
fn on_tick(floor: u32, tick: u32) -> u32 {
    if tick == 0 {
        return floor;
    }
    floor - floor % tick
}

// Floors that climb among the bids from the first slot on, or from the last. They keep to multiples of a step.
fn set_climbing(
    state: &mut u64,
    sheet: &[u8],
    floors: &mut [u32],
    slots: u32,
    falling: bool,
    step: u32,
) {
    let highest = highest_bid(sheet);
    let mut floor = number::up_to(state, highest / 2);
    for passed in 0..slots {
        let at = if falling { slots - 1 - passed } else { passed };
        set(floors, at, on_tick(floor, step));
        let by = number::up_to(state, highest / 4 + 1);
        floor = more(floor, by);
    }
}

// The tick, or 1.
fn any_step(state: &mut u64, sheet: &[u8]) -> u32 {
    if number::once_in(state, 2) {
        return 1;
    }
    parts::tick(sheet)
}

// A right list of the shape for a sheet, and its length.
pub fn make(state: &mut u64, shape: u32, sheet: &[u8], floors: &mut [u32]) -> u32
    ensures { result ≤ 16 }
{
    let slots = count(sheet);
    if shape == RISING || shape == FALLING {
        let step = any_step(state, sheet);
        set_climbing(state, sheet, floors, slots, shape == FALLING, step);
    } else {
        set_each(state, shape, sheet, floors, slots);
    }
    slots
}

// Floors among the bids: falling, rising, at bids, between ticks or mixed.
pub fn shape_among_bids(state: &mut u64) -> u32 {
    let drawn = number::up_to(state, 7);
    match drawn {
        0 | 1 => FALLING,
        2 | 3 => RISING,
        4 => AT_BIDS,
        5 => OFF_TICK,
        _ => MIXED,
    }
}

// What can be asked of a floor.
#[derive(Clone, Copy)]
pub enum Test {
    AboveZero,
    AboveBefore,
    BelowBefore,
    AboveBids,
    OffTick,
    AtBid,
    AtLimit,
    JustTooHigh,
    TooHigh,
}

fn is_off_tick(floor: u32, tick: u32) -> bool {
    if tick == 0 {
        return false;
    }
    floor % tick != 0
}

// The floor before, and the floor itself where it is the first.
fn before(floors: &[u32], at: u32) -> u32 {
    if at == 0 {
        return of(floors, 0);
    }
    of(floors, at - 1)
}

fn passes(floors: &[u32], sheet: &[u8], at: u32, test: Test) -> bool {
    let floor = of(floors, at);
    match test {
        Test::AboveZero => 0 < floor,
        Test::AboveBefore => before(floors, at) < floor,
        Test::BelowBefore => floor < before(floors, at),
        Test::AboveBids => highest_bid(sheet) < floor,
        Test::OffTick => is_off_tick(floor, parts::tick(sheet)),
        Test::AtBid => 0 < floor && is_bid(sheet, floor),
        Test::AtLimit => floor == MAX_FLOOR,
        Test::JustTooHigh => floor == MAX_FLOOR + 1,
        Test::TooHigh => MAX_FLOOR < floor,
    }
}

// How many of the first floors pass a test.
pub fn how_many(floors: &[u32], sheet: &[u8], length: u32, test: Test) -> u32 {
    let mut found: u32 = 0;
    for at in 0..length {
        if passes(floors, sheet, at, test) {
            found += 1;
        }
    }
    found
}
