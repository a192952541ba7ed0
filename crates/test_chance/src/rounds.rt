// Right sheets of both versions, each of a shape that asks something else of an engine.
ghost use Rattle.std.specs.Prelude.{◌*◌, ◌<◌, ◌≤◌};

use crate::{lists, number, parts};

// Shapes. The first eight are small.
// Kept: no enum, since the programs draw and count the shapes by number.
pub const SMALL: u32 = 0;

pub const TIES: u32 = 1;

pub const ZERO_BIDS: u32 = 2;

pub const MORE_SLOTS: u32 = 3;

pub const DOWNWARD: u32 = 4;

pub const EXCLUSIONS: u32 = 5;

pub const CHAINS: u32 = 6;

pub const REPEATS: u32 = 7;

pub const SIX_OR_SEVEN: u32 = 8;

pub const EIGHT: u32 = 9;

pub const MIDDLE: u32 = 10;

pub const LARGE: u32 = 11;

pub const LARGEST: u32 = 12;

pub const SHAPES: u32 = 13;

// "effect of places 1 to m, 1 to 1,000,000"
const MAX_EFFECT: u32 = 1000000;

// "bid of bidders 1 to n, 0 to 1,000,000,000", and the largest worth.
const MAX_BID: u32 = 1000000000;

// "a tick of 0 or above 1,000,000,000" is turned away.
pub const MAX_TICK: u32 = 1000000000;

// "n, bidders, 1 to 64"
fn bidder_count(state: &mut u64, shape: u32) -> u32 {
    match shape {
        MORE_SLOTS => number::between(state, 1, 3),
        SIX_OR_SEVEN => number::between(state, 6, 7),
        EIGHT => 8,
        MIDDLE => number::between(state, 9, 20),
        LARGE => number::between(state, 1, 64),
        LARGEST => 64,
        _ => number::between(state, 1, 5),
    }
}

// "m, places, 1 to 16"
fn slot_count(state: &mut u64, shape: u32) -> u32 {
    match shape {
        MORE_SLOTS => number::between(state, 4, 7),
        SIX_OR_SEVEN => number::between(state, 6, 7),
        EIGHT | MIDDLE => 8,
        LARGE => number::between(state, 1, 16),
        LARGEST => 16,
        _ => number::between(state, 1, 5),
    }
}

// How many constraints a shape aims at.
fn aim(state: &mut u64, shape: u32) -> u32 {
    match shape {
        SIX_OR_SEVEN | EIGHT => number::up_to(state, 24),
        MIDDLE => number::between(state, 30, 60),
        LARGE => number::up_to(state, 1024),
        LARGEST => 1024,
        _ => number::up_to(state, 12),
    }
}

// A version, and a tick that a sheet of it may have.
#[derive(Clone, Copy)]
pub struct Steps {
    pub version: u32,
    pub tick: u32,
}

// A tick above 1: small, large, any or the largest.
fn tick_above_one(state: &mut u64) -> u32
    ensures { (1 < result) × (result ≤ 1000000000) }
{
    let drawn = number::up_to(state, 5);
    match drawn {
        0 | 1 => 2 + number::up_to(state, 7),
        2 | 3 => 10000 + number::up_to(state, 49990000),
        4 => 2 + number::up_to(state, MAX_TICK - 2),
        _ => MAX_TICK,
    }
}

// Version 2 with a tick above 1.
pub fn steps_above_one(state: &mut u64) -> Steps
    ensures { 0 < result.tick }
{
    Steps {
        version: parts::TICK_VERSION,
        tick: tick_above_one(state),
    }
}

// Version 2 with any tick, 1 once in four times.
pub fn steps_in_ticks(state: &mut u64) -> Steps
    ensures { 0 < result.tick }
{
    if number::once_in(state, 4) {
        return Steps {
            version: parts::TICK_VERSION,
            tick: 1,
        };
    }
    steps_above_one(state)
}

// Version 1 once in two times.
pub fn any_steps(state: &mut u64) -> Steps
    ensures { 0 < result.tick }
{
    if number::once_in(state, 2) {
        return Steps {
            version: 1,
            tick: 1,
        };
    }
    steps_in_ticks(state)
}

// The largest effect, and the most by which the next one is lower.
#[derive(Clone, Copy)]
struct Effects {
    first: u32,
    fall: u32,
}

// Flat or falling, small, any or at the ends of what is allowed.
fn effects_of(state: &mut u64) -> Effects {
    let drawn = number::up_to(state, 5);
    match drawn {
        0 => Effects { first: 1, fall: 0 },
        1 => Effects {
            first: MAX_EFFECT,
            fall: 0,
        },
        2 => Effects {
            first: MAX_EFFECT,
            fall: 200000,
        },
        3 => Effects {
            first: number::between(state, 1, MAX_EFFECT),
            fall: 90000,
        },
        _ => Effects {
            first: number::between(state, 1, 12),
            fall: 3,
        },
    }
}

// Lower by so much, and never below 1.
fn lower(value: u32, fall: u32) -> u32 {
    value.saturating_sub(fall).max(1)
}

// The effects from the first, each at most `fall` below the one before.
fn set_effects(state: &mut u64, buf: &mut [u8], first: u32, fall: u32) {
    let mut effect = first;
    for slot in 0..parts::slots(buf) {
        let at = parts::effect_at(buf, slot);
        parts::set_word(buf, at, effect);
        let by = number::up_to(state, fall);
        effect = lower(effect, by);
    }
}

// The largest bid that a shape asks for, in ticks. Below 9 there are many ties.
fn highest(state: &mut u64, shape: u32) -> u32 {
    match shape {
        SMALL | ZERO_BIDS => 8,
        TIES => number::between(state, 1, 2),
        _ => {
            let drawn = number::up_to(state, 3);
            match drawn {
                0 => 8,
                1 => 1000,
                2 => 40,
                _ => MAX_BID,
            }
        }
    }
}

// So many ticks, or as many as the largest bid has where that is fewer.
fn most_ticks(wanted: u32, tick: u32) -> u32
    requires { 0 < tick }
    ensures { result * tick ≤ 1000000000 }
{
    wanted.min(MAX_BID / tick)
}

// "Every bid is a multiple of the tick.": 0 as many times in eight as said, once in eight the largest, else any.
fn bid(state: &mut u64, tick: u32, most: u32, zeros: u32) -> u32
    requires { most * tick ≤ 1000000000 }
{
    let drawn = number::up_to(state, 7);
    if drawn < zeros {
        return 0;
    }
    if drawn == 7 {
        return most * tick;
    }
    number::up_to(state, most) * tick
}

fn set_bids(state: &mut u64, buf: &mut [u8], tick: u32, most: u32, zeros: u32)
    requires { most * tick ≤ 1000000000 }
{
    for bidder in (0..parts::bidders(buf)).rev() {
        let value = bid(state, tick, most, zeros);
        let at = parts::bid_at(buf, bidder);
        parts::set_word(buf, at, value);
    }
}

// The mark, n, m and no constraint, in a version.
fn set_header(buf: &mut [u8], bidders: u32, slots: u32, version: u32, tick: u32) {
    parts::set_word(buf, 0, 0x00534150);
    parts::set_byte(buf, parts::BIDDERS, bidders);
    parts::set_byte(buf, parts::SLOTS, slots);
    parts::set_half(buf, parts::CONSTRAINTS, 0);
    parts::set_version(buf, version, tick);
}

// The lists that a shape asks for.
fn lists_of(state: &mut u64, shape: u32) -> u32 {
    match shape {
        SMALL => lists::ANY,
        DOWNWARD => lists::DOWNWARD,
        EXCLUSIONS => lists::EXCLUSIONS,
        CHAINS => lists::CHAINS,
        REPEATS => lists::REPEATS,
        LARGEST => lists::MIXED,
        _ => number::up_to(state, lists::MIXED),
    }
}

fn set_effects_of(state: &mut u64, buf: &mut [u8]) {
    let effects = effects_of(state);
    let first = effects.first;
    let fall = effects.fall;
    set_effects(state, buf, first, fall);
}

// The bids that a shape asks for.
fn set_bids_of(state: &mut u64, shape: u32, buf: &mut [u8], tick: u32)
    requires { 0 < tick }
{
    let most = most_ticks(highest(state, shape), tick);
    let zeros = if shape == ZERO_BIDS { 5 } else { 1 };
    set_bids(state, buf, tick, most, zeros);
}

fn set_lists(state: &mut u64, shape: u32, buf: &mut [u8]) {
    let kind = lists_of(state, shape);
    let count = aim(state, shape);
    lists::add_lists(state, buf, kind, count);
    if number::once_in(state, 2) {
        lists::shuffle_free(state, buf);
    }
}

// A right sheet of the shape at the buffer's start, and its length.
pub fn make(state: &mut u64, shape: u32, buf: &mut [u8]) -> usize
    ensures { result < 34359738368 }
{
    let bidders = bidder_count(state, shape);
    let slots = slot_count(state, shape);
    let steps = any_steps(state);
    let tick = steps.tick;
    set_header(buf, bidders, slots, steps.version, tick);
    set_effects_of(state, buf);
    set_bids_of(state, shape, buf, tick);
    set_lists(state, shape, buf);
    parts::length(buf)
}

// Another version or tick in place of the right sheet's own, with other bids and with its conditions as the version wants them, and its new
// length.
pub fn retick(state: &mut u64, buf: &mut [u8], steps: Steps) -> usize
    requires { 0 < steps.tick }
    ensures { result < 34359738368 }
{
    let mut space = [0u8; parts::ROOM];
    let kept: &mut [u8] = &mut space;
    let tick = steps.tick;
    parts::copy(buf, kept, parts::length(buf));
    parts::rewrite(kept, buf, steps.version, tick);
    lists::copy_all(kept, buf);
    set_bids_of(state, SMALL, buf, tick);
    parts::length(buf)
}

fn bid_of(sheet: &[u8], bidder: u32) -> u32 {
    if bidder == 0 {
        return 0;
    }
    parts::word(sheet, parts::bid_at(sheet, bidder - 1))
}

// "v is the same and not below i's bid": the bid itself, a little more or any more.
pub fn worth(state: &mut u64, sheet: &[u8], bidder: u32) -> u32 {
    let bid = bid_of(sheet, bidder);
    let little = number::up_to(state, 3);
    let drawn = number::up_to(state, 2);
    if MAX_BID - 3 < bid {
        return bid;
    }
    match drawn {
        0 => bid,
        1 => bid + little,
        _ => number::between(state, bid, MAX_BID),
    }
}
