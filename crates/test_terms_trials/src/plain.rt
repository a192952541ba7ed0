// A second engine for top-of-page terms, made of document 02's words and for no speed: it goes through all triples of own slot, other bidder and other's slot,
// in rising order of their bytes, and keeps those that the terms give.
ghost use Rattle.std.specs.Prelude.{◌<◌};

use crate::call::{Call, MAX_BIDDERS, MAX_SLOTS};
use test_chance::parts;

// Own slot 0 to 16, other bidder 0 to 64, other's slot 0 to 16: 17 x 65 x 17.
const CONDITIONS: u32 = 18785;

// The bar against a bidder, 0 where the list has none.
fn bar(bars: &[u8], bidder: u32) -> u32 {
    if bidder == 0 {
        return 0;
    }
    parts::byte(bars, bidder as usize - 1)
}

fn is_from_one_to(value: u32, most: u32) -> bool {
    0 < value && value <= most
}

fn has_above(bars: &[u8], m: u32) -> bool {
    bars.iter().any(|bar| m < u32::from(*bar))
}

// "20 for a limit of 0 or above m, 21 for a list of bars not n long or a bar above m, 22 for a bar other than 0 against the owner"
fn terms_rule(call: Call, bars: &[u8]) -> Option<u32> {
    if !is_from_one_to(call.limit, call.m) {
        return Some(20);
    }
    if bars.len() != call.n as usize || has_above(bars, call.m) {
        return Some(21);
    }
    if bar(bars, call.owner) != 0 {
        Some(22)
    } else {
        None
    }
}

// The first rule that is broken, "after 4, 5 and 16".
pub fn rule(call: Call, bars: &[u8]) -> Option<u32> {
    if !is_from_one_to(call.n, MAX_BIDDERS) {
        return Some(4);
    }
    if !is_from_one_to(call.m, MAX_SLOTS) {
        return Some(5);
    }
    if !is_from_one_to(call.owner, call.n) {
        return Some(16);
    }
    terms_rule(call, bars)
}

// "for each rival how many top places it must not have"
fn is_barred(call: Call, bars: &[u8], other: u32, others: u32) -> bool {
    is_from_one_to(other, call.n) && is_from_one_to(others, bar(bars, other))
}

// "the lowest place they accept"
fn is_too_low(call: Call, own: u32) -> bool {
    call.limit < own && own <= call.m
}

// Whether the terms have the condition.
fn has(call: Call, bars: &[u8], own: u32, other: u32, others: u32) -> bool {
    if own == 0 {
        return is_barred(call, bars, other, others);
    }
    other == 0 && others == 0 && is_too_low(call, own)
}

// The list with the condition of this index among all, if the terms have it, and how many it then has.
fn add(call: Call, bars: &[u8], index: u32, list: &mut [u8], count: u32) -> u32 {
    let own = index / 1105;
    let other = index / 17 % 65;
    let others = index % 17;
    if !has(call, bars, own, other, others) {
        return count;
    }
    let at = 4 * count as usize;
    parts::set_byte(list, at, call.owner);
    parts::set_byte(list, at + 1, own);
    parts::set_byte(list, at + 2, other);
    parts::set_byte(list, at + 3, others);
    count.wrapping_add(1)
}

// The terms of a call that breaks no rule, and how many they are.
pub fn write(call: Call, bars: &[u8], list: &mut [u8]) -> u32 {
    let mut count: u32 = 0;
    for index in 0..CONDITIONS {
        count = add(call, bars, index, list, count);
    }
    count
}
