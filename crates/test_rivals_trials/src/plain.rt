// A second engine for the profile "above named rivals" and for sharing, made of document 02's words and for no speed: it goes through all triples of own slot,
// rival and rival's slot, in rising order of their bytes, and through all orders of the members in dictionary order.
ghost use Rattle.std.specs.Prelude.{◌<◌};

use crate::call::{Call, MAX_BIDDERS, MAX_SLOTS};
use test_chance::parts;

// Own slot 1 to 16, rival 1 to 64, rival's slot 1 to 16.
const TRIPLES: u32 = 16384;

// An order of so many members, none by the rivals, or too many members.
#[derive(Clone, Copy)]
pub enum Shared {
    Order(u32),
    NoOrder,
    TooMany,
}

fn is_from_one_to(value: u32, most: u32) -> bool {
    0 < value && value <= most
}

// "A set is a list of bidder numbers in which a repeat counts once"
fn has(set: &[u8], bidder: u32) -> bool {
    set.iter().any(|named| u32::from(*named) == bidder)
}

// "any set with a number 0 or above n"
fn has_wrong(set: &[u8], n: u32) -> bool {
    set.iter()
        .any(|named| !is_from_one_to(u32::from(*named), n))
}

// Where the set ends whose length stands at an offset. Past the bytes each set has a length of 0.
fn set_end(sets: &[u8], at: u32) -> u32 {
    let bytes = 1 + parts::byte(sets, at as usize);
    at.wrapping_add(bytes)
}

// Where the sets of the first bidders end.
fn end(sets: &[u8], bidders: u32) -> u32 {
    let mut at: u32 = 0;
    for _ in 0..bidders {
        at = set_end(sets, at);
    }
    at
}

// The rival set of a bidder.
pub fn set_of(sets: &[u8], bidder: u32) -> &[u8] {
    let at = end(sets, bidder.wrapping_sub(1));
    let count = parts::byte(sets, at as usize);
    parts::part(sets, at.wrapping_add(1), count)
}

// "23 for rival sets whose bytes are not exactly n sets or for any set with a number 0 or above n, 24 for an owner in its own set"
fn sets_rule(sets: &[u8], n: u32) -> Option<u32> {
    if end(sets, n) as usize != sets.len() {
        return Some(23);
    }
    let mut own = false;
    for bidder in (1..=n).rev() {
        let set = set_of(sets, bidder);
        if has_wrong(set, n) {
            return Some(23);
        }
        own |= has(set, bidder);
    }
    if own { Some(24) } else { None }
}

fn lists_rule(call: Call, list: &[u8], sets: &[u8]) -> Option<u32> {
    if has_wrong(list, call.n) {
        return Some(23);
    }
    if call.sharing {
        return sets_rule(sets, call.n);
    }
    if has(list, call.owner) {
        Some(24)
    } else {
        None
    }
}

// "after 4, 5 and 16"; but for 25 and 19.
pub fn rule(call: Call, list: &[u8], sets: &[u8]) -> Option<u32> {
    if !is_from_one_to(call.n, MAX_BIDDERS) {
        return Some(4);
    }
    if !is_from_one_to(call.m, MAX_SLOTS) {
        return Some(5);
    }
    if !call.sharing && !is_from_one_to(call.owner, call.n) {
        return Some(16);
    }
    lists_rule(call, list, sets)
}

// The list with the triple of this index, if "the rival's place is above the owner's", and how many conditions it then has.
fn add(call: Call, rivals: &[u8], index: u32, list: &mut [u8], count: u32) -> u32 {
    let own = index / 1024 + 1;
    let other = index / 16 % 64 + 1;
    let others = index % 16 + 1;
    if own <= others || call.m < own || !has(rivals, other) {
        return count;
    }
    let at = 4 * count as usize;
    parts::set_byte(list, at, call.owner);
    parts::set_byte(list, at + 1, own);
    parts::set_byte(list, at + 2, other);
    parts::set_byte(list, at + 3, others);
    count.wrapping_add(1)
}

// The conditions of a call that breaks no rule, as far as there is room, and how many they are.
pub fn write(call: Call, rivals: &[u8], list: &mut [u8]) -> u32 {
    let mut count: u32 = 0;
    for index in 0..TRIPLES {
        count = add(call, rivals, index, list, count);
    }
    count
}

// A list with a bidder more, if it is a member, and how many it then has.
fn add_member(members: &[u8], bidder: u32, list: &mut [u8], count: u32) -> u32 {
    if has(members, bidder) {
        parts::set_byte(list, count as usize, bidder);
        return count.wrapping_add(1);
    }
    count
}

// The members in rising order, and how many they are.
fn rising(members: &[u8], list: &mut [u8]) -> u32 {
    let mut count: u32 = 0;
    for bidder in 1..=MAX_BIDDERS {
        count = add_member(members, bidder, list, count);
    }
    count
}

// How many orders so many members have. No more than 6 are lent.
fn orders(count: u32) -> u32
    ensures { 0 < result }
{
    match count {
        0 | 1 => 1,
        2 => 2,
        3 => 6,
        4 => 24,
        5 => 120,
        _ => 720,
    }
}

// Takes out one of those that are left, and each after it moves up.
fn take(left: &mut [u8], index: u32) -> u32 {
    let bidder = parts::byte(left, index as usize);
    for at in index as usize..left.len() {
        let next = parts::byte(left, at + 1);
        parts::set_byte(left, at, next);
    }
    bidder
}

// The order with this index among all in dictionary order: so many begin with the lowest, as many with the next one, and so on.
fn set_order(members: &[u8], count: u32, index: u32, order: &mut [u8]) {
    let mut left = [0u8; 8];
    parts::copy(members, &mut left, 8);
    let mut rest = index;
    for slot in 0..count {
        let each = orders(count - slot - 1);
        let bidder = take(&mut left, rest / each);
        parts::set_byte(order, slot as usize, bidder);
        rest %= each;
    }
}

// "some order of them puts each above every rival of its own in the set"
fn is_fine(sets: &[u8], order: &[u8]) -> bool {
    for (slot, bidder) in order.iter().enumerate() {
        let rivals = set_of(sets, u32::from(*bidder));
        if order[..slot]
            .iter()
            .any(|above| has(rivals, u32::from(*above)))
        {
            return false;
        }
    }
    true
}

// The first such order, of how many members, or why there is none.
pub fn share(call: Call, lent: &[u8], sets: &[u8], order: &mut [u8]) -> Shared {
    let mut members = [0u8; 64];
    let count = rising(lent, &mut members);
    if call.m < count {
        return Shared::TooMany;
    }
    for index in 0..orders(count) {
        set_order(&members, count, index, order);
        if is_fine(sets, parts::part(order, 0, count)) {
            return Shared::Order(count);
        }
    }
    Shared::NoOrder
}
