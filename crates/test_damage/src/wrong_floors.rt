// Lists of floors that are turned away: too short or too long, with a floor above the limit, or both.
use test_chance::{floor_lists, number};

// Faults, each by its number.
pub const LENGTH: u32 = 1;

pub const TOO_HIGH: u32 = 2;

pub const BOTH: u32 = 3;

pub const FAULTS: u32 = 3;

// "30 for a list that is not m long and 31 for a floor above 1,000,000,000", in this order.
pub fn rule(fault: u32) -> u32 {
    match fault {
        LENGTH | BOTH => 30,
        TOO_HIGH => 31,
        _ => 0,
    }
}

// Another length: none, one fewer, one more, or up to five more.
fn wrong_length(state: &mut u64, length: u32) -> u32 {
    let drawn = number::up_to(state, 3);
    let by = 1 + number::up_to(state, 4);
    match drawn {
        0 => 0,
        1 => length.saturating_sub(1),
        2 => after(length, 1),
        _ => after(length, by),
    }
}

fn after(length: u32, by: u32) -> u32 {
    if length <= 16 && by <= 5 {
        return length + by;
    }
    length
}

// Just above the limit, any above it, or the highest number.
fn too_high(state: &mut u64) -> u32 {
    let drawn = number::up_to(state, 2);
    match drawn {
        0 => floor_lists::MAX_FLOOR + 1,
        1 => number::between(state, floor_lists::MAX_FLOOR + 1, 4294967295),
        _ => 4294967295,
    }
}

// The first slot, the last or any.
fn any_place(state: &mut u64, length: u32) -> u32 {
    let drawn = number::up_to(state, 2);
    match drawn {
        0 => 0,
        1 => length.saturating_sub(1),
        _ => number::up_to(state, length.saturating_sub(1)),
    }
}

fn raise(state: &mut u64, list: &mut [u32], length: u32) {
    let at = any_place(state, length);
    let floor = too_high(state);
    floor_lists::set(list, at, floor);
}

// The fault in a right list of so many floors, and the length after it. No fault where it is 0.
pub fn damage(state: &mut u64, list: &mut [u32], fault: u32, length: u32) -> u32 {
    let mut changed = length;
    if fault == LENGTH || fault == BOTH {
        changed = wrong_length(state, length);
    }
    if fault == TOO_HIGH || fault == BOTH {
        raise(state, list, changed);
    }
    changed
}
