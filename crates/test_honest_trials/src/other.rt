// The sheet that is sent in place of the honest one: another list of one bidder, and all else as it was.
use test_chance::{lists, number, others, parts};

// A constraint of the bidder's own, two times in three.
fn keep_own(state: &mut u64, honest: &[u8], other: &mut [u8], bidder: u32, constraint: u32) {
    if parts::field(honest, constraint, 0) == bidder && !number::once_in(state, 3) {
        lists::copy(honest, other, constraint);
    }
}

// Some of the bidder's true list.
fn keep_some(state: &mut u64, honest: &[u8], other: &mut [u8], bidder: u32) {
    for constraint in (0..parts::constraints(honest)).rev() {
        keep_own(state, honest, other, bidder, constraint);
    }
}

// No list, a downward monotonic one, any, or what is left of the true one.
fn add_list(state: &mut u64, honest: &[u8], other: &mut [u8], bidder: u32) {
    let times = number::between(state, 1, 4);
    let drawn = number::up_to(state, 7);
    match drawn {
        0 => {}
        1..=4 => {
            for _ in 0..times {
                lists::add_downward(state, other, bidder);
            }
        }
        5 | 6 => {
            for _ in 0..times {
                lists::add_any(state, other, bidder);
            }
        }
        _ => keep_some(state, honest, other, bidder),
    }
}

fn shuffle_at_times(state: &mut u64, other: &mut [u8]) {
    if number::once_in(state, 2) {
        lists::shuffle_free(state, other);
    }
}

// The other sheet, and its length.
pub fn make(state: &mut u64, honest: &[u8], bidder: u32, other: &mut [u8]) -> usize {
    others::make(state, honest, bidder, other);
    add_list(state, honest, other, bidder);
    shuffle_at_times(state, other);
    parts::length(other)
}
