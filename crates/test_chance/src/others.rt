// A sheet without one bidder's list, for another list in its place. "Two sheets differ only in one bidder's list when n, m, effects, bids and,
// for each other owner, the set of conditions are equal." "both sheets have the same tick", and where that is 1 either may be of either version.
use crate::{lists, number, parts};

// A version that has the tick.
fn version_with(state: &mut u64, tick: u32) -> u32 {
    if tick == 1 {
        return number::between(state, 1, parts::TICK_VERSION);
    }
    parts::TICK_VERSION
}

// The tick, the counts n and m, the effects and the bids.
fn copy_front(state: &mut u64, honest: &[u8], other: &mut [u8]) {
    let tick = parts::tick(honest);
    let version = version_with(state, tick);
    parts::rewrite(honest, other, version, tick);
    parts::set_half(other, parts::CONSTRAINTS, 0);
}

// A constraint of another bidder, at times twice in version 1.
fn copy_of_another(state: &mut u64, honest: &[u8], other: &mut [u8], bidder: u32, constraint: u32) {
    if parts::field(honest, constraint, 0) == bidder {
        return;
    }
    lists::copy(honest, other, constraint);
    if number::once_in(state, 8) {
        lists::copy(honest, other, constraint);
    }
}

fn copy_others(state: &mut u64, honest: &[u8], other: &mut [u8], bidder: u32) {
    for constraint in (0..parts::constraints(honest)).rev() {
        copy_of_another(state, honest, other, bidder, constraint);
    }
}

// All of the sheet but the bidder's list.
pub fn make(state: &mut u64, honest: &[u8], bidder: u32, other: &mut [u8]) {
    copy_front(state, honest, other);
    copy_others(state, honest, other, bidder);
}
