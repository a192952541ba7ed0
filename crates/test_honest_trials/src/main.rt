// Demand 3 of document 01 with the library's own calls: whoever sends a downward monotonic list in place of the true one never gains by
// it, on random rounds from a fixed seed. With other lists it can, and the count of that shows that the comparison could fail.
#![tactic(auto)]

mod compare;
mod counts;
mod other;

use std::io;
use test_chance::rounds;

const SEED: u64 = 2463534242862342531;

// Comparisons on rounds of a shape.
fn comparisons(state: &mut u64, tally: &mut [u64], shape: u32, times: u32) {
    for _ in 0..times {
        compare::one(state, tally, shape);
    }
}

fn plain_shapes(state: &mut u64, tally: &mut [u64]) {
    comparisons(state, tally, rounds::SMALL, 12000);
    comparisons(state, tally, rounds::TIES, 4000);
    comparisons(state, tally, rounds::ZERO_BIDS, 2000);
    comparisons(state, tally, rounds::MORE_SLOTS, 4000);
    comparisons(state, tally, rounds::MIDDLE, 2000);
}

fn list_shapes(state: &mut u64, tally: &mut [u64]) {
    comparisons(state, tally, rounds::DOWNWARD, 4000);
    comparisons(state, tally, rounds::EXCLUSIONS, 4000);
    comparisons(state, tally, rounds::CHAINS, 4000);
    comparisons(state, tally, rounds::REPEATS, 4000);
}

fn main(rt: HostRuntime) -> io::Result<()> {
    let mut state = SEED;
    let mut tally = [0u64; counts::ROOM];
    plain_shapes(&mut state, &mut tally);
    list_shapes(&mut state, &mut tally);
    counts::report(&rt, &tally)
}
