// Top-of-page terms held against a second engine, on random calls from a fixed seed: the number that the call returns, the count, and every
// byte of the buffer that was lent or stands beside what was lent.
//
// Then "every list written is downward monotonic for that m, so on a sheet with that n and m demand 3 holds for it as the list sent instead":
// each list of a call that has n and m from a random sheet is put on that sheet in place of the owner's own.
#![tactic(auto)]

mod call;
mod compare;
mod counts;
mod plain;
mod sent;

use std::io;
use test_chance::rounds;

const SEED: u64 = 7046029254386353131;

// Calls with n and m of their own, with some faults or none.
fn calls(
    rt: &impl Print,
    state: &mut u64,
    tally: &mut [u64],
    faults: u32,
    times: u32,
) -> io::Result<()> {
    for _ in 0..times {
        compare::alone(rt, state, tally, faults)?;
    }
    Ok(())
}

// Calls with the n and m of a sheet of the shape.
fn lists(
    rt: &impl Print,
    state: &mut u64,
    tally: &mut [u64],
    shape: u32,
    times: u32,
) -> io::Result<()> {
    for _ in 0..times {
        sent::on_sheet(rt, state, tally, shape)?;
    }
    Ok(())
}

fn small_lists(rt: &impl Print, state: &mut u64, tally: &mut [u64]) -> io::Result<()> {
    lists(rt, state, tally, rounds::SMALL, 4000)?;
    lists(rt, state, tally, rounds::TIES, 2000)?;
    lists(rt, state, tally, rounds::ZERO_BIDS, 1000)?;
    lists(rt, state, tally, rounds::MORE_SLOTS, 2000)
}

fn other_lists(rt: &impl Print, state: &mut u64, tally: &mut [u64]) -> io::Result<()> {
    lists(rt, state, tally, rounds::DOWNWARD, 1000)?;
    lists(rt, state, tally, rounds::EXCLUSIONS, 1000)?;
    lists(rt, state, tally, rounds::CHAINS, 1000)?;
    lists(rt, state, tally, rounds::MIDDLE, 2000)?;
    lists(rt, state, tally, rounds::LARGE, 500)
}

fn main(rt: HostRuntime) -> io::Result<()> {
    let mut state = SEED;
    let mut tally = [0u64; counts::ROOM];
    calls(&rt, &mut state, &mut tally, 0, 6000)?;
    calls(&rt, &mut state, &mut tally, 1, 20000)?;
    calls(&rt, &mut state, &mut tally, 2, 20000)?;
    calls(&rt, &mut state, &mut tally, 4, 10000)?;
    small_lists(&rt, &mut state, &mut tally)?;
    other_lists(&rt, &mut state, &mut tally)?;
    counts::report(&rt, &tally)
}
