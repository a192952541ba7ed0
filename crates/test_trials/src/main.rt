// Random rounds, from a fixed seed, on which ten of the library's calls that take a sheet, all but the one of `test_loss_trials`, are held against the second engine:
// the number that each returns, its answer, and every byte of every buffer that was lent to it or stands beside what was lent.
//
// It prints how many calls gave each number, what the rounds were like, and how many differences there were.
#![tactic(auto)]

mod lent_floors;
mod report;
mod round;

use std::io;
use test_both_engines::counts;
use test_chance::rounds;
use test_damage::faults;

const SEED: u64 = 88172645463325252;

// Right sheets of a shape.
fn right_rounds(
    rt: &impl Print,
    state: &mut u64,
    tally: &mut [u64],
    shape: u32,
    times: u32,
) -> io::Result<()> {
    for _ in 0..times {
        round::play_round(rt, state, tally, shape, 0)?;
    }
    Ok(())
}

// Sheets with a fault, most of them small.
fn damaged_rounds(
    rt: &impl Print,
    state: &mut u64,
    tally: &mut [u64],
    fault: u32,
    times: u32,
) -> io::Result<()> {
    for _ in 0..times {
        let drawn = test_chance::number::up_to(state, 19);
        let shape = drawn % rounds::SHAPES;
        round::play_round(rt, state, tally, shape, fault)?;
    }
    Ok(())
}

fn small_rounds(rt: &impl Print, state: &mut u64, tally: &mut [u64]) -> io::Result<()> {
    right_rounds(rt, state, tally, rounds::SMALL, 6000)?;
    right_rounds(rt, state, tally, rounds::TIES, 2500)?;
    right_rounds(rt, state, tally, rounds::ZERO_BIDS, 2500)?;
    right_rounds(rt, state, tally, rounds::MORE_SLOTS, 2500)
}

fn small_rounds_of_lists(rt: &impl Print, state: &mut u64, tally: &mut [u64]) -> io::Result<()> {
    right_rounds(rt, state, tally, rounds::DOWNWARD, 2500)?;
    right_rounds(rt, state, tally, rounds::EXCLUSIONS, 2500)?;
    right_rounds(rt, state, tally, rounds::CHAINS, 2500)?;
    right_rounds(rt, state, tally, rounds::REPEATS, 2500)
}

fn larger_rounds(rt: &impl Print, state: &mut u64, tally: &mut [u64]) -> io::Result<()> {
    right_rounds(rt, state, tally, rounds::SIX_OR_SEVEN, 40)?;
    right_rounds(rt, state, tally, rounds::EIGHT, 300)?;
    right_rounds(rt, state, tally, rounds::MIDDLE, 300)?;
    right_rounds(rt, state, tally, rounds::LARGE, 200)?;
    right_rounds(rt, state, tally, rounds::LARGEST, 250)
}

// As many for each fault.
fn all_damaged_rounds(rt: &impl Print, state: &mut u64, tally: &mut [u64]) -> io::Result<()> {
    for fault in (1..=faults::FAULTS).rev() {
        damaged_rounds(rt, state, tally, fault, 900)?;
    }
    Ok(())
}

fn main(rt: HostRuntime) -> io::Result<()> {
    let mut state = SEED;
    let mut tally = [0u64; counts::ROOM];
    small_rounds(&rt, &mut state, &mut tally)?;
    small_rounds_of_lists(&rt, &mut state, &mut tally)?;
    larger_rounds(&rt, &mut state, &mut tally)?;
    all_damaged_rounds(&rt, &mut state, &mut tally)?;
    report::all(&rt, &tally)
}
