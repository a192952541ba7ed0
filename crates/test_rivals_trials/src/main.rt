// The profile "above named rivals" and sharing held against a second engine, on random calls from a fixed seed: the number that a call returns, the count or the
// answer, and every byte of the buffer that was lent or stands beside what was lent.
//
// Then sheets whose lists all come from the profile: each is accepted, its lists are downward monotonic, and what sharing answers is held against its pages.
#![tactic(auto)]

mod call;
mod compare;
mod counts;
mod page;
mod plain;

use std::io;
use test_chance::rounds;

const SEED: u64 = 4101842887655102017;

// Calls with up to so many bidders and with some faults or none.
fn calls(
    rt: &impl Print,
    state: &mut u64,
    tally: &mut [u64],
    sharing: bool,
    most: u32,
    faults: u32,
    times: u32,
) -> io::Result<()> {
    for _ in 0..times {
        compare::alone(rt, state, tally, sharing, most, faults)?;
    }
    Ok(())
}

// Sheets of a shape with lists from the profile.
fn sheets(
    rt: &impl Print,
    state: &mut u64,
    tally: &mut [u64],
    shape: u32,
    times: u32,
) -> io::Result<()> {
    for _ in 0..times {
        page::on_sheet(rt, state, tally, shape)?;
    }
    Ok(())
}

// Calls of one kind, without faults and with them.
fn all_calls(
    rt: &impl Print,
    state: &mut u64,
    tally: &mut [u64],
    sharing: bool,
    most: u32,
) -> io::Result<()> {
    calls(rt, state, tally, sharing, most, 0, 4000)?;
    calls(rt, state, tally, sharing, most, 1, 6000)?;
    calls(rt, state, tally, sharing, most, 2, 5000)?;
    calls(rt, state, tally, sharing, most, 4, 3000)
}

fn main(rt: HostRuntime) -> io::Result<()> {
    let mut state = SEED;
    let mut tally = [0u64; counts::ROOM];
    all_calls(&rt, &mut state, &mut tally, false, 64)?;
    all_calls(&rt, &mut state, &mut tally, true, 6)?;
    calls(&rt, &mut state, &mut tally, true, 8, 0, 6000)?;
    calls(&rt, &mut state, &mut tally, true, 64, 1, 6000)?;
    sheets(&rt, &mut state, &mut tally, rounds::SMALL, 4000)?;
    sheets(&rt, &mut state, &mut tally, rounds::MIDDLE, 500)?;
    counts::report(&rt, &tally)
}
