// What the greedy page can lose: the call held against a second engine on random sheets from a fixed seed, by the number that it returns, the factor and the memory
// beside it. The lists of most of the sheets come from the profile "above named rivals", or all but one condition of them.
//
// Wherever there is a factor, what it promises of the page that is played is held against the largest total of all pages and against that of the best page.
#![tactic(auto)]

mod bound;
mod compare;
mod counts;

use std::io;
use test_both_engines::counts::ROUNDS;
use test_chance::{parts, rounds};
use test_rival_sheets::{KINDS, Kind};

const SEED: u64 = 2685821657736338717;

// A sheet of the kind.
fn round(
    rt: &impl Print,
    state: &mut u64,
    tally: &mut [u64],
    shape: u32,
    kind: Kind,
) -> io::Result<()> {
    let mut buffer = [0u8; parts::ROOM];
    let bytes = parts::size(test_rival_sheets::make(state, shape, kind, &mut buffer));
    test_tally::add(tally, ROUNDS);
    compare::both(rt, tally, parts::part(&buffer, 0, bytes), kind)
}

// So many sheets of a shape of each kind, the kinds in turn, the last first.
fn play_rounds(
    rt: &impl Print,
    state: &mut u64,
    tally: &mut [u64],
    shape: u32,
    times: u32,
) -> io::Result<()> {
    for _ in 0..times {
        for kind in KINDS.iter().rev() {
            round(rt, state, tally, shape, *kind)?;
        }
    }
    Ok(())
}

fn main(rt: HostRuntime) -> io::Result<()> {
    let mut state = SEED;
    let mut tally = [0u64; counts::ROOM];
    play_rounds(&rt, &mut state, &mut tally, rounds::SMALL, 2000)?;
    play_rounds(&rt, &mut state, &mut tally, rounds::TIES, 2000)?;
    play_rounds(&rt, &mut state, &mut tally, rounds::MORE_SLOTS, 1000)?;
    play_rounds(&rt, &mut state, &mut tally, rounds::EIGHT, 400)?;
    play_rounds(&rt, &mut state, &mut tally, rounds::MIDDLE, 100)?;
    play_rounds(&rt, &mut state, &mut tally, rounds::LARGE, 100)?;
    play_rounds(&rt, &mut state, &mut tally, rounds::LARGEST, 10)?;
    counts::report(&rt, &tally)
}
