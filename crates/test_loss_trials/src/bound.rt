// What a factor promises: so many times the total of the page that is played is at least the total of every page.
use crate::counts;
use std::io;
use test_both_engines::counts::hold;
use test_both_engines::pages;
use test_chance::parts;

// "Playing writes 5 bytes a place to the result buffer", for up to 16 of them.
const PAGE: usize = 80;

// The total of the page that is played, 0 for a sheet that is refused.
fn played(sheet: &[u8]) -> u64 {
    let mut page = [0u8; PAGE];
    pas::pas_play(sheet, &mut page);
    pages::total(sheet, &page, 0, true)
}

// The largest total of all pages, be conditions broken or not: with no condition the highest bids are played in their order, and effects do not rise.
fn largest(sheet: &[u8]) -> u64 {
    let mut free = [0u8; parts::ROOM];
    parts::copy(sheet, &mut free, sheet.len());
    parts::set_half(&mut free, parts::CONSTRAINTS, 0);
    let bytes = parts::size(parts::length(&free));
    played(parts::part(&free, 0, bytes))
}

// The total of the best page, 0 where n or m is too large for it to be sought.
fn best(sheet: &[u8]) -> u64 {
    let mut page = [0u8; PAGE];
    let mut total: u64 = 0;
    pas::pas_best(sheet, &mut page, &mut total);
    total
}

// Whether so many times what was played is at least a total: by division, so that nothing wraps.
fn reaches(times: u32, played: u64, total: u64) -> bool {
    if times == 0 {
        return total == 0;
    }
    let whole = total / u64::from(times);
    let rest = total % u64::from(times);
    whole < played || (whole == played && rest == 0)
}

// Of a factor above 1 it is counted where the promise is met exactly, and where one less would not keep it.
fn note_sharp(tally: &mut [u64], factor: u32, played: u64, total: u64, first: u32) {
    let exact = !reaches(factor, played, total.wrapping_add(1));
    let needed = !reaches(factor.wrapping_sub(1), played, total);
    let can_lose = (1 < factor) & (0 < total);
    test_tally::add_if(tally, can_lose & exact, counts::after(first, 1));
    test_tally::add_if(tally, can_lose & needed, counts::after(first, 2));
}

// The promise against the total of a page, which is counted where there is one.
fn hold_total(
    rt: &impl Print,
    tally: &mut [u64],
    factor: u32,
    played: u64,
    total: u64,
    first: u32,
) -> io::Result<()> {
    hold(rt, tally, reaches(factor, played, total), b"promise")?;
    test_tally::add_if(tally, 0 < total, first);
    note_sharp(tally, factor, played, total, first);
    Ok(())
}

// The promise of a factor other than 0, against all pages and against the best page.
pub fn hold_promise(
    rt: &impl Print,
    tally: &mut [u64],
    sheet: &[u8],
    factor: u32,
) -> io::Result<()> {
    let greedy = played(sheet);
    hold_total(rt, tally, factor, greedy, largest(sheet), counts::ALL_PAGES)?;
    hold_total(rt, tally, factor, greedy, best(sheet), counts::BEST_PAGES)
}
