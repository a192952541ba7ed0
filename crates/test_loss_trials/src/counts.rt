// What is counted, and the lines that the program writes. Differences and rounds have the places that `test_both_engines` gives them, after these.
use std::io;
use test_both_engines::counts;
use test_rival_sheets::Kind;

// The calls by the number that they returned, 0 to 31, come first.
const LAST_NUMBER: u32 = 31;

// Sheets by their kind, and of these those with a factor above 0.
const SHEETS: u32 = 32;

const WITH_FACTOR: u32 = 48;

// The factors that were given, 0 to 64, since at most 63 bidders name one rival.
const FACTORS: u32 = 64;

const LAST_FACTOR: u32 = 64;

// Promises about a total above 0, against all pages and against the best page, three counts each: held, met exactly, and with a factor of which one less would
// not keep it.
pub const ALL_PAGES: u32 = 160;

pub const BEST_PAGES: u32 = 163;

pub const ROOM: usize = counts::ROOM;

pub fn after(first: u32, by: u32) -> u32 {
    first.wrapping_add(by)
}

// A call, by its number, the kind of its sheet and, where it is not refused, its factor.
pub fn note(tally: &mut [u64], kind: Kind, number: u32, factor: u32) {
    let accepted = number == 0;
    test_tally::add_if(tally, number <= LAST_NUMBER, number);
    test_tally::add(tally, SHEETS + kind as u32);
    test_tally::add_if(tally, accepted && 0 < factor, WITH_FACTOR + kind as u32);
    test_tally::add_if(tally, accepted, after(FACTORS, factor));
}

// Words, a number and how many times it came, where it did.
fn numbered_line(
    rt: &impl Print,
    tally: &[u64],
    words: &[u8],
    first: u32,
    number: u32,
) -> io::Result<()> {
    let count = test_tally::of(tally, after(first, number));
    if count == 0 {
        return Ok(());
    }
    test_tally::text(rt, words)?;
    test_tally::number(rt, u64::from(number))?;
    test_tally::line(rt, b"", count)
}

// Such a line for each number up to the last.
fn numbered_lines(
    rt: &impl Print,
    tally: &[u64],
    words: &[u8],
    first: u32,
    last: u32,
) -> io::Result<()> {
    for number in 1..=last {
        numbered_line(rt, tally, words, first, number)?;
    }
    Ok(())
}

fn kind_lines(rt: &impl Print, tally: &[u64], words: &[u8], kind: Kind) -> io::Result<()> {
    test_tally::count_line(rt, tally, words, SHEETS + kind as u32)?;
    test_tally::count_line(
        rt,
        tally,
        b"of these, with a factor",
        WITH_FACTOR + kind as u32,
    )
}

fn sheet_lines(rt: &impl Print, tally: &[u64]) -> io::Result<()> {
    kind_lines(rt, tally, b"lists of the profile", Kind::Profile)?;
    kind_lines(
        rt,
        tally,
        b"the same in any order, with repeats",
        Kind::Repeated,
    )?;
    kind_lines(rt, tally, b"one condition missing", Kind::Missing)?;
    kind_lines(
        rt,
        tally,
        b"one condition missing, another in its place",
        Kind::Exchanged,
    )?;
    kind_lines(
        rt,
        tally,
        b"one condition foreign to the profile",
        Kind::Foreign,
    )?;
    kind_lines(rt, tally, b"any lists", Kind::Any)?;
    kind_lines(rt, tally, b"with a fault", Kind::Damaged)
}

fn promise_lines(rt: &impl Print, tally: &[u64], words: &[u8], first: u32) -> io::Result<()> {
    test_tally::count_line(rt, tally, words, first)?;
    test_tally::count_line(
        rt,
        tally,
        b"of these, met exactly by a factor above 1",
        after(first, 1),
    )?;
    test_tally::count_line(
        rt,
        tally,
        b"of these, where one less would not do",
        after(first, 2),
    )
}

pub fn report(rt: &impl Print, tally: &[u64]) -> io::Result<()> {
    test_tally::count_line(rt, tally, b"calls", counts::ROUNDS)?;
    numbered_lines(rt, tally, b"refused ", 0, LAST_NUMBER)?;
    sheet_lines(rt, tally)?;
    test_tally::count_line(rt, tally, b"factor 0", FACTORS)?;
    numbered_lines(rt, tally, b"factor ", FACTORS, LAST_FACTOR)?;
    promise_lines(
        rt,
        tally,
        b"promises held against all pages, total above 0",
        ALL_PAGES,
    )?;
    promise_lines(
        rt,
        tally,
        b"promises held against the best page, total above 0",
        BEST_PAGES,
    )?;
    test_tally::count_line(rt, tally, b"differences", counts::DIFFERENCES)
}
