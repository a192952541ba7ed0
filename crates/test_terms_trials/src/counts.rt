// What is counted, and the lines that the program writes.

use std::io;

// The calls by the number that they returned, 0 to 22, come first.
// Kept: these numbers are places in one tally, so an enum of the others would be no plainer.
const NUMBERS: u32 = 23;

pub const DIFFERENCES: u32 = 23;

// All calls.
pub const CALLS: u32 = 24;

// Lists by what is in them, and at the ends of what is possible.
pub const EMPTY: u32 = 25;

pub const BARS_ALONE: u32 = 26;

pub const LIMIT_ALONE: u32 = 27;

pub const BOTH: u32 = 28;

pub const LONGEST: u32 = 29;

pub const JUST_ROOM: u32 = 30;

pub const BYTE_SHORT: u32 = 31;

// Lists on sheets.
pub const SHEETS: u32 = 32;

pub const FULL: u32 = 33;

pub const DOWNWARD: u32 = 34;

pub const PARTS: u32 = 35;

// Comparisons of gains, four counts each: that the honest list pays more, the same and less, and with a gain other than 0 in one of the two.
pub const WITHOUT_FLOORS: u32 = 36;

pub const WITH_FLOORS: u32 = 40;

pub const MORE: u32 = 0;

pub const SAME: u32 = 1;

pub const LESS: u32 = 2;

pub const GAINED: u32 = 3;

pub const ROOM: usize = 44;

// A call, by its number. No call has another one.
pub fn add_call(tally: &mut [u64], number: u32) {
    test_tally::add(tally, CALLS);
    if number < NUMBERS {
        test_tally::add(tally, number);
    } else {
        test_tally::add(tally, DIFFERENCES);
    }
}

// A difference is counted, and a line names it and the call, so that it can be found.
pub fn hold(rt: &impl Print, tally: &mut [u64], same: bool, name: &[u8]) -> io::Result<()> {
    if same {
        return Ok(());
    }
    test_tally::add(tally, DIFFERENCES);
    test_tally::text(rt, b"difference: ")?;
    test_tally::text(rt, name)?;
    test_tally::count_line(rt, tally, b", call", CALLS)
}

fn refused_lines(rt: &impl Print, tally: &[u64]) -> io::Result<()> {
    test_tally::count_line(rt, tally, b"refused 4", 4)?;
    test_tally::count_line(rt, tally, b"refused 5", 5)?;
    test_tally::count_line(rt, tally, b"refused 16", 16)?;
    test_tally::count_line(rt, tally, b"refused 20", 20)?;
    test_tally::count_line(rt, tally, b"refused 21", 21)?;
    test_tally::count_line(rt, tally, b"refused 22", 22)?;
    test_tally::count_line(rt, tally, b"refused 19", 19)?;
    test_tally::count_line(rt, tally, b"of these, for want of a byte", BYTE_SHORT)
}

fn list_lines(rt: &impl Print, tally: &[u64]) -> io::Result<()> {
    test_tally::count_line(rt, tally, b"lists written", 0)?;
    test_tally::count_line(rt, tally, b"of these, with no condition", EMPTY)?;
    test_tally::count_line(rt, tally, b"of these, by bars alone", BARS_ALONE)?;
    test_tally::count_line(rt, tally, b"of these, by the limit alone", LIMIT_ALONE)?;
    test_tally::count_line(rt, tally, b"of these, by both", BOTH)?;
    test_tally::count_line(rt, tally, b"of these, with 1023 conditions", LONGEST)?;
    test_tally::count_line(rt, tally, b"of these, in just their room", JUST_ROOM)
}

fn gain_lines(rt: &impl Print, tally: &[u64], words: &[u8], first: u32) -> io::Result<()> {
    test_tally::text(rt, words)?;
    test_tally::text(rt, b"\n")?;
    test_tally::count_line(
        rt,
        tally,
        b"the honest list pays more",
        first.wrapping_add(MORE),
    )?;
    test_tally::count_line(rt, tally, b"both pay the same", first.wrapping_add(SAME))?;
    test_tally::count_line(
        rt,
        tally,
        b"the honest list pays less",
        first.wrapping_add(LESS),
    )?;
    test_tally::count_line(
        rt,
        tally,
        b"one of the two gains is not 0",
        first.wrapping_add(GAINED),
    )
}

pub fn report(rt: &impl Print, tally: &[u64]) -> io::Result<()> {
    test_tally::count_line(rt, tally, b"calls", CALLS)?;
    refused_lines(rt, tally)?;
    list_lines(rt, tally)?;
    test_tally::count_line(rt, tally, b"lists for a sheet", SHEETS)?;
    test_tally::count_line(
        rt,
        tally,
        b"of these, too long for what is left of it",
        FULL,
    )?;
    test_tally::count_line(rt, tally, b"of these, downward monotonic", DOWNWARD)?;
    test_tally::count_line(
        rt,
        tally,
        b"of these, handed back as the owner's part",
        PARTS,
    )?;
    gain_lines(rt, tally, b"as the list sent instead", WITHOUT_FLOORS)?;
    gain_lines(
        rt,
        tally,
        b"as the list sent instead, with floors",
        WITH_FLOORS,
    )?;
    test_tally::count_line(rt, tally, b"differences", DIFFERENCES)
}
