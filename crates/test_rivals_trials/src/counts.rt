// What is counted, and the lines that the program writes.

use std::io;

// The calls of the profile by the number that they returned, 0 to 25, come first, and then those of sharing.
// Kept: these numbers are places in one tally, so an enum of the others would be no plainer.
const NUMBERS: u32 = 26;

pub const DIFFERENCES: u32 = 52;

// All calls.
pub const CALLS: u32 = 53;

// What is written: lists; and answers by why they are given.
pub const LISTS: u32 = 54;

pub const YES: u32 = 55;

pub const NO_ORDER: u32 = 56;

pub const TOO_MANY: u32 = 57;

// At the ends of what is possible, two counts each: of the profile, and of sharing.
pub const JUST_ROOM: u32 = 58;

pub const BYTE_SHORT: u32 = 60;

// Sheets whose lists all come from the profile.
pub const SHEETS: u32 = 62;

pub const DOWNWARD: u32 = 63;

pub const ORDERS: u32 = 64;

pub const PAGE_FOUND: u32 = 65;

pub const NO_PAGE: u32 = 66;

pub const ROOM: usize = 67;

// A count of the profile's calls, or the same of sharing.
pub fn of_kind(sharing: bool, count: u32) -> u32 {
    count.wrapping_add(u32::from(sharing))
}

// A call, by its number. No call has another one.
pub fn add_call(tally: &mut [u64], sharing: bool, number: u32) {
    let first = if sharing { NUMBERS } else { 0 };
    test_tally::add(tally, CALLS);
    if number < NUMBERS {
        test_tally::add(tally, first.wrapping_add(number));
    } else {
        test_tally::add(tally, DIFFERENCES);
    }
}

// A difference is counted, and a line names it and the call, so that it can be found.
pub fn hold(rt: &impl Print, tally: &mut [u64], same: bool, name: &[u8]) -> io::Result<()> {
    if same {
        return Ok(());
    }
    test_tally::add(tally, DIFFERENCES);
    test_tally::text(rt, b"difference: ")?;
    test_tally::text(rt, name)?;
    test_tally::count_line(rt, tally, b", call", CALLS)
}

fn profile_lines(rt: &impl Print, tally: &[u64]) -> io::Result<()> {
    test_tally::text(rt, b"above named rivals\n")?;
    test_tally::count_line(rt, tally, b"refused 4", 4)?;
    test_tally::count_line(rt, tally, b"refused 5", 5)?;
    test_tally::count_line(rt, tally, b"refused 16", 16)?;
    test_tally::count_line(rt, tally, b"refused 23", 23)?;
    test_tally::count_line(rt, tally, b"refused 24", 24)?;
    test_tally::count_line(rt, tally, b"refused 25", 25)?;
    test_tally::count_line(rt, tally, b"refused 19", 19)?;
    test_tally::count_line(rt, tally, b"of these, for want of a byte", BYTE_SHORT)?;
    test_tally::count_line(rt, tally, b"lists written", LISTS)?;
    test_tally::count_line(rt, tally, b"of these, in just their room", JUST_ROOM)
}

fn sharing_lines(rt: &impl Print, tally: &[u64]) -> io::Result<()> {
    test_tally::text(rt, b"sharing\n")?;
    test_tally::count_line(rt, tally, b"refused 4", 30)?;
    test_tally::count_line(rt, tally, b"refused 5", 31)?;
    test_tally::count_line(rt, tally, b"refused 23", 49)?;
    test_tally::count_line(rt, tally, b"refused 24", 50)?;
    test_tally::count_line(rt, tally, b"refused 19", 45)?;
    test_tally::count_line(
        rt,
        tally,
        b"of these, for want of a byte",
        of_kind(true, BYTE_SHORT),
    )?;
    test_tally::count_line(rt, tally, b"yes", YES)?;
    test_tally::count_line(rt, tally, b"no, by rivals", NO_ORDER)?;
    test_tally::count_line(rt, tally, b"no, more members than places", TOO_MANY)?;
    test_tally::count_line(
        rt,
        tally,
        b"of all these, in just their room",
        of_kind(true, JUST_ROOM),
    )
}

pub fn report(rt: &impl Print, tally: &[u64]) -> io::Result<()> {
    test_tally::count_line(rt, tally, b"calls", CALLS)?;
    profile_lines(rt, tally)?;
    sharing_lines(rt, tally)?;
    test_tally::count_line(rt, tally, b"sheets of such lists", SHEETS)?;
    test_tally::count_line(rt, tally, b"lists on them, downward monotonic", DOWNWARD)?;
    test_tally::count_line(
        rt,
        tally,
        b"orders that break nothing on the first places",
        ORDERS,
    )?;
    test_tally::count_line(
        rt,
        tally,
        b"all pages tried: yes, and one has the members",
        PAGE_FOUND,
    )?;
    test_tally::count_line(
        rt,
        tally,
        b"all pages tried: no, and none has them",
        NO_PAGE,
    )?;
    test_tally::count_line(rt, tally, b"differences", DIFFERENCES)
}
