// One bidder's part of the sheet, by both engines: the call by the C convention, the one that only checks, and the one that hands the part back.
use crate::{bytes, counts};
use std::io;
use test_chance::parts;

// The second engine's answer: its number, or 0 with where the part starts and how long it is. Both are 0 with any other number.
// Kept: no Result, since a refused call is held to the empty part at the sheet's start as well.
#[derive(Clone, Copy)]
struct Found {
    number: u32,
    start: usize,
    length: usize,
}

// What the answer's memory holds before a call, which no sheet is long enough for.
const PRESET_START: usize = 12297829382473034410;

const PRESET_LENGTH: usize = 6148914691236517205;

// What the second engine found, which leaves the answer's memory on a refusal.
fn found_by_other(
    rt: &impl Print,
    tally: &mut [u64],
    sheet: &[u8],
    bidder: u32,
) -> io::Result<Found> {
    let mut start = PRESET_START;
    let mut length = PRESET_LENGTH;
    let number = test_plain::owner_part(sheet, bidder, &mut start, &mut length);
    if number == 0 {
        return Ok(Found {
            number,
            start,
            length,
        });
    }
    let kept = start == PRESET_START && length == PRESET_LENGTH;
    counts::hold(rt, tally, kept, b"owner part, second engine's refused call")?;
    Ok(Found {
        number,
        start: 0,
        length: 0,
    })
}

// The number that the call must give a sheet that the check gives this one.
fn number_of(sheet: &[u8], rule: u32, bidder: u32) -> u32 {
    if rule != 0 {
        return rule;
    }
    if parts::version(sheet) != parts::TICK_VERSION {
        return 29;
    }
    if bidder == 0 || parts::bidders(sheet) < bidder {
        return 16;
    }
    0
}

// "on a refusal nothing changes": the answer's memory after the call, by the second engine's answer.
fn is_answer(found: Found, start: usize, length: usize) -> bool {
    if found.number != 0 {
        return start == PRESET_START && length == PRESET_LENGTH;
    }
    start == found.start && length == found.length
}

fn compare_bounds(
    rt: &impl Print,
    tally: &mut [u64],
    sheet: &[u8],
    bidder: u32,
    found: Found,
) -> io::Result<()> {
    let mut start = PRESET_START;
    let mut length = PRESET_LENGTH;
    let number = pas::pas_owner_part(sheet, bidder, &mut start, &mut length);
    counts::add_call(tally, counts::OWNER_PART, number);
    counts::hold(rt, tally, number == found.number, b"owner part, number")?;
    let same = is_answer(found, start, length);
    counts::hold(rt, tally, same, b"owner part, start and length")
}

fn compare_check(
    rt: &impl Print,
    tally: &mut [u64],
    sheet: &[u8],
    bidder: u32,
    found: Found,
) -> io::Result<()> {
    let (number, bytes) = match owner_part::check_part(sheet, bidder) {
        Ok(bytes) => (0, bytes),
        Err(refusal) => (refusal.number(), 0),
    };
    counts::add_call(tally, counts::CHECK_PART, number);
    counts::hold(
        rt,
        tally,
        number == found.number,
        b"check of a part, number",
    )?;
    counts::hold(
        rt,
        tally,
        bytes == found.start,
        b"check of a part, bytes before it",
    )
}

// The sheet from a start on, and all of it where it has not so many bytes.
fn rest(sheet: &[u8], start: usize) -> &[u8] {
    sheet.get(start..).unwrap_or(sheet)
}

// "A refused call hands back the empty part at the sheet's start".
fn compare_part(
    rt: &impl Print,
    tally: &mut [u64],
    sheet: &[u8],
    bidder: u32,
    found: Found,
) -> io::Result<()> {
    let part = owner_part::part(sheet, bidder);
    let length = found.length;
    counts::hold(rt, tally, part.len() == length, b"part, length")?;
    let same = bytes::same(rest(sheet, found.start), part, length);
    counts::hold(rt, tally, same, b"part, bytes")
}

fn ends_sheet(sheet: &[u8], start: usize, length: usize) -> bool {
    if sheet.len() < length {
        return false;
    }
    start == sheet.len() - length
}

// Where the part of a sheet with constraints stands.
fn note_place(tally: &mut [u64], empty: bool, first: bool, last: bool) {
    let middle = !first & !last;
    test_tally::add_if(tally, !empty & first, counts::FIRST_PARTS);
    test_tally::add_if(tally, !empty & last, counts::LAST_PARTS);
    test_tally::add_if(tally, !empty & middle, counts::MIDDLE_PARTS);
    test_tally::add_if(tally, empty & first, counts::EMPTY_FIRST);
    test_tally::add_if(tally, empty & last, counts::EMPTY_LAST);
    test_tally::add_if(tally, empty & middle, counts::EMPTY_MIDDLE);
}

fn note_part(tally: &mut [u64], sheet: &[u8], found: Found) {
    if found.number != 0 {
        return;
    }
    if parts::constraints(sheet) == 0 {
        test_tally::add(tally, counts::EMPTY_SHEETS);
        return;
    }
    let start = found.start;
    let length = found.length;
    let first = start == parts::constraint_at(sheet, 0);
    let last = ends_sheet(sheet, start, length);
    note_place(tally, length == 0, first, last);
}

// The calls for one bidder on a sheet that the check gives this number.
fn ask(rt: &impl Print, tally: &mut [u64], sheet: &[u8], rule: u32, bidder: u32) -> io::Result<()> {
    let found = found_by_other(rt, tally, sheet, bidder)?;
    let number = number_of(sheet, rule, bidder);
    counts::hold(
        rt,
        tally,
        found.number == number,
        b"owner part, the number that was to come",
    )?;
    compare_bounds(rt, tally, sheet, bidder, found)?;
    compare_check(rt, tally, sheet, bidder, found)?;
    compare_part(rt, tally, sheet, bidder, found)?;
    note_part(tally, sheet, found);
    Ok(())
}

// Every bidder of the sheet.
fn ask_all(rt: &impl Print, tally: &mut [u64], sheet: &[u8], rule: u32) -> io::Result<()> {
    for bidder in (1..=parts::bidders(sheet)).rev() {
        ask(rt, tally, sheet, rule, bidder)?;
    }
    Ok(())
}

// Every bidder of the sheet, 0, just above n, and larger numbers whose low byte may be a bidder's.
pub fn parts_of(rt: &impl Print, tally: &mut [u64], sheet: &[u8], rule: u32) -> io::Result<()> {
    ask_all(rt, tally, sheet, rule)?;
    ask(rt, tally, sheet, rule, 0)?;
    ask(rt, tally, sheet, rule, parts::bidders(sheet) + 1)?;
    ask(rt, tally, sheet, rule, 300)?;
    ask(rt, tally, sheet, rule, 65537)?;
    ask(rt, tally, sheet, rule, 4294967295)
}
