// One sheet for one round: the call by both engines on the same bytes, and what must hold of the sheet that is written.
use crate::{alike, bytes, calls, counts};
use std::io;
use test_chance::{lists, number, parts};

// Room for the longest sheet that is written, with random bytes before and after.
pub const ROOM: usize = parts::ROOM;

// Random bytes beside what is written.
const AROUND: usize = 40;

// What the length's memory holds before a call, which no sheet is long enough for.
const PRESET: usize = 6148914691236517205;

// Where the result is lent, of how many bytes, and how many the call writes where it is not refused.
#[derive(Clone, Copy)]
struct Lent {
    start: u32,
    size: u32,
    bytes: u32,
}

// What a call gave beside the sheet.
#[derive(Clone, Copy)]
struct Given {
    number: u32,
    length: usize,
}

// The number that is due: the sheet's, or 19 for a result that is too short.
fn due(rule: u32, lent: Lent) -> u32 {
    if rule != 0 {
        return rule;
    }
    if lent.size < lent.bytes {
        return 19;
    }
    0
}

// What the length's memory holds after the call.
fn length_after(number: u32, bytes: u32) -> usize {
    if number == 0 {
        return bytes as usize;
    }
    PRESET
}

fn by_library(
    rt: &impl Print,
    tally: &mut [u64],
    sheet: &[u8],
    rule: u32,
    one: &mut [u8],
    kept: &[u8],
    lent: Lent,
) -> io::Result<Given> {
    let start = lent.start;
    let bytes = lent.bytes;
    let mut length = PRESET;
    let number = calls::canonical_by_library(sheet, one, start, lent.size, &mut length);
    counts::add_call(tally, counts::CANONICAL, number);
    counts::hold(
        rt,
        tally,
        number == due(rule, lent),
        b"one sheet, the number due",
    )?;
    let same = length == length_after(number, bytes);
    counts::hold(rt, tally, same, b"one sheet, length")?;
    let kept_rest = bytes::untouched(one, kept, start, calls::written(number, bytes));
    counts::hold(
        rt,
        tally,
        kept_rest,
        b"one sheet, bytes that are not the sheet's",
    )?;
    Ok(Given { number, length })
}

fn compare_other(
    rt: &impl Print,
    tally: &mut [u64],
    sheet: &[u8],
    one: &[u8],
    two: &mut [u8],
    lent: Lent,
    given: Given,
) -> io::Result<()> {
    let start = lent.start;
    let mut length = PRESET;
    let other = calls::canonical_by_other(sheet, two, start, lent.size, &mut length);
    counts::hold(rt, tally, given.number == other, b"one sheet, number")?;
    counts::hold(
        rt,
        tally,
        given.length == length,
        b"one sheet, second engine's length",
    )?;
    let same = bytes::same(one, two, ROOM);
    counts::hold(rt, tally, same, b"one sheet, bytes")
}

// The same random bytes for both engines, and to compare with.
fn prepare(state: &mut u64, one: &mut [u8], two: &mut [u8], kept: &mut [u8], bytes: u32) {
    let count = bytes as usize + AROUND;
    bytes::fill(state, kept, count);
    parts::copy(kept, one, count);
    parts::copy(kept, two, count);
}

// Both engines, with a result of a drawn length.
fn both(
    rt: &impl Print,
    state: &mut u64,
    tally: &mut [u64],
    sheet: &[u8],
    rule: u32,
    bytes: u32,
) -> io::Result<()> {
    let mut first = [0u8; ROOM];
    let mut second = [0u8; ROOM];
    let mut third = [0u8; ROOM];
    let one: &mut [u8] = &mut first;
    let two: &mut [u8] = &mut second;
    let kept: &mut [u8] = &mut third;
    prepare(state, one, two, kept, bytes);
    let lent = Lent {
        start: number::up_to(state, 9),
        size: calls::sheet_size(state, bytes),
        bytes,
    };
    let given = by_library(rt, tally, sheet, rule, one, kept, lent)?;
    compare_other(rt, tally, sheet, one, two, lent, given)
}

// The library with a result of so many bytes, and whether it wrote the same sheet.
fn is_written_in(
    rt: &impl Print,
    state: &mut u64,
    tally: &mut [u64],
    sheet: &[u8],
    whole: &[u8],
    bytes: u32,
    size: u32,
) -> io::Result<bool> {
    let mut first = [0u8; ROOM];
    let mut second = [0u8; ROOM];
    let mut third = [0u8; ROOM];
    let one: &mut [u8] = &mut first;
    let two: &mut [u8] = &mut second;
    let kept: &mut [u8] = &mut third;
    prepare(state, one, two, kept, bytes);
    let lent = Lent {
        start: number::up_to(state, 9),
        size,
        bytes,
    };
    let given = by_library(rt, tally, sheet, 0, one, kept, lent)?;
    let same = bytes::same(parts::part(one, lent.start, bytes), whole, bytes as usize);
    Ok(given.number == 0 && same)
}

// A result just long enough, and one that is a byte too short.
fn at_edges(
    rt: &impl Print,
    state: &mut u64,
    tally: &mut [u64],
    sheet: &[u8],
    whole: &[u8],
    bytes: u32,
) -> io::Result<()> {
    if bytes == 0 {
        return Ok(());
    }
    let enough = is_written_in(rt, state, tally, sheet, whole, bytes, bytes)?;
    counts::hold(rt, tally, enough, b"one sheet, in just its room")?;
    test_tally::add_if(tally, enough, counts::JUST_ROOM);
    let short = is_written_in(rt, state, tally, sheet, whole, bytes, bytes - 1)?;
    counts::hold(rt, tally, !short, b"one sheet, in a byte less")?;
    test_tally::add_if(tally, !short, counts::BYTE_SHORT);
    Ok(())
}

// Whether the library writes a sheet as the whole buffer has it.
pub fn is_written_as(
    rt: &impl Print,
    tally: &mut [u64],
    sheet: &[u8],
    whole: &[u8],
    bytes: u32,
) -> io::Result<bool> {
    let mut space = [0u8; ROOM];
    let buffer: &mut [u8] = &mut space;
    let mut length = PRESET;
    let number = pas::pas_canonical(sheet, buffer, &mut length);
    counts::hold(
        rt,
        tally,
        number == 0,
        b"one sheet, of another accepted sheet",
    )?;
    let same = bytes::same(buffer, whole, ROOM);
    Ok(same && length == bytes as usize)
}

// The written sheet is accepted, and gives itself.
fn again(rt: &impl Print, tally: &mut [u64], whole: &[u8], bytes: u32) -> io::Result<()> {
    let sheet = parts::part(whole, 0, bytes);
    let accepted = pas::pas_check(sheet) == 0;
    counts::hold(rt, tally, accepted, b"one sheet, its check")?;
    let same = is_written_as(rt, tally, sheet, whole, bytes)?;
    counts::hold(rt, tally, same, b"one sheet, written again")?;
    test_tally::add_if(tally, accepted && same, counts::WRITTEN_AGAIN);
    Ok(())
}

// What is done to the sheet's conditions. The sheet is asked, so that the counts say what the sheets are.
fn note(tally: &mut [u64], sheet: &[u8], whole: &[u8]) {
    let two = parts::version(sheet) == parts::TICK_VERSION;
    let fewer = parts::constraints(whole) < parts::constraints(sheet);
    let ordered = 0 < lists::falls(sheet);
    test_tally::add_if(tally, two, counts::COPIED);
    test_tally::add_if(tally, ordered & !fewer, counts::ORDERED);
    test_tally::add_if(tally, fewer, counts::DROPPED);
}

// The library with all the room, on a sheet that the check gives this number; the bytes written, 0 for none.
fn write_whole(
    rt: &impl Print,
    tally: &mut [u64],
    sheet: &[u8],
    rule: u32,
    whole: &mut [u8],
) -> io::Result<u32> {
    let mut length = PRESET;
    let number = pas::pas_canonical(sheet, whole, &mut length);
    counts::add_call(tally, counts::CANONICAL, number);
    counts::hold(rt, tally, number == rule, b"one sheet, the sheet's number")?;
    if number != 0 {
        return Ok(0);
    }
    Ok(parts::size(length))
}

// What must hold of the written sheet of a right one.
fn right(
    rt: &impl Print,
    state: &mut u64,
    tally: &mut [u64],
    sheet: &[u8],
    whole: &[u8],
    bytes: u32,
    floors: &[u32],
) -> io::Result<()> {
    both(rt, state, tally, sheet, 0, bytes)?;
    at_edges(rt, state, tally, sheet, whole, bytes)?;
    again(rt, tally, whole, bytes)?;
    note(tally, sheet, whole);
    alike::compare(rt, state, tally, sheet, whole, bytes, floors)
}

// The call on a sheet that the check gives this number.
pub fn compare(
    rt: &impl Print,
    state: &mut u64,
    tally: &mut [u64],
    sheet: &[u8],
    rule: u32,
    floors: &[u32],
) -> io::Result<()> {
    let mut space = [0u8; ROOM];
    let whole: &mut [u8] = &mut space;
    let bytes = write_whole(rt, tally, sheet, rule, whole)?;
    if rule == 0 {
        right(rt, state, tally, sheet, whole, bytes, floors)?;
    } else {
        both(rt, state, tally, sheet, rule, parts::size(sheet.len()))?;
    }
    Ok(())
}
