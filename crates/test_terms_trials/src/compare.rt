// One call by the library and by the second engine, on the same bytes.
use crate::call::Call;
use crate::{call, counts, plain};
use std::io;
use test_both_engines::bytes;
use test_chance::{calls, number, parts};

// Room for the longest list, 4 x 1,023 bytes, with random bytes before and after.
pub const ROOM: usize = 4224;

// Random bytes beside what is lent.
const AROUND: usize = 40;

// What the count's memory holds before a call, which no list is long enough for.
const PRESET: u32 = 2863311530;

// No call returns it.
const OUT_OF_ROOM: u32 = 1000;

// Where the result is lent, of how many bytes, and how many conditions are due.
#[derive(Clone, Copy)]
struct Lent {
    start: u32,
    size: u32,
    count: u32,
}

// The call with a part of a larger buffer lent.
fn by_library(call: Call, bars: &[u8], res: &mut [u8], lent: Lent, count: &mut u32) -> u32 {
    let from = lent.start as usize;
    let end = from + lent.size as usize;
    let n = call.n;
    let m = call.m;
    let owner = call.owner;
    let limit = call.limit;
    let Some(part) = res.get_mut(from..end) else {
        return OUT_OF_ROOM;
    };
    pas::pas_slot_terms(n, m, owner, limit, bars, part, count)
}

// The number that is due: the rule's, or 19 for a result that is too short.
fn due(rule: Option<u32>, lent: Lent) -> u32 {
    match rule {
        Some(rule) => rule,
        None => {
            if 4 * u64::from(lent.count) <= u64::from(lent.size) {
                0
            } else {
                19
            }
        }
    }
}

fn count_after(number: u32, count: u32) -> u32 {
    if number == 0 { count } else { PRESET }
}

// What the list is made of.
fn note_kind(tally: &mut [u64], call: Call, count: u32) {
    let below = call.m.wrapping_sub(call.limit);
    let bars = below < count;
    let limit = 0 < below;
    test_tally::add_if(tally, !bars & !limit, counts::EMPTY);
    test_tally::add_if(tally, bars & !limit, counts::BARS_ALONE);
    test_tally::add_if(tally, !bars & limit, counts::LIMIT_ALONE);
    test_tally::add_if(tally, bars & limit, counts::BOTH);
    test_tally::add_if(tally, count == 1023, counts::LONGEST);
}

fn note(tally: &mut [u64], call: Call, number: u32, lent: Lent) {
    let count = lent.count;
    let size = u64::from(lent.size);
    counts::add_call(tally, number);
    test_tally::add_if(
        tally,
        number == 19 && size + 1 == 4 * u64::from(count),
        counts::BYTE_SHORT,
    );
    if number == 0 {
        test_tally::add_if(tally, size == 4 * u64::from(count), counts::JUST_ROOM);
        note_kind(tally, call, count);
    }
}

// The same random bytes for both, and in one of them the list where it is due.
fn prepare(state: &mut u64, one: &mut [u8], two: &mut [u8], list: &[u8], lent: Lent, number: u32) {
    let length = lent.size as usize + AROUND;
    let start = lent.start;
    bytes::fill(state, one, length);
    parts::copy(one, two, length);
    if number == 0 {
        bytes::paste(list, two, start, bytes_of(lent.count));
    }
}

// Four bytes for each condition of a list that fits its room.
pub fn bytes_of(count: u32) -> u32 {
    if count < 1024 { 4 * count } else { 0 }
}

// The call with so much lent, held to what is due. The list that the library wrote takes the place of the second engine's; its count, none where the call
// is refused.
fn hold(
    rt: &impl Print,
    state: &mut u64,
    tally: &mut [u64],
    call: Call,
    bars: &[u8],
    rule: Option<u32>,
    lent: Lent,
    list: &mut [u8],
) -> io::Result<Option<u32>> {
    let mut one = [0u8; ROOM];
    let mut two = [0u8; ROOM];
    let number_due = due(rule, lent);
    prepare(state, &mut one, &mut two, list, lent, number_due);
    let mut count = PRESET;
    let number = by_library(call, bars, &mut one, lent, &mut count);
    note(tally, call, number, lent);
    counts::hold(rt, tally, number == number_due, b"number")?;
    counts::hold(
        rt,
        tally,
        count == count_after(number_due, lent.count),
        b"count",
    )?;
    counts::hold(rt, tally, bytes::same(&one, &two, ROOM), b"bytes")?;
    parts::copy(
        parts::part(&one, lent.start, lent.size),
        list,
        bytes_of(count) as usize,
    );
    Ok(if number == 0 { Some(count) } else { None })
}

// The list that is due, and how many conditions it has; of a call that breaks a rule, any number, for a length.
fn due_list(state: &mut u64, call: Call, bars: &[u8], rule: Option<u32>, list: &mut [u8]) -> u32 {
    if rule.is_none() {
        return plain::write(call, bars, list);
    }
    number::up_to(state, 20)
}

// Both engines on a call: the library's list, and its count, none where the call is refused.
pub fn both(
    rt: &impl Print,
    state: &mut u64,
    tally: &mut [u64],
    call: Call,
    bars: &[u8],
    enough: bool,
    list: &mut [u8],
) -> io::Result<Option<u32>> {
    let lent_bars = parts::part(bars, 0, call.bars);
    let rule = plain::rule(call, lent_bars);
    let due_count = due_list(state, call, lent_bars, rule, list);
    let lent = Lent {
        start: number::up_to(state, 9),
        size: calls::size(state, bytes_of(due_count), enough),
        count: due_count,
    };
    hold(rt, state, tally, call, lent_bars, rule, lent, list)
}

fn with_faults(state: &mut u64, right: Call, bars: &mut [u8], faults: u32) -> Call {
    let mut drawn = right;
    for _ in 0..faults {
        drawn = call::with_fault(state, drawn, bars);
    }
    drawn
}

// A call with n and m of its own and so many faults.
pub fn alone(rt: &impl Print, state: &mut u64, tally: &mut [u64], faults: u32) -> io::Result<()> {
    let mut bars = [0u8; call::BARS_ROOM];
    let mut list = [0u8; ROOM];
    let n = calls::up_to_most(state, call::MAX_BIDDERS);
    let m = calls::up_to_most(state, call::MAX_SLOTS);
    let right = call::right(state, n, m, &mut bars);
    let asked = with_faults(state, right, &mut bars, faults);
    both(rt, state, tally, asked, &bars, false, &mut list)?;
    Ok(())
}
