// One call by the library and by the second engine, on the same bytes.
use crate::call::Call;
use crate::plain::Shared;
use crate::{call, counts, plain};
use std::io;
use test_both_engines::bytes;
use test_chance::{calls, lists, number, parts};

// Room for the longest list, 4 x 1,014 bytes, with random bytes before and after.
pub const ROOM: usize = 4224;

// "25, only where conditions are written, for more than 1,024 of them"
pub const MAX_CONSTRAINTS: u32 = 1024;

// Random bytes beside what is lent.
const AROUND: usize = 40;

// What the memory for the count or the answer holds before a call. No list has so many conditions, since the number is prime and above 63.
const PRESET: u32 = 173;

// No call returns it.
const OUT_OF_ROOM: u32 = 1000;

// What is due: the number of the rule that is broken, but for 19, the bytes that are written, the count or the answer, and where it is counted.
#[derive(Clone, Copy)]
struct Due {
    rule: Option<u32>,
    bytes: u32,
    value: u32,
    kind: u32,
}

// Where the result is lent, and of how many bytes.
#[derive(Clone, Copy)]
struct Lent {
    start: u32,
    size: u32,
}

// The call of sharing with a part of a larger buffer lent.
fn share_into(
    call: Call,
    members: &[u8],
    sets: &[u8],
    res: &mut [u8],
    lent: Lent,
    value: &mut u32,
) -> u32 {
    let from = lent.start as usize;
    let end = from + lent.size as usize;
    let n = call.n;
    let m = call.m;
    let mut answer = PRESET as u8;
    let Some(part) = res.get_mut(from..end) else {
        return OUT_OF_ROOM;
    };
    let number = pas::pas_share_page(n, m, members, sets, part, &mut answer);
    *value = u32::from(answer);
    number
}

// The call of the profile.
fn write_into(call: Call, rivals: &[u8], res: &mut [u8], lent: Lent, count: &mut u32) -> u32 {
    let from = lent.start as usize;
    let end = from + lent.size as usize;
    let n = call.n;
    let m = call.m;
    let owner = call.owner;
    let Some(part) = res.get_mut(from..end) else {
        return OUT_OF_ROOM;
    };
    pas::pas_above_terms(n, m, owner, rivals, part, count)
}

fn by_library(
    call: Call,
    list: &[u8],
    sets: &[u8],
    res: &mut [u8],
    lent: Lent,
    value: &mut u32,
) -> u32 {
    if call.sharing {
        return share_into(call, list, sets, res, lent, value);
    }
    write_into(call, list, res, lent, value)
}

// For a refusal, any number of bytes, for a length.
fn refused(state: &mut u64, rule: u32) -> Due {
    Due {
        rule: Some(rule),
        bytes: number::up_to(state, 20),
        value: 0,
        kind: counts::LISTS,
    }
}

fn shared(answer: Shared) -> Due {
    let (bytes, value, kind) = match answer {
        Shared::Order(members) => (members, 1, counts::YES),
        Shared::NoOrder => (0, 0, counts::NO_ORDER),
        Shared::TooMany => (0, 0, counts::TOO_MANY),
    };
    Due {
        rule: None,
        bytes,
        value,
        kind,
    }
}

// What is due of a call, with the bytes in a list.
fn due_of(state: &mut u64, call: Call, list: &[u8], sets: &[u8], written: &mut [u8]) -> Due {
    if let Some(rule) = plain::rule(call, list, sets) {
        return refused(state, rule);
    }
    if call.sharing {
        return shared(plain::share(call, list, sets, written));
    }
    let count = plain::write(call, list, written);
    if MAX_CONSTRAINTS < count {
        return refused(state, 25);
    }
    Due {
        rule: None,
        bytes: 4 * count,
        value: count,
        kind: counts::LISTS,
    }
}

// The number that is due: the rule's, or 19 for a result that is too short.
fn number_of(due: Due, lent: Lent) -> u32 {
    match due.rule {
        Some(rule) => rule,
        None => { if due.bytes <= lent.size { 0 } else { 19 } }
    }
}

fn note(tally: &mut [u64], call: Call, number: u32, due: Due, lent: Lent) {
    let size = lent.size;
    let bytes = due.bytes;
    counts::add_call(tally, call.sharing, number);
    test_tally::add_if(tally, number == 0, due.kind);
    test_tally::add_if(
        tally,
        number == 0 && bytes == size,
        counts::of_kind(call.sharing, counts::JUST_ROOM),
    );
    test_tally::add_if(
        tally,
        number == 19 && u64::from(size) + 1 == u64::from(bytes),
        counts::of_kind(call.sharing, counts::BYTE_SHORT),
    );
}

// The call with so much lent, held to what is due: the number, the count or the answer, and every byte of the buffer and beside it. What the library wrote
// takes the place of what was due.
fn hold(
    rt: &impl Print,
    state: &mut u64,
    tally: &mut [u64],
    call: Call,
    list: &[u8],
    sets: &[u8],
    due: Due,
    lent: Lent,
    written: &mut [u8],
) -> io::Result<()> {
    let mut one = [0u8; ROOM];
    let mut two = [0u8; ROOM];
    let number_due = number_of(due, lent);
    let mut value = PRESET;
    bytes::fill(state, &mut one, lent.size as usize + AROUND);
    parts::copy(&one, &mut two, ROOM);
    if number_due == 0 {
        bytes::paste(written, &mut two, lent.start, due.bytes);
    }
    let number = by_library(call, list, sets, &mut one, lent, &mut value);
    let value_due = if number_due == 0 { due.value } else { PRESET };
    note(tally, call, number, due, lent);
    counts::hold(rt, tally, number == number_due, b"number")?;
    counts::hold(rt, tally, value == value_due, b"count or answer")?;
    counts::hold(rt, tally, bytes::same(&one, &two, ROOM), b"bytes")?;
    parts::copy(
        parts::part(&one, lent.start, lent.size),
        written,
        due.bytes as usize,
    );
    Ok(())
}

// Both engines on a call: the number of conditions or the answer that is due, with the library's bytes in the list.
pub fn both(
    rt: &impl Print,
    state: &mut u64,
    tally: &mut [u64],
    call: Call,
    list: &[u8],
    sets: &[u8],
    enough: bool,
    written: &mut [u8],
) -> io::Result<u32> {
    let due = due_of(state, call, list, sets, written);
    let lent = Lent {
        start: number::up_to(state, 9),
        size: calls::size(state, due.bytes, enough),
    };
    hold(rt, state, tally, call, list, sets, due, lent, written)?;
    Ok(due.value)
}

fn with_faults(
    state: &mut u64,
    right: Call,
    list: &mut [u8],
    sets: &mut [u8],
    faults: u32,
) -> Call {
    let mut drawn = right;
    for _ in 0..faults {
        drawn = call::with_fault(state, drawn, list, sets);
    }
    drawn
}

// A call with m of its own, n up to the most, and so many faults.
pub fn alone(
    rt: &impl Print,
    state: &mut u64,
    tally: &mut [u64],
    sharing: bool,
    most: u32,
    faults: u32,
) -> io::Result<()> {
    let mut list = [0u8; call::LIST_ROOM];
    let mut sets = [0u8; call::SETS_ROOM];
    let mut written = [0u8; ROOM];
    let n = calls::up_to_most(state, most);
    let few = lists::one_of(state, 5);
    let many = calls::up_to_most(state, call::MAX_SLOTS);
    let m = if number::once_in(state, 2) { few } else { many };
    let right = call::right(state, sharing, n, m, &mut list, &mut sets);
    let asked = with_faults(state, right, &mut list, &mut sets, faults);
    let listed = parts::part(&list, 0, asked.listed);
    let lent = parts::part(&sets, 0, asked.bytes);
    both(rt, state, tally, asked, listed, lent, false, &mut written)?;
    Ok(())
}
