// The lines that name rivals, for the profile "above named rivals" and for sharing: what the calls answer, and what they leave of what they were lent.
use crate::{answers, calls, listed_bytes, script};
use std::io;
use test_edge_sheets::{build, line};

// Room for more numbers than a byte can count, and for the rival sets of all bidders.
const LIST_ROOM: usize = 1024;

// How many of a line's numbers stand before the rivals, and before the members, whose sets come after them.
const BEFORE_LISTS: u16 = 4;

// Room for an order, more than 64 bytes.
const ORDER_ROOM: usize = 128;

// The call with the first `length` bytes of a buffer lent.
fn write_into(
    words: &[u8],
    rivals: &[u8],
    buffer: &mut [u8],
    length: usize,
    written: &mut u32,
) -> u32 {
    let bidders = script::number(words, 2);
    let slots = script::number(words, 3);
    let owner = script::number(words, 4);
    let Some(lent) = buffer.get_mut(..length) else {
        return calls::OUT_OF_ROOM;
    };
    pas::pas_above_terms(bidders, slots, owner, rivals, lent, written)
}

// "rivals into LENGTH for N M OWNER RIVAL RIVAL .."
pub fn named(rt: &impl Print, words: &[u8]) -> io::Result<()> {
    let mut list = [0u8; LIST_ROOM];
    let count = listed_bytes::write(words, BEFORE_LISTS, &mut list);
    let mut buffer = [answers::UNTOUCHED; build::ROOM];
    let mut written = answers::UNTOUCHED_COUNT;
    let length = script::number(words, 1) as usize;
    let refusal = write_into(
        words,
        line::front(&list, count),
        &mut buffer,
        length,
        &mut written,
    );
    answers::terms(rt, refusal, written, &buffer)
}

// The same of sharing, with the members and then the sets in one list.
fn share_into(words: &[u8], list: &[u8], buffer: &mut [u8], length: usize, answer: &mut u8) -> u32 {
    let bidders = script::number(words, 2);
    let slots = script::number(words, 3);
    let count = script::number(words, 4) as usize;
    let members = line::front(list, count);
    let sets = listed_bytes::after(list, count);
    let Some(lent) = buffer.get_mut(..length) else {
        return calls::OUT_OF_ROOM;
    };
    pas::pas_share_page(bidders, slots, members, sets, lent, answer)
}

// What is left by the call. A no leaves every byte.
fn show(rt: &impl Print, refusal: u32, answer: u8, buffer: &[u8]) -> io::Result<()> {
    answers::number(rt, refusal)?;
    if refusal != 0 {
        answers::untouched(rt, b"; every byte", buffer, 0)?;
        return answers::kept(rt, b", answer", answer == answers::UNTOUCHED);
    }
    answers::yes_or_no(rt, answer)?;
    if answer != 1 {
        return answers::untouched(rt, b"; every byte", buffer, 0);
    }
    let written = answers::order(rt, buffer)?;
    answers::untouched(rt, b"; later bytes", buffer, written)
}

// "share into LENGTH for N M COUNT MEMBER .. BYTE .."
pub fn share(rt: &impl Print, words: &[u8]) -> io::Result<()> {
    let mut list = [0u8; LIST_ROOM];
    let count = listed_bytes::write(words, BEFORE_LISTS, &mut list);
    let mut buffer = [answers::UNTOUCHED; ORDER_ROOM];
    let mut answer = answers::UNTOUCHED;
    let length = script::number(words, 1) as usize;
    let refusal = share_into(
        words,
        line::front(&list, count),
        &mut buffer,
        length,
        &mut answer,
    );
    show(rt, refusal, answer, &buffer)
}
