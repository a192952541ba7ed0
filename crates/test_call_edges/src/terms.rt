// The lines that ask for top-of-page terms: what the call answers, and what it leaves of what it was lent.
use crate::{answers, calls, listed_bytes, script};
use std::io;
use test_edge_sheets::{build, line};

// Room for a bar more than there can be bidders, and a few more.
const BARS_ROOM: usize = 80;

// How many of a line's numbers stand before the bars.
const BEFORE_BARS: u16 = 5;

// The call with the first `length` bytes of a buffer lent.
fn write_into(
    words: &[u8],
    bars: &[u8],
    buffer: &mut [u8],
    length: usize,
    written: &mut u32,
) -> u32 {
    let bidders = script::number(words, 2);
    let slots = script::number(words, 3);
    let owner = script::number(words, 4);
    let limit = script::number(words, 5);
    let Some(lent) = buffer.get_mut(..length) else {
        return calls::OUT_OF_ROOM;
    };
    pas::pas_slot_terms(bidders, slots, owner, limit, bars, lent, written)
}

// "terms into LENGTH for N M OWNER LIMIT BAR BAR .."
pub fn answer(rt: &impl Print, words: &[u8]) -> io::Result<()> {
    let mut bars = [0u8; BARS_ROOM];
    let count = listed_bytes::write(words, BEFORE_BARS, &mut bars);
    let mut buffer = [answers::UNTOUCHED; build::ROOM];
    let mut written = answers::UNTOUCHED_COUNT;
    let length = script::number(words, 1) as usize;
    let refusal = write_into(
        words,
        line::front(&bars, count),
        &mut buffer,
        length,
        &mut written,
    );
    answers::terms(rt, refusal, written, &buffer)
}
