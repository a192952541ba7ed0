// The lines that make a call: what the call answers, and what it leaves of what it was lent.
//
// What is lent for a result or an answer holds before each call what no call writes, so that what a refused call alters shows.
use crate::{answers, script};
use std::io;
use test_edge_sheets::{build, line};

// Room for a result, more than 5 x 16 bytes.
const RESULT_ROOM: usize = 128;

// For a script that asks for more than that; no call returns it.
pub const OUT_OF_ROOM: u32 = 1000;

// The call that the line's first word names. A line of any other word makes none.
pub fn answer(rt: &impl Print, words: &[u8], sheet: &[u8], truth: &[u8]) -> io::Result<()> {
    if words.starts_with(b"check") {
        return answers::number(rt, pas::pas_check(sheet));
    }
    if words.starts_with(b"play") {
        return play(rt, words, sheet, None);
    }
    if words.starts_with(b"downward") {
        return downward(rt, words, sheet);
    }
    if words.starts_with(b"gain") {
        return gain(rt, words, sheet, None, truth);
    }
    if words.starts_with(b"best") {
        return best(rt, words, sheet, None);
    }
    if words.starts_with(b"part") {
        return part(rt, words, sheet);
    }
    if words.starts_with(b"before") {
        before(rt, words, sheet)?;
    }
    Ok(())
}

// The same of the calls with floors.
pub fn answer_with_floors(
    rt: &impl Print,
    words: &[u8],
    sheet: &[u8],
    floors: &[u32],
    truth: &[u8],
) -> io::Result<()> {
    if words.starts_with(b"with floors, play") {
        return play(rt, words, sheet, Some(floors));
    }
    if words.starts_with(b"with floors, gain") {
        return gain(rt, words, sheet, Some(floors), truth);
    }
    if words.starts_with(b"with floors, best") {
        best(rt, words, sheet, Some(floors))?;
    }
    Ok(())
}

// The slots of an accepted sheet, m by its header.
fn slot_count(sheet: &[u8]) -> u8 {
    if 6 < sheet.len() { sheet[6] } else { 0 }
}

// The call with the first `length` bytes of a buffer lent.
fn play_into(sheet: &[u8], floors: Option<&[u32]>, buffer: &mut [u8], length: usize) -> u32 {
    let Some(lent) = buffer.get_mut(..length) else {
        return OUT_OF_ROOM;
    };
    match floors {
        Some(floors) => pas::pas_play_floors(sheet, floors, lent),
        None => pas::pas_play(sheet, lent),
    }
}

// "play LENGTH"
fn play(rt: &impl Print, words: &[u8], sheet: &[u8], floors: Option<&[u32]>) -> io::Result<()> {
    let mut buffer = [answers::UNTOUCHED; RESULT_ROOM];
    let length = script::number(words, 1) as usize;
    let refusal = play_into(sheet, floors, &mut buffer, length);
    answers::number(rt, refusal)?;
    if refusal != 0 {
        return answers::untouched(rt, b"; every byte", &buffer, 0);
    }
    let slots = slot_count(sheet);
    answers::page(rt, &buffer, slots, 5)?;
    answers::prices(rt, &buffer, slots)?;
    answers::untouched(rt, b"; later bytes", &buffer, 5 * usize::from(slots))
}

// "downward BIDDER"
fn downward(rt: &impl Print, words: &[u8], sheet: &[u8]) -> io::Result<()> {
    let mut yes = answers::UNTOUCHED;
    let refusal = pas::pas_downward(sheet, script::number(words, 1), &mut yes);
    answers::number(rt, refusal)?;
    if refusal != 0 {
        return answers::kept(rt, b"; answer", yes == answers::UNTOUCHED);
    }
    answers::yes_or_no(rt, yes)
}

// "gain BIDDER WORTH"
fn gain(
    rt: &impl Print,
    words: &[u8],
    sheet: &[u8],
    floors: Option<&[u32]>,
    truth: &[u8],
) -> io::Result<()> {
    let mut gained = answers::UNTOUCHED_GAIN;
    let bidder = script::number(words, 1);
    let worth = script::number(words, 2);
    let refusal = match floors {
        Some(floors) => pas::pas_gain_floors(sheet, floors, truth, bidder, worth, &mut gained),
        None => pas::pas_gain(sheet, truth, bidder, worth, &mut gained),
    };
    answers::number(rt, refusal)?;
    if refusal != 0 {
        return answers::kept(rt, b"; gain", gained == answers::UNTOUCHED_GAIN);
    }
    line::text(rt, b"; gain ")?;
    answers::signed(rt, gained)
}

// The call with the first `length` bytes of a buffer lent.
fn best_into(
    sheet: &[u8],
    floors: Option<&[u32]>,
    buffer: &mut [u8],
    length: usize,
    total: &mut u64,
) -> u32 {
    let Some(lent) = buffer.get_mut(..length) else {
        return OUT_OF_ROOM;
    };
    match floors {
        Some(floors) => pas::pas_best_floors(sheet, floors, lent, total),
        None => pas::pas_best(sheet, lent, total),
    }
}

// "best LENGTH"
fn best(rt: &impl Print, words: &[u8], sheet: &[u8], floors: Option<&[u32]>) -> io::Result<()> {
    let mut buffer = [answers::UNTOUCHED; RESULT_ROOM];
    let mut total = answers::UNTOUCHED_TOTAL;
    let length = script::number(words, 1) as usize;
    let refusal = best_into(sheet, floors, &mut buffer, length, &mut total);
    answers::number(rt, refusal)?;
    if refusal != 0 {
        answers::untouched(rt, b"; every byte", &buffer, 0)?;
        return answers::kept(rt, b", total", total == answers::UNTOUCHED_TOTAL);
    }
    let slots = slot_count(sheet);
    answers::page(rt, &buffer, slots, 1)?;
    line::number(rt, b"; total ", total)?;
    answers::untouched(rt, b"; later bytes", &buffer, usize::from(slots))
}

// "part BIDDER": where the part is, and what is handed back.
fn part(rt: &impl Print, words: &[u8], sheet: &[u8]) -> io::Result<()> {
    let mut start = answers::UNTOUCHED_PLACE;
    let mut length = answers::UNTOUCHED_PLACE;
    let bidder = script::number(words, 1);
    let refusal = pas::pas_owner_part(sheet, bidder, &mut start, &mut length);
    answers::number(rt, refusal)?;
    if refusal != 0 {
        answers::kept(rt, b"; start", start == answers::UNTOUCHED_PLACE)?;
        answers::kept(rt, b", length", length == answers::UNTOUCHED_PLACE)?;
    } else {
        line::number(rt, b"; start ", start as u64)?;
        line::number(rt, b", length ", length as u64)?;
    }
    answers::conditions(rt, owner_part::part(sheet, bidder))
}

// "before the part of BIDDER": the call that only checks.
fn before(rt: &impl Print, words: &[u8], sheet: &[u8]) -> io::Result<()> {
    let (number, bytes) = match owner_part::check_part(sheet, script::number(words, 1)) {
        Ok(bytes) => (0, bytes),
        Err(refusal) => (refusal.number(), 0),
    };
    answers::number(rt, number)?;
    line::number(rt, b"; bytes ", bytes as u64)
}

// The call with the first `length` bytes of a buffer lent.
fn write_into(sheet: &[u8], buffer: &mut [u8], length: usize, written: &mut usize) -> u32 {
    let Some(lent) = buffer.get_mut(..length) else {
        return OUT_OF_ROOM;
    };
    pas::pas_canonical(sheet, lent, written)
}

// "one sheet into LENGTH"
pub fn one_sheet(rt: &impl Print, words: &[u8], sheet: &[u8]) -> io::Result<()> {
    let mut buffer = [answers::UNTOUCHED; build::ROOM];
    let mut written = answers::UNTOUCHED_PLACE;
    let length = script::number(words, 1) as usize;
    let refusal = write_into(sheet, &mut buffer, length, &mut written);
    answers::number(rt, refusal)?;
    if refusal != 0 {
        answers::untouched(rt, b"; every byte", &buffer, 0)?;
        return answers::kept(rt, b", length", written == answers::UNTOUCHED_PLACE);
    }
    line::number(rt, b"; length ", written as u64)?;
    answers::sheet(rt, line::front(&buffer, written))?;
    answers::untouched(rt, b"; later bytes", &buffer, written)
}

// "loss": what the greedy page can lose.
pub fn loss(rt: &impl Print, sheet: &[u8]) -> io::Result<()> {
    let mut factor = answers::UNTOUCHED_COUNT;
    let refusal = pas::pas_loss_bound(sheet, &mut factor);
    answers::number(rt, refusal)?;
    if refusal != 0 {
        return answers::kept(rt, b"; factor", factor == answers::UNTOUCHED_COUNT);
    }
    line::number(rt, b"; factor ", u64::from(factor))
}
