// A sheet and the one that is written of it give the same answers; sheets of the same round give the same bytes, and sheets of rounds that
// differ in one number or condition give others.
use crate::{bytes, calls, counts, one_sheet};
use std::io;
use test_chance::{lists, number, parts};

// Room for a page.
const PAGE: usize = 128;

const MAX_BID: u32 = 1000000000;

const MAX_EFFECT: u32 = 1000000;

// A page, with floors or without them.
fn same_pages(
    rt: &impl Print,
    tally: &mut [u64],
    sheet: &[u8],
    written: &[u8],
    floors: Option<&[u32]>,
    count: u32,
) -> io::Result<()> {
    let mut first = [0u8; PAGE];
    let mut second = [0u8; PAGE];
    let one: &mut [u8] = &mut first;
    let two: &mut [u8] = &mut second;
    let room = PAGE as u32;
    let number = calls::play_by_library(sheet, floors, one, 0, room);
    let other = calls::play_by_library(written, floors, two, 0, room);
    let same = bytes::same(one, two, PAGE);
    counts::hold(rt, tally, number == other, b"one sheet, number of its page")?;
    counts::hold(rt, tally, same, b"one sheet, its page and prices")?;
    test_tally::add_if(tally, number == 0 && same, count);
    Ok(())
}

fn same_best(rt: &impl Print, tally: &mut [u64], sheet: &[u8], written: &[u8]) -> io::Result<()> {
    let mut first = [0u8; PAGE];
    let mut second = [0u8; PAGE];
    let one: &mut [u8] = &mut first;
    let two: &mut [u8] = &mut second;
    let mut total: u64 = 0;
    let mut other_total: u64 = 0;
    let number = pas::pas_best(sheet, one, &mut total);
    let other = pas::pas_best(written, two, &mut other_total);
    let same = bytes::same(one, two, PAGE) && total == other_total;
    counts::hold(
        rt,
        tally,
        number == other,
        b"one sheet, number of its best page",
    )?;
    counts::hold(rt, tally, same, b"one sheet, its best page")?;
    test_tally::add_if(tally, number == 0 && same, counts::SAME_BEST);
    Ok(())
}

fn same_downward(
    rt: &impl Print,
    tally: &mut [u64],
    sheet: &[u8],
    written: &[u8],
    bidder: u32,
) -> io::Result<()> {
    let mut one: u8 = 2;
    let mut two: u8 = 2;
    let number = pas::pas_downward(sheet, bidder, &mut one);
    let other = pas::pas_downward(written, bidder, &mut two);
    let same = number == other && one == two;
    counts::hold(rt, tally, same, b"one sheet, a downward list")?;
    test_tally::add_if(tally, number == 0 && same, counts::SAME_DOWNWARD);
    Ok(())
}

// As the sheet played and as the truth sheet.
fn same_gain(
    rt: &impl Print,
    tally: &mut [u64],
    sheet: &[u8],
    written: &[u8],
    bidder: u32,
    worth: u32,
) -> io::Result<()> {
    let mut one: i64 = 1;
    let mut two: i64 = 1;
    let number = pas::pas_gain(sheet, written, bidder, worth, &mut one);
    let other = pas::pas_gain(written, sheet, bidder, worth, &mut two);
    let same = number == other && one == two;
    counts::hold(rt, tally, same, b"one sheet, a gain")?;
    test_tally::add_if(tally, number == 0 && same, counts::SAME_GAINS);
    Ok(())
}

fn same_answers(
    rt: &impl Print,
    state: &mut u64,
    tally: &mut [u64],
    sheet: &[u8],
    written: &[u8],
    floors: &[u32],
) -> io::Result<()> {
    let bidder = calls::bidder(state, sheet);
    let worth = calls::worth(state);
    same_pages(rt, tally, sheet, written, None, counts::SAME_PAGES)?;
    same_pages(
        rt,
        tally,
        sheet,
        written,
        Some(floors),
        counts::SAME_FLOORED_PAGES,
    )?;
    same_best(rt, tally, sheet, written)?;
    same_downward(rt, tally, sheet, written, bidder)?;
    same_gain(rt, tally, sheet, written, bidder, worth)
}

// A sheet of the same round, which is written as the first one was.
fn hold_same(
    rt: &impl Print,
    tally: &mut [u64],
    other: &[u8],
    whole: &[u8],
    bytes: u32,
    count: u32,
) -> io::Result<()> {
    let sheet = parts::part(other, 0, parts::size(parts::length(other)));
    let same = one_sheet::is_written_as(rt, tally, sheet, whole, bytes)?;
    counts::hold(rt, tally, same, b"one sheet, of the same round")?;
    test_tally::add_if(tally, same, count);
    Ok(())
}

// The sheet with its conditions in version 2's order, by insertion.
fn hold_in_order(
    rt: &impl Print,
    tally: &mut [u64],
    from: &[u8],
    whole: &[u8],
    bytes: u32,
) -> io::Result<()> {
    let mut space = [0u8; parts::ROOM];
    let other: &mut [u8] = &mut space;
    parts::rewrite(from, other, parts::TICK_VERSION, 1);
    lists::copy_all(from, other);
    let length = parts::size(parts::length(other));
    let same = length == bytes && bytes::same(other, whole, bytes as usize);
    counts::hold(rt, tally, same, b"one sheet, as by insertion")?;
    hold_same(rt, tally, other, whole, bytes, counts::OTHER_VERSION)
}

// Inserting is slow where there are many.
fn is_few(state: &mut u64, sheet: &[u8]) -> bool {
    let drawn = number::up_to(state, 9);
    parts::constraints(sheet) < 100 || drawn == 0
}

// One of the sheet's constraints once more, or none.
fn repeat_one(state: &mut u64, from: &[u8], to: &mut [u8], count: u32) {
    let chosen = number::up_to(state, count);
    if chosen < count {
        lists::copy(from, to, chosen);
    }
}

// Constraints of the sheet once more, as many as it has at most.
fn repeat_some(state: &mut u64, from: &[u8], to: &mut [u8]) {
    let count = parts::constraints(from);
    for _ in 0..count {
        repeat_one(state, from, to, count);
    }
}

// "n, bidders, 1 to 64", "m, places, 1 to 16" and "c, conditions, 0 to 1,024", each at its limit.
fn is_largest(sheet: &[u8]) -> bool {
    parts::bidders(sheet) == 64 && parts::slots(sheet) == 16 && parts::constraints(sheet) == 1024
}

// Other sheets of the same round. With a tick above 1 there is none: version 2 leaves no choice.
fn same_rounds(
    rt: &impl Print,
    state: &mut u64,
    tally: &mut [u64],
    sheet: &[u8],
    whole: &[u8],
    bytes: u32,
) -> io::Result<()> {
    if parts::tick(sheet) != 1 {
        return Ok(());
    }
    let mut space = [0u8; parts::ROOM];
    let other: &mut [u8] = &mut space;
    parts::rewrite(sheet, other, 1, 1);
    lists::shuffle(state, other);
    hold_same(rt, tally, other, whole, bytes, counts::SHUFFLED)?;
    test_tally::add_if(tally, is_largest(whole), counts::LONGEST_WRITTEN);
    repeat_some(state, sheet, other);
    lists::shuffle(state, other);
    hold_same(rt, tally, other, whole, bytes, counts::REPEATED)?;
    if is_few(state, other) {
        hold_in_order(rt, tally, other, whole, bytes)?;
    }
    Ok(())
}

// One tick more, or less where that is too much.
fn another_bid(bid: u32, tick: u32) -> u32 {
    if bid <= MAX_BID && tick <= MAX_BID - bid {
        return bid + tick;
    }
    if tick <= bid {
        return bid - tick;
    }
    bid
}

fn change_bid(state: &mut u64, buf: &mut [u8]) {
    let bidder = lists::one_of(state, parts::bidders(buf));
    if bidder == 0 {
        return;
    }
    let at = parts::bid_at(buf, bidder - 1);
    let bid = another_bid(parts::word(buf, at), parts::tick(buf));
    parts::set_word(buf, at, bid);
}

// The first effect may rise.
fn another_effect(effect: u32) -> u32 {
    if effect < MAX_EFFECT {
        return effect + 1;
    }
    1
}

fn change_effect(buf: &mut [u8]) {
    let at = parts::effect_at(buf, 0);
    let effect = another_effect(parts::word(buf, at));
    parts::set_word(buf, at, effect);
}

fn change_tick(buf: &mut [u8]) {
    let tick = parts::tick(buf);
    parts::set_word(buf, parts::TICK, if tick == 1 { 2 } else { 1 });
}

fn drop_condition(buf: &mut [u8]) {
    let count = parts::constraints(buf);
    if 0 < count {
        parts::set_half(buf, parts::CONSTRAINTS, count - 1);
    }
}

// One of its four numbers is another.
fn change_condition(state: &mut u64, buf: &mut [u8]) {
    let count = parts::constraints(buf);
    if count == 0 {
        return;
    }
    let condition = number::up_to(state, count - 1);
    let part = number::up_to(state, 3);
    let most = if part % 2 == 0 {
        parts::bidders(buf)
    } else {
        parts::slots(buf)
    };
    let value = number::up_to(state, most);
    parts::set_field(buf, condition, part, value);
}

// Another number or condition in place of one.
fn change(state: &mut u64, buf: &mut [u8], kind: u32) {
    match kind {
        0 => change_bid(state, buf),
        1 => change_effect(buf),
        2 => change_tick(buf),
        3 => drop_condition(buf),
        _ => change_condition(state, buf),
    }
}

fn count_of(kind: u32) -> u32 {
    match kind {
        0 => counts::OTHER_BID,
        1 => counts::OTHER_EFFECT,
        2 => counts::OTHER_TICK,
        3 => counts::ONE_FEWER,
        _ => counts::OTHER_CONDITION,
    }
}

// A sheet that is not the written one, which is written otherwise if it is accepted at all.
fn hold_other(
    rt: &impl Print,
    tally: &mut [u64],
    other: &[u8],
    whole: &[u8],
    bytes: u32,
    count: u32,
) -> io::Result<()> {
    let sheet = parts::part(other, 0, parts::size(parts::length(other)));
    if test_plain::check(sheet) != 0 {
        return Ok(());
    }
    let same = one_sheet::is_written_as(rt, tally, sheet, whole, bytes)?;
    counts::hold(rt, tally, !same, b"one sheet, of another round")?;
    test_tally::add_if(tally, !same, count);
    Ok(())
}

// With its conditions in any order.
fn hold_other_shuffled(
    rt: &impl Print,
    state: &mut u64,
    tally: &mut [u64],
    from: &[u8],
    whole: &[u8],
    bytes: u32,
    count: u32,
) -> io::Result<()> {
    let mut space = [0u8; parts::ROOM];
    let other: &mut [u8] = &mut space;
    parts::rewrite(from, other, 1, 1);
    lists::shuffle(state, other);
    hold_other(rt, tally, other, whole, bytes, count)
}

// A round that is nearly the same, made of the written sheet, in version 2 or where it can be in version 1.
fn nearly_same(
    rt: &impl Print,
    state: &mut u64,
    tally: &mut [u64],
    whole: &[u8],
    bytes: u32,
) -> io::Result<()> {
    let mut space = [0u8; parts::ROOM];
    let other: &mut [u8] = &mut space;
    parts::copy(whole, other, bytes as usize);
    let kind = number::up_to(state, 4);
    let first = number::once_in(state, 2);
    change(state, other, kind);
    if bytes::same(other, whole, bytes as usize) {
        return Ok(());
    }
    if first && parts::tick(other) == 1 {
        hold_other_shuffled(rt, state, tally, other, whole, bytes, count_of(kind))?;
    } else {
        hold_other(rt, tally, other, whole, bytes, count_of(kind))?;
    }
    Ok(())
}

// What must hold of other sheets and of the one that is written of this one.
pub fn compare(
    rt: &impl Print,
    state: &mut u64,
    tally: &mut [u64],
    sheet: &[u8],
    whole: &[u8],
    bytes: u32,
    floors: &[u32],
) -> io::Result<()> {
    same_answers(
        rt,
        state,
        tally,
        sheet,
        parts::part(whole, 0, bytes),
        floors,
    )?;
    same_rounds(rt, state, tally, sheet, whole, bytes)?;
    nearly_same(rt, state, tally, whole, bytes)
}
