// The floors of a round, and what they are like.
use test_both_engines::counts;
use test_chance::floor_lists::Test;
use test_chance::{floor_lists, number};

// A fault of a list, as `test_damage` takes it: three times in four 0, for none.
pub fn any_fault(state: &mut u64) -> u32 {
    let drawn = number::up_to(state, 11);
    if drawn <= test_damage::wrong_floors::FAULTS {
        drawn
    } else {
        0
    }
}

// Any numbers, with which no list is right.
fn fill(state: &mut u64, space: &mut [u32]) {
    for floor in space.iter_mut().rev() {
        *floor = number::up_to(state, u32::MAX);
    }
}

// A list for the sheet with the fault, or a right one where that is 0, among other numbers, and its length.
pub fn lay(state: &mut u64, sheet: &[u8], fault: u32, start: u32, space: &mut [u32]) -> u32 {
    let mut made = [0u32; floor_lists::ROOM];
    fill(state, space);
    let shape = number::up_to(state, floor_lists::MIXED + 1);
    let right = floor_lists::make(state, shape, sheet, &mut made);
    let length = test_damage::wrong_floors::damage(state, &mut made, fault, right);
    floor_lists::paste(&made, space, start, length);
    length
}

// Whether some floor of the list passes a test, and whether all do.
fn some(list: &[u32], sheet: &[u8], length: u32, test: Test) -> bool {
    0 < floor_lists::how_many(list, sheet, length, test)
}

fn all(list: &[u32], sheet: &[u8], length: u32, test: Test) -> bool {
    floor_lists::how_many(list, sheet, length, test) == length
}

// A right list for a right sheet. The list is asked and not its shape, so that the counts say what the lists are.
fn note_right(tally: &mut [u64], sheet: &[u8], list: &[u32], length: u32) {
    let rises = some(list, sheet, length, Test::AboveBefore);
    let falls = some(list, sheet, length, Test::BelowBefore);
    let zeros = !some(list, sheet, length, Test::AboveZero);
    let above = all(list, sheet, length, Test::AboveBids);
    let off = all(list, sheet, length, Test::OffTick);
    let at_bid = some(list, sheet, length, Test::AtBid);
    let at_limit = some(list, sheet, length, Test::AtLimit);
    test_tally::add_if(tally, zeros, counts::ZEROS);
    test_tally::add_if(tally, rises & !falls, counts::RISING);
    test_tally::add_if(tally, falls & !rises, counts::FALLING);
    test_tally::add_if(tally, rises & falls, counts::BOTH_WAYS);
    test_tally::add_if(tally, above, counts::ABOVE_BIDS);
    test_tally::add_if(tally, off, counts::OFF_TICK);
    test_tally::add_if(tally, at_bid, counts::AT_BID);
    test_tally::add_if(tally, at_limit, counts::AT_LIMIT);
}

fn is_too_high(list: &[u32], at: u32) -> bool {
    floor_lists::MAX_FLOOR < floor_lists::of(list, at)
}

// A list that is turned away with a right sheet.
fn note_wrong(tally: &mut [u64], sheet: &[u8], list: &[u32], length: u32) {
    let slots = floor_lists::count(sheet);
    let high = some(list, sheet, length, Test::TooHigh);
    let just = some(list, sheet, length, Test::JustTooHigh);
    let fits = length == slots;
    let last = length.saturating_sub(1);
    test_tally::add_if(tally, length == 0, counts::NO_FLOORS);
    test_tally::add_if(tally, (0 < length) & (length < slots), counts::SHORT);
    test_tally::add_if(tally, slots < length, counts::LONG);
    test_tally::add_if(tally, fits & just, counts::JUST_TOO_HIGH);
    test_tally::add_if(tally, fits & is_too_high(list, 0), counts::FIRST_TOO_HIGH);
    test_tally::add_if(tally, fits & is_too_high(list, last), counts::LAST_TOO_HIGH);
    test_tally::add_if(tally, !fits & high, counts::BOTH_FAULTS);
}

// Counts what the list is.
pub fn note(tally: &mut [u64], sheet: &[u8], list: &[u32], length: u32, fault: u32, damaged: bool) {
    if damaged {
        test_tally::add_if(tally, fault != 0, counts::SHEET_FIRST);
    } else if fault == 0 {
        note_right(tally, sheet, list, length);
    } else {
        note_wrong(tally, sheet, list, length);
    }
}
