// The lines that write on the sheet in hand.
use crate::script;
use test_edge_sheets::build;

// One of the line's numbers, as one byte.
fn small(words: &[u8], index: u16) -> u8 {
    build::low(script::number(words, index))
}

// "sheet N M C": a right sheet of these counts, bidders first, and its length. "sheet N M C T": the same of version 2 with this tick, its
// conditions rising from (1,1,0,0).
fn new_sheet(words: &[u8], sheet: &mut [u8]) -> usize {
    let bidders = small(words, 1);
    let slots = small(words, 2);
    let constraints = (script::number(words, 3) % 65536) as u16;
    if script::count(words) < 4 {
        return build::base(sheet, bidders, slots, constraints);
    }
    let tick = script::number(words, 4);
    build::base_in_ticks(sheet, tick, bidders, slots, constraints)
}

// What a line writes on the sheet, and the sheet's length after it. A line of any other word writes nothing.
// "length L": that many bytes are lent, whatever the counts say.
pub fn write(words: &[u8], sheet: &mut [u8], length: usize) -> usize {
    if words.starts_with(b"sheet") {
        return new_sheet(words, sheet);
    }
    if words.starts_with(b"length") {
        return script::number(words, 1) as usize;
    }
    write_fields(words, sheet);
    length
}

// "byte AT VALUE": one byte, at an offset from 0. "rising C": from this condition on, each is the next above the one before. The other lines
// give the first fields of a kind their values.
fn write_fields(words: &[u8], sheet: &mut [u8]) {
    if words.starts_with(b"byte") {
        build::set_byte(sheet, script::number(words, 1) as usize, small(words, 2));
        return;
    }
    if words.starts_with(b"effects") {
        write_effects(words, sheet);
        return;
    }
    if words.starts_with(b"bids") {
        write_bids(words, sheet);
        return;
    }
    if words.starts_with(b"conditions") {
        write_constraints(words, sheet);
        return;
    }
    if words.starts_with(b"rising") {
        build::rise(sheet, (script::number(words, 1) % 65536) as u16);
    }
}

// "effects E E ..", from slot 1 on.
fn write_effects(words: &[u8], sheet: &mut [u8]) {
    for slot in 1..=script::count(words) {
        build::set_effect(sheet, (slot % 256) as u8, script::number(words, slot));
    }
}

// "bids B B ..", from bidder 1 on.
fn write_bids(words: &[u8], sheet: &mut [u8]) {
    for bidder in 1..=script::count(words) {
        build::set_bid(sheet, (bidder % 256) as u8, script::number(words, bidder));
    }
}

// "conditions (O,P,B,P) (O,P,B,P) ..", from the first on: owner, own place, other, other's place.
fn write_constraints(words: &[u8], sheet: &mut [u8]) {
    for constraint in 0..script::count(words) / 4 {
        let before = 4 * constraint;
        let fields = [
            small(words, before + 1),
            small(words, before + 2),
            small(words, before + 3),
            small(words, before + 4),
        ];
        build::set_constraint(sheet, constraint + 1, fields);
    }
}
