// Document 01's rules 1 to 13 with document 02's 26 and 27 where it puts them, one after the other, each over the whole sheet; of the
// constraints ("conditions") each in turn, with document 02's 28 after its 13. And document 02's rules for a list of floors.
use crate::fields;

// The number of the first rule that the sheet breaks is the error, here and below.
pub fn sheet_rule(sheet: &[u8]) -> Result<(), u32> {
    form_rule(sheet)?;
    counts_rule(sheet)?;
    amounts_rule(sheet)?;
    constraints_rule(sheet)
}

// "30 for a list that is not m long and 31 for a floor above 1,000,000,000": the first that a list breaks with a sheet of m places.
pub fn floors_rule(sheet: &[u8], floors: &[u32]) -> Result<(), u32> {
    if floors.len() != usize::from(fields::slot_count(sheet)) {
        return Err(30);
    }
    if has_bad_floor(floors) {
        return Err(31);
    }
    Ok(())
}

fn has_bad_floor(floors: &[u32]) -> bool {
    floors.iter().any(|floor| fields::MAX_FLOOR < *floor)
}

// Rules 1 to 3, and then 1 once more: it "also covers a version 2 sheet under 13 bytes, checked after 3".
fn form_rule(sheet: &[u8]) -> Result<(), u32> {
    if sheet.len() < fields::SHORTEST_HEADER {
        return Err(1);
    }
    if !has_mark(sheet) {
        return Err(2);
    }
    if !is_version(fields::version(sheet)) {
        return Err(3);
    }
    if sheet.len() < fields::header(sheet) {
        return Err(1);
    }
    Ok(())
}

// Rules 4 to 6, "26 for a tick of 0 or above 1,000,000,000, after 6", and 7.
fn counts_rule(sheet: &[u8]) -> Result<(), u32> {
    if is_bad_count(fields::bidder_count(sheet), fields::MAX_BIDDERS) {
        return Err(4);
    }
    if is_bad_count(fields::slot_count(sheet), fields::MAX_SLOTS) {
        return Err(5);
    }
    if fields::MAX_CONSTRAINTS < fields::constraint_count(sheet) {
        return Err(6);
    }
    if is_bad_tick(fields::tick(sheet)) {
        return Err(26);
    }
    if sheet.len() != fields::length(sheet) {
        return Err(7);
    }
    Ok(())
}

// Rules 8 and 9, and "27 for a bid that is no multiple, after 9".
fn amounts_rule(sheet: &[u8]) -> Result<(), u32> {
    if has_bad_effect(sheet) {
        return Err(8);
    }
    if has_bad_bid(sheet) {
        return Err(9);
    }
    if has_bid_off_tick(sheet) {
        return Err(27);
    }
    Ok(())
}

// "the letters P A S"
fn has_mark(sheet: &[u8]) -> bool {
    fields::byte(sheet, 0) == b'P'
        && fields::byte(sheet, 1) == b'A'
        && fields::byte(sheet, 2) == b'S'
}

// "Refusal 3 is now for versions other than 1 and 2"
fn is_version(version: u32) -> bool {
    version == fields::FIRST_VERSION || version == fields::TICK_VERSION
}

fn is_bad_count(count: u8, limit: u8) -> bool {
    count == 0 || limit < count
}

fn is_bad_tick(tick: u32) -> bool {
    tick == 0 || fields::MAX_TICK < tick
}

fn has_bad_effect(sheet: &[u8]) -> bool {
    (1..=fields::slot_count(sheet)).any(|slot| is_bad_effect(sheet, slot))
}

// "An effect is 0, above 1,000,000 or above the one before it."
fn is_bad_effect(sheet: &[u8], slot: u8) -> bool {
    let effect = fields::effect(sheet, slot);
    if effect == 0 || fields::MAX_EFFECT < effect {
        return true;
    }
    if slot < 2 {
        return false;
    }
    fields::effect(sheet, slot - 1) < effect
}

fn has_bad_bid(sheet: &[u8]) -> bool {
    (1..=fields::bidder_count(sheet)).any(|bidder| fields::MAX_BID < fields::bid(sheet, bidder))
}

// "Every bid is a multiple of the tick." A tick of 0 is turned away before.
fn is_off_tick(bid: u32, tick: u32) -> bool {
    tick == 0 || bid % tick != 0
}

fn has_bid_off_tick(sheet: &[u8]) -> bool {
    let tick = fields::tick(sheet);
    (1..=fields::bidder_count(sheet)).any(|bidder| is_off_tick(fields::bid(sheet, bidder), tick))
}

// "Conditions are taken in sheet order, each through 10 to 13."
fn constraints_rule(sheet: &[u8]) -> Result<(), u32> {
    for index in 0..fields::constraint_count(sheet) {
        rule_at(sheet, index)?;
    }
    Ok(())
}

// Rules 10 to 13, and "28 for a version 2 condition not above the one before, tested for each condition after its 13".
fn rule_at(sheet: &[u8], index: usize) -> Result<(), u32> {
    constraint_rule(sheet, fields::constraint(sheet, index))?;
    if is_out_of_order(sheet, index) {
        return Err(28);
    }
    Ok(())
}

fn constraint_rule(sheet: &[u8], constraint: [u8; 4]) -> Result<(), u32> {
    if is_out_of_range(sheet, constraint) {
        return Err(10);
    }
    if constraint[fields::OTHER] == constraint[fields::OWNER] {
        return Err(11);
    }
    if (constraint[fields::OTHER] == 0) != (constraint[fields::OTHER_SLOT] == 0) {
        return Err(12);
    }
    if constraint[fields::OWN_SLOT] == 0 && constraint[fields::OTHER] == 0 {
        return Err(13);
    }
    Ok(())
}

// "A condition has owner 0, owner or other bidder above n, or a place above m."
fn is_out_of_range(sheet: &[u8], constraint: [u8; 4]) -> bool {
    let bidders = fields::bidder_count(sheet);
    let slots = fields::slot_count(sheet);
    if constraint[fields::OWNER] == 0 {
        return true;
    }
    if bidders < constraint[fields::OWNER] || bidders < constraint[fields::OTHER] {
        return true;
    }
    slots < constraint[fields::OWN_SLOT] || slots < constraint[fields::OTHER_SLOT]
}

fn is_out_of_order(sheet: &[u8], index: usize) -> bool {
    if fields::version(sheet) != fields::TICK_VERSION || index == 0 {
        return false;
    }
    !is_above(
        fields::constraint(sheet, index),
        fields::constraint(sheet, index - 1),
    )
}

// "strictly rising order of owner, own place, other bidder, other's place": the first of the four that differs decides.
pub fn is_above(constraint: [u8; 4], before: [u8; 4]) -> bool {
    if constraint[fields::OWNER] != before[fields::OWNER] {
        return before[fields::OWNER] < constraint[fields::OWNER];
    }
    if constraint[fields::OWN_SLOT] != before[fields::OWN_SLOT] {
        return before[fields::OWN_SLOT] < constraint[fields::OWN_SLOT];
    }
    if constraint[fields::OTHER] != before[fields::OTHER] {
        return before[fields::OTHER] < constraint[fields::OTHER];
    }
    before[fields::OTHER_SLOT] < constraint[fields::OTHER_SLOT]
}
