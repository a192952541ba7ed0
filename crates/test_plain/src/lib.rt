// A second engine for document 01 and for document 02's version 2, floors and one sheet for one round, written another way on purpose,
// so that random rounds on which it agrees with the proved engine say something of both. It shares no code with the library, keeps no
// table and no round in memory, but for copies of the bids and, while it searches, of the effects, and reads the sheet's bytes where it needs
// the rest. It is proved safe and ending, and nothing more.
//
// Each call returns 0 or the number of the first rule that the call breaks, and then nothing lent is written. A sheet's rules are 1 to
// 13 and 26 to 28, and with a list of floors then 30 and 31.
#![tactic(auto)]

ghost use Rattle.std.specs.Prelude.{◌<◌};

mod amounts;
mod fields;
mod list;
mod owner;
pub mod page;
mod round;
mod rules;
mod search;
mod writer;

// "v, 0 to 1,000,000,000"
const MAX_WORTH: u32 = 1000000000;
// "The best page is sought with n above 8 or m above 8."
const MAX_SEARCHED: u8 = 8;
// "Playing writes 5 bytes a place to the result buffer"
const BYTES_PER_SLOT: usize = 5;

// What a call returns: 0, or the number of the rule that it breaks.
fn number(outcome: Result<(), u32>) -> u32 {
    outcome.err().unwrap_or(0)
}

// A sheet's rules.
pub fn check(sheet: &[u8]) -> u32 {
    number(rules::sheet_rule(sheet))
}

// "Turned away: after 28 and before 14": a sheet's rules, and with floors 30 and 31.
fn round_rule(sheet: &[u8], floors: Option<&[u32]>) -> Result<(), u32> {
    rules::sheet_rule(sheet)?;
    match floors {
        Some(list) => rules::floors_rule(sheet, list),
        None => Ok(()),
    }
}

fn set_byte(res: &mut [u8], at: usize, value: u8) {
    if at < res.len() {
        res[at] = value;
    }
}

fn set_four(res: &mut [u8], at: usize, bytes: [u8; 4])
    requires { at < 1000000 }
{
    for (index, byte) in bytes.iter().enumerate() {
        set_byte(res, at + index, *byte);
    }
}

// "bidder (0 if empty) and 4 bytes of price"
fn write_slot(res: &mut [u8], slot: u8, bidder: u8, price: u32) {
    if slot == 0 {
        return;
    }
    let at = BYTES_PER_SLOT * (usize::from(slot) - 1);
    set_byte(res, at, bidder);
    set_four(res, at + 1, price.to_le_bytes());
}

// The page, with a price for each slot.
fn write_page(res: &mut [u8], sheet: &[u8], floors: &[u32], bids: [u32; 64], filled: [u8; 16]) {
    for slot in 1..=fields::slot_count(sheet) {
        let bidder = page::at(filled, slot);
        let price = round::price(sheet, floors, bids, bidder, slot);
        write_slot(res, slot, bidder, price);
    }
}

// A round's rules and 19; or the page and its prices.
fn play_round(sheet: &[u8], floors: Option<&[u32]>, res: &mut [u8]) -> Result<(), u32> {
    round_rule(sheet, floors)?;
    let slots = fields::slot_count(sheet);
    if res.len() < BYTES_PER_SLOT * usize::from(slots) {
        return Err(19);
    }
    let floors = floors.unwrap_or(&[]);
    let bids = round::bids(sheet);
    let filled = round::fill(sheet, floors, bids, slots);
    write_page(res, sheet, floors, bids, filled);
    Ok(())
}

// A sheet's rules and 19; or the page and its prices.
pub fn play(sheet: &[u8], res: &mut [u8]) -> u32 {
    number(play_round(sheet, None, res))
}

// The same with floors.
pub fn play_floors(sheet: &[u8], floors: &[u32], res: &mut [u8]) -> u32 {
    number(play_round(sheet, Some(floors), res))
}

// "The bidder named in the call is 0 or above n."
fn is_bad_bidder(sheet: &[u8], bidder: u32) -> bool {
    bidder == 0 || u32::from(fields::bidder_count(sheet)) < bidder
}

// A bidder's number as a page has it.
fn narrow(bidder: u32) -> u8 {
    (bidder % 256) as u8
}

// A sheet's rules and 16; or whether the bidder's list is downward monotonic.
fn list_answer(sheet: &[u8], bidder: u32) -> Result<bool, u32> {
    rules::sheet_rule(sheet)?;
    if is_bad_bidder(sheet, bidder) {
        return Err(16);
    }
    Ok(list::is_downward(sheet, narrow(bidder)))
}

// A sheet's rules and 16; or 1 in the answer where the bidder's list is downward monotonic, and 0 where it is not.
pub fn downward(sheet: &[u8], bidder: u32, answer: &mut u8) -> u32 {
    match list_answer(sheet, bidder) {
        Ok(is_downward) => {
            *answer = u8::from(is_downward);
            0
        }
        Err(rule) => rule,
    }
}

// "The truth sheet has another n or m."
fn has_another_size(played: &[u8], truth: &[u8]) -> bool {
    fields::bidder_count(played) != fields::bidder_count(truth)
        || fields::slot_count(played) != fields::slot_count(truth)
}

// Rules 14 to 17.
fn gain_rule(played: &[u8], truth: &[u8], bidder: u32, worth: u32) -> Result<(), u32> {
    if rules::sheet_rule(truth).is_err() {
        return Err(14);
    }
    if has_another_size(played, truth) {
        return Err(15);
    }
    if is_bad_bidder(played, bidder) {
        return Err(16);
    }
    if MAX_WORTH < worth {
        return Err(17);
    }
    Ok(())
}

// A round's rules and 14 to 17; or the bidder's gain from the played sheet, by its constraints in the truth sheet.
fn gain_in(
    played: &[u8],
    floors: Option<&[u32]>,
    truth: &[u8],
    bidder: u32,
    worth: u32,
    gain: &mut i64,
) -> Result<(), u32> {
    round_rule(played, floors)?;
    gain_rule(played, truth, bidder, worth)?;
    *gain = amounts::gain(played, floors.unwrap_or(&[]), truth, narrow(bidder), worth);
    Ok(())
}

// A sheet's rules and 14 to 17; or the bidder's gain from the played sheet, by its constraints in the truth sheet.
pub fn gain(played: &[u8], truth: &[u8], bidder: u32, worth: u32, gain: &mut i64) -> u32 {
    number(gain_in(played, None, truth, bidder, worth, gain))
}

// The same with floors under the played sheet's slots.
pub fn gain_floors(
    played: &[u8],
    floors: &[u32],
    truth: &[u8],
    bidder: u32,
    worth: u32,
    gain: &mut i64,
) -> u32 {
    number(gain_in(played, Some(floors), truth, bidder, worth, gain))
}

fn write_bidders(res: &mut [u8], filled: [u8; 16], slots: u8) {
    for slot in 0..slots {
        set_byte(res, usize::from(slot), page::at(filled, slot + 1));
    }
}

// Rules 18 and 19.
fn best_rule(sheet: &[u8], room: usize) -> Result<(), u32> {
    let slots = fields::slot_count(sheet);
    if MAX_SEARCHED < fields::bidder_count(sheet) || MAX_SEARCHED < slots {
        return Err(18);
    }
    if room < usize::from(slots) {
        return Err(19);
    }
    Ok(())
}

// A round's rules, 18 and 19; or the best page's bidder numbers, a byte a slot, and its total.
fn best_in(
    sheet: &[u8],
    floors: Option<&[u32]>,
    res: &mut [u8],
    total: &mut u64,
) -> Result<(), u32> {
    round_rule(sheet, floors)?;
    best_rule(sheet, res.len())?;
    let choice = search::best(sheet, floors.unwrap_or(&[]));
    write_bidders(res, choice.page, fields::slot_count(sheet));
    *total = choice.total;
    Ok(())
}

// A sheet's rules, 18 and 19; or the best page's bidder numbers, a byte a slot, and its total.
pub fn best(sheet: &[u8], res: &mut [u8], total: &mut u64) -> u32 {
    number(best_in(sheet, None, res, total))
}

// The same with floors.
pub fn best_floors(sheet: &[u8], floors: &[u32], res: &mut [u8], total: &mut u64) -> u32 {
    number(best_in(sheet, Some(floors), res, total))
}

// A sheet's rules, "29 where either call gets a version 1 sheet that is otherwise accepted, before 16", and 16.
fn owner_part_rule(sheet: &[u8], bidder: u32) -> Result<(), u32> {
    rules::sheet_rule(sheet)?;
    if fields::version(sheet) == fields::FIRST_VERSION {
        return Err(29);
    }
    if is_bad_bidder(sheet, bidder) {
        return Err(16);
    }
    Ok(())
}

// A sheet's rules, 29 and 16; or where the part of the sheet with the bidder's constraints starts, and its length.
pub fn owner_part(sheet: &[u8], bidder: u32, start: &mut usize, length: &mut usize) -> u32 {
    let rule = owner_part_rule(sheet, bidder);
    if rule.is_ok() {
        *start = owner::start(sheet, narrow(bidder));
        *length = owner::length(sheet, narrow(bidder));
    }
    number(rule)
}

// A sheet's rules and 19; or the one sheet for the round at the front of the buffer, and its length.
fn write_canonical(sheet: &[u8], res: &mut [u8]) -> Result<usize, u32> {
    rules::sheet_rule(sheet)?;
    let length = writer::length(sheet);
    if res.len() < length {
        return Err(19);
    }
    writer::write(res, sheet);
    Ok(length)
}

// A sheet's rules and 19; or the one sheet for the round at the front of the buffer, and its length.
pub fn canonical(sheet: &[u8], res: &mut [u8], written: &mut usize) -> u32 {
    match write_canonical(sheet, res) {
        Ok(length) => {
            *written = length;
            0
        }
        Err(rule) => rule,
    }
}
