// The refusals of the numbers before the constraints, 1 to 9, 26 and 27: each part over the fields that it reads.
#![tactic(auto)]

ghost use Rattle.std.specs.Prelude.{◌≡◌, not, ◌||◌, suc, ◌+◌, ◌*◌, ◌/◌, ◌%◌, ◌<◌, ◌≤◌, eqb, ltb, length};
ghost use Rattle.basis.specs.First.{first_over};
ghost use Rattle.basis.specs.Tests.{any_below};
ghost use Rattle.sheet.specs.Sheet.{tick_field, effects_start, bids_start, effect_field, bid_field};
ghost use Rattle.refusal.specs.Numbers.{number_in};
ghost use Rattle.sheet.specs.Refusal.{form_refusal, counts_refusal, effect_before, effect_refusal, bid_refusal, tick_refusal};

use basis::{word16, word32};
use refusal::Refusal;
use sheet::{MAX_BIDDERS, MAX_CONSTRAINTS, MAX_SLOTS};

// "1 to 1,000,000"
const MAX_EFFECT: u32 = 1000000;
// "0 to 1,000,000,000"
const MAX_BID: u32 = 1000000000;
// "26 for a tick of 0 or above 1,000,000,000"
const MAX_TICK: u32 = 1000000000;

// 1 to 3, and 1 again: the header's length, the mark and the version.
pub fn check_form(sheet: &[u8]) -> Result<(), Refusal>
    ensures { number_in result ≡ form_refusal sheet.now }
{
    if sheet.len() < 9 {
        return Err(Refusal::SheetTooShort);
    }
    if sheet[0] != b'P' {
        return Err(Refusal::WrongMark);
    }
    if sheet[1] != b'A' {
        return Err(Refusal::WrongMark);
    }
    if sheet[2] != b'S' {
        return Err(Refusal::WrongMark);
    }
    let version = word16(sheet, 3);
    if version == 1 {
        return Ok(());
    }
    if version != 2 {
        return Err(Refusal::WrongVersion);
    }
    if sheet.len() < 13 {
        return Err(Refusal::SheetTooShort);
    }
    Ok(())
}

// 4 to 6, 26 and 7: the counts, the tick and the length.
pub fn check_counts(sheet: &[u8], start: usize, tick: u32) -> Result<(), Refusal>
    requires { (9 ≤ length sheet.now) × (start ≡ effects_start sheet.now) × (tick ≡ tick_field sheet.now) }
    ensures { number_in result ≡ counts_refusal sheet.now }
{
    let bidders = usize::from(sheet[5]);
    let slots = usize::from(sheet[6]);
    let constraints = word16(sheet, 7) as usize;
    if bidders == 0 {
        return Err(Refusal::WrongBidders);
    }
    if MAX_BIDDERS < bidders {
        return Err(Refusal::WrongBidders);
    }
    if slots == 0 {
        return Err(Refusal::WrongSlots);
    }
    if MAX_SLOTS < slots {
        return Err(Refusal::WrongSlots);
    }
    if MAX_CONSTRAINTS < constraints {
        return Err(Refusal::TooManyConstraints);
    }
    let length = start + 4 * (slots + bidders + constraints);
    if (tick == 0) | (MAX_TICK < tick) {
        return Err(Refusal::WrongTick);
    }
    if sheet.len() != length {
        return Err(Refusal::WrongLength);
    }
    Ok(())
}

// Whether any effect is 0 or above the one before it, the first against the largest that any may have. No fault ends the pass, so that
// the machine tests several effects at once.
fn any_effect_faulty(sheet: &[u8], start: usize, slots: usize) -> bool
    requires { (start ≡ effects_start sheet.now) × (start + 4 * slots ≤ length sheet.now) }
    ensures { result ≡ any_below (λ k. eqb (effect_field sheet.now (suc k)) 0 || ltb (effect_before sheet.now (suc k)) (effect_field sheet.now (suc k))) slots }
{
    let mut before = MAX_EFFECT;
    let mut found = false;
    for k in 0..slots {
        let effect = word32(sheet, start + 4 * k);
        found |= (effect == 0) | (before < effect);
        before = effect;
    }
    found
}

// 8: the effects.
pub fn check_effects(sheet: &[u8], start: usize, slots: usize) -> Result<(), Refusal>
    requires { (start ≡ effects_start sheet.now) × (start + 4 * slots ≤ length sheet.now) }
    ensures { number_in result ≡ first_over (λ k. effect_refusal sheet.now (suc k)) slots }
{
    if any_effect_faulty(sheet, start, slots) {
        return Err(Refusal::WrongEffect);
    }
    Ok(())
}

// Whether any bid is above the limit, again in a pass that no bid ends.
fn any_bid_high(sheet: &[u8], start: usize, bidders: usize) -> bool
    requires { (start ≡ bids_start sheet.now) × (start + 4 * bidders ≤ length sheet.now) }
    ensures { result ≡ any_below (λ i. ltb 1_000_000_000 (bid_field sheet.now (suc i))) bidders }
{
    let mut found = false;
    for i in 0..bidders {
        let bid = word32(sheet, start + 4 * i);
        found |= MAX_BID < bid;
    }
    found
}

// 9: the bids.
pub fn check_bids(sheet: &[u8], start: usize, bidders: usize) -> Result<(), Refusal>
    requires { (start ≡ bids_start sheet.now) × (start + 4 * bidders ≤ length sheet.now) }
    ensures { number_in result ≡ first_over (λ i. bid_refusal sheet.now (suc i)) bidders }
{
    if any_bid_high(sheet, start, bidders) {
        return Err(Refusal::WrongBid);
    }
    Ok(())
}

// Whether a bid is no multiple of the tick. The share is 2^32 cut in as many parts as the tick has units, and 1: a multiple times the share is so many
// times 2^32 and a rest below that, so one multiplication says how many ticks the bid would be, and another whether it is.
fn is_off_tick(bid: u32, tick: u32, share: u64) -> bool
    requires { (1 < tick) × (share ≡ 4294967296 / tick + 1) }
    ensures { result ≡ not (eqb (bid % tick) 0) }
{
    let ticks = (bid as u64) * share / 4294967296;
    ticks * (tick as u64) != (bid as u64)
}

// Whether any bid is no multiple of the tick, once more in a pass that no bid ends, with one division for all of them.
fn any_bid_off_tick(sheet: &[u8], start: usize, bidders: usize, tick: u32) -> bool
    requires { (start ≡ bids_start sheet.now) × (start + 4 * bidders ≤ length sheet.now) × (tick ≡ tick_field sheet.now) × (1 < tick) }
    ensures { result ≡ any_below (λ i. not (eqb (bid_field sheet.now (suc i) % tick_field sheet.now) 0)) bidders }
{
    let share = 4294967296 / (tick as u64) + 1;
    let mut found = false;
    for tested in 0..bidders {
        let bid = word32(sheet, start + 4 * tested);
        found |= is_off_tick(bid, tick, share);
    }
    found
}

// 27: the bids again, which no division is spent on where the tick is 1.
pub fn check_ticks(sheet: &[u8], start: usize, bidders: usize, tick: u32) -> Result<(), Refusal>
    requires { (start ≡ bids_start sheet.now) × (start + 4 * bidders ≤ length sheet.now) × (tick ≡ tick_field sheet.now) × (0 < tick) }
    ensures { number_in result ≡ first_over (λ i. tick_refusal sheet.now (suc i)) bidders }
{
    if tick == 1 {
        return Ok(());
    }
    if any_bid_off_tick(sheet, start, bidders, tick) {
        return Err(Refusal::BidOffTick);
    }
    Ok(())
}
