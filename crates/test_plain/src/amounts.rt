// What clicks are worth: a page's total, and a bidder's gain from the round.
// Amounts are held to document 01's limits, which changes nothing on an accepted sheet, so that every sum fits with nothing
// known of the sheet.
ghost use Rattle.std.specs.Prelude.{◌≤◌};

use crate::{fields, page, round};

// A product of two numbers of which one is large.
pub fn product(large: u64, small: u64) -> u64
    requires { (large ≤ 1000000000) × (small ≤ 1000000) }
    ensures { result ≤ 1000000000000000 }
{
    large * small
}

// An amount per click over an effect's clicks. A bid, a price and a worth have the same limit.
fn over_clicks(amount: u32, effect: u32) -> u64
    ensures { result ≤ 1000000000000000 }
{
    product(
        u64::from(amount.min(fields::MAX_BID)),
        u64::from(effect.min(fields::MAX_EFFECT)),
    )
}

// What the bidder at a slot adds to a page's total.
fn added(bids: &[u32; 64], effects: &[u32; 16], filled: [u8; 16], slot: u8) -> u64
    ensures { result ≤ 1000000000000000 }
{
    over_clicks(
        round::bid_of(bids, page::at(filled, slot)),
        round::effect_of(effects, slot),
    )
}

// "A page's total is the sum of bid × effect over filled places."
pub fn total(bids: &[u32; 64], effects: &[u32; 16], filled: [u8; 16], slots: u8) -> u64 {
    let mut sum: u64 = 0;
    for slot in 1..=slots {
        sum += added(bids, effects, filled, slot);
    }
    sum
}

// A signed number from its size.
fn above_zero(size: u64) -> i64
    requires { size ≤ 1000000000000000 }
{
    size as i64
}

fn below_zero(size: u64) -> i64
    requires { size ≤ 1000000000000000 }
{
    0 - size as i64
}

// "effect × (v − p) if no condition of i in the truth sheet is broken on that page, else −(effect × p)"
fn signed(broken: bool, effect: u32, worth: u32, price: u32) -> i64 {
    if broken {
        return below_zero(over_clicks(price, effect));
    }
    if price <= worth {
        return above_zero(over_clicks(worth - price, effect));
    }
    below_zero(over_clicks(price - worth, effect))
}

// The gain of a bidder: "If i has no place the gain is 0."
pub fn gain(played: &[u8], floors: &[u32], truth: &[u8], bidder: u8, worth: u32) -> i64 {
    let bids = round::bids(played);
    let filled = round::fill(played, floors, bids, fields::slot_count(played));
    let slot = page::slot_of(filled, bidder);
    if slot == 0 {
        return 0;
    }
    signed(
        page::breaks_own(filled, truth, bidder),
        fields::effect(played, slot),
        worth,
        round::price(played, floors, bids, bidder, slot),
    )
}
