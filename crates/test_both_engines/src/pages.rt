// What a written page is like, read from the result's bytes.
use test_chance::parts;

// Where a slot's bidder stands: 5 bytes a slot after playing, 1 byte a slot in a best page.
fn bidder_at(start: u32, slot: u32, played: bool) -> usize {
    if played {
        return start as usize + 5 * (slot as usize);
    }
    start as usize + slot as usize
}

fn price_at(start: u32, slot: u32) -> usize {
    start as usize + 5 * (slot as usize) + 1
}

// The bidder and the price at a slot of a played page.
pub fn bidder(res: &[u8], start: u32, slot: u32) -> u32 {
    parts::byte(res, bidder_at(start, slot, true))
}

pub fn price(res: &[u8], start: u32, slot: u32) -> u32 {
    parts::word(res, price_at(start, slot))
}

// The bid of a bidder, 0 for nobody.
pub fn bid(sheet: &[u8], bidder: u32) -> u32 {
    if bidder == 0 {
        return 0;
    }
    parts::word(sheet, parts::bid_at(sheet, bidder - 1))
}

// The bidder at a slot of a best page.
pub fn best_bidder(res: &[u8], start: u32, slot: u32) -> u32 {
    parts::byte(res, bidder_at(start, slot, false))
}

pub fn has_empty_slot(res: &[u8], start: u32, slots: u32) -> bool {
    (0..slots).any(|slot| bidder(res, start, slot) == 0)
}

pub fn has_price(res: &[u8], start: u32, slots: u32) -> bool {
    (0..slots).any(|slot| 0 < price(res, start, slot))
}

// Whether a bidder with a higher number than the one given bids so much.
fn is_bid_after(sheet: &[u8], bidder: u32, bid: u32) -> bool {
    (bidder..parts::bidders(sheet)).any(|after| parts::word(sheet, parts::bid_at(sheet, after))
        == bid)
}

// Whether the price can only be a rival's bid and a tick: it is above 0, and no bidder with a higher number than the winner's bids it. Such
// a rival asks for no more than its own bid; where one bids the price, it is not counted.
fn is_raised(sheet: &[u8], res: &[u8], start: u32, slot: u32) -> bool {
    let asked = price(res, start, slot);
    0 < asked && !is_bid_after(sheet, bidder(res, start, slot), asked)
}

pub fn has_raised_price(sheet: &[u8], res: &[u8], start: u32, slots: u32) -> bool {
    (0..slots).any(|slot| is_raised(sheet, res, start, slot))
}

fn product(bid: u32, effect: u32) -> u64 {
    u64::from(bid) * u64::from(effect)
}

// "bid x effect" of a bidder at a slot, 0 for an empty slot.
fn worth_at(sheet: &[u8], bidder: u32, slot: u32) -> u64 {
    product(
        bid(sheet, bidder),
        parts::word(sheet, parts::effect_at(sheet, slot)),
    )
}

// "A page's total is the sum of bid x effect over filled places."
pub fn total(sheet: &[u8], res: &[u8], start: u32, played: bool) -> u64 {
    let mut sum: u64 = 0;
    for slot in 0..parts::slots(sheet) {
        let bidder = parts::byte(res, bidder_at(start, slot, played));
        sum = sum.wrapping_add(worth_at(sheet, bidder, slot));
    }
    sum
}
