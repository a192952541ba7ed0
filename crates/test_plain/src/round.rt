// Fills a page slot by slot and finds prices by playing the round again at lower bids, as document 01 words it, and of these only
// at legal bids, as document 02 has it. A round without floors has an empty list of them.
// Bids go by value, so that a replay can change one.
ghost use Rattle.std.specs.Prelude.{◌≤◌, ◌<◌};

use crate::{fields, page};

// Up to a bid of so many ticks every lower legal bid is tried for a price.
const FEW_TICKS: u64 = 32;

// Every bid of the sheet, by bidder.
pub fn bids(sheet: &[u8]) -> [u32; 64] {
    let mut copied = [0u32; 64];
    for bidder in 1..=fields::MAX_BIDDERS {
        copied[usize::from(bidder) - 1] = fields::bid(sheet, bidder);
    }
    copied
}

// Every effect of the sheet, by slot.
pub fn effects(sheet: &[u8]) -> [u32; 16] {
    let mut copied = [0u32; 16];
    for slot in 1..=fields::MAX_SLOTS {
        copied[usize::from(slot) - 1] = fields::effect(sheet, slot);
    }
    copied
}

// The bid of a bidder, 0 for none.
pub fn bid_of(bids: &[u32; 64], bidder: u8) -> u32 {
    if bidder == 0 || fields::MAX_BIDDERS < bidder {
        return 0;
    }
    bids[usize::from(bidder) - 1]
}

// The effect of a slot.
pub fn effect_of(effects: &[u32; 16], slot: u8) -> u32 {
    if slot == 0 || fields::MAX_SLOTS < slot {
        return 0;
    }
    effects[usize::from(slot) - 1]
}

// The bids with one of them changed.
fn with_bid(mut bids: [u32; 64], bidder: u8, bid: u32) -> [u32; 64] {
    if bidder != 0 && bidder <= fields::MAX_BIDDERS {
        bids[usize::from(bidder) - 1] = bid;
    }
    bids
}

// "An unplaced bidder is eligible for place k if, with the places already filled and it at k, neither its own conditions nor
// those of an earlier winner are broken." A constraint of anyone else does not bind, so that all may be asked.
fn may_stand(sheet: &[u8], filled: [u8; 16], slot: u8, bidder: u8) -> bool {
    if page::slot_of(filled, bidder) != 0 {
        return false;
    }
    !page::breaks_any(page::put(filled, slot, bidder), sheet)
}

// "A bidder is eligible for a place only with a bid at or above its floor". Nobody asks here which test fails first, so this one, the
// quickest, comes first.
fn is_eligible(
    sheet: &[u8],
    floors: &[u32],
    bids: &[u32; 64],
    filled: [u8; 16],
    slot: u8,
    bidder: u8,
) -> bool {
    if bid_of(bids, bidder) < fields::floor(floors, slot) {
        return false;
    }
    may_stand(sheet, filled, slot, bidder)
}

// Whether the leader, 0 for none, has to give way: the bidders come in order of number, so that an equal bid is not enough.
fn outbids(bids: &[u32; 64], bidder: u8, leader: u8) -> bool {
    if leader == 0 {
        return true;
    }
    bid_of(bids, leader) < bid_of(bids, bidder)
}

// "The eligible bidder with the highest bid wins; equal bids go to the lower number."
fn winner(sheet: &[u8], floors: &[u32], bids: &[u32; 64], filled: [u8; 16], slot: u8) -> u8 {
    let mut leader: u8 = 0;
    for bidder in 1..=fields::bidder_count(sheet) {
        if outbids(bids, bidder, leader) && is_eligible(sheet, floors, bids, filled, slot, bidder) {
            leader = bidder;
        }
    }
    leader
}

// The page of the first slots, as many as are asked for.
pub fn fill(sheet: &[u8], floors: &[u32], bids: [u32; 64], slots: u8) -> [u8; 16] {
    let mut filled = page::empty();
    for slot in 1..=slots {
        let bidder = winner(sheet, floors, &bids, filled, slot);
        page::set(&mut filled, slot, bidder);
    }
    filled
}

// Whether a bidder wins the slot when the round is played again with another bid of its own.
fn still_wins(
    sheet: &[u8],
    floors: &[u32],
    bids: [u32; 64],
    bidder: u8,
    slot: u8,
    bid: u32,
) -> bool {
    let replayed = fill(sheet, floors, with_bid(bids, bidder, bid), slot);
    page::at(replayed, slot) == bidder
}

// The tick, and 1 for a tick of 0, which no accepted sheet has, so that every step goes up.
fn step_of(sheet: &[u8]) -> u32
    ensures { 0 < result }
{
    let tick = fields::tick(sheet);
    tick.max(1)
}

// One step above a bid, or the limit where that is no higher.
fn next_bid(bid: u32, step: u32, limit: u32) -> u32
    requires { (bid < limit) × (0 < step) }
    ensures { (bid < result) × (result ≤ limit) }
{
    if limit - bid <= step {
        return limit;
    }
    bid + step
}

// Whether a bid has few ticks.
fn is_small(bid: u32, step: u32) -> bool {
    u64::from(bid) <= FEW_TICKS * u64::from(step)
}

// "the smallest bid that the sheet would accept and that still wins the place", "floor counted". "An empty place has price 0."
pub fn price(sheet: &[u8], floors: &[u32], bids: [u32; 64], winner: u8, slot: u8) -> u32 {
    if winner == 0 {
        return 0;
    }
    if is_small(bid_of(&bids, winner), step_of(sheet)) {
        return least_of_all(sheet, floors, bids, winner, slot);
    }
    least_by_rivals(sheet, floors, bids, winner, slot)
}

// The price by every legal bid from 0 up to the winner's own.
fn least_of_all(sheet: &[u8], floors: &[u32], bids: [u32; 64], winner: u8, slot: u8) -> u32 {
    let own = bid_of(&bids, winner);
    let step = step_of(sheet);
    let mut bid: u32 = 0;
    while bid < own {
        if still_wins(sheet, floors, bids, winner, slot, bid) {
            return bid;
        }
        bid = next_bid(bid, step, own);
    }
    own
}

// The last legal bid that is not above a floor.
fn legal_below(floor: u32, step: u32) -> u32
    requires { 0 < step }
{
    floor - floor % step
}

// The price by 0, each rival's bid, the last legal bid that is not above the floor, and the next legal one after each of these: what it
// takes to pass a rival or to reach the floor is one of these.
fn least_by_rivals(sheet: &[u8], floors: &[u32], bids: [u32; 64], winner: u8, slot: u8) -> u32 {
    let low = legal_below(fields::floor(floors, slot), step_of(sheet));
    let most = tried(sheet, floors, bids, winner, slot, 0, bid_of(&bids, winner));
    let mut least = tried_both(sheet, floors, bids, winner, slot, low, most);
    for rival in 1..=fields::bidder_count(sheet) {
        let bid = bid_of(&bids, rival);
        least = tried_both(sheet, floors, bids, winner, slot, bid, least);
    }
    least
}

// The least winning bid after a bid and the next legal one were tried.
fn tried_both(
    sheet: &[u8],
    floors: &[u32],
    bids: [u32; 64],
    winner: u8,
    slot: u8,
    bid: u32,
    least: u32,
) -> u32 {
    let now = tried(sheet, floors, bids, winner, slot, bid, least);
    if now <= bid {
        return now;
    }
    let next = next_bid(bid, step_of(sheet), now);
    tried(sheet, floors, bids, winner, slot, next, now)
}

// The least winning bid found so far, or the bid tried now where that is lower and wins.
fn tried(
    sheet: &[u8],
    floors: &[u32],
    bids: [u32; 64],
    winner: u8,
    slot: u8,
    bid: u32,
    least: u32,
) -> u32 {
    if least <= bid {
        return least;
    }
    if still_wins(sheet, floors, bids, winner, slot, bid) {
        return bid;
    }
    least
}
