// The greedy page and its prices, from the links of the constraints.
//
// A candidate is eligible for a slot where it has none yet, no constraint of an earlier winner names it there, none of its own is broken there,
// and its bid is no less than the slot's floor. Who stands where is marked in `held`, by key; the constraints that name a candidate at a slot are
// the links of one chain; and whom a constraint of its own keeps from where, since its other stands where it says, is marked in `barred`, by key.
// A winner adds its two keys to `held`, and to `barred` the owners' keys along its chain.
//
// What depends on the constraints (`greedy_links::link_all`) stands apart from what depends on the bids (`fill`). A sheet is lent on for its
// constraints, which start at `start`; its own bids and tick are not read there: those handed on count, and so do the floors, slot by slot.
#![tactic(auto)]

ghost use Rattle.std.specs.Prelude.{List, ◌≡◌, ℕ, ◌+◌, ◌-◌, ◌<◌, ◌≤◌, eqb, ltb, length, get_or};
ghost use Rattle.basis.specs.First.{◌when◌otherwise◌};
ghost use Rattle.sheet.specs.Refusal.{Accepted};
ghost use Rattle.sheet.specs.Sheet.{slot_count, tick_field};
ghost use Rattle.sheet.specs.Round.{round_of, with_floors, floor_of};
ghost use Rattle.auction.specs.Eligible.{first_failed, failed_test, eligible};
ghost use Rattle.greedy_links.specs.EngineLinks.{Kept};
ghost use Rattle.greedy.specs.EngineOutcome.{outcome_of};
ghost use Rattle.greedy.specs.EngineEligible.{SoFar, Settled, Lent};
ghost use Rattle.choice.specs.EngineRanking.{InOrder, NextAt};
ghost use Rattle.choice.specs.Critical.{InTicks, Awarded, Asked};
ghost use Rattle.choice.specs.EngineBids.{bid_in};

use auction::Eligibility;
use choice::Placing;
use sheet::{Bidder, Page, Round, Slot};

// A played round: its page and the price of each slot, 0 for an empty one.
#[derive(Clone, Copy)]
pub struct Outcome {
    pub page: Page,
    pub prices: [u32; 16],
}

// Whether a candidate bids less than the slot's floor asks.
fn is_below(bids: &[u32], asks: u32, bidder: Bidder) -> bool
    requires { (0 < bidder.0) × (bidder.0 ≤ length bids.now) }
    ensures { result ≡ ltb (bid_in bids.now bidder.0) asks }
{
    bids[bidder.0 as usize - 1] < asks
}

// The eligibility step: which test the candidate fails first at the slot, with the page so far. Whether it has a slot is asked of `held`,
// whether an earlier winner's constraint names it, of its chain, its own constraints of the chain and of `barred`, and the floor of its bid.
fn eligibility(
    barred: &[u8],
    held: &[u8],
    last: &[u16],
    links: &[u16],
    sheet: &[u8],
    start: usize,
    bids: &[u32],
    asks: u32,
    bidder: Bidder,
    slot: Slot,
) -> Eligibility
    requires barred_len { (length barred.now ≡ 1089) × (length held.now ≡ 1089) × Kept sheet.now start last.now links.now }
    requires bidder_nonzero { ((0 < bidder.0) × (bidder.0 ≤ 64) × (bidder.0 ≤ length bids.now)) × ((0 < slot.0) × (slot.0 ≤ 16)) }
    ensures { (q : Round) (p : Page) → SoFar q p sheet.now barred.now held.now bids.now asks slot.0 → failed_test result ≡ first_failed q p slot.0 bidder.0 }
{
    let anywhere = greedy_links::owner_key(bidder, Slot(0));
    if greedy_links::is_marked(held, anywhere) {
        return Eligibility::Placed;
    }
    let chain = greedy_links::chain_key(bidder, slot);
    let named = greedy_links::named_by(held, last, links, sheet, start, chain);
    let earlier = named.earlier;
    let itself = named.itself;
    let here = greedy_links::owner_key(bidder, slot);
    let never = greedy_links::is_marked(barred, anywhere);
    let not_here = greedy_links::is_marked(barred, here);
    let own = itself | (never | not_here);
    if earlier {
        return Eligibility::EarlierWinners;
    }
    if own {
        return Eligibility::Own;
    }
    if is_below(bids, asks, bidder) {
        return Eligibility::BelowFloor;
    }
    Eligibility::Eligible
}

// The first rank from `from` on whose bidder is eligible, or the number of bidders. Bids fall from rank to rank, so the search ends where the step
// answers that a bid is below the floor: nobody after it reaches the floor.
fn next_eligible(
    ranked: &[u8],
    barred: &[u8],
    held: &[u8],
    last: &[u16],
    links: &[u16],
    sheet: &[u8],
    start: usize,
    bids: &[u32],
    asks: u32,
    bidders: usize,
    slot: Slot,
    from: usize,
) -> usize
    requires barred_len { (length barred.now ≡ 1089) × (length held.now ≡ 1089) × Kept sheet.now start last.now links.now }
    requires from_le_bidders { (from ≤ bidders) × (bidders ≤ 64) × (bidders ≤ length ranked.now) × (bidders ≤ length bids.now) × ((0 < slot.0) × (slot.0 ≤ 16)) }
    requires in_order { InOrder (bid_in bids.now) bidders ranked.now }
    ensures upper_bound { result ≤ bidders }
    ensures next_at { (q : Round) (p : Page) → SoFar q p sheet.now barred.now held.now bids.now asks slot.0 → NextAt (eligible q p slot.0) ranked.now bidders from result }
{
    for rank in from..bidders {
        let bidder = choice::ranked_at(ranked, rank);
        let answer = eligibility(
            barred, held, last, links, sheet, start, bids, asks, bidder, slot,
        );
        match answer {
            Eligibility::Eligible => return rank,
            Eligibility::BelowFloor => return bidders,
            Eligibility::Placed | Eligibility::EarlierWinners | Eligibility::Own => {}
        }
    }
    bidders
}

// The winner of a slot and what it pays: the first two eligible bidders in the order in which they win are the winner and who sets its price.
fn award_slot(
    ranked: &[u8],
    barred: &[u8],
    held: &[u8],
    last: &[u16],
    links: &[u16],
    sheet: &[u8],
    start: usize,
    bids: &[u32],
    asks: u32,
    bidders: usize,
    tick: u32,
    slot: Slot,
) -> Placing
    requires barred_len { (length barred.now ≡ 1089) × (length held.now ≡ 1089) × Kept sheet.now start last.now links.now }
    requires bidders_bound { (bidders ≤ 64) × (bidders ≤ length bids.now) × ((0 < slot.0) × (slot.0 ≤ 16)) }
    requires in_order { InOrder (bid_in bids.now) bidders ranked.now × InTicks tick (bid_in bids.now) }
    ensures { (q : Round) (p : Page) → q.tick ≡ tick → SoFar q p sheet.now barred.now held.now bids.now asks slot.0 → Awarded tick (floor_of q slot.0) (eligible q p slot.0) (bid_in bids.now) bidders result.winner.0 result.critical }
{
    let first = next_eligible(
        ranked, barred, held, last, links, sheet, start, bids, asks, bidders, slot, 0,
    );
    let second = if first < bidders {
        next_eligible(
            ranked,
            barred,
            held,
            last,
            links,
            sheet,
            start,
            bids,
            asks,
            bidders,
            slot,
            first + 1,
        )
    } else {
        bidders
    };
    choice::placing_at(ranked, bids, bidders, tick, asks, first, second)
}

// The marks once a slot is settled: as they were where nobody won it.
fn settle(
    barred: &mut [u8],
    held: &mut [u8],
    last: &[u16],
    links: &[u16],
    sheet: &[u8],
    start: usize,
    winner: Bidder,
    at: Slot,
)
    requires barred_len { (length barred.old ≡ 1089) × (length held.old ≡ 1089) × Kept sheet.now start last.now links.now }
    requires winner_bound { (winner.0 ≤ 64) × (at.0 ≤ 16) }
    ensures { Settled (round_of sheet.now) winner.0 at.0 barred.old held.old barred.new held.new }
{
    if winner != Bidder(0) {
        let here = greedy_links::chain_key(winner, at);
        greedy_links::bar_chain(barred, last, links, sheet, start, here);
        greedy_links::hold(held, winner, at);
    }
}

// The page of the greedy rule with the price of each slot, from a round's linked constraints, its bids, what its floors ask and its tick.
pub fn fill(
    last: &[u16],
    links: &[u16],
    sheet: &[u8],
    start: usize,
    bids: &[u32],
    asks: &[u32],
    bidders: usize,
    slots: usize,
    tick: u32,
) -> Outcome
    requires { (q : Round) × Lent q sheet.now start last.now links.now bids.now asks.now bidders slots tick }
    ensures { (q : Round) → Lent q sheet.now start last.now links.now bids.now asks.now bidders slots tick → result ≡ outcome_of q }
{
    let ranked = choice::ranking_of(bids, bidders);
    let mut barred = [0u8; greedy_links::KEYS];
    let mut held = [0u8; greedy_links::KEYS];
    let mut page = auction::empty_page();
    let mut prices = [0u32; 16];
    for (k, asked) in asks[..slots].iter().enumerate() {
        let slot = Slot((k + 1) as u8);
        let awarded = award_slot(
            &ranked, &barred, &held, last, links, sheet, start, bids, *asked, bidders, tick, slot,
        );
        let winner = awarded.winner;
        page = auction::with_bidder(page, slot, winner);
        prices[k] = awarded.critical;
        settle(
            &mut barred,
            &mut held,
            last,
            links,
            sheet,
            start,
            winner,
            slot,
        );
    }
    Outcome { page, prices }
}

// The page of the greedy rule with the price of each slot, of an accepted sheet with floors that ask so much.
pub fn played(sheet: &[u8], asks: &[u32]) -> Outcome
    requires { Accepted sheet.now × ((floors : List ℕ) × Asked (tick_field sheet.now) (slot_count sheet.now) floors asks.now) }
    ensures { (floors : List ℕ) → Asked (tick_field sheet.now) (slot_count sheet.now) floors asks.now → result ≡ outcome_of (with_floors (round_of sheet.now) floors) }
{
    let mut last = [0u16; greedy_links::KEYS];
    let mut links = [0u16; greedy_links::LINKS];
    greedy_links::link_all(&mut last, &mut links, sheet);
    let bids = sheet_read::accepted_bids(sheet);
    let start = sheet_read::constraints_start(sheet);
    let bidders = sheet[5] as usize;
    let slots = sheet[6] as usize;
    let tick = sheet::tick_of(sheet);
    fill(
        &last, &links, sheet, start, &bids, asks, bidders, slots, tick,
    )
}
