// What each seat adds to a page's total, and what the slots left can add at most, for the best-page search.
#![tactic(auto)]

ghost use Rattle.std.specs.Prelude.{◌≡◌, ℕ, ◌-◌, ◌<◌, ◌≤◌, length, get_or};
ghost use Rattle.best_seats.specs.EngineSeats.{somewhere};
ghost use Rattle.best_bound.specs.EngineBound.{add_after, nth, bid_at_rank, GainsOf, gain_in};

use best_seats::{Rank, Seat, Seats};
use sheet::Slot;

// The bids in the order in which bidders win, with 0 after them.
#[tactic(auto, unfolding(crate::specs::EngineBound::bid_at_rank, choice::specs::EngineBids::bid_in))]
fn bids_by_rank(ranked: &[u8], bids: &[u32], bidders: usize) -> [u32; 8]
    requires { (bidders ≤ 8) × (bidders ≤ length ranked.now) × ((i : ℕ) → i < bidders → (0 < get_or ranked.now i 0) × (get_or ranked.now i 0 ≤ length bids.now)) }
    ensures { (i : ℕ) → get_or result i 0 ≡ bid_at_rank ranked.now bids.now bidders i }
{
    let mut by_rank = [0u32; 8];
    for rank in 0..bidders {
        let bidder = choice::ranked_at(ranked, rank);
        by_rank[rank] = bids[bidder.0 as usize - 1];
    }
    by_rank
}

// What each seat adds: its bid times its effect. The rows after the last slot are 0, so that the bound need not stop there.
#[tactic(auto, using(best_seats::proofs::TakeLaws::taken_is))]
pub fn gains_of(
    ranked: &[u8],
    bids: &[u32],
    effects: &[u32],
    bidders: usize,
    slots: usize,
) -> [u64; 128]
    requires bidders_bound { (bidders ≤ 8) × (bidders ≤ length ranked.now) × ((i : ℕ) → i < bidders → (0 < get_or ranked.now i 0) × (get_or ranked.now i 0 ≤ length bids.now)) }
    requires slots_bound { (slots ≤ 8) × (length effects.now ≡ 16) × ((k : ℕ) → slots ≤ k → get_or effects.now k 0 ≡ 0) }
    requires by_index { ((i : ℕ) → get_or bids.now i 0 ≤ 1000000000) × ((i : ℕ) → get_or effects.now i 0 ≤ 1000000) }
    ensures { GainsOf (bid_at_rank ranked.now bids.now bidders) (nth effects.now) result × ((x : ℕ) → get_or result x 0 ≤ 1000000000000000) }
{
    let by_rank = bids_by_rank(ranked, bids, bidders);
    let mut gains = [0u64; 128];
    for (k, effect) in effects[..slots].iter().enumerate() {
        let slot = Slot(k as u8 + 1);
        for (rank, bid) in by_rank.iter().enumerate() {
            let seat = best_seats::seat_at(slot, Rank(rank as u8));
            gains[seat.0 as usize] = u64::from(*bid) * u64::from(*effect);
        }
    }
    gains
}

// What a seat adds.
pub fn gain_at(gains: &[u64; 128], seat: Seat) -> u64
    requires { seat.0 < 128 }
    ensures { result ≡ get_or gains.now seat.0 0 }
{
    gains[seat.0 as usize]
}

// The most that the slots from one on can add: who may still stand somewhere, in the order in which bidders win, against those slots in order.
pub fn most_left(gains: &[u64; 128], free: Seats, slot: Slot) -> u64
    requires { (0 < slot.0) × (slot.0 ≤ 9) × ((x : ℕ) → get_or gains.now x 0 ≤ 1000000000000000) }
    ensures { result ≡ add_after (somewhere free.0) (gain_in gains.now) (slot.0 - 1) 16 8 }
{
    let mut ranks = best_seats::somewhere(free);
    let mut at = slot;
    let mut sum: u64 = 0;
    while ranks.0 != 0 {
        let seat = best_seats::seat_at(at, best_seats::first_rank(ranks));
        sum += gain_at(gains, seat);
        ranks = best_seats::after_first(ranks);
        at = best_seats::next_slot(at);
    }
    sum
}
