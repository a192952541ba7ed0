// A node of the best-page search, and what a choice for its next slot leads to.
#![tactic(auto)]

ghost use Rattle.std.specs.Prelude.{◌≡◌, ℕ, suc, ◌-◌, ◌*◌, ◌<◌, ◌≤◌, get_or};
ghost use Rattle.best_node.specs.EngineNode.{Leads, Passes};

use best_seats::{Rank, Seats};
use sheet::Slot;

// What a choice for a slot leads to: what is free then, what is had then, and the most that can be had.
#[derive(Clone, Copy, Debug, PartialEq, Eq)]
pub struct Ahead {
    pub free: Seats,
    pub had: u64,
    pub most: u64,
}

// What a rank at the next slot leads to.
#[tactic(auto, using(crate::proofs::LeadLaws::most_low))]
pub fn look_ahead(
    shut: &[u64; 64],
    gains: &[u64; 128],
    slot: Slot,
    free: Seats,
    had: u64,
    rank: Rank,
) -> Ahead
    requires slot_nonzero { (0 < slot.0) × (slot.0 ≤ 8) × (rank.0 < 8) × (had ≤ (slot.0 - 1) * 1000000000000000) }
    requires by_index { (x : ℕ) → get_or gains.now x 0 ≤ 1000000000000000 }
    ensures { (k : ℕ) → suc k ≡ slot.0 → Leads shut.now gains.now k free.0 had rank.0 result }
{
    let seat = best_seats::seat_at(slot, rank);
    let rest = best_seats::later(best_seats::without(free, best_clash::shut_by(shut, seat)));
    let with = had + best_bound::gain_at(gains, seat);
    let most = with + best_bound::most_left(gains, rest, best_seats::next_slot(slot));
    Ahead {
        free: rest,
        had: with,
        most,
    }
}

// What nobody at the next slot leads to.
#[tactic(auto, using(crate::proofs::LeadLaws::most_low))]
pub fn pass_over(gains: &[u64; 128], slot: Slot, free: Seats, had: u64) -> Ahead
    requires slot_nonzero { (0 < slot.0) × (slot.0 ≤ 8) × (had ≤ (slot.0 - 1) * 1000000000000000) }
    requires by_index { (x : ℕ) → get_or gains.now x 0 ≤ 1000000000000000 }
    ensures { (k : ℕ) → suc k ≡ slot.0 → Passes gains.now k free.0 had result }
{
    let rest = best_seats::later(free);
    let most = had + best_bound::most_left(gains, rest, best_seats::next_slot(slot));
    Ahead {
        free: rest,
        had,
        most,
    }
}
