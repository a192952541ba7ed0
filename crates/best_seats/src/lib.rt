// Sets in one word, for the best-page search: of ranks, and of seats, a rank at a slot. A rank is a bidder's index in the order in which bidders
// win, and neither a bidder nor a slot. Rank, seat and the two sets are a type each. A round has at most 8 bidders and 8 slots here.
#![tactic(auto)]

ghost use Rattle.std.specs.Prelude.{not, ◌&&◌, ◌≡◌, ℕ, suc, ◌+◌, ◌-◌, ◌*◌, ◌/◌, ◌%◌, ◌^◌, ◌<◌, ◌≤◌, eqb};
ghost use Rattle.std.specs.Int.Bits.{bit_or};
ghost use Rattle.basis.specs.Bits.{bit_of};
ghost use Rattle.best_seats.specs.EngineSeats.{somewhere, First};

use sheet::Slot;

// A bidder's index in the order in which bidders win, from 0.
#[derive(Clone, Copy, Debug, PartialEq, Eq)]
pub struct Rank(pub u8);

// A rank at a slot in one number, 8 a slot.
#[derive(Clone, Copy, Debug, PartialEq, Eq)]
pub struct Seat(pub u8);

// A set of ranks, a bit each.
#[derive(Clone, Copy, Debug, PartialEq, Eq)]
pub struct Ranks(pub u64);

// A set of seats, a bit each. Where it tells which are free, the lowest byte is that of the next slot.
#[derive(Clone, Copy, Debug, PartialEq, Eq)]
pub struct Seats(pub u64);

// The seat of a rank at a slot. Slots up to 16 have a number, so that a table by seat can have rows of 0 after the last slot.
pub fn seat_at(slot: Slot, rank: Rank) -> Seat
    requires { (0 < slot.0) × (slot.0 ≤ 16) × (rank.0 < 8) }
    ensures { result.0 ≡ 8 * (slot.0 - 1) + rank.0 }
{
    Seat(8 * (slot.0 - 1) + rank.0)
}

// One seat alone.
pub fn only(seat: Seat) -> Seats
    requires { seat.0 < 64 }
    ensures { (i : ℕ) → i < 64 → bit_of result.0 i ≡ eqb i seat.0 }
{
    Seats(1u64 << seat.0)
}

// A rank at every slot.
#[tactic(auto, using(crate::proofs::WordLaws::bits_everywhere))]
pub fn everywhere(rank: Rank) -> Seats
    requires { rank.0 < 8 }
    ensures { (i : ℕ) → i < 64 → bit_of result.0 i ≡ eqb (i % 8) rank.0 }
{
    Seats(0x0101_0101_0101_0101u64 << rank.0)
}

// The first ranks, so many.
pub fn first_ranks(count: usize) -> Ranks
    requires { count ≤ 8 }
    ensures { result.0 ≡ 1 * 2 ^ count % 2 ^ 64 - 1 }
{
    Ranks((1u64 << count) - 1)
}

// Some ranks at one slot.
pub fn at_slot(ranks: Ranks, slot: Slot) -> Seats
    requires { (0 < slot.0) × (slot.0 ≤ 8) }
    ensures { result.0 ≡ ranks.0 * 2 ^ (8 * (slot.0 - 1)) % 2 ^ 64 }
{
    Seats(ranks.0 << (8 * (slot.0 - 1)))
}

// Some seats and more.
pub fn either(some: Seats, more: Seats) -> Seats
    ensures { result.0 ≡ bit_or some.0 more.0 }
{
    Seats(some.0 | more.0)
}

// The seats from a slot on, that slot's byte first.
pub fn from_slot(seats: Seats, slot: Slot) -> Seats
    requires { (0 < slot.0) × (slot.0 ≤ 8) }
    ensures { result.0 ≡ seats.0 / 2 ^ (8 * (slot.0 - 1)) }
{
    Seats(seats.0 >> (8 * (slot.0 - 1)))
}

// What is free and not shut.
pub fn without(free: Seats, shut: Seats) -> Seats
    ensures { ((i : ℕ) → bit_of result.0 i ≡ (bit_of free.0 i && not (bit_of shut.0 i))) × ((w : ℕ) → free.0 < 2 ^ w → result.0 < 2 ^ w) }
{
    Seats(free.0 & !shut.0)
}

// What is free after the next slot.
pub fn later(free: Seats) -> Seats
    ensures { result.0 ≡ free.0 / 256 }
{
    Seats(free.0 >> 8u32)
}

// Who may stand at the next slot.
pub fn here(free: Seats) -> Ranks
    ensures { result.0 ≡ free.0 % 256 }
{
    Ranks(free.0 % 256)
}

// Who may stand somewhere.
#[tactic(auto, using(crate::proofs::WordLaws::bytes_or))]
pub fn somewhere(free: Seats) -> Ranks
    ensures { (result.0 < 256) × ((i : ℕ) → i < 8 → bit_of result.0 i ≡ somewhere free.0 i) }
{
    let halves = free.0 | (free.0 >> 32u32);
    let quarters = halves | (halves >> 16u32);
    Ranks((quarters | (quarters >> 8u32)) % 256)
}

// Whether a rank may stand at the next slot.
#[tactic(auto, using(basis::proofs::BitLaws::bit_set))]
pub fn is_free(free: Seats, rank: Rank) -> bool
    requires { rank.0 < 8 }
    ensures { result ≡ bit_of free.0 rank.0 }
{
    (free.0 >> rank.0) % 2 != 0
}

// The first of some ranks.
pub fn first_rank(ranks: Ranks) -> Rank
    requires { (ranks.0 ≡ 0 → ⊥) × (ranks.0 < 256) }
    ensures { First ranks.0 result.0 }
{
    Rank(ranks.0.trailing_zeros() as u8)
}

// The others.
pub fn after_first(ranks: Ranks) -> Ranks
    requires { (ranks.0 ≡ 0 → ⊥) × (ranks.0 < 256) }
    ensures { (result.0 < ranks.0) × ((rank : ℕ) → First ranks.0 rank → (i : ℕ) → bit_of result.0 i ≡ (bit_of ranks.0 i && not (eqb i rank))) }
{
    Ranks(ranks.0 & (ranks.0 - 1))
}

// The slot below.
pub fn next_slot(slot: Slot) -> Slot
    requires { slot.0 < 255 }
    ensures { result.0 ≡ suc slot.0 }
{
    Slot(slot.0 + 1)
}
