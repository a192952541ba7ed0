// What each choice of the best-page search shuts, by seat: a table made of the constraints of a round of up to 8 bidders and 8 slots.
#![tactic(auto)]

ghost use Rattle.std.specs.Prelude.{◌&&◌, ◌||◌, ◌≡◌, ℕ, ◌+◌, ◌-◌, ◌*◌, ◌%◌, ◌^◌, ◌<◌, ◌≤◌, eqb, ltb, length, get_or};
ghost use Rattle.basis.specs.Bits.{bit_of};
ghost use Rattle.sheet.specs.Refusal.{Accepted};
ghost use Rattle.sheet.specs.Round.{round_of};
ghost use Rattle.sheet.specs.Sheet.{bidder_count, slot_count};
ghost use Rattle.best_clash.specs.EngineMarks.{seat_of, Small, shuts, FilledBy, WordsOf, RankedBids, reaches, LeftBy};

use best_seats::{Rank, Seat, Seats};
use sheet::{Bidder, Constraint, Kind, Slot};

// A line of the table: what is shut once a seat is taken, 0 to 63; from the start, 64; and once a rank stands at any slot, 65 to 72.
#[derive(Clone, Copy, Debug, PartialEq, Eq)]
struct Line(u8);

// A bidder's rank.
pub fn rank_of(ranks: &[u8; 16], bidder: Bidder) -> Rank
    requires { bidder.0 < 16 }
    ensures { result.0 ≡ get_or ranks.now bidder.0 0 }
{
    Rank(ranks[bidder.0 as usize])
}

// The seat of a bidder at a slot.
fn seat_of(ranks: &[u8; 16], bidder: Bidder, slot: Slot) -> Seat
    requires { (bidder.0 < 16) × ((b : ℕ) → get_or ranks.now b 0 < 8) × (0 < slot.0) × (slot.0 ≤ 8) }
    ensures { (result.0 ≡ seat_of ranks.now bidder.0 slot.0) × (result.0 < 64) }
{
    best_seats::seat_at(slot, rank_of(ranks, bidder))
}

// The line of a seat.
fn once_at(seat: Seat) -> Line
    ensures { result.0 ≡ seat.0 }
{
    Line(seat.0)
}

// The line of what is shut from the start.
fn always() -> Line
    ensures { result.0 ≡ 64 }
{
    Line(64)
}

// The line of a rank at any slot.
fn once_anywhere(rank: Rank) -> Line
    requires { rank.0 < 8 }
    ensures { result.0 ≡ 65 + rank.0 }
{
    Line(65 + rank.0)
}

// Seats are shut in a line of the table.
fn mark(table: &mut [u64; 73], line: Line, shut: Seats)
    requires { (length table.old ≡ 73) × (line.0 < 73) }
    ensures { (length table.new ≡ 73) × ((x y : ℕ) → y < 64 → bit_of (get_or table.new x 0) y ≡ (bit_of (get_or table.old x 0) y || (eqb x line.0 && bit_of shut.0 y))) }
{
    table[line.0 as usize] |= shut.0;
}

// What one constraint shuts: its owner's seat from the start; or the owner everywhere once the other has its seat, and that seat once the owner
// stands anywhere; or of two seats each once the other is taken.
#[tactic(auto, unfolding(crate::specs::EngineMarks::shuts))]
fn mark_constraint(table: &mut [u64; 73], ranks: &[u8; 16], constraint: Constraint)
    requires { (length table.old ≡ 73) × Small constraint × ((b : ℕ) → get_or ranks.now b 0 < 8) }
    ensures { (length table.new ≡ 73) × ((x y : ℕ) → y < 64 → bit_of (get_or table.new x 0) y ≡ (bit_of (get_or table.old x 0) y || shuts ranks.now constraint.kind constraint.owner.0 x y)) }
{
    let owner = constraint.owner;
    match constraint.kind {
        Kind::OwnSlot(slot) => {
            let own = seat_of(ranks, owner, slot);
            mark(table, always(), best_seats::only(own));
        }
        Kind::OtherSlot(other, others) => {
            let rank = rank_of(ranks, owner);
            let seat = seat_of(ranks, other, others);
            mark(table, once_at(seat), best_seats::everywhere(rank));
            mark(table, once_anywhere(rank), best_seats::only(seat));
        }
        Kind::Pair(slot, other, others) => {
            let own = seat_of(ranks, owner, slot);
            let seat = seat_of(ranks, other, others);
            mark(table, once_at(seat), best_seats::only(own));
            mark(table, once_at(own), best_seats::only(seat));
        }
    }
}

// What all constraints of an accepted sheet shut, in a table of 0. They are read one by one.
#[tactic(auto, using(crate::proofs::Sets::tables), unfolding(sheet::specs::Round::round_of))]
pub fn fill_table(table: &mut [u64; 73], ranks: &[u8; 16], sheet: &[u8])
    requires table_len { (length table.old ≡ 73) × ((x : ℕ) → get_or table.old x 0 ≡ 0) × ((b : ℕ) → get_or ranks.now b 0 < 8) }
    requires accepted { Accepted sheet.now × (bidder_count sheet.now ≤ 8) × (slot_count sheet.now ≤ 8) }
    ensures { FilledBy ranks.now (round_of sheet.now) table.new }
{
    let used = sheet_read::constraint_count(sheet);
    let start = sheet_read::constraints_start(sheet);
    for i in 0..used {
        mark_constraint(table, ranks, sheet_read::constraint_at(sheet, start, i));
    }
}

// All that a seat shuts once it is taken: what its line tells, what its rank's line tells, and all the rank's own seats. The slot's own byte comes
// first and those of the slots above are gone, as in what is free when the slot is the next.
#[tactic(auto, using(crate::proofs::Sets::words))]
fn shut_at(table: &[u64; 73], slot: Slot, rank: Rank) -> Seats
    requires { (0 < slot.0) × (slot.0 ≤ 8) × (rank.0 < 8) }
    ensures { (z : ℕ) → 8 * (slot.0 - 1) + z < 64 → bit_of result.0 z ≡ ((bit_of (get_or table.now (8 * (slot.0 - 1) + rank.0) 0) (8 * (slot.0 - 1) + z) || bit_of (get_or table.now (65 + rank.0) 0) (8 * (slot.0 - 1) + z)) || eqb (z % 8) rank.0) }
{
    let line = once_at(best_seats::seat_at(slot, rank));
    let anywhere = once_anywhere(rank);
    let own = best_seats::everywhere(rank);
    let told = best_seats::either(
        Seats(table[line.0 as usize]),
        Seats(table[anywhere.0 as usize]),
    );
    best_seats::from_slot(best_seats::either(told, own), slot)
}

// The same for every seat.
pub fn shut_words(table: &[u64; 73]) -> [u64; 64]
    ensures { WordsOf table.now result }
{
    let mut shut = [0u64; 64];
    for slot in 1..=8u8 {
        for rank in 0..8u8 {
            let (slot, rank) = (Slot(slot), Rank(rank));
            let seat = best_seats::seat_at(slot, rank);
            shut[seat.0 as usize] = shut_at(table, slot, rank).0;
        }
    }
    shut
}

// What a seat shuts once it is taken.
pub fn shut_by(shut: &[u64; 64], seat: Seat) -> Seats
    requires { seat.0 < 64 }
    ensures { result.0 ≡ get_or shut.now seat.0 0 }
{
    Seats(shut[seat.0 as usize])
}

// How many of the first ranks bid at least a floor: bids fall from rank to rank, so these are the first so many.
#[tactic(auto, using(choice::proofs::PlacingLaws::bid_index))]
fn reaching(ranked: &[u8], bids: &[u32], bidders: usize, floor: u32) -> usize
    requires { (bidders ≤ 8) × RankedBids bids.now bidders ranked.now }
    ensures { (result ≤ bidders) × ((i : ℕ) → ltb i result ≡ reaches bids.now ranked.now bidders floor i) }
{
    if floor == 0 {
        return bidders;
    }
    for rank in (0..bidders).rev() {
        let bidder = choice::ranked_at(ranked, rank);
        if floor <= bids[bidder.0 as usize - 1] {
            return rank + 1;
        }
    }
    0
}

// The seats of a round's bidders and slots where the bidder reaches the slot's floor.
fn reached_seats(ranked: &[u8], bids: &[u32], floors: &[u32], bidders: usize, slots: usize) -> Seats
    requires { (bidders ≤ 8) × (slots ≤ 8) × (slots ≤ length floors.now) × RankedBids bids.now bidders ranked.now }
    ensures { (result.0 < 2 ^ (8 * slots)) × ((l i : ℕ) → l < 8 → i < 8 → bit_of result.0 (8 * l + i) ≡ (ltb l slots && reaches bids.now ranked.now bidders (get_or floors.now l 0) i)) }
{
    let mut all = Seats(0);
    for (k, floor) in floors[..slots].iter().enumerate() {
        let ranks = best_seats::first_ranks(reaching(ranked, bids, bidders, *floor));
        all = best_seats::either(all, best_seats::at_slot(ranks, Slot(k as u8 + 1)));
    }
    all
}

// What is free on an empty page: the reached seats that no constraint shuts from the start.
pub fn first_free(
    table: &[u64; 73],
    ranked: &[u8],
    bids: &[u32],
    floors: &[u32],
    bidders: usize,
    slots: usize,
) -> Seats
    requires { (bidders ≤ 8) × (slots ≤ 8) × (slots ≤ length floors.now) × RankedBids bids.now bidders ranked.now }
    ensures { LeftBy table.now ranked.now bids.now floors.now bidders slots result.0 }
{
    let line = always();
    best_seats::without(
        reached_seats(ranked, bids, floors, bidders, slots),
        Seats(table[line.0 as usize]),
    )
}
