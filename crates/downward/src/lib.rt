// The downward test of one bidder's list.
//
// The bidder's constraints are taken by their other part: for each other part the own slots that are listed with it are a set of bits. A
// constraint is then entered by one store, and whether a slot is listed whose next one is not is told set by set. So the test costs one pass
// over the sheet's constraints and one over the other parts, whoever owns the constraints.
#![tactic(auto)]

ghost use Rattle.std.specs.Prelude.{◌&&◌, ◌||◌, ◌≡◌, ℕ, suc, ◌+◌, ◌*◌, ◌<◌, ◌≤◌, eqb, length, get_or};
ghost use Rattle.basis.specs.Bits.{bit_of};
ghost use Rattle.sheet.specs.Refusal.{Accepted};
ghost use Rattle.sheet.specs.Round.{round_of};
ghost use Rattle.downward.specs.Downward.{own_slot, downward};
ghost use Rattle.downward.specs.EngineListed.{other_part, KindInRange, Listed, misses_next, some_missing};
ghost use Rattle.downward.specs.Call.{tested_in, tested_of};

use refusal::Refusal;
use sheet::{Bidder, Kind, Slot};

// An other part of a constraint in one number: 16 × the other bidder and its slot, and 0 for no other. A slot of another is never 0, so slot 16
// of one bidder and slot 0 of the next do not meet.
#[derive(Clone, Copy, Debug, PartialEq, Eq)]
struct OtherPart(u16);

// A set of own slots, slot 1 in the lowest bit. Own slot 0, any slot, is in no set: it asks for nothing.
#[derive(Clone, Copy, Debug, PartialEq, Eq)]
struct OwnSlots(u16);

// The own slot of a kind, 0 for any.
#[tactic(auto, unfolding(crate::specs::Downward::own_slot))]
fn own_slot(kind: Kind) -> Slot
    ensures { result.0 ≡ own_slot kind }
{
    match kind {
        Kind::OwnSlot(own) => own,
        Kind::OtherSlot(_, _) => Slot(0),
        Kind::Pair(own, _, _) => own,
    }
}

// The set of one slot, and of none for slot 0.
#[tactic(auto, using(crate::proofs::ListedLaws::slot_bits))]
fn slot_set(slot: Slot) -> OwnSlots
    requires { slot.0 ≤ 16 }
    ensures { (k : ℕ) → k < 16 → bit_of result.0 k ≡ eqb slot.0 (suc k) }
{
    OwnSlots(((1u32 << slot.0) >> 1u32) as u16)
}

// The other part of a kind.
#[tactic(auto, unfolding(crate::specs::EngineListed::other_part))]
fn other_part(kind: Kind) -> OtherPart
    requires { KindInRange kind }
    ensures { (result.0 ≡ other_part kind) × (result.0 < 1041) }
{
    match kind {
        Kind::OwnSlot(_) => OtherPart(0),
        Kind::OtherSlot(other, slot) => part_of(other, slot),
        Kind::Pair(_, other, slot) => part_of(other, slot),
    }
}

// Another bidder and its slot as an other part.
fn part_of(other: Bidder, slot: Slot) -> OtherPart
    requires { (other.0 ≤ 64) × (slot.0 ≤ 16) }
    ensures { result.0 ≡ 16 * other.0 + slot.0 }
{
    OtherPart(16 * other.0 + u16::from(slot.0))
}

// One of the bidder's constraints is entered: its own slot joins the set of its other part.
fn list(listed: &mut [u16; 1041], kind: Kind)
    requires { (length listed.old ≡ 1041) × KindInRange kind }
    ensures { (length listed.new ≡ 1041) × ((part k : ℕ) → k < 16 → bit_of (get_or listed.new part 0) k ≡ (bit_of (get_or listed.old part 0) k || (eqb (other_part kind) part && eqb (own_slot kind) (suc k)))) }
{
    let part = other_part(kind);
    let own = slot_set(own_slot(kind));
    listed[part.0 as usize] |= own.0;
}

// All of a bidder's constraints are entered in sets that were empty. They are read one by one, and no round is made of them.
fn list_all(listed: &mut [u16; 1041], sheet: &[u8], bidder: Bidder)
    requires { (length listed.old ≡ 1041) × ((part : ℕ) → get_or listed.old part 0 ≡ 0) × Accepted sheet.now }
    ensures { Listed (round_of sheet.now) bidder.0 (round_of sheet.now).used listed.new }
{
    let used = sheet_read::constraint_count(sheet);
    let start = sheet_read::constraints_start(sheet);
    for i in 0..used {
        let constraint = sheet_read::constraint_at(sheet, start, i);
        if constraint.owner == bidder {
            list(listed, constraint.kind);
        }
    }
}

// The slots, of 1 to m, that a set asks for and does not have: the next of each slot of it but the last.
fn missing_from(had: OwnSlots, slots: usize) -> OwnSlots
    requires { (0 < slots) × (slots ≤ 16) }
    ensures { (k : ℕ) → k < 16 → bit_of result.0 k ≡ misses_next slots had.0 k }
{
    let asking = ((1u32 << slots) / 2 - 1) as u16;
    let asked = (had.0 & asking) << 1u32;
    OwnSlots((asked | had.0) ^ had.0)
}

// Whether some set lacks a slot that it asks for. The sets are gone through without a branch, several at once in the machine code.
fn any_missing(listed: &[u16], slots: usize) -> bool
    requires { (0 < slots) × (slots ≤ 16) }
    ensures { result ≡ some_missing slots listed.now (length listed.now) }
{
    let mut missing = OwnSlots(0);
    for had in listed {
        let more = missing_from(OwnSlots(*had), slots);
        missing.0 |= more.0;
    }
    missing != OwnSlots(0)
}

// Whether a bidder's list is downward monotonic. Other parts go up to bidder n at slot 16.
fn is_downward(sheet: &[u8], bidder: Bidder) -> bool
    requires { Accepted sheet.now }
    ensures { result ≡ downward (round_of sheet.now) bidder.0 }
{
    let bidders = sheet[5] as usize;
    let slots = sheet[6] as usize;
    let mut listed = [0u16; 1041];
    list_all(&mut listed, sheet, bidder);
    !any_missing(&listed[..16 * bidders + 17], slots)
}

// Whether a bidder's list is downward monotonic, or the first rule that the call breaks, one of the check's or 16.
pub fn test(sheet: &[u8], bidder: u32) -> Result<bool, Refusal>
    ensures { tested_in result ≡ tested_of sheet.now bidder }
{
    sheet_check::check(sheet)?;
    if bidder == 0 || u32::from(sheet[5]) < bidder {
        return Err(Refusal::WrongBidder);
    }
    Ok(is_downward(sheet, Bidder(bidder as u16)))
}
