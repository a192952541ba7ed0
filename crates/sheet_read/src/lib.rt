// The reader: the round that an accepted sheet's bytes say.
#![tactic(auto)]

ghost use Rattle.std.specs.Prelude.{◌≡◌, suc, ◌+◌, ◌*◌, ◌<◌, ◌≤◌, length};
ghost use Rattle.basis.specs.Bytes.{word32_at};
ghost use Rattle.basis.specs.Rows.{padded};
ghost use Rattle.sheet.specs.Sheet.{slot_count, constraint_count, effects_start, bids_start, constraints_start, effect_field, bid_field};
ghost use Rattle.sheet.specs.Refusal.{Accepted};
ghost use Rattle.sheet.specs.Round.{kind_of, constraint_field, blank, round_of};

use basis::{word16, word32};
use sheet::{Bidder, Constraint, Kind, Round, Slot, effects_start, tick_of};

// What a constraint's three bytes after its owner forbid. A narrower kind takes the pair's place, and no test returns early: the machine
// then selects the bytes, and has no branch on a kind that it cannot foretell.
fn kind_of(own: u8, other: u8, others: u8) -> Kind
    ensures { result ≡ kind_of own other others }
{
    let mut kind = Kind::Pair(Slot(own), Bidder(other as u16), Slot(others));
    if own == 0 {
        kind = Kind::OtherSlot(Bidder(other as u16), Slot(others));
    }
    if other == 0 {
        kind = Kind::OwnSlot(Slot(own));
    }
    kind
}

// So many numbers of four bytes from an offset on, with 0 after them.
fn read_words<const N: usize>(sheet: &[u8], start: usize, count: usize) -> [u32; N]
    requires { (count ≤ N) × (start + 4 * count ≤ length sheet.now) }
    ensures { result ≡ padded (λ k. word32_at sheet.now (start + 4 * k)) count N 0 }
{
    let mut words = [0u32; N];
    for k in 0..count {
        words[k] = word32(sheet, start + 4 * k);
    }
    words
}

// The blank constraint, which fills what a sheet leaves. It is read from bytes that are 0, so that all its bytes are 0, those that its
// kind leaves unused too, and the machine fills an array of it at once.
fn blank_constraint() -> Constraint
    ensures { result ≡ blank }
{
    let kind = kind_of(0, 0, 0);
    Constraint {
        owner: Bidder(0),
        kind,
    }
}

// The effect of a slot of an accepted sheet.
pub fn effect_at(sheet: &[u8], slot: Slot) -> u32
    requires { Accepted sheet.now × (0 < slot.0) × (slot.0 ≤ slot_count sheet.now) }
    ensures { result ≡ effect_field sheet.now slot.0 }
{
    let index = slot.0 as usize - 1;
    word32(sheet, effects_start(sheet) + 4 * index)
}

// Where the constraints of an accepted sheet start.
pub fn constraints_start(sheet: &[u8]) -> usize
    requires { Accepted sheet.now }
    ensures { result ≡ constraints_start sheet.now }
{
    effects_start(sheet) + 4 * (sheet[6] as usize) + 4 * (sheet[5] as usize)
}

// How many constraints an accepted sheet has.
pub fn constraint_count(sheet: &[u8]) -> usize
    requires { Accepted sheet.now }
    ensures { result ≡ constraint_count sheet.now }
{
    word16(sheet, 7) as usize
}

// One constraint of an accepted sheet, read from its bytes: for who needs few of them, or each only once.
pub fn constraint_at(sheet: &[u8], start: usize, index: usize) -> Constraint
    requires { (start ≡ constraints_start sheet.now) × (start + 4 * index + 4 ≤ length sheet.now) }
    ensures { result ≡ constraint_field sheet.now index }
{
    let word = word32(sheet, start + 4 * index);
    let kind = kind_of(
        (word / 256 % 256) as u8,
        (word / 65536 % 256) as u8,
        (word / 16777216) as u8,
    );
    Constraint {
        owner: Bidder((word % 256) as u16),
        kind,
    }
}

// The effects of an accepted sheet's round, for who makes no round.
pub fn accepted_effects(sheet: &[u8]) -> [u32; 16]
    requires { Accepted sheet.now }
    ensures { result ≡ (round_of sheet.now).effects }
{
    read_words(sheet, effects_start(sheet), sheet[6] as usize)
}

// The bids of an accepted sheet's round.
pub fn accepted_bids(sheet: &[u8]) -> [u32; 64]
    requires { Accepted sheet.now }
    ensures { result ≡ (round_of sheet.now).bids }
{
    let slots = sheet[6] as usize;
    read_words(sheet, effects_start(sheet) + 4 * slots, sheet[5] as usize)
}

// The round of an accepted sheet, for a call that has checked it. The array of blank constraints is filled where it stands, a constraint
// from one word of the sheet, which the machine does for two at once.
pub fn accepted_round(sheet: &[u8]) -> Round
    requires { Accepted sheet.now }
    ensures { result ≡ round_of sheet.now }
{
    let bidders = sheet[5] as usize;
    let slots = sheet[6] as usize;
    let used = word16(sheet, 7) as usize;
    let start = effects_start(sheet);
    let bids_start = start + 4 * slots;
    let constraints_start = bids_start + 4 * bidders;
    let tick = tick_of(sheet);
    let effects = read_words(sheet, start, slots);
    let bids = read_words(sheet, bids_start, bidders);
    let mut round = Round {
        bidders,
        slots,
        used,
        tick,
        version: word16(sheet, 3),
        effects,
        floors: [0u32; 16],
        bids,
        constraints: [blank_constraint(); 1024],
    };
    for k in 0..used {
        round.constraints[k] = constraint_at(sheet, constraints_start, k);
    }
    round
}
