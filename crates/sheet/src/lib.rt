// The bid sheet of document 01, and its version 2 of document 02: the types of a round, and what of a sheet its version decides. What its bytes say,
// which sheets are accepted and what that means are in specs/.
#![tactic(auto)]

ghost use Rattle.std.specs.Prelude.{◌≡◌, ◌≤◌, length};
ghost use Rattle.sheet.specs.Sheet.{effects_start, tick_field};

use basis::{word16, word32};

// "n, bidders, 1 to 64"
pub const MAX_BIDDERS: usize = 64;
// "m, places, 1 to 16"
pub const MAX_SLOTS: usize = 16;
// "c, conditions, 0 to 1,024"
pub const MAX_CONSTRAINTS: usize = 1024;

// A bidder's number, counted from 1; 0 is nobody. It has 16 bits, so that a constraint is 8 bytes in memory and each of its parts stands at the
// same bytes in every kind: the reader stores two at once.
#[derive(Clone, Copy, Debug, PartialEq, Eq, PartialOrd, Ord)]
pub struct Bidder(pub u16);

// A slot of the page ("place" in document 01), counted from 1.
#[derive(Clone, Copy, Debug, PartialEq, Eq, PartialOrd, Ord)]
pub struct Slot(pub u8);

// What a constraint forbids its owner: a slot of its own, another bidder at a slot, or the two together.
#[derive(Clone, Copy, Debug, PartialEq, Eq)]
pub enum Kind {
    // "own place only"
    OwnSlot(Slot),
    // "other's place only": the other bidder and its slot, wherever the owner stands
    OtherSlot(Bidder, Slot),
    // "the pair of them": the owner's slot, the other bidder and its slot
    Pair(Slot, Bidder, Slot),
}

// A constraint ("condition" in document 01) with its owner.
#[derive(Clone, Copy, Debug, PartialEq, Eq)]
pub struct Constraint {
    pub owner: Bidder,
    pub kind: Kind,
}

// A round in memory: the sheet's numbers, and its constraints in sheet order. `used` counts them; the rest are blank. Every bid is a multiple of
// the tick; in version 2 the constraints rise. The floors are 0 where a call has none (document 02, S-7).
#[derive(Clone, Copy)]
pub struct Round {
    pub bidders: usize,
    pub slots: usize,
    pub used: usize,
    pub tick: u32,
    pub version: u32,
    pub effects: [u32; 16],
    pub floors: [u32; 16],
    pub bids: [u32; 64],
    pub constraints: [Constraint; 1024],
}

// The page: for each slot its bidder, or nobody.
#[derive(Clone, Copy, Debug, PartialEq, Eq)]
pub struct Page {
    pub bidders: [Bidder; 16],
}

// Where the effects start: after a header of 9 bytes, and in version 2 of 13.
pub fn effects_start(sheet: &[u8]) -> usize
    requires { 9 ≤ length sheet.now }
    ensures { result ≡ effects_start sheet.now }
{
    if word16(sheet, 3) == 2 {
        return 13;
    }
    9
}

// The tick: 4 bytes after the counts in version 2, and 1 in version 1.
pub fn tick_of(sheet: &[u8]) -> u32
    requires { (9 ≤ length sheet.now) × (effects_start sheet.now ≤ length sheet.now) }
    ensures { result ≡ tick_field sheet.now }
{
    if word16(sheet, 3) == 2 {
        return word32(sheet, 9);
    }
    1
}
