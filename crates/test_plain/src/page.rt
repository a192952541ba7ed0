// Pages, and when a constraint ("condition") is broken on one: document 01's sentence, asked from the constraint's four bytes.
// A page holds a bidder number for each slot ("place"), 0 for an empty one; slots are counted from 1.
ghost use Rattle.std.specs.Prelude.{◌≡◌, length};

use crate::fields;

pub fn empty() -> [u8; 16] {
    [0; 16]
}

// The bidder at a slot, 0 for none.
pub fn at(page: [u8; 16], slot: u8) -> u8 {
    bidder_at(&page, slot)
}

// Puts a bidder at a slot.
pub fn set(page: &mut [u8; 16], slot: u8, bidder: u8) {
    if slot != 0 && slot <= fields::MAX_SLOTS {
        page[usize::from(slot) - 1] = bidder;
    }
}

// The page with a bidder at a slot.
pub fn put(mut page: [u8; 16], slot: u8, bidder: u8) -> [u8; 16] {
    set(&mut page, slot, bidder);
    page
}

// The slot where a bidder stands, 0 for none.
pub fn slot_of(page: [u8; 16], bidder: u8) -> u8 {
    for slot in 1..=fields::MAX_SLOTS {
        if at(page, slot) == bidder {
            return slot;
        }
    }
    0
}

// The bidder at a slot of a lent page, 0 for none.
fn bidder_at(page: &[u8; 16], slot: u8) -> u8 {
    if slot == 0 || fields::MAX_SLOTS < slot {
        return 0;
    }
    page[usize::from(slot) - 1]
}

// Whether a bidder has any slot of a lent page.
fn has_slot(page: &[u8; 16], bidder: u8) -> bool {
    page.contains(&bidder)
}

// "the owner is at the own place (or that is 0)", where "a condition binds only if its owner has a place".
fn own_part_holds(page: &[u8; 16], owner: u8, own_slot: u8) -> bool {
    if own_slot == 0 {
        return has_slot(page, owner);
    }
    bidder_at(page, own_slot) == owner
}

// "the other bidder is at the other's place (or there is no other)"
fn other_part_holds(page: &[u8; 16], other: u8, other_slot: u8) -> bool {
    if other == 0 {
        return true;
    }
    bidder_at(page, other_slot) == other
}

// "It is broken when both its parts are true." The other's part comes first, since it never looks at more than one slot.
fn breaks_lent(page: &[u8; 16], constraint: &[u8]) -> bool
    requires { length constraint.now ≡ 4 }
{
    other_part_holds(
        page,
        constraint[fields::OTHER],
        constraint[fields::OTHER_SLOT],
    ) && own_part_holds(
        page,
        constraint[fields::OWNER],
        constraint[fields::OWN_SLOT],
    )
}

// The same of a page and a constraint by value.
pub fn breaks(page: [u8; 16], constraint: [u8; 4]) -> bool {
    breaks_lent(&page, &constraint)
}

// Whether any constraint of the sheet is broken.
pub fn breaks_any(page: [u8; 16], sheet: &[u8]) -> bool {
    let constraints = fields::constraints(sheet);
    for index in 0..constraints.len() / 4 {
        let at = 4 * index;
        if breaks_lent(&page, &constraints[at..at + 4]) {
            return true;
        }
    }
    false
}

// Whether a constraint of the sheet is the bidder's and is broken.
fn breaks_own_at(page: [u8; 16], sheet: &[u8], bidder: u8, index: usize) -> bool {
    let constraint = fields::constraint(sheet, index);
    constraint[fields::OWNER] == bidder && breaks(page, constraint)
}

// Whether any of a bidder's constraints in the sheet is broken.
pub fn breaks_own(page: [u8; 16], sheet: &[u8], bidder: u8) -> bool {
    (0..fields::constraint_count(sheet)).any(|index| breaks_own_at(page, sheet, bidder, index))
}
