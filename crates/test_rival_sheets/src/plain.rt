// A second engine for what the greedy page can lose, made of document 02's words and for no speed: it looks for each pair of slots of each rival that a bidder
// names among all conditions, and counts for each bidder who names it.
use test_chance::{lists, parts};

// The bytes of a condition that a search asks for: all four, or the owner and the other bidder.
const ALL: u32 = 0xffffffff;

const BIDDERS: u32 = 0xff00ff00;

// Own slot 1 to 16 and rival's slot 1 to 16.
const PAIRS: u32 = 256;

// Whether one of the first conditions has these bytes.
fn occurs(sheet: &[u8], first: u32, bytes: u32, wanted: u32) -> bool {
    (0..first).rev().any(|constraint| lists::rank(sheet, constraint) & bytes == wanted)
}

// Whether no condition before this one has the same owner and the same other bidder.
fn is_first(sheet: &[u8], constraint: u32) -> bool {
    !occurs(
        sheet,
        constraint,
        BIDDERS,
        lists::rank(sheet, constraint) & BIDDERS,
    )
}

// Whether the pair of this index, with the bidders of a condition, stands on the sheet or is none "in which the rival's place is above the owner's".
fn has_pair(sheet: &[u8], bidders: u32, index: u32) -> bool {
    let own = index / 16 % 16 + 1;
    let others = index % 16 + 1;
    if own <= others || parts::slots(sheet) < own {
        return true;
    }
    occurs(
        sheet,
        parts::constraints(sheet),
        ALL,
        bidders | (own << 16) | others,
    )
}

// "all pairs in which the rival's place is above the owner's", of the bidders of a condition.
fn has_pairs(sheet: &[u8], bidders: u32) -> bool {
    (0..PAIRS).all(|index| has_pair(sheet, bidders, index))
}

// Whether the profile can have written a condition: it is a pair with the rival above, and all others of its bidders are there too.
fn is_of_profile(sheet: &[u8], constraint: u32) -> bool {
    let own = parts::field(sheet, constraint, 1);
    let others = parts::field(sheet, constraint, 3);
    if others == 0 || own <= others {
        return false;
    }
    !is_first(sheet, constraint) || has_pairs(sheet, lists::rank(sheet, constraint) & BIDDERS)
}

fn all_of_profile(sheet: &[u8]) -> bool {
    (0..parts::constraints(sheet))
        .rev()
        .all(|constraint| is_of_profile(sheet, constraint))
}

// How many bidders name a rival.
fn naming(sheet: &[u8], rival: u32) -> u32 {
    let mut found: u32 = 0;
    for constraint in 0..parts::constraints(sheet) {
        if parts::field(sheet, constraint, 2) == rival && is_first(sheet, constraint) {
            found += 1;
        }
    }
    found
}

// "the largest number of bidders that name one same rival"
fn most_naming(sheet: &[u8]) -> u32 {
    let mut most: u32 = 0;
    for rival in 1..=parts::bidders(sheet) {
        most = most.max(naming(sheet, rival));
    }
    most
}

// The factor of an accepted sheet: d + 1 where all lists come from the profile, and 0 where not.
pub fn factor(sheet: &[u8]) -> u32 {
    if all_of_profile(sheet) {
        return most_naming(sheet).wrapping_add(1);
    }
    0
}
