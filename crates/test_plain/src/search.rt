// The best page by trying every page that breaks nothing: no bound, no start from a good page.
// The pages come in dictionary order, as a counter with a digit for each slot ("place"), slot 1 first. What stands on a page stays
// as further slots are filled, so that a bidder twice, one below its floor or a broken constraint ("condition") is never mended: the
// counter then goes on at the page's last bidder. Bids and effects are read from the sheet once.
use crate::{amounts, fields, page, round};

// No search that is allowed has more pages: 9 to the 8th is below.
const MANY_PAGES: u64 = 1000000000;

// The best page so far and its total.
#[derive(Clone, Copy)]
pub struct Choice {
    pub page: [u8; 16],
    pub total: u64,
}

// Whether the bidder at a slot stands at an earlier one too.
fn is_repeat(filled: [u8; 16], slot: u8) -> bool {
    let bidder = page::at(filled, slot);
    if bidder == 0 {
        return false;
    }
    page::slot_of(filled, bidder) < slot
}

// The last slot with a bidder, 0 on the empty page.
fn last_filled(filled: [u8; 16], slots: u8) -> u8 {
    for slot in (1..=slots).rev() {
        if page::at(filled, slot) != 0 {
            return slot;
        }
    }
    0
}

// "The best page obeys floors as well.": whether the bidder at a slot bids less than its floor. An empty slot is free.
fn is_below_floor(bids: &[u32; 64], floors: &[u32], filled: [u8; 16], slot: u8) -> bool {
    let bidder = page::at(filled, slot);
    if bidder == 0 {
        return false;
    }
    round::bid_of(bids, bidder) < fields::floor(floors, slot)
}

// Whether no bidder has two places or less than its floor, and no constraint is broken. Of the bidders the last one is asked alone: the
// page without it came before, and was fine.
fn is_fine(sheet: &[u8], bids: &[u32; 64], floors: &[u32], filled: [u8; 16], last: u8) -> bool {
    !is_repeat(filled, last)
        && !is_below_floor(bids, floors, filled, last)
        && !page::breaks_any(filled, sheet)
}

// Goes on to the next page in dictionary order that differs at a slot up to the one given, after which all are empty; after the last page
// to the empty one.
fn advance(filled: &mut [u8; 16], bidders: u8, from: u8) {
    for slot in (1..=from).rev() {
        let bidder = page::at(*filled, slot);
        if bidder < bidders {
            page::set(filled, slot, bidder + 1);
            return;
        }
        page::set(filled, slot, 0);
    }
}

// How many pages there are, those with a bidder twice included: (n + 1) to the m.
fn count(bidders: u8, slots: u8) -> u64 {
    let mut pages: u64 = 1;
    for _ in 0..slots {
        if MANY_PAGES < pages {
            return pages;
        }
        pages = amounts::product(pages, u64::from(bidders) + 1);
    }
    pages
}

// "among pages breaking no condition, one with the largest total; among those, the one whose list of bidder numbers by place (0
// for empty) comes first in dictionary order". The first page of all is the empty one, with total 0, and it comes again after the
// last.
pub fn best(sheet: &[u8], floors: &[u32]) -> Choice {
    let bidders = fields::bidder_count(sheet);
    let slots = fields::slot_count(sheet);
    let bids = round::bids(sheet);
    let effects = round::effects(sheet);
    let mut filled = page::empty();
    let mut last: u8 = 0;
    let mut choice = Choice {
        page: filled,
        total: 0,
    };
    for _ in 0..count(bidders, slots) {
        let fine = is_fine(sheet, &bids, floors, filled, last);
        if fine {
            let total = amounts::total(&bids, &effects, filled, slots);
            if choice.total < total {
                choice = Choice {
                    page: filled,
                    total,
                };
            }
        }
        advance(&mut filled, bidders, if fine { slots } else { last });
        last = last_filled(filled, slots);
        if last == 0 {
            return choice;
        }
    }
    choice
}
