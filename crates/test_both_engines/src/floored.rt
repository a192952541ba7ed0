// What floors do to a page, by the documents' words and by playing the round without the floor of one slot ("place").
use crate::{counts, pages};
use std::io;
use test_chance::{floor_lists, parts};

// Room for 5 bytes for each of 16 slots.
const RESULT: usize = 80;

// What a floor does at a slot or, of a page, at some slot.
#[derive(Clone, Copy)]
struct Seen {
    emptied: bool,
    priced: bool,
    between: bool,
    reached: bool,
    dearer: bool,
    wrong: bool,
}

// The page without the floor of a slot. No slot before it changes.
fn play_without(sheet: &[u8], list: &[u32], slot: u32, res: &mut [u8]) {
    let mut space = [0u32; floor_lists::ROOM];
    let other: &mut [u32] = &mut space;
    let slots = floor_lists::count(sheet);
    floor_lists::paste(list, other, 0, slots);
    floor_lists::set(other, slot, 0);
    pas::pas_play_floors(sheet, floor_lists::part(other, 0, slots), res);
}

fn is_multiple(amount: u32, tick: u32) -> bool {
    tick != 0 && amount % tick == 0
}

// A price from the floor to the winner's bid that is a multiple of the tick, and 0 for an empty slot.
fn is_right(bidder: u32, price: u32, floor: u32, bid: u32, tick: u32) -> bool {
    if bidder == 0 {
        return price == 0;
    }
    floor <= price && price <= bid && is_multiple(price, tick)
}

// Whether the slot above is filled and costs less.
fn is_above_cheaper(res: &[u8], start: u32, slot: u32, price: u32) -> bool {
    if slot == 0 {
        return false;
    }
    pages::bidder(res, start, slot - 1) != 0 && pages::price(res, start, slot - 1) < price
}

fn look_at(sheet: &[u8], list: &[u32], res: &[u8], start: u32, slot: u32) -> Seen {
    let mut space = [0u8; RESULT];
    let other: &mut [u8] = &mut space;
    play_without(sheet, list, slot, other);
    let tick = parts::tick(sheet);
    let floor = floor_lists::of(list, slot);
    let bidder = pages::bidder(res, start, slot);
    let price = pages::price(res, start, slot);
    let bid = pages::bid(sheet, bidder);
    let priced = bidder != 0 && pages::price(other, 0, slot) < price;
    Seen {
        emptied: bidder == 0 && pages::bidder(other, 0, slot) != 0,
        priced,
        between: priced && !is_multiple(floor, tick),
        reached: bidder != 0 && 0 < floor && bid == floor,
        dearer: priced && is_above_cheaper(res, start, slot, price),
        wrong: !is_right(bidder, price, floor, bid, tick),
    }
}

fn either(one: Seen, two: Seen) -> Seen {
    Seen {
        emptied: one.emptied || two.emptied,
        priced: one.priced || two.priced,
        between: one.between || two.between,
        reached: one.reached || two.reached,
        dearer: one.dearer || two.dearer,
        wrong: one.wrong || two.wrong,
    }
}

fn look(sheet: &[u8], list: &[u32], res: &[u8], start: u32) -> Seen {
    let mut seen = Seen {
        emptied: false,
        priced: false,
        between: false,
        reached: false,
        dearer: false,
        wrong: false,
    };
    for slot in 0..floor_lists::count(sheet) {
        seen = either(seen, look_at(sheet, list, res, start, slot));
    }
    seen
}

// Counts what the floors do to a played page, and holds its prices to the floors.
pub fn note_page(
    rt: &impl Print,
    tally: &mut [u64],
    sheet: &[u8],
    list: &[u32],
    res: &[u8],
    start: u32,
) -> io::Result<()> {
    let seen = look(sheet, list, res, start);
    counts::hold(
        rt,
        tally,
        !seen.wrong,
        b"play with floors, a price that is none",
    )?;
    test_tally::add_if(tally, seen.emptied, counts::EMPTIED);
    test_tally::add_if(tally, seen.priced, counts::PRICED);
    test_tally::add_if(tally, seen.between, counts::BETWEEN);
    test_tally::add_if(tally, seen.reached, counts::REACHED);
    test_tally::add_if(tally, seen.dearer, counts::DEARER);
    Ok(())
}

// "The best page obeys floors as well.": each bidder of the page has a bid at or above its floor.
fn obeys(sheet: &[u8], list: &[u32], res: &[u8], start: u32) -> bool {
    for slot in 0..floor_lists::count(sheet) {
        let bidder = pages::best_bidder(res, start, slot);
        if bidder != 0 && pages::bid(sheet, bidder) < floor_lists::of(list, slot) {
            return false;
        }
    }
    true
}

// The total of the best page without floors.
fn free_total(sheet: &[u8]) -> u64 {
    let mut space = [0u8; RESULT];
    let page: &mut [u8] = &mut space;
    let mut total: u64 = 0;
    pas::pas_best(sheet, page, &mut total);
    total
}

// Counts what the floors do to a best page, and holds it to the floors.
pub fn note_best(
    rt: &impl Print,
    tally: &mut [u64],
    sheet: &[u8],
    list: &[u32],
    res: &[u8],
    start: u32,
    total: u64,
) -> io::Result<()> {
    let free = free_total(sheet);
    let right = obeys(sheet, list, res, start);
    counts::hold(rt, tally, right, b"best with floors, a bid below the floor")?;
    counts::hold(
        rt,
        tally,
        total <= free,
        b"best with floors, above the best",
    )?;
    test_tally::add_if(tally, total < free, counts::FLOORED_SMALLER);
    Ok(())
}
