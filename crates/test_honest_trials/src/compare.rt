// One comparison: the gain with the honest list against the gain with another list, without floors, and with "the same floors for both
// sheets".
use crate::counts::{Count, Floors, Kind};
use crate::{counts, other};
use std::cmp::Ordering;
use test_chance::floor_lists::Test;
use test_chance::{floor_lists, lists, parts, rounds};

// Room for 5 bytes for each of 16 slots.
const RESULT: usize = 80;

// Whether the bidder has a slot ("place") on the sheet's page.
fn stands(sheet: &[u8], floors: Option<&[u32]>, bidder: u32) -> bool {
    let mut page = [0u8; RESULT];
    play(sheet, floors, &mut page) == 0 && is_on(&page, bidder, parts::slots(sheet))
}

fn play(sheet: &[u8], floors: Option<&[u32]>, page: &mut [u8]) -> u32 {
    match floors {
        Some(floors) => pas::pas_play_floors(sheet, floors, page),
        None => pas::pas_play(sheet, page),
    }
}

fn is_on(page: &[u8], bidder: u32, slots: u32) -> bool {
    (0..slots).any(|slot| parts::byte(page, 5 * (slot as usize)) == bidder)
}

// Which of the two pays more.
fn verdict(honest: i64, other: i64) -> Count {
    match honest.cmp(&other) {
        Ordering::Greater => Count::More,
        Ordering::Equal => Count::Same,
        Ordering::Less => Count::Less,
    }
}

// Whose gain, at which worth.
#[derive(Clone, Copy)]
struct Asked {
    bidder: u32,
    worth: u32,
}

// The gain from a sheet, with the honest one as the truth; none where the call is refused.
fn gain(played: &[u8], floors: Option<&[u32]>, honest: &[u8], asked: Asked) -> Option<i64> {
    let mut gain: i64 = 0;
    let bidder = asked.bidder;
    let worth = asked.worth;
    let number = match floors {
        Some(floors) => pas::pas_gain_floors(played, floors, honest, bidder, worth, &mut gain),
        None => pas::pas_gain(played, honest, bidder, worth, &mut gain),
    };
    if number == 0 { Some(gain) } else { None }
}

fn note(tally: &mut [u64], kind: Kind, placed: bool, changed: bool, res: Count) {
    test_tally::add(tally, counts::place(kind, Count::All));
    test_tally::add_if(tally, placed, counts::place(kind, Count::Placed));
    test_tally::add_if(tally, changed, counts::place(kind, Count::Changed));
    test_tally::add(tally, counts::place(kind, res));
}

// What the two headers are like, and whether the honest list pays less.
fn note_steps(tally: &mut [u64], kind: Kind, honest: &[u8], sent: &[u8], less: bool) {
    let mixed = parts::version(honest) != parts::version(sent);
    let stepped = 1 < parts::tick(honest);
    test_tally::add_if(tally, mixed, counts::place(kind, Count::Mixed));
    test_tally::add_if(tally, stepped, counts::place(kind, Count::Stepped));
    test_tally::add_if(
        tally,
        stepped && less,
        counts::place(kind, Count::SteppedLess),
    );
}

// Whether the other list is downward monotonic; none for a refused call.
fn downward(sent: &[u8], bidder: u32) -> Option<bool> {
    let mut answer: u8 = 2;
    pas::pas_downward(sent, bidder, &mut answer);
    match answer {
        0 => Some(false),
        1 => Some(true),
        _ => None,
    }
}

// Whether the gain without floors is another one.
fn is_changed(honest: &[u8], asked: Asked, gain_with: i64) -> bool {
    gain(honest, None, honest, asked) != Some(gain_with)
}

// Whether the bidder has a slot on one of the two pages.
fn is_placed(honest: &[u8], sent: &[u8], floors: Option<&[u32]>, bidder: u32) -> bool {
    stands(honest, floors, bidder) || stands(sent, floors, bidder)
}

// Counts a comparison of two gains.
fn count(
    tally: &mut [u64],
    honest: &[u8],
    sent: &[u8],
    floors: Option<&[u32]>,
    kind: Kind,
    asked: Asked,
    one: i64,
    two: i64,
) {
    let placed = is_placed(honest, sent, floors, asked.bidder);
    let changed = is_changed(honest, asked, one);
    note(tally, kind, placed, changed, verdict(one, two));
    note_steps(tally, kind, honest, sent, one < two);
}

// "In both calls the honest sheet is the truth sheet, i is the same, and v is the same"
fn hold(
    tally: &mut [u64],
    honest: &[u8],
    sent: &[u8],
    floors: Option<&[u32]>,
    sort: Floors,
    asked: Asked,
) {
    let one = gain(honest, floors, honest, asked);
    let two = gain(sent, floors, honest, asked);
    let answer = downward(sent, asked.bidder);
    test_tally::add(tally, counts::comparisons(sort));
    let (Some(one), Some(two), Some(downward)) = (one, two, answer) else {
        test_tally::add(tally, counts::REFUSED);
        return;
    };
    let kind = Kind {
        floors: sort,
        downward,
    };
    count(tally, honest, sent, floors, kind, asked, one, two);
}

// What the list is, whatever its shape.
fn sort_of(floors: &[u32], sheet: &[u8], length: u32) -> Floors {
    let rises = 0 < floor_lists::how_many(floors, sheet, length, Test::AboveBefore);
    let falls = 0 < floor_lists::how_many(floors, sheet, length, Test::BelowBefore);
    match (rises, falls) {
        (true, true) => Floors::Mixed,
        (false, true) => Floors::Falling,
        (true, false) => Floors::Rising,
        (false, false) => Floors::Level,
    }
}

fn with_floors(state: &mut u64, tally: &mut [u64], honest: &[u8], sent: &[u8], asked: Asked) {
    let mut floors = [0u32; floor_lists::ROOM];
    let shape = floor_lists::shape_among_bids(state);
    let length = floor_lists::make(state, shape, honest, &mut floors);
    let sort = sort_of(&floors, honest, length);
    let list = floor_lists::part(&floors, 0, length);
    hold(tally, honest, sent, Some(list), sort, asked);
}

fn both(state: &mut u64, tally: &mut [u64], honest: &[u8], sent: &[u8], asked: Asked) {
    hold(tally, honest, sent, None, Floors::Without, asked);
    with_floors(state, tally, honest, sent, asked);
}

// A comparison without floors and one with them, on a round of the shape.
pub fn one(state: &mut u64, tally: &mut [u64], shape: u32) {
    let mut honest = [0u8; parts::ROOM];
    let mut sent = [0u8; parts::ROOM];
    let bytes = parts::size(rounds::make(state, shape, &mut honest));
    let bidder = lists::one_of(state, parts::bidders(&honest));
    let sent_bytes = parts::size(other::make(state, &honest, bidder, &mut sent));
    let asked = Asked {
        bidder,
        worth: rounds::worth(state, &honest, bidder),
    };
    both(
        state,
        tally,
        parts::part(&honest, 0, bytes),
        parts::part(&sent, 0, sent_bytes),
        asked,
    );
}
