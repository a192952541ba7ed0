// Sheets whose lists all come from the profile "above named rivals", and whether members can share a page of them.
use crate::call::Call;
use crate::{call, compare, counts, plain};
use std::io;
use test_chance::{lists, parts, rounds};
use test_plain::page;

// For up to 5 bidders and 4 slots all pages are tried: 6 x 6 x 6 x 6, a bidder that there is not for an empty slot too.
const FEW_BIDDERS: u32 = 5;

const FEW_SLOTS: u32 = 4;

const PAGES: u32 = 1296;

// The list of one bidder, by the library.
fn add_list(
    rt: &impl Print,
    state: &mut u64,
    tally: &mut [u64],
    sheet: &mut [u8],
    rivals: &[u8],
    owner: u32,
) -> io::Result<()> {
    let mut list = [0u8; compare::ROOM];
    let call = Call {
        sharing: false,
        n: parts::bidders(sheet),
        m: parts::slots(sheet),
        owner,
        listed: 0,
        bytes: 0,
    };
    let count = compare::both(rt, state, tally, call, rivals, &[], true, &mut list)?;
    lists::add_listed(sheet, &list, count);
    Ok(())
}

fn add_lists(
    rt: &impl Print,
    state: &mut u64,
    tally: &mut [u64],
    sheet: &mut [u8],
    sets: &[u8],
) -> io::Result<()> {
    for owner in (1..=parts::bidders(sheet)).rev() {
        add_list(rt, state, tally, sheet, plain::set_of(sets, owner), owner)?;
    }
    Ok(())
}

// "The lists written are downward monotonic".
fn hold_downward(rt: &impl Print, tally: &mut [u64], sheet: &[u8]) -> io::Result<()> {
    for bidder in 1..=parts::bidders(sheet) {
        let mut answer: u8 = 2;
        let number = pas::pas_downward(sheet, bidder, &mut answer);
        counts::hold(rt, tally, number == 0 && answer == 1, b"downward monotonic")?;
        test_tally::add_if(tally, answer == 1, counts::DOWNWARD);
    }
    Ok(())
}

// A page with one bidder more, where there is that bidder and that slot.
fn with(filled: [u8; 16], sheet: &[u8], slot: u32, bidder: u32) -> [u8; 16] {
    if parts::slots(sheet) < slot {
        return filled;
    }
    if parts::bidders(sheet) < bidder {
        return filled;
    }
    page::put(filled, (slot % 256) as u8, (bidder % 256) as u8)
}

// The page with an index.
fn page_of(sheet: &[u8], index: u32) -> [u8; 16] {
    let one = with(page::empty(), sheet, 1, index % 6);
    let two = with(one, sheet, 2, index / 6 % 6);
    let three = with(two, sheet, 3, index / 36 % 6);
    with(three, sheet, 4, index / 216)
}

// Whether nobody stands at the slot who stands above it too.
fn is_first(filled: [u8; 16], slot: u8) -> bool {
    let bidder = page::at(filled, slot);
    bidder == 0 || page::slot_of(filled, bidder) == slot
}

// Whether a page has all the members, and nobody twice.
fn has_all(filled: [u8; 16], members: &[u8]) -> bool {
    members
        .iter()
        .all(|member| page::slot_of(filled, *member) != 0)
        && is_first(filled, 2)
        && is_first(filled, 3)
        && is_first(filled, 4)
}

// Whether some page has all the members and breaks no condition.
fn some_page(sheet: &[u8], members: &[u8]) -> bool {
    (0..PAGES).rev().any(|index| {
        let filled = page_of(sheet, index);
        has_all(filled, members) && !page::breaks_any(filled, sheet)
    })
}

// An order on the first slots.
fn first_slots(order: &[u8]) -> [u8; 16] {
    let mut filled = page::empty();
    for (slot, bidder) in (1..=16).zip(order) {
        let next = page::put(filled, slot, *bidder);
        filled = next;
    }
    filled
}

// "members placed in the order of a yes on the first places break no condition"
fn hold_order(
    rt: &impl Print,
    tally: &mut [u64],
    sheet: &[u8],
    yes: bool,
    order: &[u8],
) -> io::Result<()> {
    let broken = page::breaks_any(first_slots(order), sheet);
    counts::hold(rt, tally, !(yes & broken), b"order on the first places")?;
    test_tally::add_if(tally, yes & !broken, counts::ORDERS);
    Ok(())
}

fn is_small(sheet: &[u8]) -> bool {
    parts::bidders(sheet) <= FEW_BIDDERS && parts::slots(sheet) <= FEW_SLOTS
}

// "and if the answer is no, no page of that round has just these members without breaking one"; others may stand beside them.
fn hold_pages(
    rt: &impl Print,
    tally: &mut [u64],
    sheet: &[u8],
    members: &[u8],
    yes: bool,
) -> io::Result<()> {
    let small = is_small(sheet);
    let found = if small {
        some_page(sheet, members)
    } else {
        yes
    };
    counts::hold(rt, tally, found == yes, b"some page")?;
    test_tally::add_if(tally, small & found, counts::PAGE_FOUND);
    test_tally::add_if(tally, small & !found, counts::NO_PAGE);
    Ok(())
}

// The sharing call with the sets that its lists come from, and the sheet.
fn hold_sheet(
    rt: &impl Print,
    state: &mut u64,
    tally: &mut [u64],
    sheet: &[u8],
    asked: Call,
    members: &[u8],
    sets: &[u8],
) -> io::Result<()> {
    let mut order = [0u8; compare::ROOM];
    let answer = compare::both(rt, state, tally, asked, members, sets, true, &mut order)?;
    test_tally::add(tally, counts::SHEETS);
    counts::hold(rt, tally, pas::pas_check(sheet) == 0, b"check")?;
    hold_downward(rt, tally, sheet)?;
    hold_order(rt, tally, sheet, answer == 1, &order)?;
    hold_pages(rt, tally, sheet, members, answer == 1)
}

// A sheet of the shape with these lists in place of its own. One that is then full may lack some conditions, and is left out.
pub fn on_sheet(rt: &impl Print, state: &mut u64, tally: &mut [u64], shape: u32) -> io::Result<()> {
    let mut buffer = [0u8; parts::ROOM];
    let mut list = [0u8; call::LIST_ROOM];
    let mut sets = [0u8; call::SETS_ROOM];
    rounds::make(state, shape, &mut buffer);
    parts::set_half(&mut buffer, parts::CONSTRAINTS, 0);
    let n = parts::bidders(&buffer);
    let m = parts::slots(&buffer);
    let asked = call::sharing(state, n, m, &mut list, &mut sets);
    let members = parts::part(&list, 0, asked.listed);
    let lent = parts::part(&sets, 0, asked.bytes);
    add_lists(rt, state, tally, &mut buffer, lent)?;
    if parts::constraints(&buffer) < compare::MAX_CONSTRAINTS {
        let bytes = parts::size(parts::length(&buffer));
        hold_sheet(
            rt,
            state,
            tally,
            parts::part(&buffer, 0, bytes),
            asked,
            members,
            lent,
        )?;
    }
    Ok(())
}
