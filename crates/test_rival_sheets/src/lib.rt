// Random sheets whose lists come from the profile "above named rivals", and sheets that are nearly such, from a fixed seed. The library writes the lists; which of
// the two a sheet is, `plain` says.
#![tactic(auto)]

pub mod plain;

use test_chance::{lists, number, parts, rounds};
use test_damage::faults;

// Kinds of sheets: with the profile's lists, with these in any order and with repeats where the version leaves that free, with one condition less, with another
// one in its place, with one more that the profile never writes, with any lists, and with a fault.
#[derive(Clone, Copy, PartialEq, Eq)]
pub enum Kind {
    Profile,
    Repeated,
    Missing,
    Exchanged,
    Foreign,
    Any,
    Damaged,
}

pub const KINDS: [Kind; 7] = [
    Kind::Profile,
    Kind::Repeated,
    Kind::Missing,
    Kind::Exchanged,
    Kind::Foreign,
    Kind::Any,
    Kind::Damaged,
];

// "c, conditions, 0 to 1,024"
const MAX_CONSTRAINTS: u32 = 1024;

// Room for the longest list, and for the rivals that a bidder names.
const LIST_ROOM: usize = 4096;

const RIVALS_ROOM: usize = 64;

// A rival of the owner: one of the first bidders where these are popular, so that many name the same one. 0 where there is no other bidder.
fn rival(state: &mut u64, sheet: &[u8], owner: u32, popular: u32) -> u32 {
    let drawn = lists::one_of(state, popular);
    if drawn == owner {
        return lists::another(state, sheet, owner);
    }
    drawn
}

// So many of them, some at times twice.
fn set_rivals(
    state: &mut u64,
    sheet: &[u8],
    owner: u32,
    popular: u32,
    rivals: &mut [u8],
    count: u32,
) {
    for left in (0..count).rev() {
        let drawn = rival(state, sheet, owner, popular);
        parts::set_byte(rivals, left as usize, drawn);
    }
}

// The list that names these rivals, by the library, unless the sheet has no room for all of it.
fn add_named(sheet: &mut [u8], owner: u32, rivals: &[u8]) {
    let mut list = [0u8; LIST_ROOM];
    let n = parts::bidders(sheet);
    let m = parts::slots(sheet);
    let mut count: u32 = 0;
    pas::pas_above_terms(n, m, owner, rivals, &mut list, &mut count);
    if parts::constraints(sheet).wrapping_add(count) <= MAX_CONSTRAINTS {
        lists::add_listed(sheet, &list, count);
    }
}

// The list of one bidder.
fn add_list(state: &mut u64, sheet: &mut [u8], owner: u32, popular: u32, most: u32) {
    let mut rivals = [0u8; RIVALS_ROOM];
    let count = number::up_to(state, most);
    set_rivals(state, sheet, owner, popular, &mut rivals, count);
    add_named(sheet, owner, parts::part(&rivals, 0, count));
}

// How many of the first bidders are popular: one, two or all.
fn draw_popular(state: &mut u64, bidders: u32) -> u32 {
    let drawn = number::up_to(state, 3);
    match drawn {
        0 => 1,
        1 => 2,
        _ => bidders,
    }
}

// The most rivals that each bidder draws: few or many.
fn draw_most(state: &mut u64) -> u32 {
    if number::once_in(state, 3) { 63 } else { 3 }
}

// The profile's lists in place of the sheet's own.
fn set_lists(state: &mut u64, sheet: &mut [u8]) {
    let bidders = parts::bidders(sheet);
    let popular = draw_popular(state, bidders);
    let most = draw_most(state);
    parts::set_half(sheet, parts::CONSTRAINTS, 0);
    for owner in 1..=bidders {
        add_list(state, sheet, owner, popular, most);
    }
}

// At times in version 1 what was written in version 2, so that the conditions are in order where they need not be.
fn leave_ticks(state: &mut u64, sheet: &mut [u8]) {
    if number::once_in(state, 3) {
        let mut kept = [0u8; parts::ROOM];
        parts::copy(sheet, &mut kept, parts::length(sheet));
        parts::rewrite(&kept, sheet, 1, 1);
    }
}

// One condition less, any of them. Those after it move up, so that they stay in order.
fn drop_any(state: &mut u64, sheet: &mut [u8]) {
    let count = parts::constraints(sheet);
    let first = lists::one_of(state, count);
    if first == 0 {
        return;
    }
    for at in first..count {
        lists::swap(sheet, at - 1, at);
    }
    parts::set_half(sheet, parts::CONSTRAINTS, count - 1);
}

// Conditions of the sheet once more, which version 2 does not take.
fn repeat_some(state: &mut u64, sheet: &mut [u8], times: u32) {
    for _ in 0..times {
        let chosen = lists::one_of(state, parts::constraints(sheet));
        if 0 < chosen {
            lists::repeat(sheet, chosen - 1);
        }
    }
}

// One condition more that the profile never writes: of the own slot or of the other's alone, or a pair with the rival at the own slot or below it.
fn add_foreign(state: &mut u64, sheet: &mut [u8]) {
    let slots = parts::slots(sheet);
    let owner = lists::one_of(state, parts::bidders(sheet));
    let other = lists::another(state, sheet, owner);
    let own = lists::one_of(state, slots);
    let others = number::between(state, own, slots);
    let drawn = number::up_to(state, 6);
    let kind = if other == 0 { 0 } else { drawn };
    lists::add_kind(sheet, kind, owner, own, other, others);
}

// One condition less, and another one twice; in version 2, which has none twice, one that the profile never writes.
fn exchange(state: &mut u64, sheet: &mut [u8]) {
    drop_any(state, sheet);
    if parts::version(sheet) == parts::TICK_VERSION {
        add_foreign(state, sheet);
    } else {
        repeat_some(state, sheet, 1);
    }
}

fn repeat_and_shuffle(state: &mut u64, sheet: &mut [u8]) {
    let most = if number::once_in(state, 10) { 1024 } else { 5 };
    let times = number::up_to(state, most);
    repeat_some(state, sheet, times);
    lists::shuffle_free(state, sheet);
}

// What makes a sheet with the profile's lists one of the kind.
fn change(state: &mut u64, sheet: &mut [u8], kind: Kind) {
    match kind {
        Kind::Repeated => repeat_and_shuffle(state, sheet),
        Kind::Missing => drop_any(state, sheet),
        Kind::Exchanged => exchange(state, sheet),
        Kind::Foreign => add_foreign(state, sheet),
        Kind::Profile | Kind::Any | Kind::Damaged => {}
    }
}

// The same, with its length, and with a fault for the kind that has one.
fn change_or_damage(state: &mut u64, sheet: &mut [u8], kind: Kind) -> usize {
    if kind == Kind::Damaged {
        let fault = lists::one_of(state, faults::FAULTS);
        return test_damage::damage(state, sheet, fault);
    }
    change(state, sheet, kind);
    parts::length(sheet)
}

// A sheet of the shape and the kind at the buffer's start, and its length.
pub fn make(state: &mut u64, shape: u32, kind: Kind, sheet: &mut [u8]) -> usize {
    let length = rounds::make(state, shape, sheet);
    if kind == Kind::Any {
        return length;
    }
    set_lists(state, sheet);
    leave_ticks(state, sheet);
    change_or_damage(state, sheet, kind)
}
