// Bidders' lists of constraints ("conditions" in document 01), added at the end of a sheet whose header stands.
ghost use Rattle.std.specs.Prelude.{◌<◌, ◌≤◌};

use crate::{number, parts};

// "c, conditions, 0 to 1,024"
const MAX_CONSTRAINTS: u32 = 1024;

// Kinds of lists; any larger number is a mixture of them.
// Kept: no enum, since a kind is drawn as a number, also one above the last.
pub const ANY: u32 = 0;

pub const DOWNWARD: u32 = 1;

pub const EXCLUSIONS: u32 = 2;

pub const CHAINS: u32 = 3;

pub const REPEATS: u32 = 4;

pub const MIXED: u32 = 5;

// One constraint more, unless the sheet is full: in version 1 after the others, in version 2 where the order has it, and there never twice.
pub fn add(buf: &mut [u8], owner: u32, own: u32, other: u32, others: u32) {
    let count = parts::constraints(buf);
    if count < MAX_CONSTRAINTS {
        parts::set_fields(buf, count, owner, own, other, others);
        keep(buf, count);
    }
}

// The four bytes of a constraint as one number, the owner's first: "strictly rising order of owner, own place, other bidder, other's place".
pub fn rank(buf: &[u8], constraint: u32) -> u32 {
    let at = parts::constraint_at(buf, constraint);
    let upper = 256 * parts::byte(buf, at) + parts::byte(buf, at + 1);
    let lower = 256 * parts::byte(buf, at + 2) + parts::byte(buf, at + 3);
    65536 * upper + lower
}

// How many constraints are not above the one before.
pub fn falls(buf: &[u8]) -> u32 {
    let mut found: u32 = 0;
    for constraint in 1..parts::constraints(buf) {
        if rank(buf, constraint) <= rank(buf, constraint - 1) {
            found += 1;
        }
    }
    found
}

// Where a constraint that stands after the others belongs: in version 1 there, in version 2 after those that are not above it.
fn place(buf: &[u8], constraint: u32) -> u32 {
    if parts::version(buf) != parts::TICK_VERSION {
        return constraint;
    }
    let own = rank(buf, constraint);
    for before in (0..constraint).rev() {
        if rank(buf, before) <= own {
            return before + 1;
        }
    }
    0
}

// Whether version 2 has the same constraint before the place already.
fn is_repeat(buf: &[u8], constraint: u32, to: u32) -> bool {
    if parts::version(buf) != parts::TICK_VERSION {
        return false;
    }
    if to == 0 {
        return false;
    }
    rank(buf, to - 1) == rank(buf, constraint)
}

// Moves a constraint to an earlier place, and each one from there on by one.
fn move_down(buf: &mut [u8], constraint: u32, to: u32) {
    for at in (to..constraint).rev() {
        swap(buf, at, at + 1);
    }
}

// Counts the constraint that stands after the others, at its place.
fn keep(buf: &mut [u8], count: u32)
    requires { count < 1024 }
{
    let to = place(buf, count);
    if is_repeat(buf, count, to) {
        return;
    }
    move_down(buf, count, to);
    parts::set_half(buf, parts::CONSTRAINTS, count + 1);
}

// A number from 1 to `count`, 0 where that is 0.
pub fn one_of(state: &mut u64, count: u32) -> u32
    ensures { result ≤ count }
{
    if count == 0 {
        return 0;
    }
    1 + number::up_to(state, count - 1)
}

// A bidder that is not the owner, 0 where there is none.
pub fn another(state: &mut u64, buf: &[u8], owner: u32) -> u32 {
    let bidders = parts::bidders(buf);
    if bidders < 2 {
        return 0;
    }
    let drawn = one_of(state, bidders - 1);
    if drawn < owner {
        return drawn;
    }
    drawn + 1
}

// A constraint of the kind: own slot only, other's slot only, a pair that names the same slot twice, or any pair.
pub fn add_kind(buf: &mut [u8], kind: u32, owner: u32, own: u32, other: u32, others: u32) {
    match kind {
        0 => add(buf, owner, own, 0, 0),
        1 | 2 => add(buf, owner, 0, other, others),
        3 => add(buf, owner, own, other, own),
        _ => add(buf, owner, own, other, others),
    }
}

// The same constraint for the own slot and each one below it on the page.
fn add_lower(buf: &mut [u8], owner: u32, own: u32, other: u32, others: u32) {
    for lower in (own.max(1)..=parts::slots(buf)).rev() {
        add(buf, owner, lower, other, others);
    }
}

// A random constraint of the owner.
pub fn add_any(state: &mut u64, buf: &mut [u8], owner: u32) {
    let slots = parts::slots(buf);
    let own = one_of(state, slots);
    let others = one_of(state, slots);
    let other = another(state, buf, owner);
    let kind = number::below(state, 7);
    if other == 0 {
        add(buf, owner, own, 0, 0);
    } else {
        add_kind(buf, kind, owner, own, other, others);
    }
}

// A random constraint of the owner, with all that a downward monotonic list then asks for.
pub fn add_downward(state: &mut u64, buf: &mut [u8], owner: u32) {
    let slots = parts::slots(buf);
    let own = one_of(state, slots);
    let others = one_of(state, slots);
    let other = another(state, buf, owner);
    let kind = number::below(state, 4);
    if other == 0 || kind == 0 {
        add_lower(buf, owner, own, 0, 0);
    } else if kind == 1 {
        add(buf, owner, 0, other, others);
    } else {
        add_lower(buf, owner, own, other, others);
    }
}

// The owner and another bar each other from every slot.
fn add_exclusion(state: &mut u64, buf: &mut [u8], owner: u32) {
    let other = another(state, buf, owner);
    if other == 0 {
        return;
    }
    for slot in (1..=parts::slots(buf)).rev() {
        add(buf, owner, 0, other, slot);
        add(buf, other, 0, owner, slot);
    }
}

// The owner at the own slot does not bear the other at a slot above it.
fn add_above_slot(buf: &mut [u8], owner: u32, own: u32, other: u32) {
    for above in (1..own).rev() {
        add(buf, owner, own, other, above);
    }
}

// The owner stands above the other or one of them has no slot.
fn add_above(buf: &mut [u8], owner: u32, other: u32) {
    for own in (1..=parts::slots(buf)).rev() {
        add_above_slot(buf, owner, own, other);
    }
}

// Each bidder stands above the next.
fn add_chain(buf: &mut [u8]) {
    for bidder in (1..parts::bidders(buf)).rev() {
        add_above(buf, bidder, bidder + 1);
    }
}

// A constraint of the sheet once more.
pub fn repeat(buf: &mut [u8], constraint: u32) {
    let owner = parts::field(buf, constraint, 0);
    let own = parts::field(buf, constraint, 1);
    let other = parts::field(buf, constraint, 2);
    let others = parts::field(buf, constraint, 3);
    add(buf, owner, own, other, others);
}

// A constraint of another sheet.
pub fn copy(from: &[u8], to: &mut [u8], constraint: u32) {
    let owner = parts::field(from, constraint, 0);
    let own = parts::field(from, constraint, 1);
    let other = parts::field(from, constraint, 2);
    let others = parts::field(from, constraint, 3);
    add(to, owner, own, other, others);
}

// The constraints of another sheet in place of the sheet's own: in their order, or in the order that the version asks for.
pub fn copy_all(from: &[u8], to: &mut [u8]) {
    parts::set_half(to, parts::CONSTRAINTS, 0);
    for constraint in 0..parts::constraints(from) {
        copy(from, to, constraint);
    }
}

// The first constraints of a list of four bytes each, added to a sheet.
pub fn add_listed(buf: &mut [u8], list: &[u8], count: u32) {
    for constraint in (0..count).rev() {
        add_listed_at(buf, list, 4 * constraint as usize);
    }
}

fn add_listed_at(buf: &mut [u8], list: &[u8], at: usize) {
    if list.len() < at {
        return;
    }
    let owner = parts::byte(list, at);
    let own = parts::byte(list, at + 1);
    let other = parts::byte(list, at + 2);
    let others = parts::byte(list, at + 3);
    add(buf, owner, own, other, others);
}

// A constraint that the sheet has already, or a first one.
pub fn add_again(state: &mut u64, buf: &mut [u8], owner: u32) {
    let count = parts::constraints(buf);
    if count == 0 {
        add_any(state, buf, owner);
        return;
    }
    let chosen = number::up_to(state, count - 1);
    if number::once_in(state, 3) {
        add_any(state, buf, owner);
    } else {
        repeat(buf, chosen);
    }
}

// Some constraints of a random bidder, by the kind of the lists.
fn add_some(state: &mut u64, buf: &mut [u8], lists: u32) {
    let bidders = parts::bidders(buf);
    let owner = one_of(state, bidders);
    match lists {
        DOWNWARD => add_downward(state, buf, owner),
        EXCLUSIONS => add_exclusion(state, buf, owner),
        CHAINS => add_chain(buf),
        REPEATS => add_again(state, buf, owner),
        _ => add_any(state, buf, owner),
    }
}

// Constraints until there are as many as aimed at, or more where the last ones belong together.
pub fn add_lists(state: &mut u64, buf: &mut [u8], lists: u32, aim: u32) {
    for _ in 0..aim {
        if aim <= parts::constraints(buf) {
            return;
        }
        let kind = kind_of(state, lists);
        add_some(state, buf, kind);
    }
}

// The kind itself, or a drawn one in a mixture. Chains are long, and so left out of it.
fn kind_of(state: &mut u64, lists: u32) -> u32 {
    if lists < MIXED {
        return lists;
    }
    let drawn = number::up_to(state, 7);
    if drawn == CHAINS {
        return ANY;
    }
    drawn
}

pub fn swap(buf: &mut [u8], first: u32, second: u32) {
    let at = parts::constraint_at(buf, first);
    let to = parts::constraint_at(buf, second);
    let kept = parts::word(buf, at);
    let moved = parts::word(buf, to);
    parts::set_word(buf, at, moved);
    parts::set_word(buf, to, kept);
}

// The constraints in a random order.
pub fn shuffle(state: &mut u64, buf: &mut [u8]) {
    for first in (0..parts::constraints(buf)).rev() {
        let second = number::up_to(state, first);
        swap(buf, first, second);
    }
}

// A random order where the version leaves it free.
pub fn shuffle_free(state: &mut u64, buf: &mut [u8]) {
    if parts::version(buf) != parts::TICK_VERSION {
        shuffle(state, buf);
    }
}

// Other lists in place of the sheet's own, and its new length.
pub fn relist(state: &mut u64, buf: &mut [u8], aim: u32) -> usize
    ensures { result < 34359738368 }
{
    parts::set_half(buf, parts::CONSTRAINTS, 0);
    let lists = number::up_to(state, MIXED);
    add_lists(state, buf, lists, aim);
    shuffle_free(state, buf);
    parts::length(buf)
}
