// Sheets of either version with a fault, and at times with faults that are checked later too.
#![tactic(auto)]

ghost use Rattle.std.specs.Prelude.{◌<◌};

pub mod faults;
pub mod wrong_floors;

use test_chance::{lists, number, parts, rounds};

// Another byte than the one that stands there.
fn change_byte(state: &mut u64, buf: &mut [u8], at: usize) {
    let other = parts::byte(buf, at) + 1 + number::up_to(state, 254);
    parts::set_byte(buf, at, other);
}

// "2. The mark is not P A S."
fn change_mark(state: &mut u64, buf: &mut [u8]) {
    let at = number::up_to(state, 2);
    change_byte(state, buf, at as usize);
}

// "Refusal 3 is now for versions other than 1 and 2": 0, 3, any above, or the sheet's own with another high byte.
fn change_version(state: &mut u64, buf: &mut [u8]) {
    let drawn = number::up_to(state, 3);
    let any = number::up_to(state, 65532);
    let high = number::up_to(state, 254);
    match drawn {
        0 => parts::set_half(buf, parts::VERSION, 0),
        1 => parts::set_half(buf, parts::VERSION, 3),
        2 => parts::set_half(buf, parts::VERSION, 3 + any),
        _ => parts::set_byte(buf, parts::VERSION + 1, 1 + high),
    }
}

// "1 also covers a version 2 sheet under 13 bytes, checked after 3": any sheet's first 9 to 12 bytes, as version 2.
fn cut_tick(state: &mut u64, buf: &mut [u8]) -> usize {
    parts::set_half(buf, parts::VERSION, parts::TICK_VERSION);
    parts::TICK + number::up_to(state, 3) as usize
}

// A count of one byte: 0, one above the largest, any above it, or 255.
fn change_count(state: &mut u64, buf: &mut [u8], at: usize, most: u32) {
    let drawn = number::up_to(state, 3);
    let above = number::between(state, most, 254);
    match drawn {
        0 => parts::set_byte(buf, at, 0),
        1 => parts::set_byte(buf, at, 255),
        2 => set_next(buf, at, most),
        _ => set_next(buf, at, above),
    }
}

// One more than the value.
fn set_next(buf: &mut [u8], at: usize, value: u32) {
    if value < 255 {
        parts::set_byte(buf, at, value + 1);
    }
}

// "6. c is above 1,024." At times the length is what 1,025 constraints ask for.
fn change_constraint_count(state: &mut u64, buf: &mut [u8], length: usize) -> usize {
    if number::once_in(state, 2) {
        parts::set_half(buf, parts::CONSTRAINTS, 1025);
        return parts::constraint_at(buf, 1025);
    }
    let above = number::between(state, 1025, 65535);
    parts::set_half(buf, parts::CONSTRAINTS, above);
    length
}

// 0, just above the largest, or any above it.
fn wrong_tick(state: &mut u64) -> u32 {
    let drawn = number::up_to(state, 3);
    match drawn {
        0 | 1 => 0,
        2 => rounds::MAX_TICK + 1,
        _ => number::between(state, rounds::MAX_TICK + 1, 4294967295),
    }
}

// "26 for a tick of 0 or above 1,000,000,000". It takes the place of a version 1 sheet's first effect, and the length is then wrong too,
// but never too short for a tick.
fn change_tick(state: &mut u64, buf: &mut [u8], length: usize) -> usize {
    let tick = wrong_tick(state);
    parts::set_version(buf, parts::TICK_VERSION, tick);
    let header = parts::effect_at(buf, 0);
    length.max(header)
}

// The sum, or the first number alone where it is large.
fn more(length: usize, by: usize) -> usize {
    if length < parts::ROOM && by < parts::ROOM {
        return length + by;
    }
    length
}

fn is_tick(tick: u32) -> bool {
    0 < tick && tick <= rounds::MAX_TICK
}

// The same bytes in the other version: a tick is then the first effect, and a first effect the tick. One byte fewer where that is no tick.
fn swap_version(buf: &mut [u8], length: usize) -> usize {
    if parts::version(buf) == parts::TICK_VERSION {
        parts::set_half(buf, parts::VERSION, 1);
        return length;
    }
    if is_tick(parts::word(buf, parts::TICK)) {
        parts::set_half(buf, parts::VERSION, parts::TICK_VERSION);
        return length;
    }
    length.saturating_sub(1)
}

// "7. The length is not 9 + 4 x (m + n + c).", nor 4 more in version 2: a few bytes fewer or more, the header with too few bytes to be a
// sheet, or the other version.
fn change_length(state: &mut u64, buf: &mut [u8], length: usize) -> usize {
    let by = number::up_to(state, 3) as usize;
    let drawn = number::up_to(state, 7);
    match drawn {
        0 | 1 => length.saturating_sub(1 + by),
        2 | 3 => more(length, 1 + by),
        4 => more(parts::effect_at(buf, 0), by),
        _ => swap_version(buf, length),
    }
}

// "8. An effect is 0, above 1,000,000 or above the one before it."
fn change_effect(state: &mut u64, buf: &mut [u8]) {
    let slots = parts::slots(buf);
    if slots == 0 {
        return;
    }
    let slot = number::up_to(state, slots - 1);
    let at = parts::effect_at(buf, slot);
    let drawn = number::up_to(state, 3);
    match drawn {
        0 => parts::set_word(buf, at, 0),
        1 => parts::set_word(buf, at, 1000001),
        2 => parts::set_word(buf, at, number::between(state, 1000001, 4294967295)),
        _ => rise(buf, slot, at),
    }
}

// One above the effect before, or above the largest where none stands before.
fn rise(buf: &mut [u8], slot: u32, at: usize) {
    if slot == 0 {
        parts::set_word(buf, at, 16777216);
        return;
    }
    let before = parts::word(buf, parts::effect_at(buf, slot - 1));
    if before < 4294967295 {
        parts::set_word(buf, at, before + 1);
    }
}

// "9. A bid is above 1,000,000,000."
fn change_bid(state: &mut u64, buf: &mut [u8]) {
    let bidders = parts::bidders(buf);
    if bidders == 0 {
        return;
    }
    let bidder = number::up_to(state, bidders - 1);
    let at = parts::bid_at(buf, bidder);
    if number::once_in(state, 2) {
        parts::set_word(buf, at, 1000000001);
    } else {
        parts::set_word(buf, at, number::between(state, 1000000001, 4294967295));
    }
}

// A number between two multiples of the tick, next to the bid: so much below it, or so much alone where the bid is 0.
fn beside(bid: u32, by: u32) -> u32 {
    if by < bid {
        return bid - by;
    }
    by
}

// The last bidder as often as any.
fn last_or_any(state: &mut u64, bidders: u32) -> u32
    requires { 0 < bidders }
{
    if number::once_in(state, 2) {
        return bidders - 1;
    }
    number::up_to(state, bidders - 1)
}

// "27 for a bid that is no multiple". Nothing changes where the tick is 1, since every number is a multiple.
fn leave_tick(state: &mut u64, buf: &mut [u8]) {
    let bidders = parts::bidders(buf);
    let tick = parts::tick(buf);
    if bidders == 0 || tick < 2 {
        return;
    }
    let at = parts::bid_at(buf, last_or_any(state, bidders));
    let by = 1 + number::up_to(state, tick - 2);
    let bid = beside(parts::word(buf, at), by);
    parts::set_word(buf, at, bid);
}

// The largest number that may stand in a part of a constraint.
fn largest(buf: &[u8], part: u32) -> u32
    ensures { result < 256 }
{
    if part % 2 == 0 {
        return parts::bidders(buf);
    }
    parts::slots(buf)
}

// "10. A condition has owner 0, owner or other bidder above n, or a place above m."
fn out_of_range(state: &mut u64, buf: &mut [u8], constraint: u32) {
    let part = number::up_to(state, 3);
    let most = largest(buf, part);
    let above = number::between(state, most + 1, 255);
    if part == 0 && number::once_in(state, 2) {
        parts::set_field(buf, constraint, part, 0);
    } else if number::once_in(state, 2) {
        parts::set_field(buf, constraint, part, most + 1);
    } else {
        parts::set_field(buf, constraint, part, above);
    }
}

// "11. A condition's other bidder is its owner."
fn other_is_owner(state: &mut u64, buf: &mut [u8], constraint: u32) {
    let owner = parts::field(buf, constraint, 0);
    let slots = parts::slots(buf);
    let others = number::up_to(state, slots);
    parts::set_field(buf, constraint, 2, owner);
    parts::set_field(buf, constraint, 3, others);
}

// "12. Just one of other bidder and other's place is 0."
fn half_an_other(state: &mut u64, buf: &mut [u8], constraint: u32) {
    let owner = parts::field(buf, constraint, 0);
    let other = lists::another(state, buf, owner);
    let slots = parts::slots(buf);
    let others = lists::one_of(state, slots);
    if other == 0 || number::once_in(state, 2) {
        parts::set_field(buf, constraint, 2, 0);
        parts::set_field(buf, constraint, 3, others);
    } else {
        parts::set_field(buf, constraint, 2, other);
        parts::set_field(buf, constraint, 3, 0);
    }
}

// "13. Own place, other bidder and other's place are all 0."
fn forbid_nothing(buf: &mut [u8], constraint: u32) {
    let owner = parts::field(buf, constraint, 0);
    parts::set_fields(buf, constraint, owner, 0, 0, 0);
}

// The constraint before in place of one, which is then not above it.
fn repeat_before(buf: &mut [u8], constraint: u32) {
    if 0 < constraint {
        let before = parts::word(buf, parts::constraint_at(buf, constraint - 1));
        let at = parts::constraint_at(buf, constraint);
        parts::set_word(buf, at, before);
    }
}

fn break_constraint(state: &mut u64, buf: &mut [u8], fault: u32, constraint: u32) {
    match fault {
        faults::OUT_OF_RANGE => out_of_range(state, buf, constraint),
        faults::OTHER_IS_OWNER => other_is_owner(state, buf, constraint),
        faults::HALF_AN_OTHER => half_an_other(state, buf, constraint),
        faults::FORBIDS_NOTHING => forbid_nothing(buf, constraint),
        _ => repeat_before(buf, constraint),
    }
}

// At times any fault of a constraint after this one. "Conditions are taken in sheet order".
fn break_later(state: &mut u64, buf: &mut [u8], constraint: u32)
    requires { constraint < 65536 }
{
    let count = parts::constraints(buf);
    if constraint + 1 < count && number::once_in(state, 2) {
        let later = number::between(state, constraint + 1, count - 1);
        let second = faults::OUT_OF_RANGE + number::up_to(state, 4);
        break_constraint(state, buf, second, later);
    }
}

// Exchanges a constraint with the one before it at times, so that in version 2 it is not above that one: its own fault still comes first.
fn unsettle(state: &mut u64, buf: &mut [u8], constraint: u32) {
    if 0 < constraint && number::once_in(state, 2) {
        lists::swap(buf, constraint - 1, constraint);
    }
}

// A fault of a constraint that is not of the order, and at times any fault of a later one.
fn break_constraints(state: &mut u64, buf: &mut [u8], fault: u32) {
    let count = parts::constraints(buf);
    if count == 0 {
        return;
    }
    let constraint = number::up_to(state, count - 1);
    unsettle(state, buf, constraint);
    break_constraint(state, buf, fault, constraint);
    break_later(state, buf, constraint);
}

// Exchanges two neighbours where they rise.
fn turn(buf: &mut [u8], first: u32)
    requires { first < 65536 }
{
    if lists::rank(buf, first) < lists::rank(buf, first + 1) {
        lists::swap(buf, first, first + 1);
    }
}

// Every constraint anywhere, and two neighbours surely out of order.
fn mix(state: &mut u64, buf: &mut [u8], first: u32)
    requires { first < 65536 }
{
    lists::shuffle(state, buf);
    turn(buf, first);
}

// A lower own slot, or the same where nothing lower is right, with any other's slot.
fn lower_own(state: &mut u64, buf: &mut [u8], constraint: u32) {
    let own = parts::field(buf, constraint, 1);
    let others = lists::one_of(state, parts::slots(buf));
    if own == 0 {
        return;
    }
    if parts::field(buf, constraint, 2) == 0 {
        parts::set_field(buf, constraint, 1, lists::one_of(state, own));
        return;
    }
    parts::set_field(buf, constraint, 1, number::up_to(state, own - 1));
    parts::set_field(buf, constraint, 3, others);
}

// A lower other, or none.
fn lower_other(state: &mut u64, buf: &mut [u8], constraint: u32) {
    let owner = parts::field(buf, constraint, 0);
    let other = lists::another(state, buf, owner);
    let others = lists::one_of(state, parts::slots(buf));
    if other < parts::field(buf, constraint, 2) {
        parts::set_field(buf, constraint, 2, other);
        parts::set_field(buf, constraint, 3, others);
    } else {
        parts::set_field(buf, constraint, 2, 0);
        parts::set_field(buf, constraint, 3, 0);
    }
}

// A lower other's slot, or the same.
fn lower_others(state: &mut u64, buf: &mut [u8], constraint: u32) {
    let others = parts::field(buf, constraint, 3);
    parts::set_field(buf, constraint, 3, lists::one_of(state, others));
}

// Any constraint of its owner, with an own slot, in place of one.
fn redraw(state: &mut u64, buf: &mut [u8], constraint: u32) {
    let owner = parts::field(buf, constraint, 0);
    let slots = parts::slots(buf);
    let own = lists::one_of(state, slots);
    let others = lists::one_of(state, slots);
    let other = lists::another(state, buf, owner);
    if other == 0 {
        parts::set_fields(buf, constraint, owner, own, 0, 0);
    } else {
        parts::set_fields(buf, constraint, owner, own, other, others);
    }
}

// Two neighbours of one owner, so that the owners stay in order, of which the second is not above the first: it is lower in its own slot, in
// its other or in its other's slot, or the same where nothing lower is right.
fn fall(state: &mut u64, buf: &mut [u8], first: u32)
    requires { first < 65536 }
{
    redraw(state, buf, first);
    repeat_before(buf, first + 1);
    let drawn = number::up_to(state, 2);
    match drawn {
        0 => lower_own(state, buf, first + 1),
        1 => lower_other(state, buf, first + 1),
        _ => lower_others(state, buf, first + 1),
    }
}

// "28 for a version 2 condition not above the one before": neighbours exchanged, one repeated, one of the same owner that is lower, or all
// of them in disorder.
fn disorder(state: &mut u64, buf: &mut [u8], first: u32)
    requires { first < 65536 }
{
    let drawn = number::up_to(state, 7);
    match drawn {
        0 | 1 => turn(buf, first),
        2 => repeat_before(buf, first + 1),
        3 | 4 => mix(state, buf, first),
        _ => fall(state, buf, first),
    }
}

// Two neighbours out of order, and at times any fault of a later constraint.
fn break_order(state: &mut u64, buf: &mut [u8]) {
    let count = parts::constraints(buf);
    if count < 2 {
        return;
    }
    let first = number::up_to(state, count - 2);
    disorder(state, buf, first);
    break_later(state, buf, first + 1);
}

// A fault of any constraint.
fn break_any_constraint(state: &mut u64, buf: &mut [u8], fault: u32) {
    if fault == faults::OUT_OF_ORDER {
        break_order(state, buf);
    } else {
        break_constraints(state, buf, fault);
    }
}

// The faults up to the version's, with the length that the sheet then has.
fn break_form(state: &mut u64, buf: &mut [u8], fault: u32, length: usize) -> usize {
    match fault {
        faults::NO_HEADER => return number::up_to(state, 8) as usize,
        faults::MARK => change_mark(state, buf),
        faults::VERSION => change_version(state, buf),
        _ => return cut_tick(state, buf),
    }
    length
}

// Those of the counts, the tick and the length.
fn break_counts(state: &mut u64, buf: &mut [u8], fault: u32, length: usize) -> usize {
    match fault {
        faults::BIDDER_COUNT => change_count(state, buf, parts::BIDDERS, 64),
        faults::SLOT_COUNT => change_count(state, buf, parts::SLOTS, 16),
        faults::CONSTRAINT_COUNT => return change_constraint_count(state, buf, length),
        faults::TICK => return change_tick(state, buf, length),
        _ => return change_length(state, buf, length),
    }
    length
}

fn put_in(state: &mut u64, buf: &mut [u8], fault: u32, length: usize) -> usize {
    if fault < faults::BIDDER_COUNT {
        return break_form(state, buf, fault, length);
    }
    if fault < faults::EFFECT {
        return break_counts(state, buf, fault, length);
    }
    match fault {
        faults::EFFECT => change_effect(state, buf),
        faults::BID => change_bid(state, buf),
        faults::OFF_TICK => leave_tick(state, buf),
        _ => break_any_constraint(state, buf, fault),
    }
    length
}

// The fault once in four times.
fn put_in_at_times(state: &mut u64, buf: &mut [u8], fault: u32, length: usize) -> usize {
    if number::once_in(state, 4) {
        return put_in(state, buf, fault, length);
    }
    length
}

// Some of the faults after this one, the last first, since the header says where the later fields stand.
fn put_in_later(state: &mut u64, buf: &mut [u8], fault: u32, bytes: usize) -> usize {
    let mut changed = bytes;
    for before in (fault..faults::FAULTS).rev() {
        changed = put_in_at_times(state, buf, before + 1, changed);
    }
    changed
}

// A first constraint where there is none.
fn add_first(buf: &mut [u8]) {
    if parts::constraints(buf) == 0 {
        lists::add(buf, 1, 1, 0, 0);
    }
}

// The first constraint once more where there is no second.
fn add_second(buf: &mut [u8]) {
    if parts::constraints(buf) < 2 {
        repeat_before(buf, 1);
        parts::set_half(buf, parts::CONSTRAINTS, 2);
    }
}

// Version 2 and two constraints for a fault of the order, one for any other.
fn prepare_lists(state: &mut u64, buf: &mut [u8], fault: u32) {
    if fault != faults::OUT_OF_ORDER {
        add_first(buf);
        return;
    }
    into_ticks(state, buf);
    add_first(buf);
    add_second(buf);
}

fn into_ticks(state: &mut u64, buf: &mut [u8]) {
    if parts::version(buf) != parts::TICK_VERSION {
        let steps = rounds::steps_in_ticks(state);
        rounds::retick(state, buf, steps);
    }
}

// A constraint's fault, with the length that the sheet then has.
fn damage_lists(state: &mut u64, buf: &mut [u8], fault: u32) -> usize {
    prepare_lists(state, buf, fault);
    break_any_constraint(state, buf, fault);
    parts::length(buf)
}

// Whether the fault is to be on a sheet with a tick above 1: always a bid that is no multiple of it, and at times a bid above the limit,
// which such a bid can stand beside.
fn wants_tick(state: &mut u64, fault: u32) -> bool {
    if fault == faults::OFF_TICK {
        return true;
    }
    fault == faults::BID && number::once_in(state, 2)
}

// A tick above 1 where the fault wants one and the sheet has none.
fn prepare(state: &mut u64, buf: &mut [u8], fault: u32) {
    if wants_tick(state, fault) && parts::tick(buf) < 2 {
        let steps = rounds::steps_above_one(state);
        rounds::retick(state, buf, steps);
    }
}

// The right sheet at the buffer's start damaged, so that the fault is the first that it has, and its length.
pub fn damage(state: &mut u64, buf: &mut [u8], fault: u32) -> usize {
    if faults::OFF_TICK < fault {
        return damage_lists(state, buf, fault);
    }
    prepare(state, buf, fault);
    let length = parts::length(buf);
    if number::once_in(state, 2) {
        return put_in(state, buf, fault, length);
    }
    let changed = put_in_later(state, buf, fault, length);
    put_in(state, buf, fault, changed)
}
