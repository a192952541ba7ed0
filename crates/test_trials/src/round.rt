// One round: a sheet, a truth sheet and a list of floors, each lent as a part of a larger buffer, through every call of both engines.
use crate::lent_floors;
use std::io;
use test_both_engines::answers::Form;
use test_both_engines::{answers, bytes, counts, one_sheet, owners};
use test_chance::{floor_lists, lists, number, parts, rounds};
use test_damage::faults;

// A sheet's shape, and its fault or 0.
#[derive(Clone, Copy)]
struct Kind {
    shape: u32,
    fault: u32,
}

const APART: u64 = 11400714819323198485;

// The sheet with a version and a tick drawn anew, with other bids in its ticks, and its length.
fn retick(state: &mut u64, sheet: &mut [u8]) -> usize {
    let steps = rounds::any_steps(state);
    rounds::retick(state, sheet, steps)
}

// The truth sheet: the same sheet, other lists, another tick, another sheet or a damaged one.
fn make_truth(state: &mut u64, shape: u32, sheet: &[u8], bytes: usize, truth: &mut [u8]) -> usize {
    parts::copy(sheet, truth, bytes);
    let fault = 1 + number::up_to(state, faults::FAULTS - 1);
    let aim = number::up_to(state, 30);
    let drawn = number::up_to(state, 9);
    match drawn {
        0..=2 => bytes,
        3 | 4 => lists::relist(state, truth, aim),
        5 | 6 => retick(state, truth),
        7 => rounds::make(state, shape, truth),
        _ => test_damage::damage(state, truth, fault),
    }
}

fn damage_sheet(state: &mut u64, sheet: &mut [u8], fault: u32, bytes: usize) -> usize {
    if fault == 0 {
        return bytes;
    }
    test_damage::damage(state, sheet, fault)
}

// Random bytes with the sheet among them.
fn lay(state: &mut u64, made: &[u8], start: u32, bytes: u32, space: &mut [u8]) {
    let after = number::up_to(state, 9);
    let total = start as usize + bytes as usize + after as usize;
    bytes::fill(state, space, total);
    bytes::paste(made, space, start, bytes);
}

// "n, bidders, 1 to 64", "m, places, 1 to 16" and "c, conditions, 0 to 1,024", each at its limit.
fn is_largest(sheet: &[u8]) -> bool {
    parts::bidders(sheet) == 64 && parts::slots(sheet) == 16 && parts::constraints(sheet) == 1024
}

// "The best page is sought with n above 8 or m above 8.": the largest that is not.
fn is_eight(sheet: &[u8]) -> bool {
    parts::bidders(sheet) == 8 && parts::slots(sheet) == 8
}

// Counts what holds at the largest sizes and at a tick above 1. The header is asked and not the shape, so that the counts say what the
// sheets are.
fn note(tally: &mut [u64], sheet: &[u8], holds: bool, largest: u32, eight: u32, stepped: u32) {
    if holds {
        test_tally::add_if(tally, is_largest(sheet), largest);
        test_tally::add_if(tally, is_eight(sheet), eight);
        test_tally::add_if(tally, 1 < parts::tick(sheet), stepped);
    }
}

// Counts what a fault of a constraint in version 2 goes with.
fn note_order(tally: &mut [u64], kind: Kind, sheet: &[u8]) {
    if kind.fault < faults::OUT_OF_RANGE {
        return;
    }
    if parts::version(sheet) != parts::TICK_VERSION {
        return;
    }
    let falls = lists::falls(sheet);
    let order = kind.fault == faults::OUT_OF_ORDER;
    test_tally::add_if(tally, order & (falls == 1), counts::ONE_FALL);
    test_tally::add_if(tally, order & (1 < falls), counts::MORE_FALLS);
    test_tally::add_if(tally, !order & (0 < falls), counts::OTHER_AND_FALL);
}

fn check(rt: &impl Print, tally: &mut [u64], kind: Kind, sheet: &[u8]) -> io::Result<()> {
    note_order(tally, kind, sheet);
    answers::check(rt, tally, sheet, faults::number(kind.fault))?;
    let right = kind.fault == 0;
    let two = right && parts::version(sheet) == parts::TICK_VERSION;
    test_tally::add_if(tally, two, counts::VERSION_TWO);
    test_tally::add_if(tally, two && is_largest(sheet), counts::LONGEST);
    note(
        tally,
        sheet,
        right,
        counts::LARGEST,
        counts::EIGHT,
        counts::STEPPED,
    );
    Ok(())
}

fn play(
    rt: &impl Print,
    state: &mut u64,
    tally: &mut [u64],
    kind: Kind,
    sheet: &[u8],
    floors: &[u32],
    form: Form,
) -> io::Result<()> {
    let played = answers::play(rt, state, tally, sheet, floors, form)?;
    let shapes = answers::by_form(form, counts::PLAYED, counts::FLOORED_PLAYED);
    test_tally::add_if(tally, played, counts::by_shape(shapes, kind.shape));
    note(
        tally,
        sheet,
        played,
        answers::by_form(form, counts::LARGEST_PAGES, counts::LARGEST_FLOORED_PAGES),
        answers::by_form(form, counts::EIGHT_PAGES, counts::EIGHT_FLOORED_PAGES),
        answers::by_form(form, counts::STEPPED_PAGES, counts::STEPPED_FLOORED_PAGES),
    );
    Ok(())
}

fn gain(
    rt: &impl Print,
    state: &mut u64,
    tally: &mut [u64],
    sheet: &[u8],
    floors: &[u32],
    form: Form,
    truth: &[u8],
) -> io::Result<()> {
    let answered = answers::gain(rt, state, tally, sheet, floors, form, truth)?;
    let another = parts::tick(sheet) != parts::tick(truth);
    let first = answered && !form.floored;
    test_tally::add_if(tally, first && another, counts::OTHER_TICK_GAINS);
    note(
        tally,
        sheet,
        answered,
        answers::by_form(form, counts::LARGEST_GAINS, counts::LARGEST_FLOORED_GAINS),
        answers::by_form(form, counts::EIGHT_GAINS, counts::EIGHT_FLOORED_GAINS),
        answers::by_form(form, counts::STEPPED_GAINS, counts::STEPPED_FLOORED_GAINS),
    );
    Ok(())
}

fn best(
    rt: &impl Print,
    state: &mut u64,
    tally: &mut [u64],
    kind: Kind,
    sheet: &[u8],
    floors: &[u32],
    form: Form,
) -> io::Result<()> {
    let searched = answers::best(rt, state, tally, sheet, floors, form)?;
    let shapes = answers::by_form(form, counts::SEARCHED, counts::FLOORED_SEARCHED);
    test_tally::add_if(tally, searched, counts::by_shape(shapes, kind.shape));
    let eight = answers::by_form(form, counts::EIGHT_BEST, counts::EIGHT_FLOORED_BEST);
    let stepped = answers::by_form(form, counts::STEPPED_BEST, counts::STEPPED_FLOORED_BEST);
    test_tally::add_if(tally, searched && is_eight(sheet), eight);
    test_tally::add_if(tally, searched && 1 < parts::tick(sheet), stepped);
    Ok(())
}

// The calls that have a form with floors.
fn three_calls(
    rt: &impl Print,
    state: &mut u64,
    tally: &mut [u64],
    kind: Kind,
    sheet: &[u8],
    floors: &[u32],
    form: Form,
    truth: &[u8],
) -> io::Result<()> {
    play(rt, state, tally, kind, sheet, floors, form)?;
    gain(rt, state, tally, sheet, floors, form, truth)?;
    best(rt, state, tally, kind, sheet, floors, form)
}

// The number that is due: the sheet's or, where it has none, the list's.
fn rule_with(kind: Kind, fault: u32) -> u32 {
    let rule = faults::number(kind.fault);
    if rule != 0 {
        return rule;
    }
    test_damage::wrong_floors::rule(fault)
}

// The calls with floors, which are lent as a part of a longer list.
fn with_floors(
    rt: &impl Print,
    state: &mut u64,
    tally: &mut [u64],
    kind: Kind,
    sheet: &[u8],
    truth: &[u8],
) -> io::Result<()> {
    let mut space = [0u32; floor_lists::ROOM];
    let fault = lent_floors::any_fault(state);
    let start = number::up_to(state, 5);
    let length = lent_floors::lay(state, sheet, fault, start, &mut space);
    let kept = space;
    let list = floor_lists::part(&space, start, length);
    lent_floors::note(tally, sheet, list, length, fault, kind.fault != 0);
    let form = Form {
        floored: true,
        rule: rule_with(kind, fault),
    };
    three_calls(rt, state, tally, kind, sheet, list, form, truth)?;
    let same = bytes::same_floors(&space, &kept, floor_lists::ROOM as u32);
    counts::hold(rt, tally, same, b"the floors")
}

fn without_floors(
    rt: &impl Print,
    state: &mut u64,
    tally: &mut [u64],
    kind: Kind,
    sheet: &[u8],
    truth: &[u8],
) -> io::Result<()> {
    let form = Form {
        floored: false,
        rule: faults::number(kind.fault),
    };
    three_calls(rt, state, tally, kind, sheet, &[], form, truth)
}

// "One sheet for one round". What is drawn for it is drawn apart, so that the other calls get what they get without it.
fn one_sheet(
    rt: &impl Print,
    drawn: u64,
    tally: &mut [u64],
    kind: Kind,
    sheet: &[u8],
) -> io::Result<()> {
    let mut space = [0u32; floor_lists::ROOM];
    let mut state = drawn ^ APART;
    let fault = lent_floors::any_fault(&mut state);
    let length = lent_floors::lay(&mut state, sheet, fault, 0, &mut space);
    let list = floor_lists::part(&space, 0, length);
    let rule = faults::number(kind.fault);
    one_sheet::compare(rt, &mut state, tally, sheet, rule, list)
}

fn all_calls(
    rt: &impl Print,
    state: &mut u64,
    tally: &mut [u64],
    kind: Kind,
    sheet: &[u8],
    truth: &[u8],
) -> io::Result<()> {
    check(rt, tally, kind, sheet)?;
    without_floors(rt, state, tally, kind, sheet, truth)?;
    with_floors(rt, state, tally, kind, sheet, truth)?;
    answers::downward(rt, state, tally, sheet)?;
    owners::parts_of(rt, tally, sheet, faults::number(kind.fault))?;
    one_sheet(rt, *state, tally, kind, sheet)
}

fn with_truth(
    rt: &impl Print,
    state: &mut u64,
    tally: &mut [u64],
    kind: Kind,
    sheet: &[u8],
    made: &[u8],
    bytes: u32,
) -> io::Result<()> {
    let mut space = [0u8; parts::ROOM];
    let start = number::up_to(state, 9);
    lay(state, made, start, bytes, &mut space);
    let kept = space;
    all_calls(
        rt,
        state,
        tally,
        kind,
        sheet,
        parts::part(&space, start, bytes),
    )?;
    let same = bytes::same(&space, &kept, parts::ROOM);
    counts::hold(rt, tally, same, b"the truth sheet's bytes")
}

fn with_sheet(
    rt: &impl Print,
    state: &mut u64,
    tally: &mut [u64],
    kind: Kind,
    made: &[u8],
    bytes: u32,
    truth: &[u8],
    truth_bytes: u32,
) -> io::Result<()> {
    let mut space = [0u8; parts::ROOM];
    let start = number::up_to(state, 9);
    lay(state, made, start, bytes, &mut space);
    let kept = space;
    with_truth(
        rt,
        state,
        tally,
        kind,
        parts::part(&space, start, bytes),
        truth,
        truth_bytes,
    )?;
    let same = bytes::same(&space, &kept, parts::ROOM);
    counts::hold(rt, tally, same, b"the sheet's bytes")
}

fn count_round(tally: &mut [u64], shape: u32, fault: u32) {
    test_tally::add(tally, counts::ROUNDS);
    if fault != 0 {
        test_tally::add(tally, counts::DAMAGED);
    } else {
        test_tally::add(tally, counts::by_shape(counts::SHAPES, shape));
    }
}

// A round on a sheet of the shape with the fault, or on a right one where the fault is 0.
pub fn play_round(
    rt: &impl Print,
    state: &mut u64,
    tally: &mut [u64],
    shape: u32,
    fault: u32,
) -> io::Result<()> {
    let mut sheet = [0u8; parts::ROOM];
    let mut truth = [0u8; parts::ROOM];
    count_round(tally, shape, fault);
    let bytes = rounds::make(state, shape, &mut sheet);
    let truth_bytes = make_truth(state, shape, &sheet, bytes, &mut truth);
    let changed = damage_sheet(state, &mut sheet, fault, bytes);
    with_sheet(
        rt,
        state,
        tally,
        Kind { shape, fault },
        &sheet,
        parts::size(changed),
        &truth,
        parts::size(truth_bytes),
    )
}
