// Each call by both engines on the same bytes, and what must hold of the answers.
ghost use Rattle.std.specs.Prelude.{◌≤◌};

use crate::{bytes, calls, counts, floored, pages};
use std::io;
use test_chance::{floor_lists, number, parts};

// Room for 5 bytes for each of 16 slots, with random bytes before and after.
const RESULT: usize = 128;

// A form of a call: the second one, with floors, or the first, which is lent none; and the number that is due to a fault of the sheet or of
// the floors, 0 for none.
#[derive(Clone, Copy)]
pub struct Form {
    pub floored: bool,
    pub rule: u32,
}

// Of two calls or counts, the first form's or the second's.
pub fn by_form(form: Form, first: u32, second: u32) -> u32 {
    if form.floored { second } else { first }
}

// The floors that a call is lent.
fn lent_floors(form: Form, floors: &[u32]) -> Option<&[u32]> {
    if form.floored { Some(floors) } else { None }
}

// A difference names the form too.
fn hold(rt: &impl Print, tally: &mut [u64], form: Form, same: bool, name: &[u8]) -> io::Result<()> {
    if form.floored && !same {
        test_tally::text(rt, b"with floors, ")?;
    }
    counts::hold(rt, tally, same, name)
}

// The number that is due to a fault; where there is none, 0 or one of the call's own, 14 to 19.
fn is_due(form: Form, number: u32) -> bool {
    if form.rule != 0 {
        return number == form.rule;
    }
    number == 0 || (14 <= number && number <= 19)
}

// Counts the number that a call returned, and holds it to the one due.
fn note_number(
    rt: &impl Print,
    tally: &mut [u64],
    form: Form,
    call: u32,
    number: u32,
    name: &[u8],
) -> io::Result<()> {
    counts::add_call(tally, call, number);
    hold(rt, tally, form, is_due(form, number), name)
}

pub fn check(rt: &impl Print, tally: &mut [u64], sheet: &[u8], rule: u32) -> io::Result<()> {
    let library = pas::pas_check(sheet);
    let other = test_plain::check(sheet);
    counts::add_call(tally, counts::CHECK, library);
    counts::hold(rt, tally, library == other, b"check, number")?;
    counts::hold(
        rt,
        tally,
        library == rule,
        b"check, the fault that was put in",
    )
}

// The same random bytes for both engines, and to compare with.
fn prepare(state: &mut u64, one: &mut [u8], two: &mut [u8], kept: &mut [u8]) {
    bytes::fill(state, kept, RESULT);
    parts::copy(kept, one, RESULT);
    parts::copy(kept, two, RESULT);
}

fn note_free_page(tally: &mut [u64], sheet: &[u8], res: &[u8], start: u32) {
    let slots = floor_lists::count(sheet);
    let price = pages::has_price(res, start, slots);
    let raised = pages::has_raised_price(sheet, res, start, slots);
    test_tally::add_if(tally, price, counts::PRICES);
    let stepped = 1 < parts::tick(sheet);
    test_tally::add_if(tally, raised && stepped, counts::STEPPED_PRICES);
}

fn note_page(
    rt: &impl Print,
    tally: &mut [u64],
    sheet: &[u8],
    floors: &[u32],
    form: Form,
    res: &[u8],
    start: u32,
) -> io::Result<()> {
    let empty = pages::has_empty_slot(res, start, floor_lists::count(sheet));
    let count = by_form(form, counts::EMPTY_SLOTS, counts::FLOORED_EMPTY);
    test_tally::add_if(tally, empty, count);
    if form.floored {
        floored::note_page(rt, tally, sheet, floors, res, start)?;
    } else {
        note_free_page(tally, sheet, res, start);
    }
    Ok(())
}

// Where a result is lent, of how many bytes, and how many the call writes.
#[derive(Clone, Copy)]
struct Lent {
    start: u32,
    size: u32,
    bytes: u32,
}

fn lend(state: &mut u64, bytes: u32) -> Lent {
    Lent {
        start: number::up_to(state, 9),
        size: calls::result_size(state, bytes),
        bytes,
    }
}

fn play_by_library(
    rt: &impl Print,
    tally: &mut [u64],
    sheet: &[u8],
    floors: &[u32],
    form: Form,
    one: &mut [u8],
    kept: &[u8],
    lent: Lent,
) -> io::Result<u32> {
    let start = lent.start;
    let bytes = lent.bytes;
    let list = lent_floors(form, floors);
    let number = calls::play_by_library(sheet, list, one, start, lent.size);
    let call = by_form(form, counts::PLAY, counts::PLAY_FLOORS);
    note_number(rt, tally, form, call, number, b"play, the number due")?;
    let kept_rest = bytes::untouched(one, kept, start, calls::written(number, bytes));
    hold(
        rt,
        tally,
        form,
        kept_rest,
        b"play, bytes that are not the result's",
    )?;
    if number == 0 {
        note_page(rt, tally, sheet, floors, form, one, start)?;
    }
    Ok(number)
}

// The first form gives what the second gives with floors of 0.
fn play_with_zeros(
    rt: &impl Print,
    tally: &mut [u64],
    sheet: &[u8],
    form: Form,
    one: &[u8],
    kept: &[u8],
    lent: Lent,
    number: u32,
) -> io::Result<()> {
    if form.floored {
        return Ok(());
    }
    let mut space = [0u8; RESULT];
    let two: &mut [u8] = &mut space;
    let zeros = [0u32; floor_lists::ROOM];
    parts::copy(kept, two, RESULT);
    let list = floor_lists::part(&zeros, 0, floor_lists::count(sheet));
    let other = calls::play_by_library(sheet, Some(list), two, lent.start, lent.size);
    counts::hold(rt, tally, number == other, b"play with floors of 0, number")?;
    let same = bytes::same(one, two, RESULT);
    counts::hold(rt, tally, same, b"play with floors of 0, page")?;
    test_tally::add_if(tally, number == 0 && other == 0, counts::ZERO_PAGES);
    Ok(())
}

// Whether both engines gave a page.
pub fn play(
    rt: &impl Print,
    state: &mut u64,
    tally: &mut [u64],
    sheet: &[u8],
    floors: &[u32],
    form: Form,
) -> io::Result<bool> {
    let mut first = [0u8; RESULT];
    let mut second = [0u8; RESULT];
    let mut third = [0u8; RESULT];
    let one: &mut [u8] = &mut first;
    let two: &mut [u8] = &mut second;
    let kept: &mut [u8] = &mut third;
    prepare(state, one, two, kept);
    let lent = lend(state, 5 * floor_lists::count(sheet));
    let number = play_by_library(rt, tally, sheet, floors, form, one, kept, lent)?;
    let list = lent_floors(form, floors);
    let other = calls::play_by_other(sheet, list, two, lent.start, lent.size);
    hold(rt, tally, form, number == other, b"play, number")?;
    let same = bytes::same(one, two, RESULT);
    hold(rt, tally, form, same, b"play, page")?;
    play_with_zeros(rt, tally, sheet, form, one, kept, lent, number)?;
    Ok(number == 0)
}

// An answer that the engines may write over.
fn preset_byte(state: &mut u64) -> u8 {
    (number::up_to(state, 255) % 256) as u8
}

fn note_downward(
    rt: &impl Print,
    tally: &mut [u64],
    number: u32,
    answer: u8,
    preset: u8,
) -> io::Result<()> {
    if number != 0 {
        return counts::hold(
            rt,
            tally,
            answer == preset,
            b"downward, answer of a refused call",
        );
    }
    if answer == 1 {
        test_tally::add(tally, counts::YES);
        return Ok(());
    }
    test_tally::add(tally, counts::NO);
    counts::hold(rt, tally, answer == 0, b"downward, neither yes nor no")
}

pub fn downward(
    rt: &impl Print,
    state: &mut u64,
    tally: &mut [u64],
    sheet: &[u8],
) -> io::Result<()> {
    let bidder = calls::bidder(state, sheet);
    let preset = preset_byte(state);
    let mut one = preset;
    let mut two = preset;
    let number = pas::pas_downward(sheet, bidder, &mut one);
    let other = test_plain::downward(sheet, bidder, &mut two);
    counts::add_call(tally, counts::DOWNWARD, number);
    counts::hold(rt, tally, number == other, b"downward, number")?;
    counts::hold(rt, tally, one == two, b"downward, answer")?;
    note_downward(rt, tally, number, one, preset)
}

fn preset_gain(state: &mut u64) -> i64 {
    let drawn = number::up_to(state, 3);
    match drawn {
        0 => -1,
        1 => 9223372036854775807,
        2 => -4611686018427387905,
        _ => 1234567890123,
    }
}

// The sign of a gain.
fn note_sign(tally: &mut [u64], form: Form, gain: i64) {
    let above = by_form(form, counts::GAINS_ABOVE, counts::FLOORED_GAINS_ABOVE);
    let nought = by_form(form, counts::GAINS_NOUGHT, counts::FLOORED_GAINS_NOUGHT);
    let below = by_form(form, counts::GAINS_BELOW, counts::FLOORED_GAINS_BELOW);
    test_tally::add_if(tally, 0 < gain, above);
    test_tally::add_if(tally, gain == 0, nought);
    test_tally::add_if(tally, gain < 0, below);
}

fn note_gain(
    rt: &impl Print,
    tally: &mut [u64],
    form: Form,
    number: u32,
    gain: i64,
    preset: i64,
) -> io::Result<()> {
    let call = by_form(form, counts::GAIN, counts::GAIN_FLOORS);
    note_number(rt, tally, form, call, number, b"gain, the number due")?;
    if number == 0 {
        note_sign(tally, form, gain);
    } else {
        let kept = gain == preset;
        hold(rt, tally, form, kept, b"gain, answer of a refused call")?;
    }
    Ok(())
}

// Whose gain is asked for, at which worth, and what its memory holds before.
#[derive(Clone, Copy)]
struct Asked {
    bidder: u32,
    worth: u32,
    preset: i64,
}

// What a call for a gain gave.
#[derive(Clone, Copy)]
struct Gained {
    number: u32,
    gain: i64,
}

fn gain_by_library(played: &[u8], floors: Option<&[u32]>, truth: &[u8], asked: Asked) -> Gained {
    let mut gain = asked.preset;
    let bidder = asked.bidder;
    let number = calls::gain_by_library(played, floors, truth, bidder, asked.worth, &mut gain);
    Gained { number, gain }
}

fn gain_by_other(played: &[u8], floors: Option<&[u32]>, truth: &[u8], asked: Asked) -> Gained {
    let mut gain = asked.preset;
    let bidder = asked.bidder;
    let number = calls::gain_by_other(played, floors, truth, bidder, asked.worth, &mut gain);
    Gained { number, gain }
}

// The first form gives what the second gives with floors of 0.
fn gain_with_zeros(
    rt: &impl Print,
    tally: &mut [u64],
    played: &[u8],
    form: Form,
    truth: &[u8],
    asked: Asked,
    given: Gained,
) -> io::Result<()> {
    if form.floored {
        return Ok(());
    }
    let zeros = [0u32; floor_lists::ROOM];
    let list = floor_lists::part(&zeros, 0, floor_lists::count(played));
    let other = gain_by_library(played, Some(list), truth, asked);
    let same = given.number == other.number;
    counts::hold(rt, tally, same, b"gain with floors of 0, number")?;
    let equal = given.gain == other.gain;
    counts::hold(rt, tally, equal, b"gain with floors of 0, answer")?;
    let answered = given.number == 0 && other.number == 0;
    test_tally::add_if(tally, answered, counts::ZERO_GAINS);
    Ok(())
}

fn ask_gain(state: &mut u64, sheet: &[u8]) -> Asked {
    Asked {
        bidder: calls::bidder(state, sheet),
        worth: calls::worth(state),
        preset: preset_gain(state),
    }
}

fn compare_gains(
    rt: &impl Print,
    tally: &mut [u64],
    form: Form,
    one: Gained,
    two: Gained,
) -> io::Result<()> {
    hold(rt, tally, form, one.number == two.number, b"gain, number")?;
    hold(rt, tally, form, one.gain == two.gain, b"gain, answer")
}

// Whether both engines gave a gain.
pub fn gain(
    rt: &impl Print,
    state: &mut u64,
    tally: &mut [u64],
    sheet: &[u8],
    floors: &[u32],
    form: Form,
    truth: &[u8],
) -> io::Result<bool> {
    let asked = ask_gain(state, sheet);
    let list = lent_floors(form, floors);
    let one = gain_by_library(sheet, list, truth, asked);
    let two = gain_by_other(sheet, list, truth, asked);
    note_gain(rt, tally, form, one.number, one.gain, asked.preset)?;
    compare_gains(rt, tally, form, one, two)?;
    gain_with_zeros(rt, tally, sheet, form, truth, asked, one)?;
    Ok(one.number == 0)
}

// The total of the page that playing gives.
fn greedy_total(sheet: &[u8], floors: Option<&[u32]>) -> u64 {
    let mut space = [0u8; RESULT];
    let page: &mut [u8] = &mut space;
    if calls::play_by_library(sheet, floors, page, 0, RESULT as u32) != 0 {
        return 0;
    }
    pages::total(sheet, page, 0, true)
}

// A best page is worth what the call says, and never less than the played page.
fn note_best(
    rt: &impl Print,
    tally: &mut [u64],
    sheet: &[u8],
    floors: &[u32],
    form: Form,
    res: &[u8],
    start: u32,
    total: u64,
) -> io::Result<()> {
    let own = pages::total(sheet, res, start, false);
    let greedy = greedy_total(sheet, lent_floors(form, floors));
    hold(rt, tally, form, total == own, b"best, total of the page")?;
    hold(
        rt,
        tally,
        form,
        greedy <= total,
        b"best, below the played page",
    )?;
    let count = by_form(form, counts::ABOVE_GREEDY, counts::FLOORED_ABOVE_GREEDY);
    test_tally::add_if(tally, greedy < total, count);
    if form.floored {
        floored::note_best(rt, tally, sheet, floors, res, start, total)?;
    }
    Ok(())
}

// What a search for the best page gave beside the page, and what the total's memory held before.
#[derive(Clone, Copy)]
struct Found {
    number: u32,
    total: u64,
    preset: u64,
}

fn best_by_library(
    rt: &impl Print,
    tally: &mut [u64],
    sheet: &[u8],
    floors: &[u32],
    form: Form,
    one: &mut [u8],
    kept: &[u8],
    lent: Lent,
    preset: u64,
) -> io::Result<Found> {
    let start = lent.start;
    let bytes = lent.bytes;
    let mut total = preset;
    let list = lent_floors(form, floors);
    let number = calls::best_by_library(sheet, list, one, start, lent.size, &mut total);
    let call = by_form(form, counts::BEST, counts::BEST_FLOORS);
    note_number(rt, tally, form, call, number, b"best, the number due")?;
    let kept_rest = bytes::untouched(one, kept, start, calls::written(number, bytes));
    hold(
        rt,
        tally,
        form,
        kept_rest,
        b"best, bytes that are not the result's",
    )?;
    if number == 0 {
        note_best(rt, tally, sheet, floors, form, one, start, total)?;
    } else {
        let same = total == preset;
        hold(rt, tally, form, same, b"best, answer of a refused call")?;
    }
    Ok(Found {
        number,
        total,
        preset,
    })
}

fn compare_best(
    rt: &impl Print,
    tally: &mut [u64],
    sheet: &[u8],
    floors: &[u32],
    form: Form,
    one: &[u8],
    two: &mut [u8],
    lent: Lent,
    found: Found,
) -> io::Result<()> {
    let start = lent.start;
    let mut total = found.preset;
    let list = lent_floors(form, floors);
    let other = calls::best_by_other(sheet, list, two, start, lent.size, &mut total);
    hold(rt, tally, form, found.number == other, b"best, number")?;
    hold(rt, tally, form, found.total == total, b"best, total")?;
    let same = bytes::same(one, two, RESULT);
    hold(rt, tally, form, same, b"best, page")
}

// The first form gives what the second gives with floors of 0.
fn best_with_zeros(
    rt: &impl Print,
    tally: &mut [u64],
    sheet: &[u8],
    form: Form,
    one: &[u8],
    kept: &[u8],
    lent: Lent,
    found: Found,
) -> io::Result<()> {
    if form.floored {
        return Ok(());
    }
    let mut space = [0u8; RESULT];
    let two: &mut [u8] = &mut space;
    let zeros = [0u32; floor_lists::ROOM];
    let mut total = found.preset;
    parts::copy(kept, two, RESULT);
    let list = floor_lists::part(&zeros, 0, floor_lists::count(sheet));
    let other = calls::best_by_library(sheet, Some(list), two, lent.start, lent.size, &mut total);
    let number = found.number;
    counts::hold(rt, tally, number == other, b"best with floors of 0, number")?;
    let equal = found.total == total;
    counts::hold(rt, tally, equal, b"best with floors of 0, total")?;
    let same = bytes::same(one, two, RESULT);
    counts::hold(rt, tally, same, b"best with floors of 0, page")?;
    test_tally::add_if(tally, number == 0 && other == 0, counts::ZERO_BEST);
    Ok(())
}

// Whether both engines gave a page.
pub fn best(
    rt: &impl Print,
    state: &mut u64,
    tally: &mut [u64],
    sheet: &[u8],
    floors: &[u32],
    form: Form,
) -> io::Result<bool> {
    let mut first = [0u8; RESULT];
    let mut second = [0u8; RESULT];
    let mut third = [0u8; RESULT];
    let one: &mut [u8] = &mut first;
    let two: &mut [u8] = &mut second;
    let kept: &mut [u8] = &mut third;
    prepare(state, one, two, kept);
    let preset = *state;
    let lent = lend(state, floor_lists::count(sheet));
    let found = best_by_library(rt, tally, sheet, floors, form, one, kept, lent, preset)?;
    compare_best(rt, tally, sheet, floors, form, one, two, lent, found)?;
    best_with_zeros(rt, tally, sheet, form, one, kept, lent, found)?;
    Ok(found.number == 0)
}
