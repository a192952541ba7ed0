// What is counted: for each call the numbers that it returned, and what the rounds were like.
ghost use Rattle.std.specs.Prelude.{◌≡◌};
ghost use Rattle.test_both_engines.specs.Counts.{place_of, held};
ghost use Rattle.test_tally.specs.Tally.{counted};

use std::io;

// Kept: no enum, since these are places in the tally.
// The calls, by their order in document 01 and then document 02, with a place for each number from 0 to 31.
pub const CHECK: u32 = 0;

pub const PLAY: u32 = 1;

pub const DOWNWARD: u32 = 2;

pub const GAIN: u32 = 3;

pub const BEST: u32 = 4;

pub const OWNER_PART: u32 = 5;

// The call that only checks where a part is.
pub const CHECK_PART: u32 = 6;

// The calls with floors.
pub const PLAY_FLOORS: u32 = 7;

pub const GAIN_FLOORS: u32 = 8;

pub const BEST_FLOORS: u32 = 9;

// One sheet for one round.
pub const CANONICAL: u32 = 10;

pub const CALLS: u32 = 11;

pub const NUMBERS: u32 = 32;

// Further counts, after the calls' 352.
pub const ROUNDS: u32 = 352;

pub const DIFFERENCES: u32 = 353;

pub const EMPTY_SLOTS: u32 = 354;

pub const PRICES: u32 = 355;

pub const STEPPED_PRICES: u32 = 356;

pub const YES: u32 = 357;

pub const NO: u32 = 358;

pub const GAINS_ABOVE: u32 = 359;

pub const GAINS_NOUGHT: u32 = 360;

pub const GAINS_BELOW: u32 = 361;

pub const ABOVE_GREEDY: u32 = 362;

pub const DAMAGED: u32 = 363;

// At the largest sizes, by the sheet's own header: the sheets, and the pages and gains that both engines answered on them.
pub const LARGEST: u32 = 364;

pub const LARGEST_PAGES: u32 = 365;

pub const LARGEST_GAINS: u32 = 366;

// The largest that the best page is sought on.
pub const EIGHT: u32 = 367;

pub const EIGHT_PAGES: u32 = 368;

pub const EIGHT_GAINS: u32 = 369;

pub const EIGHT_BEST: u32 = 370;

// By the sheet's own header too: version 2, the largest of these, which no sheet is longer than, and those with a tick above 1.
pub const VERSION_TWO: u32 = 371;

pub const LONGEST: u32 = 372;

pub const STEPPED: u32 = 373;

pub const STEPPED_PAGES: u32 = 374;

pub const STEPPED_GAINS: u32 = 375;

pub const STEPPED_BEST: u32 = 376;

// Gains by a truth sheet of another tick.
pub const OTHER_TICK_GAINS: u32 = 377;

// Parts of sheets with constraints, by where they stand: of the first owner, of the last one, of one in between; empty ones before the first
// owner's, between two owners' and at the sheet's end.
pub const FIRST_PARTS: u32 = 378;

pub const LAST_PARTS: u32 = 379;

pub const MIDDLE_PARTS: u32 = 380;

pub const EMPTY_FIRST: u32 = 381;

pub const EMPTY_MIDDLE: u32 = 382;

pub const EMPTY_LAST: u32 = 383;

// Parts of sheets with no constraint at all.
pub const EMPTY_SHEETS: u32 = 384;

// Sheets of version 2 with a fault of their constraints: out of order in one place alone or in more, and out of order with another fault first.
pub const ONE_FALL: u32 = 385;

pub const MORE_FALLS: u32 = 386;

pub const OTHER_AND_FALL: u32 = 387;

// Calls without floors that give what they give with as many floors of 0: pages, gains and best pages.
pub const ZERO_PAGES: u32 = 388;

pub const ZERO_GAINS: u32 = 389;

pub const ZERO_BEST: u32 = 390;

// With floors: what the pages and gains are like.
pub const FLOORED_EMPTY: u32 = 391;

pub const FLOORED_GAINS_ABOVE: u32 = 392;

pub const FLOORED_GAINS_NOUGHT: u32 = 393;

pub const FLOORED_GAINS_BELOW: u32 = 394;

pub const FLOORED_ABOVE_GREEDY: u32 = 395;

// Best pages with a smaller total than without the floors.
pub const FLOORED_SMALLER: u32 = 396;

// Pages on which a floor empties a slot, sets a price, does so between two multiples of the tick, is just what the winner bids, and makes a slot
// cost more than the one above it.
pub const EMPTIED: u32 = 397;

pub const PRICED: u32 = 398;

pub const BETWEEN: u32 = 399;

pub const REACHED: u32 = 400;

pub const DEARER: u32 = 401;

// Right lists for right sheets, by what they are.
pub const ZEROS: u32 = 402;

pub const RISING: u32 = 403;

pub const FALLING: u32 = 404;

pub const BOTH_WAYS: u32 = 405;

pub const ABOVE_BIDS: u32 = 406;

pub const OFF_TICK: u32 = 407;

pub const AT_BID: u32 = 408;

pub const AT_LIMIT: u32 = 409;

// Lists that are turned away with right sheets, by what they are.
pub const NO_FLOORS: u32 = 410;

pub const SHORT: u32 = 411;

pub const LONG: u32 = 412;

pub const JUST_TOO_HIGH: u32 = 413;

pub const FIRST_TOO_HIGH: u32 = 414;

pub const LAST_TOO_HIGH: u32 = 415;

// Those with a wrong length and a floor too high.
pub const BOTH_FAULTS: u32 = 416;

// Lists that are turned away with sheets that are damaged too, which get the sheet's number.
pub const SHEET_FIRST: u32 = 417;

// Answers with floors at the largest sizes and at a tick above 1.
pub const LARGEST_FLOORED_PAGES: u32 = 418;

pub const LARGEST_FLOORED_GAINS: u32 = 419;

pub const EIGHT_FLOORED_PAGES: u32 = 420;

pub const EIGHT_FLOORED_GAINS: u32 = 421;

pub const EIGHT_FLOORED_BEST: u32 = 422;

pub const STEPPED_FLOORED_PAGES: u32 = 423;

pub const STEPPED_FLOORED_GAINS: u32 = 424;

pub const STEPPED_FLOORED_BEST: u32 = 425;

// One sheet for one round. Sheets that are written as they are, with the conditions in another order and with fewer of them; and those of
// version 1 with n = 64, m = 16, c = 1024 of which none is dropped, which no written sheet is longer than.
pub const COPIED: u32 = 426;

pub const ORDERED: u32 = 427;

pub const DROPPED: u32 = 428;

pub const LONGEST_WRITTEN: u32 = 429;

// Written into just the room that it takes, refused in a byte less, and written again from what was written.
pub const JUST_ROOM: u32 = 430;

pub const BYTE_SHORT: u32 = 431;

pub const WRITTEN_AGAIN: u32 = 432;

// Sheets of the same round, which give the same bytes: shuffled, with repeats, and of the other version.
pub const SHUFFLED: u32 = 433;

pub const REPEATED: u32 = 434;

pub const OTHER_VERSION: u32 = 435;

// Sheets of a round that is nearly the same, which give others: by what is changed.
pub const OTHER_BID: u32 = 436;

pub const OTHER_EFFECT: u32 = 437;

pub const OTHER_TICK: u32 = 438;

pub const ONE_FEWER: u32 = 439;

pub const OTHER_CONDITION: u32 = 440;

// Answers that the sheet and the written one both give: pages, pages with floors, best pages, downward lists and gains.
pub const SAME_PAGES: u32 = 441;

pub const SAME_FLOORED_PAGES: u32 = 442;

pub const SAME_BEST: u32 = 443;

pub const SAME_DOWNWARD: u32 = 444;

pub const SAME_GAINS: u32 = 445;

// By shape: rounds, pages that both engines played, best pages that both found, and both with floors.
pub const SHAPES: u32 = 460;

pub const PLAYED: u32 = 480;

pub const SEARCHED: u32 = 500;

pub const FLOORED_PLAYED: u32 = 520;

pub const FLOORED_SEARCHED: u32 = 540;

pub const ROOM: usize = 560;

// Where a count by shape stands.
pub fn by_shape(first: u32, shape: u32) -> u32 {
    first.wrapping_add(shape)
}

// Where a call's number is counted. No call has another one: that would be a difference.
#[tactic(auto, unfolding(crate::specs::Counts::place_of))]
pub fn place(call: u32, number: u32) -> u32
    ensures { result ≡ place_of call number }
{
    if call < CALLS && number < NUMBERS {
        return call * NUMBERS + number;
    }
    DIFFERENCES
}

pub fn add_call(tally: &mut [u64], call: u32, number: u32)
    ensures { tally.new ≡ counted tally.old (place_of call number) }
{
    test_tally::add(tally, place(call, number));
}

// A difference is counted, and a line names the call and the round, so that it can be found.
#[tactic(auto, unfolding(crate::specs::Counts::held))]
pub fn hold(rt: &impl Print, tally: &mut [u64], same: bool, name: &[u8]) -> io::Result<()>
    ensures { tally.new ≡ held tally.old same }
{
    if same {
        return Ok(());
    }
    test_tally::add(tally, DIFFERENCES);
    test_tally::text(rt, b"difference: ")?;
    test_tally::text(rt, name)?;
    test_tally::count_line(rt, tally, b", round", ROUNDS)
}
