// The lines that the program writes, in the documents' words.
use std::io;
use test_both_engines::counts;
use test_chance::rounds;

// A line for a number that a call returned, if it did.
fn number_line(
    rt: &impl Print,
    tally: &[u64],
    name: &[u8],
    call: u32,
    number: u32,
) -> io::Result<()> {
    let count = test_tally::of(tally, counts::place(call, number));
    if count == 0 {
        return Ok(());
    }
    test_tally::text(rt, name)?;
    test_tally::text(rt, b" ")?;
    test_tally::number(rt, u64::from(number))?;
    test_tally::line(rt, b"", count)
}

fn sum(tally: &[u64], call: u32) -> u64 {
    let mut total: u64 = 0;
    for number in 0..counts::NUMBERS {
        total = total.wrapping_add(test_tally::of(tally, counts::place(call, number)));
    }
    total
}

// A call: how often, and how often it returned each number, 0 where it answered.
fn call_lines(rt: &impl Print, tally: &[u64], name: &[u8], call: u32) -> io::Result<()> {
    test_tally::text(rt, name)?;
    test_tally::line(rt, b" calls", sum(tally, call))?;
    for number in 0..counts::NUMBERS {
        number_line(rt, tally, name, call, number)?;
    }
    Ok(())
}

// Words and a count of the shape.
fn shape_part(
    rt: &impl Print,
    tally: &[u64],
    words: &[u8],
    first: u32,
    shape: u32,
) -> io::Result<()> {
    test_tally::text(rt, words)?;
    test_tally::number(rt, test_tally::of(tally, counts::by_shape(first, shape)))
}

// A shape: its rounds, and the pages that both engines played and found best, without floors and with them.
fn shape_line(rt: &impl Print, tally: &[u64], words: &[u8], shape: u32) -> io::Result<()> {
    test_tally::text(rt, words)?;
    shape_part(rt, tally, b": rounds ", counts::SHAPES, shape)?;
    shape_part(rt, tally, b", pages ", counts::PLAYED, shape)?;
    shape_part(rt, tally, b", best pages ", counts::SEARCHED, shape)?;
    shape_part(rt, tally, b", with floors ", counts::FLOORED_PLAYED, shape)?;
    shape_part(rt, tally, b" and ", counts::FLOORED_SEARCHED, shape)?;
    test_tally::text(rt, b"\n")
}

fn small_shapes(rt: &impl Print, tally: &[u64]) -> io::Result<()> {
    shape_line(rt, tally, b"small", rounds::SMALL)?;
    shape_line(rt, tally, b"small with equal bids", rounds::TIES)?;
    shape_line(rt, tally, b"small with many bids of 0", rounds::ZERO_BIDS)?;
    shape_line(rt, tally, b"more places than bidders", rounds::MORE_SLOTS)?;
    shape_line(rt, tally, b"downward monotonic lists", rounds::DOWNWARD)?;
    shape_line(
        rt,
        tally,
        b"bidders that bar each other",
        rounds::EXCLUSIONS,
    )?;
    shape_line(rt, tally, b"each bidder above the next", rounds::CHAINS)?;
    shape_line(
        rt,
        tally,
        b"repeated conditions, which version 1 keeps",
        rounds::REPEATS,
    )
}

fn larger_shapes(rt: &impl Print, tally: &[u64]) -> io::Result<()> {
    shape_line(
        rt,
        tally,
        b"6 or 7 bidders and places",
        rounds::SIX_OR_SEVEN,
    )?;
    shape_line(rt, tally, b"8 bidders and places", rounds::EIGHT)?;
    shape_line(rt, tally, b"9 to 20 bidders, 8 places", rounds::MIDDLE)?;
    shape_line(
        rt,
        tally,
        b"up to 64 bidders, 16 places, 1024 conditions",
        rounds::LARGE,
    )?;
    shape_line(
        rt,
        tally,
        b"64 bidders, 16 places, 1024 conditions",
        rounds::LARGEST,
    )?;
    test_tally::count_line(rt, tally, b"damaged sheets", counts::DAMAGED)
}

// What the headers of the sheets say, whatever their shapes.
fn largest_sizes(rt: &impl Print, tally: &[u64]) -> io::Result<()> {
    test_tally::count_line(
        rt,
        tally,
        b"accepted sheets with n = 64, m = 16, c = 1024",
        counts::LARGEST,
    )?;
    test_tally::count_line(rt, tally, b"pages on these", counts::LARGEST_PAGES)?;
    test_tally::count_line(rt, tally, b"gains on these", counts::LARGEST_GAINS)?;
    test_tally::count_line(
        rt,
        tally,
        b"pages with floors on these",
        counts::LARGEST_FLOORED_PAGES,
    )?;
    test_tally::count_line(
        rt,
        tally,
        b"gains with floors on these",
        counts::LARGEST_FLOORED_GAINS,
    )
}

// The same of the largest that the best page is sought on.
fn eights(rt: &impl Print, tally: &[u64]) -> io::Result<()> {
    test_tally::count_line(
        rt,
        tally,
        b"accepted sheets with n = 8, m = 8",
        counts::EIGHT,
    )?;
    test_tally::count_line(rt, tally, b"pages on these", counts::EIGHT_PAGES)?;
    test_tally::count_line(rt, tally, b"gains on these", counts::EIGHT_GAINS)?;
    test_tally::count_line(rt, tally, b"best pages on these", counts::EIGHT_BEST)?;
    test_tally::count_line(
        rt,
        tally,
        b"pages with floors on these",
        counts::EIGHT_FLOORED_PAGES,
    )?;
    test_tally::count_line(
        rt,
        tally,
        b"gains with floors on these",
        counts::EIGHT_FLOORED_GAINS,
    )?;
    test_tally::count_line(
        rt,
        tally,
        b"best pages with floors on these",
        counts::EIGHT_FLOORED_BEST,
    )
}

// What the headers say of versions and ticks.
fn versions(rt: &impl Print, tally: &[u64]) -> io::Result<()> {
    test_tally::count_line(
        rt,
        tally,
        b"accepted sheets of version 2",
        counts::VERSION_TWO,
    )?;
    test_tally::count_line(
        rt,
        tally,
        b"accepted sheets of version 2 with n = 64, m = 16, c = 1024",
        counts::LONGEST,
    )?;
    test_tally::count_line(
        rt,
        tally,
        b"accepted sheets with a tick above 1",
        counts::STEPPED,
    )?;
    test_tally::count_line(rt, tally, b"pages on these", counts::STEPPED_PAGES)?;
    test_tally::count_line(rt, tally, b"gains on these", counts::STEPPED_GAINS)?;
    test_tally::count_line(rt, tally, b"best pages on these", counts::STEPPED_BEST)?;
    test_tally::count_line(
        rt,
        tally,
        b"pages with floors on these",
        counts::STEPPED_FLOORED_PAGES,
    )?;
    test_tally::count_line(
        rt,
        tally,
        b"gains with floors on these",
        counts::STEPPED_FLOORED_GAINS,
    )?;
    test_tally::count_line(
        rt,
        tally,
        b"best pages with floors on these",
        counts::STEPPED_FLOORED_BEST,
    )?;
    test_tally::count_line(
        rt,
        tally,
        b"pages with a price that is a rival's bid and a tick above 1",
        counts::STEPPED_PRICES,
    )?;
    test_tally::count_line(
        rt,
        tally,
        b"gains by a truth sheet of another tick",
        counts::OTHER_TICK_GAINS,
    )
}

fn answers(rt: &impl Print, tally: &[u64]) -> io::Result<()> {
    test_tally::count_line(rt, tally, b"pages with an empty place", counts::EMPTY_SLOTS)?;
    test_tally::count_line(rt, tally, b"pages with a price above 0", counts::PRICES)?;
    test_tally::count_line(rt, tally, b"lists that are downward monotonic", counts::YES)?;
    test_tally::count_line(rt, tally, b"lists that are not", counts::NO)?;
    test_tally::count_line(rt, tally, b"gains above 0", counts::GAINS_ABOVE)?;
    test_tally::count_line(rt, tally, b"gains of 0", counts::GAINS_NOUGHT)?;
    test_tally::count_line(rt, tally, b"gains below 0", counts::GAINS_BELOW)?;
    test_tally::count_line(
        rt,
        tally,
        b"best pages with a larger total than the played page",
        counts::ABOVE_GREEDY,
    )
}

// Both forms of the calls, the second with as many floors of 0 as the sheet has places.
fn zero_floors(rt: &impl Print, tally: &[u64]) -> io::Result<()> {
    test_tally::count_line(
        rt,
        tally,
        b"pages that are the same with floors of 0",
        counts::ZERO_PAGES,
    )?;
    test_tally::count_line(
        rt,
        tally,
        b"gains that are the same with floors of 0",
        counts::ZERO_GAINS,
    )?;
    test_tally::count_line(
        rt,
        tally,
        b"best pages that are the same with floors of 0",
        counts::ZERO_BEST,
    )
}

// The floors that accepted sheets are played with.
fn right_floors(rt: &impl Print, tally: &[u64]) -> io::Result<()> {
    test_tally::count_line(rt, tally, b"lists of floors, all 0", counts::ZEROS)?;
    test_tally::count_line(rt, tally, b"lists of floors, rising", counts::RISING)?;
    test_tally::count_line(rt, tally, b"lists of floors, falling", counts::FALLING)?;
    test_tally::count_line(
        rt,
        tally,
        b"lists of floors, rising and falling",
        counts::BOTH_WAYS,
    )?;
    test_tally::count_line(
        rt,
        tally,
        b"lists of floors, all above every bid",
        counts::ABOVE_BIDS,
    )?;
    test_tally::count_line(
        rt,
        tally,
        b"lists of floors, none a multiple of the tick",
        counts::OFF_TICK,
    )?;
    test_tally::count_line(
        rt,
        tally,
        b"lists of floors, one above 0 equal to a bid",
        counts::AT_BID,
    )?;
    test_tally::count_line(
        rt,
        tally,
        b"lists of floors, one of 1000000000",
        counts::AT_LIMIT,
    )
}

// The floors that are turned away with accepted sheets, and those beside a refused sheet.
fn wrong_floors(rt: &impl Print, tally: &[u64]) -> io::Result<()> {
    test_tally::count_line(rt, tally, b"lists of no floors", counts::NO_FLOORS)?;
    test_tally::count_line(rt, tally, b"lists of too few floors", counts::SHORT)?;
    test_tally::count_line(rt, tally, b"lists of too many floors", counts::LONG)?;
    test_tally::count_line(
        rt,
        tally,
        b"lists of m floors, one of 1000000001",
        counts::JUST_TOO_HIGH,
    )?;
    test_tally::count_line(
        rt,
        tally,
        b"lists of m floors, the first too high",
        counts::FIRST_TOO_HIGH,
    )?;
    test_tally::count_line(
        rt,
        tally,
        b"lists of m floors, the last too high",
        counts::LAST_TOO_HIGH,
    )?;
    test_tally::count_line(
        rt,
        tally,
        b"lists of too few or too many floors, one too high",
        counts::BOTH_FAULTS,
    )?;
    test_tally::count_line(
        rt,
        tally,
        b"lists to be turned away beside a refused sheet",
        counts::SHEET_FIRST,
    )
}

// What the floors do.
fn floored_pages(rt: &impl Print, tally: &[u64]) -> io::Result<()> {
    test_tally::count_line(
        rt,
        tally,
        b"pages with floors and an empty place",
        counts::FLOORED_EMPTY,
    )?;
    test_tally::count_line(
        rt,
        tally,
        b"pages on which a floor empties a place",
        counts::EMPTIED,
    )?;
    test_tally::count_line(
        rt,
        tally,
        b"pages on which a floor sets a price",
        counts::PRICED,
    )?;
    test_tally::count_line(
        rt,
        tally,
        b"pages on which a floor between two ticks does",
        counts::BETWEEN,
    )?;
    test_tally::count_line(
        rt,
        tally,
        b"pages on which a winner bids just its floor",
        counts::REACHED,
    )?;
    test_tally::count_line(
        rt,
        tally,
        b"pages on which a floor makes a place cost more than the one above",
        counts::DEARER,
    )
}

fn floored_amounts(rt: &impl Print, tally: &[u64]) -> io::Result<()> {
    test_tally::count_line(
        rt,
        tally,
        b"gains with floors above 0",
        counts::FLOORED_GAINS_ABOVE,
    )?;
    test_tally::count_line(
        rt,
        tally,
        b"gains with floors of 0",
        counts::FLOORED_GAINS_NOUGHT,
    )?;
    test_tally::count_line(
        rt,
        tally,
        b"gains with floors below 0",
        counts::FLOORED_GAINS_BELOW,
    )?;
    test_tally::count_line(
        rt,
        tally,
        b"best pages with floors with a larger total than the played page",
        counts::FLOORED_ABOVE_GREEDY,
    )?;
    test_tally::count_line(
        rt,
        tally,
        b"best pages with floors with a smaller total than without",
        counts::FLOORED_SMALLER,
    )
}

// Where the owners' parts stand, by both engines.
fn owner_parts(rt: &impl Print, tally: &[u64]) -> io::Result<()> {
    test_tally::count_line(rt, tally, b"parts of the first owner", counts::FIRST_PARTS)?;
    test_tally::count_line(rt, tally, b"parts of the last owner", counts::LAST_PARTS)?;
    test_tally::count_line(
        rt,
        tally,
        b"parts of an owner in between",
        counts::MIDDLE_PARTS,
    )?;
    test_tally::count_line(
        rt,
        tally,
        b"empty parts before the first owner's",
        counts::EMPTY_FIRST,
    )?;
    test_tally::count_line(
        rt,
        tally,
        b"empty parts between two owners'",
        counts::EMPTY_MIDDLE,
    )?;
    test_tally::count_line(
        rt,
        tally,
        b"empty parts at the sheet's end",
        counts::EMPTY_LAST,
    )?;
    test_tally::count_line(
        rt,
        tally,
        b"parts of sheets with no conditions",
        counts::EMPTY_SHEETS,
    )
}

// What the sheets of version 2 with faults of their conditions are like.
fn orders(rt: &impl Print, tally: &[u64]) -> io::Result<()> {
    test_tally::count_line(
        rt,
        tally,
        b"sheets with one condition not above the one before",
        counts::ONE_FALL,
    )?;
    test_tally::count_line(
        rt,
        tally,
        b"sheets with more conditions not above the one before",
        counts::MORE_FALLS,
    )?;
    test_tally::count_line(
        rt,
        tally,
        b"sheets of version 2 with such a condition and 10 to 13 first",
        counts::OTHER_AND_FALL,
    )
}

// What is done to a sheet to make it the one for its round.
fn written_sheets(rt: &impl Print, tally: &[u64]) -> io::Result<()> {
    test_tally::count_line(
        rt,
        tally,
        b"sheets that are written as they are",
        counts::COPIED,
    )?;
    test_tally::count_line(
        rt,
        tally,
        b"sheets that are written in another order",
        counts::ORDERED,
    )?;
    test_tally::count_line(
        rt,
        tally,
        b"sheets that are written with fewer conditions",
        counts::DROPPED,
    )?;
    test_tally::count_line(
        rt,
        tally,
        b"sheets written into just the room that they take",
        counts::JUST_ROOM,
    )?;
    test_tally::count_line(
        rt,
        tally,
        b"sheets refused in a byte less",
        counts::BYTE_SHORT,
    )?;
    test_tally::count_line(
        rt,
        tally,
        b"written sheets that are written again as they are",
        counts::WRITTEN_AGAIN,
    )
}

// Other sheets of the same round.
fn same_rounds(rt: &impl Print, tally: &[u64]) -> io::Result<()> {
    test_tally::count_line(
        rt,
        tally,
        b"sheets of the same round, shuffled, that are written the same",
        counts::SHUFFLED,
    )?;
    test_tally::count_line(
        rt,
        tally,
        b"of these with n = 64, m = 16, c = 1024",
        counts::LONGEST_WRITTEN,
    )?;
    test_tally::count_line(
        rt,
        tally,
        b"sheets of the same round, with repeats, that are written the same",
        counts::REPEATED,
    )?;
    test_tally::count_line(
        rt,
        tally,
        b"sheets of the same round, in version 2, that are written the same",
        counts::OTHER_VERSION,
    )
}

// Sheets of a round that is nearly the same.
fn other_rounds(rt: &impl Print, tally: &[u64]) -> io::Result<()> {
    test_tally::count_line(
        rt,
        tally,
        b"sheets with another bid that are written otherwise",
        counts::OTHER_BID,
    )?;
    test_tally::count_line(
        rt,
        tally,
        b"sheets with another effect that are written otherwise",
        counts::OTHER_EFFECT,
    )?;
    test_tally::count_line(
        rt,
        tally,
        b"sheets with another tick that are written otherwise",
        counts::OTHER_TICK,
    )?;
    test_tally::count_line(
        rt,
        tally,
        b"sheets with a condition fewer that are written otherwise",
        counts::ONE_FEWER,
    )?;
    test_tally::count_line(
        rt,
        tally,
        b"sheets with another condition that are written otherwise",
        counts::OTHER_CONDITION,
    )
}

// What the sheet and the written one both answer.
fn same_answers(rt: &impl Print, tally: &[u64]) -> io::Result<()> {
    test_tally::count_line(
        rt,
        tally,
        b"pages that the written sheet gives too",
        counts::SAME_PAGES,
    )?;
    test_tally::count_line(
        rt,
        tally,
        b"pages with floors that it gives too",
        counts::SAME_FLOORED_PAGES,
    )?;
    test_tally::count_line(
        rt,
        tally,
        b"best pages that it gives too",
        counts::SAME_BEST,
    )?;
    test_tally::count_line(
        rt,
        tally,
        b"lists that are downward monotonic or not in it too",
        counts::SAME_DOWNWARD,
    )?;
    test_tally::count_line(rt, tally, b"gains that it gives too", counts::SAME_GAINS)
}

fn one_sheet(rt: &impl Print, tally: &[u64]) -> io::Result<()> {
    written_sheets(rt, tally)?;
    same_rounds(rt, tally)?;
    other_rounds(rt, tally)?;
    same_answers(rt, tally)
}

fn floors(rt: &impl Print, tally: &[u64]) -> io::Result<()> {
    zero_floors(rt, tally)?;
    right_floors(rt, tally)?;
    wrong_floors(rt, tally)?;
    floored_pages(rt, tally)?;
    floored_amounts(rt, tally)
}

pub fn all(rt: &impl Print, tally: &[u64]) -> io::Result<()> {
    call_lines(rt, tally, b"check", counts::CHECK)?;
    call_lines(rt, tally, b"play", counts::PLAY)?;
    call_lines(rt, tally, b"downward", counts::DOWNWARD)?;
    call_lines(rt, tally, b"gain", counts::GAIN)?;
    call_lines(rt, tally, b"best", counts::BEST)?;
    call_lines(rt, tally, b"owner part", counts::OWNER_PART)?;
    call_lines(rt, tally, b"check of an owner part", counts::CHECK_PART)?;
    call_lines(rt, tally, b"play with floors", counts::PLAY_FLOORS)?;
    call_lines(rt, tally, b"gain with floors", counts::GAIN_FLOORS)?;
    call_lines(rt, tally, b"best with floors", counts::BEST_FLOORS)?;
    call_lines(rt, tally, b"one sheet", counts::CANONICAL)?;
    answers(rt, tally)?;
    owner_parts(rt, tally)?;
    floors(rt, tally)?;
    one_sheet(rt, tally)?;
    small_shapes(rt, tally)?;
    larger_shapes(rt, tally)?;
    largest_sizes(rt, tally)?;
    eights(rt, tally)?;
    versions(rt, tally)?;
    orders(rt, tally)?;
    test_tally::count_line(rt, tally, b"rounds", counts::ROUNDS)?;
    test_tally::count_line(rt, tally, b"differences", counts::DIFFERENCES)
}
