// What is counted, and the lines that the program writes.
ghost use Rattle.std.specs.Prelude.{◌<◌};

use std::io;

pub const REFUSED: u32 = 0;

// The comparisons by their floors, and from KINDS on nine counts of each kind.
const COMPARISONS: u32 = 1;

const KINDS: u32 = 6;

const COUNTS: u32 = 9;

pub const ROOM: usize = 96;

// Without floors, and with floors that fall from place to place, that rise, that do both, and that are all the same.
#[derive(Clone, Copy, PartialEq, Eq)]
pub enum Floors {
    Without,
    Falling,
    Rising,
    Mixed,
    Level,
}

// A kind of comparison: by its floors, and by whether the other list is downward monotonic.
#[derive(Clone, Copy)]
pub struct Kind {
    pub floors: Floors,
    pub downward: bool,
}

// The counts of a kind: how many, with a place for the bidder on one of the two pages, with another honest gain than without floors, with
// sheets of two versions, with a tick above 1, how often the honest list pays more, the same and less, and less at such a tick.
#[derive(Clone, Copy)]
pub enum Count {
    All,
    Placed,
    Changed,
    Mixed,
    Stepped,
    More,
    Same,
    Less,
    SteppedLess,
}

// Where the comparisons with such floors are counted.
pub fn comparisons(floors: Floors) -> u32 {
    COMPARISONS + floors as u32
}

// A number for each kind.
fn number(kind: Kind) -> u32
    ensures { result < 10 }
{
    2 * (kind.floors as u32) + u32::from(kind.downward)
}

// Where a count stands.
pub fn place(kind: Kind, count: Count) -> u32 {
    KINDS + COUNTS * number(kind) + count as u32
}

fn count_line(
    rt: &impl Print,
    tally: &[u64],
    words: &[u8],
    kind: Kind,
    count: Count,
) -> io::Result<()> {
    test_tally::count_line(rt, tally, words, place(kind, count))
}

fn change_line(rt: &impl Print, tally: &[u64], kind: Kind) -> io::Result<()> {
    if kind.floors != Floors::Without {
        count_line(
            rt,
            tally,
            b"of these, the honest gain is another than without floors",
            kind,
            Count::Changed,
        )?;
    }
    Ok(())
}

fn lines(rt: &impl Print, tally: &[u64], kind: Kind) -> io::Result<()> {
    count_line(
        rt,
        tally,
        b"of these, with a place for the bidder on one of the two pages",
        kind,
        Count::Placed,
    )?;
    change_line(rt, tally, kind)?;
    count_line(
        rt,
        tally,
        b"of these, one sheet of version 1 and one of version 2",
        kind,
        Count::Mixed,
    )?;
    count_line(
        rt,
        tally,
        b"of these, with a tick above 1",
        kind,
        Count::Stepped,
    )?;
    count_line(
        rt,
        tally,
        b"of these, the honest list pays more",
        kind,
        Count::More,
    )?;
    count_line(rt, tally, b"of these, both pay the same", kind, Count::Same)?;
    count_line(
        rt,
        tally,
        b"of these, the honest list pays less",
        kind,
        Count::Less,
    )?;
    count_line(
        rt,
        tally,
        b"of these, the honest list pays less with a tick above 1",
        kind,
        Count::SteppedLess,
    )
}

// The comparisons with such floors.
fn report_with(rt: &impl Print, tally: &[u64], words: &[u8], floors: Floors) -> io::Result<()> {
    let other = Kind {
        floors,
        downward: false,
    };
    let downward = Kind {
        floors,
        downward: true,
    };
    test_tally::count_line(rt, tally, words, comparisons(floors))?;
    count_line(
        rt,
        tally,
        b"other list not downward monotonic",
        other,
        Count::All,
    )?;
    lines(rt, tally, other)?;
    count_line(
        rt,
        tally,
        b"other list downward monotonic",
        downward,
        Count::All,
    )?;
    lines(rt, tally, downward)
}

pub fn report(rt: &impl Print, tally: &[u64]) -> io::Result<()> {
    report_with(rt, tally, b"comparisons without floors", Floors::Without)?;
    report_with(
        rt,
        tally,
        b"comparisons with falling floors",
        Floors::Falling,
    )?;
    report_with(rt, tally, b"comparisons with rising floors", Floors::Rising)?;
    report_with(rt, tally, b"comparisons with mixed floors", Floors::Mixed)?;
    report_with(rt, tally, b"comparisons with equal floors", Floors::Level)?;
    test_tally::count_line(rt, tally, b"refused calls", REFUSED)
}
