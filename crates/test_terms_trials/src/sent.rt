// A written list on a sheet, as the owner's list in place of its own.
use crate::{call, compare, counts};
use std::cmp::Ordering;
use std::io;
use test_both_engines::bytes;
use test_chance::{floor_lists, lists, others, parts, rounds};

// "c, conditions, 0 to 1,024"
const MAX_CONSTRAINTS: u32 = 1024;

// "Every list written is downward monotonic for that m".
fn hold_downward(rt: &impl Print, tally: &mut [u64], sent: &[u8], owner: u32) -> io::Result<()> {
    let mut answer: u8 = 2;
    let number = pas::pas_downward(sent, owner, &mut answer);
    counts::hold(rt, tally, number == 0, b"number of the downward test")?;
    counts::hold(rt, tally, answer == 1, b"downward monotonic")?;
    test_tally::add_if(tally, answer == 1, counts::DOWNWARD);
    Ok(())
}

// In a sheet of version 2, whose conditions rise, the owner's part is the list as it was written.
fn hold_part(
    rt: &impl Print,
    tally: &mut [u64],
    sent: &[u8],
    owner: u32,
    list: &[u8],
    length: u32,
) -> io::Result<()> {
    let mut start: usize = 0;
    let mut size: usize = 0;
    if parts::version(sent) != parts::TICK_VERSION {
        return Ok(());
    }
    let number = pas::pas_owner_part(sent, owner, &mut start, &mut size);
    let part = parts::part(sent, parts::size(start), length);
    let same = bytes::same(part, list, length as usize);
    let whole = number == 0 && size == length as usize;
    counts::hold(rt, tally, whole & same, b"owner's part")?;
    test_tally::add_if(tally, whole & same, counts::PARTS);
    Ok(())
}

fn gain(
    played: &[u8],
    floors: Option<&[u32]>,
    honest: &[u8],
    owner: u32,
    worth: u32,
    gain: &mut i64,
) -> u32 {
    match floors {
        Some(floors) => pas::pas_gain_floors(played, floors, honest, owner, worth, gain),
        None => pas::pas_gain(played, honest, owner, worth, gain),
    }
}

// "The first result is at least the second."
fn hold_honest(
    rt: &impl Print,
    tally: &mut [u64],
    honest: &[u8],
    sent: &[u8],
    floors: Option<&[u32]>,
    owner: u32,
    worth: u32,
) -> io::Result<()> {
    let mut one: i64 = 0;
    let mut two: i64 = 0;
    let first = gain(honest, floors, honest, owner, worth, &mut one);
    let second = gain(sent, floors, honest, owner, worth, &mut two);
    let place = match floors {
        Some(_) => counts::WITH_FLOORS,
        None => counts::WITHOUT_FLOORS,
    };
    let found = match one.cmp(&two) {
        Ordering::Greater => counts::MORE,
        Ordering::Equal => counts::SAME,
        Ordering::Less => counts::LESS,
    };
    counts::hold(
        rt,
        tally,
        first == 0 && second == 0,
        b"numbers of the gains",
    )?;
    counts::hold(rt, tally, two <= one, b"demand 3")?;
    test_tally::add(tally, place + found);
    test_tally::add_if(tally, one != 0 || two != 0, place + counts::GAINED);
    Ok(())
}

fn hold_sent(
    rt: &impl Print,
    state: &mut u64,
    tally: &mut [u64],
    honest: &[u8],
    sent: &[u8],
    owner: u32,
) -> io::Result<()> {
    let mut floors = [0u32; floor_lists::ROOM];
    let shape = floor_lists::shape_among_bids(state);
    let length = floor_lists::make(state, shape, honest, &mut floors);
    let worth = rounds::worth(state, honest, owner);
    hold_downward(rt, tally, sent, owner)?;
    let lent = floor_lists::part(&floors, 0, length);
    hold_honest(rt, tally, honest, sent, None, owner, worth)?;
    hold_honest(rt, tally, honest, sent, Some(lent), owner, worth)
}

// The list in place of the owner's own. A sheet that is then full may lack some conditions, and is left out.
fn put(
    rt: &impl Print,
    state: &mut u64,
    tally: &mut [u64],
    honest: &[u8],
    owner: u32,
    list: &[u8],
    count: u32,
) -> io::Result<()> {
    let mut buffer = [0u8; parts::ROOM];
    others::make(state, honest, owner, &mut buffer);
    lists::add_listed(&mut buffer, list, count);
    lists::shuffle_free(state, &mut buffer);
    test_tally::add(tally, counts::SHEETS);
    if MAX_CONSTRAINTS <= parts::constraints(&buffer) {
        test_tally::add(tally, counts::FULL);
        return Ok(());
    }
    let bytes = parts::size(parts::length(&buffer));
    let sent = parts::part(&buffer, 0, bytes);
    counts::hold(rt, tally, pas::pas_check(sent) == 0, b"check")?;
    hold_part(rt, tally, sent, owner, list, compare::bytes_of(count))?;
    hold_sent(rt, state, tally, honest, sent, owner)
}

// A call with the n and m of a sheet of the shape, and its list on that sheet.
pub fn on_sheet(rt: &impl Print, state: &mut u64, tally: &mut [u64], shape: u32) -> io::Result<()> {
    let mut bars = [0u8; call::BARS_ROOM];
    let mut list = [0u8; compare::ROOM];
    let mut honest = [0u8; parts::ROOM];
    let length = parts::size(rounds::make(state, shape, &mut honest));
    let n = parts::bidders(&honest);
    let m = parts::slots(&honest);
    let asked = call::right(state, n, m, &mut bars);
    if let Some(count) = compare::both(rt, state, tally, asked, &bars, true, &mut list)? {
        put(
            rt,
            state,
            tally,
            parts::part(&honest, 0, length),
            asked.owner,
            &list,
            count,
        )?;
    }
    Ok(())
}
