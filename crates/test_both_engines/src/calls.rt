// The calls, with floors or without them, on a part of a larger buffer: the library's, and the second engine's.
use test_chance::{lists, number, parts};

// No call returns it.
const OUT_OF_ROOM: u32 = 1000;

pub fn play_by_library(
    sheet: &[u8],
    floors: Option<&[u32]>,
    res: &mut [u8],
    start: u32,
    size: u32,
) -> u32 {
    let from = start as usize;
    let Some(part) = res.get_mut(from..from + size as usize) else {
        return OUT_OF_ROOM;
    };
    match floors {
        Some(list) => pas::pas_play_floors(sheet, list, part),
        None => pas::pas_play(sheet, part),
    }
}

pub fn play_by_other(
    sheet: &[u8],
    floors: Option<&[u32]>,
    res: &mut [u8],
    start: u32,
    size: u32,
) -> u32 {
    let from = start as usize;
    let Some(part) = res.get_mut(from..from + size as usize) else {
        return OUT_OF_ROOM;
    };
    match floors {
        Some(list) => test_plain::play_floors(sheet, list, part),
        None => test_plain::play(sheet, part),
    }
}

pub fn gain_by_library(
    played: &[u8],
    floors: Option<&[u32]>,
    truth: &[u8],
    bidder: u32,
    worth: u32,
    gain: &mut i64,
) -> u32 {
    match floors {
        Some(list) => pas::pas_gain_floors(played, list, truth, bidder, worth, gain),
        None => pas::pas_gain(played, truth, bidder, worth, gain),
    }
}

pub fn gain_by_other(
    played: &[u8],
    floors: Option<&[u32]>,
    truth: &[u8],
    bidder: u32,
    worth: u32,
    gain: &mut i64,
) -> u32 {
    match floors {
        Some(list) => test_plain::gain_floors(played, list, truth, bidder, worth, gain),
        None => test_plain::gain(played, truth, bidder, worth, gain),
    }
}

pub fn best_by_library(
    sheet: &[u8],
    floors: Option<&[u32]>,
    res: &mut [u8],
    start: u32,
    size: u32,
    total: &mut u64,
) -> u32 {
    let from = start as usize;
    let Some(part) = res.get_mut(from..from + size as usize) else {
        return OUT_OF_ROOM;
    };
    match floors {
        Some(list) => pas::pas_best_floors(sheet, list, part, total),
        None => pas::pas_best(sheet, part, total),
    }
}

pub fn best_by_other(
    sheet: &[u8],
    floors: Option<&[u32]>,
    res: &mut [u8],
    start: u32,
    size: u32,
    total: &mut u64,
) -> u32 {
    let from = start as usize;
    let Some(part) = res.get_mut(from..from + size as usize) else {
        return OUT_OF_ROOM;
    };
    match floors {
        Some(list) => test_plain::best_floors(sheet, list, part, total),
        None => test_plain::best(sheet, part, total),
    }
}

pub fn canonical_by_library(
    sheet: &[u8],
    res: &mut [u8],
    start: u32,
    size: u32,
    written: &mut usize,
) -> u32 {
    let from = start as usize;
    let Some(part) = res.get_mut(from..from + size as usize) else {
        return OUT_OF_ROOM;
    };
    pas::pas_canonical(sheet, part, written)
}

pub fn canonical_by_other(
    sheet: &[u8],
    res: &mut [u8],
    start: u32,
    size: u32,
    written: &mut usize,
) -> u32 {
    let from = start as usize;
    let Some(part) = res.get_mut(from..from + size as usize) else {
        return OUT_OF_ROOM;
    };
    test_plain::canonical(sheet, part, written)
}

// What may have been written, by the number that the call returned.
pub fn written(number: u32, bytes: u32) -> u32 {
    if number == 0 { bytes } else { 0 }
}

// The bytes to lend where so many are to be written: none, one too few, fewer, just as many or more.
pub fn result_size(state: &mut u64, written: u32) -> u32 {
    let drawn = number::up_to(state, 9);
    match drawn {
        0 => 0,
        1 => number::up_to(state, written),
        2 => written.saturating_sub(1),
        3 | 4 | 5 => written,
        _ => more(state, written),
    }
}

// The same for a sheet, which may be long.
pub fn sheet_size(state: &mut u64, written: u32) -> u32 {
    let size = result_size(state, written);
    if size != written || written < 1000 {
        return size;
    }
    if written < 5000 {
        return written + number::up_to(state, 12);
    }
    size
}

fn more(state: &mut u64, written: u32) -> u32 {
    if written < 1000 {
        return written + number::up_to(state, 12);
    }
    written
}

// The bidder named in a call: most often one of the sheet, else 0, just above n, or a number whose low byte may be one.
pub fn bidder(state: &mut u64, sheet: &[u8]) -> u32 {
    let bidders = parts::bidders(sheet);
    let drawn = number::up_to(state, 19);
    match drawn {
        0 => 0,
        1 => bidders + 1,
        2 => 300,
        3 => 4000000000,
        4 => 256 + lists::one_of(state, bidders),
        5 => bidders,
        _ => lists::one_of(state, bidders),
    }
}

// "a worth per click v, 0 to 1,000,000,000", and above it.
pub fn worth(state: &mut u64) -> u32 {
    let drawn = number::up_to(state, 19);
    match drawn {
        0 => 1000000000,
        1 => 1000000001,
        2 => number::between(state, 1000000001, 4294967295),
        3 | 4 | 5 => number::up_to(state, 1000000000),
        6 | 7 | 8 => number::up_to(state, 1000),
        _ => number::up_to(state, 12),
    }
}
