// Numbers for a call that reads no sheet, and a length for its result.
use crate::{lists, number};

// Up to the most, and at times just that.
pub fn up_to_most(state: &mut u64, most: u32) -> u32 {
    if number::once_in(state, 6) {
        return most;
    }
    lists::one_of(state, most)
}

// A number that is not from 1 to the most: next to these, the same in its lowest bytes, or any.
pub fn outside(state: &mut u64, value: u32, most: u32) -> u32 {
    let above = most.wrapping_add(1);
    let drawn = number::up_to(state, 5);
    match drawn {
        0 | 1 => 0,
        2 => above,
        3 => value.wrapping_add(256),
        4 => value.wrapping_add(65536),
        _ => number::between(state, above, 4294967295),
    }
}

// Just enough bytes, or more.
fn enough_for(bytes: u32, drawn: u32, more: u32) -> u32 {
    if drawn < 4 {
        return bytes;
    }
    bytes.wrapping_add(more)
}

// A length for the result: enough, or at times too short by one byte or by more.
pub fn size(state: &mut u64, bytes: u32, enough: bool) -> u32 {
    let more = number::up_to(state, 40);
    let drawn = number::up_to(state, 5);
    if enough {
        return enough_for(bytes, drawn, more);
    }
    if bytes == 0 {
        return enough_for(bytes, drawn, more);
    }
    match drawn {
        0 => bytes - 1,
        1 => number::up_to(state, bytes - 1),
        _ => enough_for(bytes, drawn, more),
    }
}
