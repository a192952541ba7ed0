// The list of floors in hand.
use crate::script;

// Room for a floor more than a page has places, and a few more.
pub const ROOM: usize = 20;

// "floors F F ..", from the first place on, and how many there are; none where the line has no number.
pub fn write(words: &[u8], floors: &mut [u32]) -> usize {
    let count = script::count(words);
    for (floor, index) in floors.iter_mut().zip(1..=count) {
        *floor = script::number(words, index);
    }
    usize::from(count)
}

// The first `length` floors, or all where there are fewer.
pub fn front(floors: &[u32], length: usize) -> &[u32] {
    if length <= floors.len() {
        return &floors[..length];
    }
    floors
}
