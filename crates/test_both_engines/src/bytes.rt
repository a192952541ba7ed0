// Buffers with random bytes around what is lent, and how they are compared afterwards.
ghost use Rattle.std.specs.Prelude.{◌≡◌};
ghost use Rattle.test_both_engines.specs.Bytes.{same_bytes, in_part, untouched_bytes};

use test_chance::{floor_lists, number, parts};

// Random bytes.
pub fn fill(state: &mut u64, to: &mut [u8], count: usize) {
    for at in (0..count).rev() {
        let value = number::up_to(state, 255);
        parts::set_byte(to, at, value);
    }
}

// The first bytes of another buffer, from a start on.
pub fn paste(from: &[u8], to: &mut [u8], start: u32, count: u32) {
    let start = start as usize;
    for at in 0..count as usize {
        parts::set_byte(to, start + at, parts::byte(from, at));
    }
}

// Whether so many bytes are the same in both.
pub fn same(first: &[u8], second: &[u8], count: usize) -> bool
    ensures { result ≡ same_bytes first.now second.now count }
{
    for at in 0..count {
        if parts::byte(first, at) != parts::byte(second, at) {
            return false;
        }
    }
    true
}

// Whether so many floors are the same in both.
pub fn same_floors(first: &[u32], second: &[u32], count: u32) -> bool
    ensures { result ≡ same_bytes first.now second.now count }
{
    for at in 0..count {
        if floor_lists::of(first, at) != floor_lists::of(second, at) {
            return false;
        }
    }
    true
}

// Whether a byte lies in the part from the start on that may have been written.
#[tactic(auto, unfolding(crate::specs::Bytes::in_part))]
fn within(at: usize, start: u32, written: u32) -> bool
    ensures { result ≡ in_part start written at }
{
    let start = start as usize;
    start <= at && at < start + written as usize
}

// Whether each byte but those that may have been written is what it was.
pub fn untouched(after: &[u8], before: &[u8], start: u32, written: u32) -> bool
    ensures { result ≡ untouched_bytes after.now before.now start written }
{
    for at in 0..before.len() {
        if parts::byte(after, at) != parts::byte(before, at) && !within(at, start, written) {
            return false;
        }
    }
    true
}
