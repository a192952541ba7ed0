// The bytes that a line lists after its first numbers: bars, rivals, members and rival sets.
ghost use Rattle.std.specs.Prelude.{◌+◌, ◌≤◌};

use crate::script;
use test_edge_sheets::build;

// How many numbers a line has after the first ones.
fn count_after(words: &[u8], before: u16) -> u16
    ensures { result + before ≤ 65535 }
{
    script::count(words).saturating_sub(before)
}

// These, and how many there are.
pub fn write(words: &[u8], before: u16, list: &mut [u8]) -> usize {
    let count = count_after(words, before);
    for at in 0..count {
        let value = build::low(script::number(words, before + 1 + at));
        build::set_byte(list, usize::from(at), value);
    }
    usize::from(count)
}

// The bytes from an offset on, or all where there are fewer.
pub fn after(list: &[u8], start: usize) -> &[u8] {
    if start <= list.len() {
        return &list[start..];
    }
    list
}
