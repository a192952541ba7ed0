// The numbers of a line of the script.

// The byte at an index, 0 past the end.
fn letter(words: &[u8], at: usize) -> u8 {
    if at < words.len() { words[at] } else { 0 }
}

// Whether a number starts at an index: a digit with no digit before it.
fn starts(words: &[u8], at: usize) -> bool {
    letter(words, at).is_ascii_digit() && (at == 0 || !letter(words, at - 1).is_ascii_digit())
}

// How many numbers have started once the letter at an index is read too.
fn started(words: &[u8], at: usize, before: u16) -> u16 {
    if starts(words, at) {
        before.saturating_add(1)
    } else {
        before
    }
}

// How many numbers the line has.
pub fn count(words: &[u8]) -> u16 {
    let mut seen: u16 = 0;
    for at in 0..words.len() {
        seen = started(words, at, seen);
    }
    seen
}

// A number with one more letter read: a digit makes it longer, and any other letter leaves it.
fn longer(value: u64, letter: u8) -> u64 {
    if letter.is_ascii_digit() {
        return value % 1000000000 * 10 + u64::from(letter % 16);
    }
    value
}

// One of the line's numbers, counted from 1; 0 where it has fewer.
pub fn number(words: &[u8], index: u16) -> u32 {
    let mut value: u64 = 0;
    let mut seen: u16 = 0;
    for (at, letter) in words.iter().enumerate() {
        seen = started(words, at, seen);
        if seen == index {
            value = longer(value, *letter);
        }
    }
    (value % 4294967296) as u32
}
