// Counts that a test program keeps, each at an index of its own, and the lines that it prints of them.
#![tactic(auto)]

ghost use Rattle.std.specs.Prelude.{◌≡◌, if◌then◌else◌, slice_index};
ghost use Rattle.test_tally.specs.Tally.{counted};

use std::io;

// A count, 0 past the end.
pub fn of(tally: &[u64], which: u32) -> u64
    ensures { result ≡ slice_index tally.now which }
{
    tally.get(which as usize).copied().unwrap_or(0)
}

// One more.
#[tactic(auto, using(std::proofs::lemmas::List::set_past), unfolding(crate::specs::Tally::counted))]
pub fn add(tally: &mut [u64], which: u32)
    ensures { tally.new ≡ counted tally.old which }
{
    let at = which as usize;
    if at < tally.len() {
        tally[at] = tally[at].wrapping_add(1);
    }
}

pub fn add_if(tally: &mut [u64], holds: bool, which: u32)
    ensures { tally.new ≡ (if holds then counted tally.old which else tally.old) }
{
    if holds {
        add(tally, which);
    }
}

pub fn text(rt: &impl Print, words: &[u8]) -> io::Result<()> {
    rt.write_all(words)
}

pub fn number(rt: &impl Print, value: u64) -> io::Result<()> {
    rt.print(value)
}

// A line: words, a space and a number.
pub fn line(rt: &impl Print, words: &[u8], value: u64) -> io::Result<()> {
    text(rt, words)?;
    text(rt, b" ")?;
    number(rt, value)?;
    text(rt, b"\n")
}

// A line: words and a count.
pub fn count_line(rt: &impl Print, tally: &[u64], words: &[u8], which: u32) -> io::Result<()> {
    line(rt, words, of(tally, which))
}
