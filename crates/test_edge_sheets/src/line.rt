// The parts of a printed line.
use std::io;

pub fn text(rt: &impl Print, words: &[u8]) -> io::Result<()> {
    rt.write_all(words)
}

// Words and a number.
pub fn number(rt: &impl Print, words: &[u8], value: u64) -> io::Result<()> {
    rt.write_all(words)?;
    rt.print(value)
}

// Words and a small number.
pub fn byte(rt: &impl Print, words: &[u8], value: u8) -> io::Result<()> {
    number(rt, words, u64::from(value))
}

// The end of a line: its number.
pub fn end(rt: &impl Print, value: u64) -> io::Result<()> {
    number(rt, b": ", value)?;
    text(rt, b"\n")
}

// The first `length` bytes, or all where there are fewer.
pub fn front(buf: &[u8], length: usize) -> &[u8] {
    buf.get(..length).unwrap_or(buf)
}
