// The lines that the program writes.
use std::io;
use test_edge_sheets::line::{end, front, text};

// The end of a line: the number that the check gives the first `length` bytes.
pub fn verdict(rt: &impl Print, buf: &[u8], length: usize) -> io::Result<()> {
    let answer = sheet_check::check(front(buf, length));
    end(rt, u64::from(refusal::number_in(answer)))
}

// A line: a name, and the number that the check gives the first `length` bytes.
pub fn case(rt: &impl Print, name: &[u8], buf: &[u8], length: usize) -> io::Result<()> {
    text(rt, name)?;
    verdict(rt, buf, length)
}
