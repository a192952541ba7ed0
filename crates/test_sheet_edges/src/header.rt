// Rules 1 to 7: the header's length, the mark, the version, the counts and the sheet's length.
use crate::show;
use std::io;
use test_edge_sheets::{build, line};

pub fn report(rt: &impl Print) -> io::Result<()> {
    header_length(rt)?;
    marks(rt)?;
    versions(rt)?;
    bidder_counts(rt)?;
    slot_counts(rt)?;
    constraint_counts(rt)?;
    lengths(rt)
}

// The first `length` bytes of a sheet of the counts, and zeros after it.
fn cut(
    rt: &impl Print,
    name: &[u8],
    bidders: u8,
    slots: u8,
    constraints: u16,
    length: usize,
) -> io::Result<()> {
    let mut buf = [0u8; build::ROOM];
    build::base(&mut buf, bidders, slots, constraints);
    show::case(rt, name, &buf, length)
}

// The first `length` bytes of a sheet of 1 bidder and 1 slot, which has 17, with one letter of its mark wrong.
fn mark(rt: &impl Print, name: &[u8], at: usize, letter: u8, length: usize) -> io::Result<()> {
    let mut buf = [0u8; build::ROOM];
    build::base(&mut buf, 1, 1, 0);
    build::set_byte(&mut buf, at, letter);
    show::case(rt, name, &buf, length)
}

// "1. The sheet has fewer than 9 bytes."
fn header_length(rt: &impl Print) -> io::Result<()> {
    cut(rt, b"empty sheet", 1, 1, 0, 0)?;
    cut(rt, b"8 bytes of a right header", 1, 1, 0, 8)?;
    cut(rt, b"9 bytes, a right header alone", 1, 1, 0, 9)?;
    mark(rt, b"9 bytes, the mark wrong", 0, b'Q', 9)
}

// "2. The mark is not P A S."
fn marks(rt: &impl Print) -> io::Result<()> {
    mark(rt, b"mark Q A S", 0, b'Q', 17)?;
    mark(rt, b"mark P B S", 1, b'B', 17)?;
    mark(rt, b"mark P A T", 2, b'T', 17)?;
    mark(rt, b"mark p A S", 0, b'p', 17)
}

// A right sheet but for the version.
fn version(rt: &impl Print, number: u16) -> io::Result<()> {
    let mut buf = [0u8; build::ROOM];
    let length = build::base(&mut buf, 1, 1, 0);
    build::set_version(&mut buf, u32::from(number));
    line::number(rt, b"version ", u64::from(number))?;
    show::verdict(rt, &buf, length)
}

// "Refusal 3 is now for versions other than 1 and 2". A single byte of 256, 257, 258 or 512 would read as 1 or 2.
fn versions(rt: &impl Print) -> io::Result<()> {
    version(rt, 0)?;
    version(rt, 1)?;
    version(rt, 3)?;
    version(rt, 256)?;
    version(rt, 257)?;
    version(rt, 258)?;
    version(rt, 512)?;
    version(rt, 65535)
}

// A whole sheet of the counts, in version 1 and in version 2.
fn whole(rt: &impl Print, bidders: u8, slots: u8, constraints: u16) -> io::Result<()> {
    let mut buf = [0u8; build::ROOM];
    let length = build::base(&mut buf, bidders, slots, constraints);
    line::byte(rt, b"bidders ", bidders)?;
    line::byte(rt, b", places ", slots)?;
    line::number(rt, b", conditions ", u64::from(constraints))?;
    show::verdict(rt, &buf, length)?;
    let longer = build::base_in_ticks(&mut buf, 1, bidders, slots, constraints);
    show::case(rt, b"  in version 2 with tick 1", &buf, longer)
}

// "4. n is 0 or above 64."
fn bidder_counts(rt: &impl Print) -> io::Result<()> {
    whole(rt, 0, 1, 0)?;
    whole(rt, 1, 1, 0)?;
    whole(rt, 64, 1, 0)?;
    whole(rt, 65, 1, 0)?;
    whole(rt, 255, 1, 0)
}

// "5. m is 0 or above 16."
fn slot_counts(rt: &impl Print) -> io::Result<()> {
    whole(rt, 1, 0, 0)?;
    whole(rt, 1, 16, 0)?;
    whole(rt, 1, 17, 0)?;
    whole(rt, 1, 255, 0)
}

// "6. c is above 1,024."
fn constraint_counts(rt: &impl Print) -> io::Result<()> {
    whole(rt, 64, 16, 0)?;
    whole(rt, 64, 16, 1)?;
    whole(rt, 64, 16, 1024)?;
    whole(rt, 64, 16, 1025)?;
    whole(rt, 1, 1, 1024)?;
    whole(rt, 1, 1, 1025)?;
    many_constraints(rt)
}

// The largest count that the header can hold, over a sheet of one constraint.
fn many_constraints(rt: &impl Print) -> io::Result<()> {
    let mut buf = [0u8; build::ROOM];
    let length = build::base(&mut buf, 1, 1, 1);
    build::set_constraint_count(&mut buf, 65535);
    show::case(rt, b"conditions 65535 by the header", &buf, length)
}

// "7. The length is not 9 + 4 x (m + n + c)."
fn lengths(rt: &impl Print) -> io::Result<()> {
    cut(rt, b"45 bytes, as the counts ask", 2, 3, 4, 45)?;
    cut(rt, b"a byte too few", 2, 3, 4, 44)?;
    cut(rt, b"a byte too many", 2, 3, 4, 46)?;
    cut(rt, b"a condition too few", 2, 3, 4, 41)?;
    cut(rt, b"a condition too many", 2, 3, 4, 49)
}
