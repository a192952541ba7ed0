// Version 2: how long its header and its sheet are, and rules 26 and 27.
use crate::show;
use std::io;
use test_edge_sheets::{build, line};

pub fn report(rt: &impl Print) -> io::Result<()> {
    headers(rt, 1)?;
    headers(rt, 2)?;
    headers(rt, 3)?;
    lengths(rt)?;
    ticks(rt)?;
    bids(rt, 1)?;
    bids(rt, 64)?;
    high_bids(rt)
}

// The first `length` bytes of a sheet of 1 bidder and 1 slot with tick 1, which has 21, and the version written last. In version 1 the
// tick stands for the effect, and the effect for the bid.
fn cut(rt: &impl Print, version: u16, length: usize) -> io::Result<()> {
    let mut buf = [0u8; build::ROOM];
    build::base_in_ticks(&mut buf, 1, 1, 1, 0);
    build::set_version(&mut buf, u32::from(version));
    line::number(rt, b"version ", u64::from(version))?;
    line::number(rt, b", bytes ", length as u64)?;
    show::verdict(rt, &buf, length)
}

// "1 also covers a version 2 sheet under 13 bytes, checked after 3", and version 1's "shortest header stays 9 bytes".
fn headers(rt: &impl Print, version: u16) -> io::Result<()> {
    cut(rt, version, 8)?;
    cut(rt, version, 9)?;
    cut(rt, version, 10)?;
    cut(rt, version, 11)?;
    cut(rt, version, 12)?;
    cut(rt, version, 13)
}

// "every length grows by 4"
fn lengths(rt: &impl Print) -> io::Result<()> {
    cut(rt, 1, 17)?;
    cut(rt, 1, 21)?;
    cut(rt, 2, 17)?;
    cut(rt, 2, 20)?;
    cut(rt, 2, 21)?;
    cut(rt, 2, 22)
}

// One slot, and bids that are all one tick but one.
fn bid(rt: &impl Print, tick: u32, bidders: u8, bidder: u8, value: u32) -> io::Result<()> {
    let mut buf = [0u8; build::ROOM];
    let length = build::base_in_ticks(&mut buf, tick, bidders, 1, 0);
    build::set_bid(&mut buf, bidder, value);
    line::number(rt, b"tick ", u64::from(tick))?;
    line::byte(rt, b", bid ", bidder)?;
    line::byte(rt, b" of ", bidders)?;
    line::number(rt, b" is ", u64::from(value))?;
    show::verdict(rt, &buf, length)
}

// "26 for a tick of 0 or above 1,000,000,000". The low bytes of 16,777,216 are 0.
fn ticks(rt: &impl Print) -> io::Result<()> {
    bid(rt, 0, 1, 1, 0)?;
    bid(rt, 0, 1, 1, 5)?;
    bid(rt, 1, 1, 1, 5)?;
    bid(rt, 16777216, 1, 1, 16777216)?;
    bid(rt, 999999999, 1, 1, 999999999)?;
    bid(rt, 1000000000, 1, 1, 0)?;
    bid(rt, 1000000000, 1, 1, 1000000000)?;
    bid(rt, 1000000001, 1, 1, 0)?;
    bid(rt, 4294967295, 1, 1, 0)
}

// "27 for a bid that is no multiple"
fn bids(rt: &impl Print, bidder: u8) -> io::Result<()> {
    bid(rt, 5, 64, bidder, 0)?;
    bid(rt, 5, 64, bidder, 1)?;
    bid(rt, 5, 64, bidder, 4)?;
    bid(rt, 5, 64, bidder, 5)?;
    bid(rt, 5, 64, bidder, 6)?;
    bid(rt, 5, 64, bidder, 10)
}

// A bid above the limit breaks 9, a multiple or not. The limit is no multiple of 3.
fn high_bids(rt: &impl Print) -> io::Result<()> {
    bid(rt, 3, 64, 64, 999999999)?;
    bid(rt, 3, 64, 64, 1000000000)?;
    bid(rt, 3, 64, 64, 1000000001)?;
    bid(rt, 3, 64, 64, 1000000002)?;
    bid(rt, 999999999, 64, 64, 1000000000)?;
    bid(rt, 1000000000, 64, 64, 999999999)?;
    bid(rt, 1000000000, 64, 64, 2000000000)
}
