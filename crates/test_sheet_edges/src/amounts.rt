// Rules 8 and 9: effects and bids, one among many in both versions.
use crate::show;
use std::io;
use test_edge_sheets::{build, line};

pub fn report(rt: &impl Print) -> io::Result<()> {
    only_effect(rt)?;
    first_effect(rt)?;
    last_effect(rt)?;
    effects_in_order(rt)?;
    bids(rt, 1)?;
    bids(rt, 64)
}

// A page of one slot, so that no effect stands before or after.
fn single(rt: &impl Print, value: u32) -> io::Result<()> {
    let mut buf = [0u8; build::ROOM];
    let length = build::base(&mut buf, 1, 1, 0);
    build::set_effect(&mut buf, 1, value);
    line::number(rt, b"effect 1 of 1 is ", u64::from(value))?;
    show::verdict(rt, &buf, length)
}

// Sixteen slots, whose effects are all `rest` but one.
fn effect(rt: &impl Print, slot: u8, value: u32, rest: u32) -> io::Result<()> {
    let mut buf = [0u8; build::ROOM];
    let length = build::base(&mut buf, 1, 16, 0);
    build::set_effects(&mut buf, rest);
    build::set_effect(&mut buf, slot, value);
    line::byte(rt, b"effect ", slot)?;
    line::number(rt, b" of 16 is ", u64::from(value))?;
    line::number(rt, b", the others ", u64::from(rest))?;
    show::verdict(rt, &buf, length)?;
    let longer = build::base_in_ticks(&mut buf, 1, 1, 16, 0);
    build::set_effects(&mut buf, rest);
    build::set_effect(&mut buf, slot, value);
    show::case(rt, b"  in version 2 with tick 1", &buf, longer)
}

// "8. An effect is 0, above 1,000,000 or above the one before it." The low bytes of 65,536 are 0, those of 16,777,217 are 1.
fn only_effect(rt: &impl Print) -> io::Result<()> {
    single(rt, 0)?;
    single(rt, 1)?;
    single(rt, 65536)?;
    single(rt, 1000000)?;
    single(rt, 1000001)?;
    single(rt, 16777217)?;
    single(rt, 4294967295)
}

fn first_effect(rt: &impl Print) -> io::Result<()> {
    effect(rt, 1, 0, 1)?;
    effect(rt, 1, 1, 1)?;
    effect(rt, 1, 1000000, 1)?;
    effect(rt, 1, 1000000, 1000000)?;
    effect(rt, 1, 1000001, 1000000)?;
    effect(rt, 1, 16777217, 1)
}

fn last_effect(rt: &impl Print) -> io::Result<()> {
    effect(rt, 16, 0, 1000)?;
    effect(rt, 16, 1, 1000)?;
    effect(rt, 16, 1000000, 1000000)?;
    effect(rt, 16, 1000001, 1000000)?;
    effect(rt, 16, 1000001, 1000001)?;
    effect(rt, 16, 16777217, 1)
}

// One below, as large as and one above the effect before.
fn effects_in_order(rt: &impl Print) -> io::Result<()> {
    effect(rt, 1, 999, 1000)?;
    effect(rt, 2, 1001, 1000)?;
    effect(rt, 16, 999, 1000)?;
    effect(rt, 16, 1000, 1000)?;
    effect(rt, 16, 1001, 1000)
}

// Sixty-four bidders, whose bids are all 5 but one, in version 2 all 1.
fn bid(rt: &impl Print, bidder: u8, value: u32) -> io::Result<()> {
    let mut buf = [0u8; build::ROOM];
    let length = build::base(&mut buf, 64, 1, 0);
    build::set_bid(&mut buf, bidder, value);
    line::byte(rt, b"bid ", bidder)?;
    line::number(rt, b" of 64 is ", u64::from(value))?;
    show::verdict(rt, &buf, length)?;
    let longer = build::base_in_ticks(&mut buf, 1, 64, 1, 0);
    build::set_bid(&mut buf, bidder, value);
    show::case(rt, b"  in version 2 with tick 1", &buf, longer)
}

// "9. A bid is above 1,000,000,000." The low bytes of 1,073,741,824 are 0.
fn bids(rt: &impl Print, bidder: u8) -> io::Result<()> {
    bid(rt, bidder, 0)?;
    bid(rt, bidder, 1000000000)?;
    bid(rt, bidder, 1000000001)?;
    bid(rt, bidder, 1073741824)?;
    bid(rt, bidder, 4294967295)
}
