// What is read of a small and a full sheet of each version, and that nothing is of a refused one. The bytes of each longer number differ, so
// that their order shows.
use sheet::{Kind, Round};
use std::io;
use test_edge_sheets::{build, line};

// A tick, which each bid of version 2 here is a multiple of.
const TICK: u32 = 0x01020304;

pub fn report(rt: &impl Print) -> io::Result<()> {
    refused(rt)?;
    small(rt)?;
    small_in_ticks(rt)?;
    full(rt)
}

// A round's counts and its tick.
fn counts(rt: &impl Print, round: Round) -> io::Result<()> {
    line::number(rt, b"  bidders ", round.bidders as u64)?;
    line::number(rt, b", places ", round.slots as u64)?;
    line::number(rt, b", conditions used ", round.used as u64)?;
    line::number(rt, b", tick ", u64::from(round.tick))?;
    line::text(rt, b"\n")
}

// An element of an array: what it is, its index and its value.
fn amount(rt: &impl Print, name: &[u8], index: usize, value: u32) -> io::Result<()> {
    line::number(rt, name, index as u64)?;
    line::end(rt, u64::from(value))
}

// The effect at an index.
fn effect(rt: &impl Print, round: Round, index: usize) -> io::Result<()> {
    let effects = round.effects;
    if index < 16 {
        amount(rt, b"  effect at ", index, effects[index])?;
    }
    Ok(())
}

// The bid at an index.
fn bid(rt: &impl Print, round: Round, index: usize) -> io::Result<()> {
    let bids = round.bids;
    if index < 64 {
        amount(rt, b"  bid at ", index, bids[index])?;
    }
    Ok(())
}

// What a constraint forbids its owner.
fn kind_parts(rt: &impl Print, kind: Kind) -> io::Result<()> {
    match kind {
        Kind::OwnSlot(own) => {
            line::byte(rt, b", own place ", own.0)?;
        }
        Kind::OtherSlot(other, others) => {
            line::number(rt, b", other ", other.0 as u64)?;
            line::byte(rt, b" at place ", others.0)?;
        }
        Kind::Pair(own, other, others) => {
            line::byte(rt, b", own place ", own.0)?;
            line::number(rt, b", other ", other.0 as u64)?;
            line::byte(rt, b" at place ", others.0)?;
        }
    }
    Ok(())
}

// The constraint at an index.
fn constraint(rt: &impl Print, round: Round, index: usize) -> io::Result<()> {
    let constraints = round.constraints;
    if index < 1024 {
        let found = constraints[index];
        let owner = found.owner;
        let kind = found.kind;
        line::number(rt, b"  condition at ", index as u64)?;
        line::number(rt, b": owner ", owner.0 as u64)?;
        kind_parts(rt, kind)?;
        line::text(rt, b"\n")?;
    }
    Ok(())
}

// The effects: the last one, and where the sheet leaves some blank, before it those up to the first blank one.
fn effects(rt: &impl Print, round: Round) -> io::Result<()> {
    if round.slots < 16 {
        effect(rt, round, 0)?;
        effect(rt, round, 1)?;
        effect(rt, round, 2)?;
        effect(rt, round, 3)?;
    }
    effect(rt, round, 15)
}

// The bids: the last one, and where the sheet leaves some blank, before it the first, the last that is set and the first blank one.
fn bids(rt: &impl Print, round: Round) -> io::Result<()> {
    if round.bidders < 64 {
        bid(rt, round, 0)?;
        bid(rt, round, 5)?;
        bid(rt, round, 6)?;
    }
    bid(rt, round, 63)
}

// The constraints: the last one, and where the sheet leaves some blank, before it one of each kind, the last that is set and the first
// blank one.
fn constraints(rt: &impl Print, round: Round) -> io::Result<()> {
    if round.used < 1024 {
        constraint(rt, round, 0)?;
        constraint(rt, round, 1)?;
        constraint(rt, round, 2)?;
        constraint(rt, round, 257)?;
        constraint(rt, round, 258)?;
    }
    constraint(rt, round, 1023)
}

// A line with the number that the check gives the first `length` bytes, and where it accepts them, what is read of them.
fn reading(rt: &impl Print, name: &[u8], buf: &[u8], length: usize) -> io::Result<()> {
    let sheet = line::front(buf, length);
    line::text(rt, name)?;
    if let Err(refusal) = sheet_check::check(sheet) {
        return line::end(rt, u64::from(refusal.number()));
    }
    line::end(rt, 0)?;
    let round = sheet_read::accepted_round(sheet);
    counts(rt, round)?;
    effects(rt, round)?;
    bids(rt, round)?;
    constraints(rt, round)
}

// Six bidders, three slots and 0x0102 constraints, with a bid out of range.
fn refused(rt: &impl Print) -> io::Result<()> {
    let mut buf = [0u8; build::ROOM];
    let length = build::base(&mut buf, 6, 3, 0x0102);
    build::set_bid(&mut buf, 6, 1000000001);
    reading(rt, b"reading a refused sheet", &buf, length)
}

// On a sheet of six bidders, three slots and 0x0102 constraints: the effects, the first and the last bid.
fn set_small(buf: &mut [u8], first_bid: u32, last_bid: u32) {
    build::set_effect(buf, 1, 0x010203);
    build::set_effect(buf, 2, 0x0201);
    build::set_effect(buf, 3, 0x0102);
    build::set_bid(buf, 1, first_bid);
    build::set_bid(buf, 6, last_bid);
}

// A constraint of each kind and the last one, in any order.
fn small(rt: &impl Print) -> io::Result<()> {
    let mut buf = [0u8; build::ROOM];
    let length = build::base(&mut buf, 6, 3, 0x0102);
    set_small(&mut buf, 0x01020304, 0x04030201);
    build::set_constraint(&mut buf, 1, [2, 3, 4, 1]);
    build::set_constraint(&mut buf, 2, [3, 0, 1, 2]);
    build::set_constraint(&mut buf, 3, [4, 2, 0, 0]);
    build::set_constraint(&mut buf, 0x0102, [5, 1, 4, 3]);
    reading(rt, b"reading a small sheet", &buf, length)
}

// The same in version 2, where they rise.
fn small_in_ticks(rt: &impl Print) -> io::Result<()> {
    let mut buf = [0u8; build::ROOM];
    let length = build::base_in_ticks(&mut buf, TICK, 6, 3, 0x0102);
    set_small(&mut buf, 3 * TICK, 57 * TICK);
    build::set_constraint(&mut buf, 1, [1, 0, 4, 2]);
    build::set_constraint(&mut buf, 2, [1, 2, 0, 0]);
    build::set_constraint(&mut buf, 3, [1, 3, 5, 2]);
    build::rise(&mut buf, 4);
    build::set_constraint(&mut buf, 0x0102, [6, 1, 4, 3]);
    reading(rt, b"reading a small sheet of version 2", &buf, length)
}

// On a sheet of the largest counts: the last field of each kind.
fn set_full(buf: &mut [u8], last_bid: u32) {
    build::set_effect(buf, 16, 0x0102);
    build::set_bid(buf, 64, last_bid);
    build::set_constraint(buf, 1024, [64, 16, 63, 15]);
}

fn full(rt: &impl Print) -> io::Result<()> {
    let mut buf = [0u8; build::ROOM];
    let length = build::base(&mut buf, 64, 16, 1024);
    set_full(&mut buf, 0x01020304);
    reading(rt, b"reading a full sheet", &buf, length)?;
    let longer = build::base_in_ticks(&mut buf, TICK, 64, 16, 1024);
    set_full(&mut buf, 57 * TICK);
    reading(rt, b"reading a full sheet of version 2", &buf, longer)
}
