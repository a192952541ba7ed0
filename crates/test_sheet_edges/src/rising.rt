// Rule 28: in version 2 each constraint stands above the one before, in order of owner, own place, other and other's place. Version 1 leaves
// the order free.
use crate::show;
use std::io;
use test_edge_sheets::{build, line};

pub fn report(rt: &impl Print) -> io::Result<()> {
    deciding_fields(rt)?;
    zeros(rt)?;
    largest(rt)?;
    after_thirteen(rt)?;
    before_a_fault(rt)?;
    after_a_fault(rt)?;
    all_in_order(rt)?;
    at_the_first_pair(rt)?;
    at_the_last_pair(rt)
}

// Three constraints among 3 bidders and 4 slots with tick 5, in version 2 and in version 1. The third is the highest of all where it is right.
fn three(
    rt: &impl Print,
    name: &[u8],
    first: [u8; 4],
    second: [u8; 4],
    third: [u8; 4],
) -> io::Result<()> {
    let mut buf = [0u8; build::ROOM];
    let length = build::base_in_ticks(&mut buf, 5, 3, 4, 3);
    set(&mut buf, first, second, third);
    show::case(rt, name, &buf, length)?;
    let shorter = build::base(&mut buf, 3, 4, 3);
    set(&mut buf, first, second, third);
    show::case(rt, b"  in version 1", &buf, shorter)
}

fn set(buf: &mut [u8], first: [u8; 4], second: [u8; 4], third: [u8; 4]) {
    build::set_constraint(buf, 1, first);
    build::set_constraint(buf, 2, second);
    build::set_constraint(buf, 3, third);
}

fn two(rt: &impl Print, name: &[u8], first: [u8; 4], second: [u8; 4]) -> io::Result<()> {
    three(rt, name, first, second, [3, 4, 2, 4])
}

// Two constraints each way round.
fn both(rt: &impl Print, name: &[u8], lower: [u8; 4], higher: [u8; 4]) -> io::Result<()> {
    line::text(rt, name)?;
    two(rt, b" rises", lower, higher)?;
    line::text(rt, name)?;
    two(rt, b" falls", higher, lower)
}

// Each field decides where those before it are the same, whatever those after it.
fn deciding_fields(rt: &impl Print) -> io::Result<()> {
    two(rt, b"the same condition twice", [2, 1, 3, 4], [2, 1, 3, 4])?;
    both(rt, b"owner", [1, 4, 3, 4], [2, 1, 1, 1])?;
    both(rt, b"own place", [2, 1, 3, 4], [2, 2, 1, 1])?;
    both(rt, b"other", [2, 1, 1, 4], [2, 1, 3, 1])?;
    both(rt, b"other's place", [2, 1, 3, 1], [2, 1, 3, 2])
}

// 0 is the lowest in each field that may have it.
fn zeros(rt: &impl Print) -> io::Result<()> {
    both(rt, b"own place from 0", [2, 0, 3, 4], [2, 1, 1, 1])?;
    both(
        rt,
        b"own place from 0, with no other",
        [2, 0, 3, 4],
        [2, 1, 0, 0],
    )?;
    both(rt, b"other from none", [2, 1, 0, 0], [2, 1, 1, 1])?;
    both(rt, b"own place with no other", [2, 1, 0, 0], [2, 2, 0, 0])
}

// The largest numbers in the first of two constraints among 64 bidders and 16 slots.
fn largest(rt: &impl Print) -> io::Result<()> {
    let mut buf = [0u8; build::ROOM];
    let length = build::base_in_ticks(&mut buf, 1, 64, 16, 2);
    build::set_constraint(&mut buf, 1, [63, 16, 64, 16]);
    build::set_constraint(&mut buf, 2, [64, 0, 1, 1]);
    show::case(rt, b"owner 63 of 64 and then owner 64", &buf, length)?;
    build::set_constraint(&mut buf, 1, [64, 0, 63, 16]);
    build::set_constraint(&mut buf, 2, [64, 16, 1, 1]);
    show::case(rt, b"own place 0 and then 16 of 16", &buf, length)?;
    build::set_constraint(&mut buf, 1, [64, 16, 63, 16]);
    show::case(
        rt,
        b"own place 16 of 16 twice, other 63 and then 1",
        &buf,
        length,
    )
}

// "tested for each condition after its 13": a constraint that is not above the one before gives its own fault first.
fn after_thirteen(rt: &impl Print) -> io::Result<()> {
    two(
        rt,
        b"10 and 28, owner 0 after owner 2",
        [2, 1, 0, 0],
        [0, 1, 0, 0],
    )?;
    two(
        rt,
        b"11 and 28, other is owner 1 after owner 2",
        [2, 1, 0, 0],
        [1, 1, 1, 1],
    )?;
    two(
        rt,
        b"12 and 28, other with no place",
        [2, 1, 0, 0],
        [1, 1, 2, 0],
    )?;
    two(
        rt,
        b"13 and 28, nothing forbidden",
        [2, 1, 0, 0],
        [1, 0, 0, 0],
    )
}

// One out of order stands before a constraint with a fault.
fn before_a_fault(rt: &impl Print) -> io::Result<()> {
    three(
        rt,
        b"28, then fault 10",
        [2, 1, 0, 0],
        [1, 1, 0, 0],
        [0, 1, 0, 0],
    )?;
    three(
        rt,
        b"28, then fault 11",
        [2, 1, 0, 0],
        [1, 1, 0, 0],
        [3, 1, 3, 1],
    )?;
    three(
        rt,
        b"28, then fault 12",
        [2, 1, 0, 0],
        [2, 1, 0, 0],
        [3, 1, 2, 0],
    )?;
    three(
        rt,
        b"28, then fault 13",
        [2, 1, 0, 0],
        [1, 1, 0, 0],
        [3, 0, 0, 0],
    )
}

// One out of order stands after a constraint with a fault.
fn after_a_fault(rt: &impl Print) -> io::Result<()> {
    three(
        rt,
        b"fault 10, then 28",
        [0, 1, 0, 0],
        [2, 1, 0, 0],
        [1, 1, 0, 0],
    )?;
    three(
        rt,
        b"fault 11, then 28",
        [2, 1, 2, 1],
        [2, 1, 0, 0],
        [1, 1, 0, 0],
    )?;
    three(
        rt,
        b"fault 12, then 28",
        [1, 1, 2, 0],
        [2, 1, 0, 0],
        [2, 1, 0, 0],
    )?;
    three(
        rt,
        b"fault 13, then 28",
        [2, 0, 0, 0],
        [1, 1, 0, 0],
        [1, 1, 0, 0],
    )?;
    bid_and_order(rt)
}

fn bid_and_order(rt: &impl Print) -> io::Result<()> {
    let mut buf = [0u8; build::ROOM];
    let length = build::base_in_ticks(&mut buf, 5, 3, 4, 2);
    build::set_constraint(&mut buf, 2, [1, 1, 0, 0]);
    show::case(rt, b"28, condition 2 as condition 1", &buf, length)?;
    build::set_bid(&mut buf, 3, 6);
    show::case(rt, b"27 and 28, bid 3 off the tick too", &buf, length)
}

// Among 64 bidders and 16 slots, 1,024 constraints that rise from (1,1,0,0), and then the constraint given changed.
fn one_of_all(rt: &impl Print, name: &[u8], constraint: u16, fields: [u8; 4]) -> io::Result<()> {
    let mut buf = [0u8; build::ROOM];
    let length = build::base_in_ticks(&mut buf, 1, 64, 16, 1024);
    build::set_constraint(&mut buf, constraint, fields);
    line::number(rt, b"condition ", u64::from(constraint))?;
    show::case(rt, name, &buf, length)
}

// The 1,024 are (1,1,0,0), (1,1,2,1) to (1,1,64,16), (1,2,0,0) and (1,2,2,1) to (1,2,2,14).
fn all_in_order(rt: &impl Print) -> io::Result<()> {
    one_of_all(rt, b" of 1024 as it was", 1, [1, 1, 0, 0])?;
    one_of_all(rt, b" of 1024 as it was", 1009, [1, 1, 64, 16])?;
    one_of_all(rt, b" of 1024 as it was", 1010, [1, 2, 0, 0])?;
    one_of_all(rt, b" of 1024 as it was", 1024, [1, 2, 2, 14])
}

fn at_the_first_pair(rt: &impl Print) -> io::Result<()> {
    one_of_all(rt, b" of 1024 as the next", 1, [1, 1, 2, 1])?;
    one_of_all(rt, b" of 1024 above the next", 1, [1, 1, 2, 2])?;
    one_of_all(rt, b" of 1024 lower", 1, [1, 0, 64, 16])?;
    one_of_all(rt, b" of 1024 as the one before", 2, [1, 1, 0, 0])
}

fn at_the_last_pair(rt: &impl Print) -> io::Result<()> {
    one_of_all(rt, b" of 1024 as the one before", 1024, [1, 2, 2, 13])?;
    one_of_all(rt, b" of 1024 below the one before", 1024, [1, 2, 2, 12])?;
    one_of_all(
        rt,
        b" of 1024 with a higher owner than the last",
        1023,
        [2, 1, 0, 0],
    )?;
    one_of_all(rt, b" of 1024 higher", 1024, [64, 16, 63, 16])
}
