// Rules 10 to 13: constraints, written as document 01 writes them: owner, own place, other, other's place.
use crate::show;
use std::io;
use test_edge_sheets::{build, line};

pub fn report(rt: &impl Print) -> io::Result<()> {
    good(rt)?;
    out_of_range(rt)?;
    more_bidders_than_slots(rt)?;
    other_parts(rt)?;
    each_rule_at(rt, 1)?;
    each_rule_at(rt, 1024)
}

// The one constraint of a sheet, in version 1 and in version 2.
fn alone(rt: &impl Print, name: &[u8], bidders: u8, slots: u8, fields: [u8; 4]) -> io::Result<()> {
    let mut buf = [0u8; build::ROOM];
    let length = build::base(&mut buf, bidders, slots, 1);
    build::set_constraint(&mut buf, 1, fields);
    show::case(rt, name, &buf, length)?;
    let longer = build::base_in_ticks(&mut buf, 1, bidders, slots, 1);
    build::set_constraint(&mut buf, 1, fields);
    show::case(rt, b"  in version 2 with tick 1", &buf, longer)
}

// Among 3 bidders and 4 slots, so that a slot may have a number that no bidder has.
fn among(rt: &impl Print, name: &[u8], fields: [u8; 4]) -> io::Result<()> {
    alone(rt, name, 3, 4, fields)
}

fn good(rt: &impl Print) -> io::Result<()> {
    among(rt, b"owner 3 of 3", [3, 1, 0, 0])?;
    among(rt, b"own place 4 of 4", [1, 4, 0, 0])?;
    among(rt, b"other 3 of 3", [1, 1, 3, 1])?;
    among(rt, b"other's place 4 of 4", [1, 1, 2, 4])?;
    among(rt, b"a pair naming the same place twice", [1, 2, 2, 2])?;
    among(rt, b"own place 0 with an other", [1, 0, 2, 1])?;
    among(rt, b"own place alone", [2, 1, 0, 0])
}

// "10. A condition has owner 0, owner or other bidder above n, or a place above m."
fn out_of_range(rt: &impl Print) -> io::Result<()> {
    among(rt, b"owner 0", [0, 1, 0, 0])?;
    among(rt, b"owner 4 of 3", [4, 1, 0, 0])?;
    among(rt, b"other 4 of 3", [1, 1, 4, 1])?;
    among(rt, b"own place 5 of 4", [1, 5, 0, 0])?;
    among(rt, b"other's place 5 of 4", [1, 1, 2, 5])
}

// Among 4 bidders and 3 slots, so that a bidder may have a number that no slot has.
fn more_bidders_than_slots(rt: &impl Print) -> io::Result<()> {
    alone(rt, b"owner 4 of 4, places 3", 4, 3, [4, 1, 0, 0])?;
    alone(rt, b"other 4 of 4, places 3", 4, 3, [1, 1, 4, 1])?;
    alone(rt, b"own place 4 of 3, bidders 4", 4, 3, [1, 4, 0, 0])?;
    alone(rt, b"other's place 4 of 3, bidders 4", 4, 3, [1, 1, 2, 4])
}

// "11. A condition's other bidder is its owner."
// "12. Just one of other bidder and other's place is 0."
// "13. Own place, other bidder and other's place are all 0."
fn other_parts(rt: &impl Print) -> io::Result<()> {
    among(rt, b"other is the owner", [2, 1, 2, 3])?;
    among(rt, b"other is the owner, own place 0", [2, 0, 2, 3])?;
    among(rt, b"other without other's place", [1, 1, 2, 0])?;
    among(rt, b"other's place without other", [1, 1, 0, 2])?;
    among(
        rt,
        b"other without other's place, own place 0",
        [1, 0, 2, 0],
    )?;
    among(
        rt,
        b"other's place without other, own place 0",
        [1, 0, 0, 2],
    )?;
    among(
        rt,
        b"own place, other and other's place all 0",
        [1, 0, 0, 0],
    )
}

// One of 1,024 constraints, among 64 bidders and 16 slots.
fn one_of_all(rt: &impl Print, name: &[u8], constraint: u16, fields: [u8; 4]) -> io::Result<()> {
    let mut buf = [0u8; build::ROOM];
    let length = build::base(&mut buf, 64, 16, 1024);
    build::set_constraint(&mut buf, constraint, fields);
    line::number(rt, b"condition ", u64::from(constraint))?;
    show::case(rt, name, &buf, length)
}

// The largest numbers that pass, and rules 10 to 13.
fn each_rule_at(rt: &impl Print, constraint: u16) -> io::Result<()> {
    one_of_all(
        rt,
        b" of 1024 has the largest numbers",
        constraint,
        [64, 16, 63, 16],
    )?;
    one_of_all(rt, b" of 1024 has owner 65", constraint, [65, 1, 0, 0])?;
    one_of_all(
        rt,
        b" of 1024 has its owner as other",
        constraint,
        [64, 1, 64, 1],
    )?;
    one_of_all(
        rt,
        b" of 1024 gives its other no place",
        constraint,
        [64, 1, 63, 0],
    )?;
    one_of_all(rt, b" of 1024 forbids nothing", constraint, [64, 0, 0, 0])
}
