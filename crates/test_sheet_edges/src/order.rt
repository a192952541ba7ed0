// Two faults at once: the answer is the first in checking order, and of two constraints the first in the sheet.
use crate::show;
use std::io;
use test_edge_sheets::build;

pub fn report(rt: &impl Print) -> io::Result<()> {
    form(rt)?;
    counts_and_form(rt)?;
    counts(rt)?;
    counts_and_fields(rt)?;
    header_in_ticks(rt)?;
    fields_in_ticks(rt)?;
    within_one_constraint(rt)?;
    sheet_order(rt)
}

// A right sheet of 2 bidders, 3 slots and 2 constraints: 37 bytes.
fn right(buf: &mut [u8]) {
    build::base(buf, 2, 3, 2);
}

fn form(rt: &impl Print) -> io::Result<()> {
    let mut buf = [0u8; build::ROOM];
    right(&mut buf);
    build::set_byte(&mut buf, 0, b'Q');
    show::case(rt, b"1 and 2, 8 bytes with a wrong mark", &buf, 8)?;
    build::set_version(&mut buf, 3);
    show::case(rt, b"2 and 3, mark and version wrong", &buf, 37)
}

fn counts_and_form(rt: &impl Print) -> io::Result<()> {
    let mut buf = [0u8; build::ROOM];
    right(&mut buf);
    build::set_bidder_count(&mut buf, 0);
    build::set_version(&mut buf, 3);
    show::case(rt, b"3 and 4, version 3 and no bidder", &buf, 37)?;
    build::set_version(&mut buf, 1);
    build::set_slot_count(&mut buf, 0);
    show::case(rt, b"4 and 5, no bidder and no place", &buf, 37)
}

fn counts(rt: &impl Print) -> io::Result<()> {
    let mut buf = [0u8; build::ROOM];
    right(&mut buf);
    build::set_constraint_count(&mut buf, 1025);
    build::set_slot_count(&mut buf, 17);
    show::case(rt, b"5 and 6, 17 places and 1025 conditions", &buf, 37)?;
    build::set_slot_count(&mut buf, 3);
    show::case(rt, b"6 and 7, 1025 conditions and a wrong length", &buf, 37)
}

fn counts_and_fields(rt: &impl Print) -> io::Result<()> {
    let mut buf = [0u8; build::ROOM];
    right(&mut buf);
    build::set_effect(&mut buf, 1, 0);
    show::case(rt, b"7 and 8, a byte too many and effect 1 is 0", &buf, 38)?;
    right(&mut buf);
    build::set_effect(&mut buf, 3, 0);
    build::set_bid(&mut buf, 1, 1000000001);
    show::case(rt, b"8 and 9, effect 3 is 0 and bid 1 too large", &buf, 37)?;
    right(&mut buf);
    build::set_bid(&mut buf, 2, 1000000001);
    build::set_constraint(&mut buf, 1, [0, 1, 0, 0]);
    show::case(rt, b"9 and 10, bid 2 too large and an owner 0", &buf, 37)
}

// A sheet of version 2 with the same counts and tick 5 has 41 bytes. Its second 1, for a header that is too short, stands between 3 and 4.
fn header_in_ticks(rt: &impl Print) -> io::Result<()> {
    let mut buf = [0u8; build::ROOM];
    build::base_in_ticks(&mut buf, 5, 2, 3, 2);
    build::set_tick(&mut buf, 0);
    show::case(rt, b"26 and 27, a tick of 0 and bids of 5", &buf, 41)?;
    show::case(rt, b"26 and 7, a tick of 0 and a byte too many", &buf, 42)?;
    build::set_constraint_count(&mut buf, 1025);
    show::case(rt, b"6 and 26, 1025 conditions and a tick of 0", &buf, 41)?;
    build::set_bidder_count(&mut buf, 0);
    show::case(
        rt,
        b"1 and 4, 12 bytes of version 2 and no bidder",
        &buf,
        12,
    )?;
    build::set_byte(&mut buf, 0, b'Q');
    show::case(
        rt,
        b"2 and 1, 12 bytes of version 2 with a wrong mark",
        &buf,
        12,
    )?;
    show::case(
        rt,
        b"1 and 2, 8 bytes of version 2 with a wrong mark",
        &buf,
        8,
    )
}

fn fields_in_ticks(rt: &impl Print) -> io::Result<()> {
    let mut buf = [0u8; build::ROOM];
    build::base_in_ticks(&mut buf, 5, 2, 3, 2);
    build::set_bid(&mut buf, 1, 6);
    build::set_constraint(&mut buf, 1, [0, 1, 0, 0]);
    show::case(
        rt,
        b"27 and 10, bid 1 off the tick and an owner 0",
        &buf,
        41,
    )?;
    build::set_bid(&mut buf, 2, 1000000005);
    show::case(
        rt,
        b"9 and 27, bid 1 off the tick and bid 2 too large",
        &buf,
        41,
    )?;
    build::set_effect(&mut buf, 3, 0);
    show::case(
        rt,
        b"8 and 27, effect 3 is 0 and bid 1 off the tick",
        &buf,
        41,
    )
}

// Both constraints of the sheet.
fn two(rt: &impl Print, name: &[u8], first: [u8; 4], second: [u8; 4]) -> io::Result<()> {
    let mut buf = [0u8; build::ROOM];
    right(&mut buf);
    build::set_constraint(&mut buf, 1, first);
    build::set_constraint(&mut buf, 2, second);
    show::case(rt, name, &buf, 37)
}

// Two faults of the first constraint; the second is right.
fn one(rt: &impl Print, name: &[u8], fields: [u8; 4]) -> io::Result<()> {
    two(rt, name, fields, [1, 1, 0, 0])
}

fn within_one_constraint(rt: &impl Print) -> io::Result<()> {
    one(rt, b"10 and 11, owner and other both 3 of 2", [3, 1, 3, 1])?;
    one(rt, b"10 and 12, owner 0, other with no place", [0, 1, 2, 0])?;
    one(rt, b"10 and 13, all four bytes 0", [0, 0, 0, 0])?;
    one(
        rt,
        b"11 and 12, other is owner, with no place",
        [1, 1, 1, 0],
    )
}

// "Conditions are taken in sheet order, each through 10 to 13."
fn sheet_order(rt: &impl Print) -> io::Result<()> {
    two(rt, b"fault 10, then fault 11", [0, 1, 0, 0], [1, 1, 1, 1])?;
    two(rt, b"fault 11, then fault 10", [1, 1, 1, 1], [0, 1, 0, 0])?;
    two(rt, b"fault 11, then fault 12", [1, 1, 1, 1], [1, 1, 2, 0])?;
    two(rt, b"fault 12, then fault 11", [1, 1, 2, 0], [1, 1, 1, 1])?;
    two(rt, b"fault 12, then fault 13", [1, 1, 2, 0], [1, 0, 0, 0])?;
    two(rt, b"fault 13, then fault 12", [1, 0, 0, 0], [1, 1, 2, 0])?;
    two(rt, b"fault 10, then fault 13", [0, 1, 0, 0], [1, 0, 0, 0])?;
    two(rt, b"fault 13, then fault 10", [1, 0, 0, 0], [0, 1, 0, 0])
}
