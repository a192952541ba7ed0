// How an answer is written behind its call.
ghost use Rattle.std.specs.Prelude.{◌≤◌};

use std::io;
use test_edge_sheets::line;

// What is lent for a result or an answer holds this before a call: no bidder's number, no byte of a price here, and neither yes nor no.
pub const UNTOUCHED: u8 = 165;

pub const UNTOUCHED_GAIN: i64 = 165;

pub const UNTOUCHED_TOTAL: u64 = 165;

pub const UNTOUCHED_PLACE: usize = 165165;

pub const UNTOUCHED_COUNT: u32 = 165165;

// The number that the call returns.
pub fn number(rt: &impl Print, refusal: u32) -> io::Result<()> {
    line::number(rt, b": ", u64::from(refusal))
}

// Whether a thing was left as it was.
pub fn kept(rt: &impl Print, thing: &[u8], same: bool) -> io::Result<()> {
    line::text(rt, thing)?;
    if same {
        return line::text(rt, b" unchanged");
    }
    line::text(rt, b" changed")
}

// Whether the bytes of a buffer from an offset on were left as they were.
pub fn untouched(rt: &impl Print, thing: &[u8], buffer: &[u8], from: usize) -> io::Result<()> {
    let same = buffer.iter().skip(from).all(|byte| *byte == UNTOUCHED);
    kept(rt, thing, same)
}

// A bidder of the page, in document 01's words.
fn bidder(rt: &impl Print, number: u8) -> io::Result<()> {
    if number == 0 {
        return line::text(rt, b"empty");
    }
    line::byte(rt, b"", number)
}

// What stands before an entry of a list.
fn separate(rt: &impl Print, index: usize) -> io::Result<()> {
    if index == 0 {
        return line::text(rt, b" ");
    }
    line::text(rt, b", ")
}

// "page": the bidders by slot, whose numbers stand `width` bytes apart.
pub fn page(rt: &impl Print, buffer: &[u8], slots: u8, width: usize) -> io::Result<()>
    requires { width ≤ 5 }
{
    line::text(rt, b"; page")?;
    for slot in 0..usize::from(slots) {
        let at = width * slot;
        if buffer.len() <= at {
            return Ok(());
        }
        separate(rt, slot)?;
        bidder(rt, buffer[at])?;
    }
    Ok(())
}

// The four bytes of a price after its bidder's, which stands at an offset.
fn price(buffer: &[u8], at: usize) -> u32 {
    if buffer.len() < 5 {
        return 0;
    }
    if at <= buffer.len() - 5 {
        return basis::word32(buffer, at + 1);
    }
    0
}

// "prices", by slot.
pub fn prices(rt: &impl Print, buffer: &[u8], slots: u8) -> io::Result<()> {
    line::text(rt, b"; prices")?;
    for slot in 0..usize::from(slots) {
        let at = 5 * slot;
        if buffer.len() <= at {
            return Ok(());
        }
        separate(rt, slot)?;
        line::number(rt, b"", u64::from(price(buffer, at)))?;
    }
    Ok(())
}

// Whether a list is downward monotonic, or members can share a page: 1 for yes, 0 for no.
pub fn yes_or_no(rt: &impl Print, yes: u8) -> io::Result<()> {
    if yes == 1 {
        return line::text(rt, b"; yes");
    }
    if yes == 0 {
        return line::text(rt, b"; no");
    }
    line::text(rt, b"; neither yes nor no")
}

pub fn signed(rt: &impl Print, value: i64) -> io::Result<()> {
    if value < 0 {
        line::text(rt, b"-")?;
    }
    line::number(rt, b"", value.unsigned_abs())
}

// A byte of a part, 0 past its end.
fn byte(part: &[u8], at: usize) -> u8 {
    if at < part.len() { part[at] } else { 0 }
}

// A condition, by its four bytes.
fn condition(rt: &impl Print, bytes: &[u8]) -> io::Result<()> {
    line::byte(rt, b" (", byte(bytes, 0))?;
    line::byte(rt, b",", byte(bytes, 1))?;
    line::byte(rt, b",", byte(bytes, 2))?;
    line::byte(rt, b",", byte(bytes, 3))?;
    line::text(rt, b")")
}

// The part that is handed back: its bytes, and its first and its last condition.
pub fn conditions(rt: &impl Print, part: &[u8]) -> io::Result<()> {
    let length = part.len();
    line::number(rt, b"; part of ", length as u64)?;
    if length < 4 {
        return Ok(());
    }
    line::text(rt, b":")?;
    condition(rt, &part[..4])?;
    line::text(rt, b" to")?;
    condition(rt, &part[length - 4..])
}

// Two bytes, low byte first.
fn half(part: &[u8], at: usize) -> u64
    requires { at ≤ 65536 }
    ensures { result ≤ 65535 }
{
    u64::from(byte(part, at)) + 256 * u64::from(byte(part, at + 1))
}

// Numbers of four bytes, low byte first, from an offset on.
fn words(rt: &impl Print, part: &[u8], from: usize, count: u8) -> io::Result<()>
    requires { from ≤ 2000 }
{
    for index in 0..usize::from(count) {
        let at = from + 4 * index;
        separate(rt, index)?;
        line::number(rt, b"", half(part, at) + 65536 * half(part, at + 2))?;
    }
    Ok(())
}

fn each_condition(rt: &impl Print, part: &[u8]) -> io::Result<()> {
    for bytes in part.chunks(4) {
        condition(rt, bytes)?;
    }
    Ok(())
}

// The conditions from an offset on: where they are few each, and else the first and the last.
pub fn last_part(rt: &impl Print, part: &[u8], from: usize) -> io::Result<()> {
    if part.len() < from {
        return line::text(rt, b"; too short");
    }
    let rest = &part[from..];
    if rest.len() <= 64 {
        line::text(rt, b"; conditions")?;
        return each_condition(rt, rest);
    }
    conditions(rt, rest)
}

// What a call leaves that writes an owner's conditions and how many they are.
pub fn terms(rt: &impl Print, refusal: u32, count: u32, buffer: &[u8]) -> io::Result<()> {
    number(rt, refusal)?;
    if refusal != 0 {
        untouched(rt, b"; every byte", buffer, 0)?;
        return kept(rt, b", count", count == UNTOUCHED_COUNT);
    }
    line::number(rt, b"; count ", u64::from(count))?;
    let bytes = 4 * count as usize;
    last_part(rt, line::front(buffer, bytes), 0)?;
    untouched(rt, b"; later bytes", buffer, bytes)
}

// "order": the bytes up to the first that was left as it was, and how many they are.
pub fn order(rt: &impl Print, buffer: &[u8]) -> io::Result<usize> {
    line::text(rt, b"; order")?;
    for (at, member) in buffer.iter().enumerate() {
        if *member == UNTOUCHED {
            return Ok(at);
        }
        separate(rt, at)?;
        line::byte(rt, b"", *member)?;
    }
    Ok(buffer.len())
}

// The mark, the version, n, m, c and the tick.
fn header(rt: &impl Print, part: &[u8]) -> io::Result<()> {
    line::text(rt, b"; ")?;
    line::text(rt, line::front(part, 3))?;
    line::number(rt, b" version ", half(part, 3))?;
    line::byte(rt, b", n ", byte(part, 5))?;
    line::byte(rt, b", m ", byte(part, 6))?;
    line::number(rt, b", c ", half(part, 7))?;
    line::text(rt, b", tick")?;
    words(rt, part, 9, 1)
}

// A written sheet, of version 2.
pub fn sheet(rt: &impl Print, part: &[u8]) -> io::Result<()> {
    let bidders = byte(part, 5);
    let slots = byte(part, 6);
    let bids = 13 + 4 * usize::from(slots);
    let rest = bids + 4 * usize::from(bidders);
    header(rt, part)?;
    line::text(rt, b"; effects")?;
    words(rt, part, 13, slots)?;
    line::text(rt, b"; bids")?;
    words(rt, part, bids, bidders)?;
    last_part(rt, part, rest)
}
