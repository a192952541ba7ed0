// Reads one field of a sheet where it stands, by document 01's table and document 02's version 2 alone, and one of a list of floors.
// Every reader is total: a byte that the sheet does not have reads as 0, so that no caller has to know the sheet's length.
ghost use Rattle.std.specs.Prelude.{◌≡◌, ◌<◌};

// "version, 1", and document 02's "Sheet version 2".
pub const FIRST_VERSION: u32 = 1;

pub const TICK_VERSION: u32 = 2;

// The bytes before the first effect in version 1: "its shortest header stays 9 bytes".
pub const SHORTEST_HEADER: usize = 9;
// The same in version 2: it "has a 4-byte tick after the condition count, so every length grows by 4".
pub const LONGER_HEADER: usize = 13;
// "version 1 means tick 1"
const FIRST_TICK: u32 = 1;
// "n, bidders, 1 to 64"
pub const MAX_BIDDERS: u8 = 64;
// "m, places, 1 to 16"
pub const MAX_SLOTS: u8 = 16;
// "c, conditions, 0 to 1,024"
pub const MAX_CONSTRAINTS: usize = 1024;
// "a tick of 0 or above 1,000,000,000"
pub const MAX_TICK: u32 = 1000000000;
// "effect of places 1 to m, 1 to 1,000,000"
pub const MAX_EFFECT: u32 = 1000000;
// "bid of bidders 1 to n, 0 to 1,000,000,000"
pub const MAX_BID: u32 = 1000000000;
// "31 for a floor above 1,000,000,000"
pub const MAX_FLOOR: u32 = 1000000000;

// Where each byte of a constraint ("condition") stands: "owner, own place, other bidder, other's place, one byte each".
pub const OWNER: usize = 0;

pub const OWN_SLOT: usize = 1;

pub const OTHER: usize = 2;

pub const OTHER_SLOT: usize = 3;

pub fn byte(sheet: &[u8], at: usize) -> u8 {
    if at < sheet.len() { sheet[at] } else { 0 }
}

// Two bytes, "low byte first".
fn half(sheet: &[u8], at: usize) -> u32
    ensures { result < 65536 }
{
    if sheet.len() <= at {
        return 0;
    }
    u32::from(byte(sheet, at)) + 256 * u32::from(byte(sheet, at + 1))
}

// Four bytes, "low byte first".
fn word(sheet: &[u8], at: usize) -> u32 {
    if sheet.len() <= at {
        return 0;
    }
    half(sheet, at) + 65536 * half(sheet, at + 2)
}

// "version"
pub fn version(sheet: &[u8]) -> u32 {
    half(sheet, 3)
}

// "n, bidders"
pub fn bidder_count(sheet: &[u8]) -> u8 {
    byte(sheet, 5)
}

// "m, places"
pub fn slot_count(sheet: &[u8]) -> u8 {
    byte(sheet, 6)
}

// "c, conditions"
pub fn constraint_count(sheet: &[u8]) -> usize
    ensures { result < 65536 }
{
    half(sheet, 7) as usize
}

// The bytes before the first effect.
pub fn header(sheet: &[u8]) -> usize
    ensures { result < 14 }
{
    if version(sheet) == TICK_VERSION {
        return LONGER_HEADER;
    }
    SHORTEST_HEADER
}

// The step of the bids.
pub fn tick(sheet: &[u8]) -> u32 {
    if version(sheet) == TICK_VERSION {
        return word(sheet, SHORTEST_HEADER);
    }
    FIRST_TICK
}

// "Length is exactly 9 + 4 × (m + n + c)", and 4 more in version 2.
pub fn length(sheet: &[u8]) -> usize {
    header(sheet)
        + 4 * (usize::from(slot_count(sheet))
            + usize::from(bidder_count(sheet))
            + constraint_count(sheet))
}

// The effect of a slot ("place"), counted from 1.
pub fn effect(sheet: &[u8], slot: u8) -> u32 {
    if slot == 0 {
        return 0;
    }
    word(sheet, header(sheet) + 4 * (usize::from(slot) - 1))
}

// The bid of a bidder, counted from 1.
pub fn bid(sheet: &[u8], bidder: u8) -> u32 {
    if bidder == 0 {
        return 0;
    }
    word(
        sheet,
        header(sheet) + 4 * (usize::from(slot_count(sheet)) + usize::from(bidder) - 1),
    )
}

// The floor under a slot, counted from 1, of a list of them; 0 where the list has none for it.
pub fn floor(floors: &[u32], slot: u8) -> u32 {
    if slot == 0 {
        return 0;
    }
    let at = usize::from(slot) - 1;
    if at < floors.len() { floors[at] } else { 0 }
}

// How many bytes of the sheet stand before a constraint, counted from 0; for the count of them, all that its counts ask for.
pub fn before_constraint(sheet: &[u8], index: usize) -> usize
    requires { index < 65536 }
{
    header(sheet) + 4 * (usize::from(slot_count(sheet)) + usize::from(bidder_count(sheet)) + index)
}

// The bytes of all constraints, four for each; of a sheet that is shorter than its counts say, those that it has.
pub fn constraints(sheet: &[u8]) -> &[u8] {
    let start = before_constraint(sheet, 0);
    if sheet.len() <= start {
        return &sheet[..0];
    }
    let rest = &sheet[start..];
    let length = 4 * constraint_count(sheet);
    if rest.len() <= length {
        return rest;
    }
    &rest[..length]
}

// The four bytes of a constraint, counted from 0.
pub fn constraint(sheet: &[u8], index: usize) -> [u8; 4] {
    if sheet.len() <= index {
        return [0, 0, 0, 0];
    }
    four(
        sheet,
        usize::from(slot_count(sheet)) + usize::from(bidder_count(sheet)) + index,
    )
}

// The four bytes of a field, of those after the header, counted from 0.
fn four(sheet: &[u8], field: usize) -> [u8; 4] {
    if sheet.len() / 4 <= field {
        return [0, 0, 0, 0];
    }
    let at = header(sheet) + 4 * field;
    [
        byte(sheet, at),
        byte(sheet, at + 1),
        byte(sheet, at + 2),
        byte(sheet, at + 3),
    ]
}
