// Sheets built by document 01's table and what document 02 adds to it alone: nothing here comes from the crate under test.
// A fault is written over a right sheet. Effects, bids and constraints are counted from 1 and stand where the header's version and
// counts say, so a wrong version or count is written last.
ghost use Rattle.std.specs.Prelude.{◌<◌, ◌≤◌};

// Room for the longest sheet here, 13 + 4 x (16 + 64 + 1,025) bytes. The longest that is right has 4,429.
pub const ROOM: usize = 4608;

// One byte, where the buffer reaches it.
pub fn set_byte(buf: &mut [u8], at: usize, value: u8) {
    if let Some(byte) = buf.get_mut(at) {
        *byte = value;
    }
}

// The lowest byte of a number.
pub fn low(value: u32) -> u8 {
    (value % 256) as u8
}

// Two bytes, low byte first.
fn set_half(buf: &mut [u8], at: usize, value: u32) {
    if at < buf.len() {
        set_byte(buf, at, low(value));
        set_byte(buf, at + 1, low(value / 256));
    }
}

// Four bytes, low byte first.
fn set_word(buf: &mut [u8], at: usize, value: u32) {
    if at < buf.len() {
        set_half(buf, at, value % 65536);
        set_half(buf, at + 2, value / 65536);
    }
}

// The same four bytes `count` times.
fn set_words(buf: &mut [u8], start: usize, count: usize, value: u32) {
    // Kept: a `for` over the count, with the same test, takes a seventh to a third more time.
    let mut at = start;
    let mut left = count;
    while 0 < left {
        if buf.len() <= at {
            return;
        }
        set_word(buf, at, value);
        at += 4;
        left -= 1;
    }
}

// 3 bytes: "mark, the letters P A S (hexadecimal 50 41 53)"
fn set_mark(buf: &mut [u8]) {
    set_byte(buf, 0, 0x50);
    set_byte(buf, 1, 0x41);
    set_byte(buf, 2, 0x53);
}

// 2 bytes: "version", 1 or 2
pub fn set_version(buf: &mut [u8], version: u32) {
    set_half(buf, 3, version);
}

// 1 byte: "n, bidders, 1 to 64"
pub fn set_bidder_count(buf: &mut [u8], bidders: u8) {
    set_byte(buf, 5, bidders);
}

// 1 byte: "m, places, 1 to 16"
pub fn set_slot_count(buf: &mut [u8], slots: u8) {
    set_byte(buf, 6, slots);
}

// 2 bytes: "c, conditions, 0 to 1,024"
pub fn set_constraint_count(buf: &mut [u8], constraints: u32) {
    set_half(buf, 7, constraints);
}

// 4 bytes in version 2: "a 4-byte tick after the condition count"
pub fn set_tick(buf: &mut [u8], tick: u32) {
    set_word(buf, 9, tick);
}

// One byte, 0 past the buffer's end.
fn byte(buf: &[u8], at: usize) -> u8 {
    buf.get(at).copied().unwrap_or(0)
}

// A byte of the header: the version's low one at 3, n at 5, m at 6, those of c at 7 and 8.
fn header(buf: &[u8], at: usize) -> u32
    ensures { result < 256 }
{
    u32::from(byte(buf, at))
}

// Where a field of four bytes starts, of those after the header, counted from 1. The header has 9 bytes, and in version 2 the tick's 4 more.
fn start(buf: &[u8], field: u32) -> usize
    requires { field < 70000 }
    ensures { result ≤ 280009 }
{
    if header(buf, 3) == 2 {
        return (13 + 4 * field - 4) as usize;
    }
    (9 + 4 * field - 4) as usize
}

// All of a sheet but its version and tick, which stand there before: right where the counts are. Its length is the answer. Each effect is
// 1,000, each constraint (1,1,0,0).
fn fill(buf: &mut [u8], bidders: u8, slots: u8, constraints: u16, bid: u32) -> usize {
    set_mark(buf);
    set_bidder_count(buf, bidders);
    set_slot_count(buf, slots);
    set_constraint_count(buf, u32::from(constraints));
    let effects = start(buf, 1);
    let bids = effects + 4 * usize::from(slots);
    let rest = bids + 4 * usize::from(bidders);
    set_words(buf, effects, usize::from(slots), 1000);
    set_words(buf, bids, usize::from(bidders), bid);
    set_words(buf, rest, usize::from(constraints), 0x0101);
    rest + 4 * usize::from(constraints)
}

// A sheet of version 1 that is right where its counts are, and its length. Each bid is 5.
pub fn base(buf: &mut [u8], bidders: u8, slots: u8, constraints: u16) -> usize {
    set_version(buf, 1);
    fill(buf, bidders, slots, constraints, 5)
}

// The same of version 2, right where its tick is too and as far as there are constraints enough. Each bid is one tick, and the constraints
// rise from (1,1,0,0).
pub fn base_in_ticks(buf: &mut [u8], tick: u32, bidders: u8, slots: u8, constraints: u16) -> usize {
    set_version(buf, 2);
    set_tick(buf, tick);
    let length = fill(buf, bidders, slots, constraints, tick);
    rise(buf, 2);
    length
}

// 4 bytes each: "effect of places 1 to m", all of them.
pub fn set_effects(buf: &mut [u8], value: u32) {
    let slots = header(buf, 6);
    let at = start(buf, 1);
    set_words(buf, at, slots as usize, value);
}

// The same, one of them.
pub fn set_effect(buf: &mut [u8], slot: u8, value: u32) {
    let at = start(buf, u32::from(slot));
    set_word(buf, at, value);
}

// 4 bytes each: "bid of bidders 1 to n", one of them.
pub fn set_bid(buf: &mut [u8], bidder: u8, value: u32) {
    let slots = header(buf, 6);
    let at = start(buf, slots + u32::from(bidder));
    set_word(buf, at, value);
}

// 4 bytes each: "condition: owner, own place, other bidder, other's place, one byte each", one of them.
pub fn set_constraint(buf: &mut [u8], constraint: u16, fields: [u8; 4]) {
    let at = constraint_start(buf, constraint);
    for (index, field) in fields.iter().enumerate() {
        set_byte(buf, at + index, *field);
    }
}

fn constraint_start(buf: &[u8], constraint: u16) -> usize
    ensures { result ≤ 280009 }
{
    start(buf, header(buf, 6) + header(buf, 5) + u32::from(constraint))
}

// The four bytes of a constraint.
fn constraint_of(buf: &[u8], constraint: u16) -> [u8; 4] {
    let at = constraint_start(buf, constraint);
    [
        byte(buf, at),
        byte(buf, at + 1),
        byte(buf, at + 2),
        byte(buf, at + 3),
    ]
}

// The next bidder after an other that is not the owner, 0 where there is none.
fn next_other(owner: u8, other: u8, bidders: u8) -> u8 {
    if bidders <= other {
        return 0;
    }
    if other + 1 != owner {
        return other + 1;
    }
    if bidders <= other + 1 {
        return 0;
    }
    other + 2
}

// The next constraint in order of owner, own slot, other and other's slot; the last of all is its own next.
fn next_constraint(fields: [u8; 4], bidders: u8, slots: u8) -> [u8; 4] {
    let [owner, own, other, others] = fields;
    if other != 0 && others < slots {
        return [owner, own, other, others + 1];
    }
    let second = next_other(owner, other, bidders);
    if second != 0 {
        return [owner, own, second, 1];
    }
    if own < slots {
        return [owner, own + 1, 0, 0];
    }
    if owner < bidders {
        return [owner + 1, 0, 1, 1];
    }
    fields
}

// A constraint after the first: the next after the one before.
fn rise_at(buf: &mut [u8], constraint: u16)
    requires { 0 < constraint }
{
    let bidders = byte(buf, 5);
    let slots = byte(buf, 6);
    let next = next_constraint(constraint_of(buf, constraint - 1), bidders, slots);
    set_constraint(buf, constraint, next);
}

// The constraints from one on, as many as the header counts: each is the next after the one before.
pub fn rise(buf: &mut [u8], from: u16) {
    let count = u16::from_le_bytes([byte(buf, 7), byte(buf, 8)]);
    for constraint in from.max(2)..=count {
        rise_at(buf, constraint);
    }
}
