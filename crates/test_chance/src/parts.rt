// The parts of a sheet, read and written by document 01's table and document 02's version 2. Low byte first. A read past the buffer
// gives 0 and a write there does nothing, so that no caller owes a fact. Slots, bidders and constraints are counted from 0 here.
ghost use Rattle.std.specs.Prelude.{◌≡◌, ◌+◌, ◌*◌, ◌<◌, ◌≤◌, slice_index};

// Room for the longest sheet here, 13 + 4 x (16 + 64 + 1,025) bytes, and a few more.
pub const ROOM: usize = 4608;

// Where the header's fields stand: the version, n, m and c, and after these the tick, which version 2 alone has.
pub const VERSION: usize = 3;

pub const BIDDERS: usize = 5;

pub const SLOTS: usize = 6;

pub const CONSTRAINTS: usize = 7;

pub const TICK: usize = 9;

// "Sheet version 2 has a 4-byte tick after the condition count"
pub const TICK_VERSION: u32 = 2;

const TICK_BYTES: usize = 4;

pub fn byte(buf: &[u8], at: usize) -> u32
    ensures { (result ≡ slice_index buf.now at) × (result < 256) }
{
    if at < buf.len() {
        u32::from(buf[at])
    } else {
        0
    }
}

// The lowest byte of a number.
pub fn set_byte(buf: &mut [u8], at: usize, value: u32) {
    if at < buf.len() {
        buf[at] = (value % 256) as u8;
    }
}

fn half(buf: &[u8], at: usize) -> u32
    ensures { result < 65536 }
{
    if at < buf.len() {
        return byte(buf, at) + 256 * byte(buf, at + 1);
    }
    0
}

pub fn set_half(buf: &mut [u8], at: usize, value: u32) {
    if at < buf.len() {
        set_byte(buf, at, value);
        set_byte(buf, at + 1, value / 256);
    }
}

pub fn word(buf: &[u8], at: usize) -> u32 {
    if at < buf.len() {
        return half(buf, at) + 65536 * half(buf, at + 2);
    }
    0
}

pub fn set_word(buf: &mut [u8], at: usize, value: u32) {
    if at < buf.len() {
        set_half(buf, at, value);
        set_half(buf, at + 2, value / 65536);
    }
}

// 2 bytes: "version, 1", and 2.
pub fn version(buf: &[u8]) -> u32
    ensures { result < 65536 }
{
    half(buf, VERSION)
}

// 1 byte: "n, bidders, 1 to 64"
pub fn bidders(buf: &[u8]) -> u32
    ensures { result < 256 }
{
    byte(buf, BIDDERS)
}

// 1 byte: "m, places, 1 to 16"
pub fn slots(buf: &[u8]) -> u32
    ensures { result < 256 }
{
    byte(buf, SLOTS)
}

// 2 bytes: "c, conditions, 0 to 1,024"
pub fn constraints(buf: &[u8]) -> u32
    ensures { result < 65536 }
{
    half(buf, CONSTRAINTS)
}

// 4 bytes in version 2: the tick. "version 1 means tick 1"
pub fn tick(buf: &[u8]) -> u32 {
    if version(buf) == TICK_VERSION {
        return word(buf, TICK);
    }
    1
}

// The version, with the tick where it has one.
pub fn set_version(buf: &mut [u8], version: u32, tick: u32) {
    set_half(buf, VERSION, version);
    if version == TICK_VERSION {
        set_word(buf, TICK, tick);
    }
}

// Where a field of 4 bytes stands, counted from 0: after the counts, and in version 2 after the tick too.
fn word_at(buf: &[u8], index: usize) -> usize
    requires { index < 8589934592 }
    ensures { result ≤ 13 + 4 * index }
{
    if version(buf) == TICK_VERSION {
        return TICK + TICK_BYTES + 4 * index;
    }
    TICK + 4 * index
}

// 4 bytes each: "effect of places 1 to m"
pub fn effect_at(buf: &[u8], slot: u32) -> usize {
    word_at(buf, slot as usize)
}

// 4 bytes each: "bid of bidders 1 to n"
pub fn bid_at(buf: &[u8], bidder: u32) -> usize {
    word_at(buf, slots(buf) as usize + bidder as usize)
}

// 4 bytes each: "condition: owner, own place, other bidder, other's place, one byte each"
pub fn constraint_at(buf: &[u8], constraint: u32) -> usize
    ensures { result < 34359738368 }
{
    word_at(
        buf,
        slots(buf) as usize + bidders(buf) as usize + constraint as usize,
    )
}

// A constraint's bytes: 0 the owner, 1 its own slot, 2 the other bidder, 3 the other's slot.
pub fn field(buf: &[u8], constraint: u32, part: u32) -> u32
    ensures { result < 256 }
{
    byte(buf, constraint_at(buf, constraint) + part as usize)
}

pub fn set_field(buf: &mut [u8], constraint: u32, part: u32, value: u32) {
    let at = constraint_at(buf, constraint) + part as usize;
    set_byte(buf, at, value);
}

pub fn set_fields(buf: &mut [u8], constraint: u32, owner: u32, own: u32, other: u32, others: u32) {
    set_field(buf, constraint, 0, owner);
    set_field(buf, constraint, 1, own);
    set_field(buf, constraint, 2, other);
    set_field(buf, constraint, 3, others);
}

// "Length is exactly 9 + 4 x (m + n + c)." In version 2 "every length grows by 4".
pub fn length(buf: &[u8]) -> usize
    ensures { result < 34359738368 }
{
    constraint_at(buf, constraints(buf))
}

// The first bytes of another buffer, and zeros past its end.
pub fn copy(from: &[u8], to: &mut [u8], count: usize) {
    let end = count.min(to.len());
    let both = end.min(from.len());
    to[..both].copy_from_slice(&from[..both]);
    to[both..end].fill(0);
}

// Another sheet's fields of 4 bytes after the header, each where the version of this one has it.
fn copy_words(from: &[u8], to: &mut [u8], count: u32) {
    for index in 0..count as usize {
        let value = word(from, word_at(from, index));
        let at = word_at(to, index);
        set_word(to, at, value);
    }
}

// Another sheet in this version and with this tick, and its length.
pub fn rewrite(from: &[u8], to: &mut [u8], version: u32, tick: u32) -> usize
    ensures { result < 34359738368 }
{
    copy(from, to, TICK);
    set_version(to, version, tick);
    copy_words(from, to, slots(from) + bidders(from) + constraints(from));
    length(to)
}

// A part of a buffer, to be lent; the whole where it is too short.
pub fn part(space: &[u8], start: u32, bytes: u32) -> &[u8] {
    let from = start as usize;
    space.get(from..from + bytes as usize).unwrap_or(space)
}

// A sheet's length, 0 where there is no room for it.
pub fn size(bytes: usize) -> u32 {
    if bytes < ROOM {
        return bytes as u32;
    }
    0
}
