// One sheet for one round: version 2, the constraints in order and each once.
//
// An accepted sheet of version 2 has that form and is copied. Of one of version 1 the constraints are read as numbers of their four bytes, the owner
// the highest, so that the order of the constraints is that of the numbers; these are sorted and repeats dropped. Only then is it known how long the
// written sheet is, so nothing is written before.
#![tactic(auto)]

ghost use Rattle.std.specs.Prelude.{◌≡◌, ℕ, ◌+◌, ◌*◌, ◌<◌, ◌≤◌, length, get_or, take, drop};
ghost use Rattle.std.proofs.lemmas.List.Edits.{sets};
ghost use Rattle.sheet.specs.Sheet.{version, constraints_start};
ghost use Rattle.sheet.specs.Refusal.{Accepted};
ghost use Rattle.sheet.specs.Accepted.{order_number};
ghost use Rattle.canonical.specs.Canonical.{CanonicalWritten, rewritten_in};
ghost use Rattle.canonical.specs.EngineParts.{header_of, numbers_bytes, InSheetOrder};

use basis::{word16, word32};
use check_constraints::order_number;
use refusal::Refusal;

// The constraints of a sheet as numbers, in sheet order.
fn read_numbers(numbers: &mut [u32], sheet: &[u8], start: usize)
    requires { (start ≡ constraints_start sheet.now) × (start + 4 * length numbers.old ≤ length sheet.now) }
    ensures { (k : ℕ) → k < length numbers.old → get_or numbers.new k 0 ≡ order_number sheet.now k }
{
    for (k, number) in numbers.iter_mut().enumerate() {
        *number = order_number(word32(sheet, start + 4 * k));
    }
}

// The constraints of an accepted sheet as numbers, in order and each once; how many they are.
pub fn order_constraints(ordered: &mut [u32; 1024], sheet: &[u8], start: usize) -> usize
    requires { (length ordered.old ≡ 1024) × Accepted sheet.now × (start ≡ constraints_start sheet.now) }
    ensures { (result ≤ 1024) × InSheetOrder sheet.now ordered.new result }
{
    let count = word16(sheet, 7) as usize;
    let mut numbers = [0u32; 1024];
    read_numbers(&mut numbers[..count], sheet, start);
    canonical_sort::sort(
        &mut numbers,
        ordered,
        count,
        sheet[5] as usize + 1,
        sheet[6] as usize + 1,
    );
    canonical_sort::drop_repeats(&numbers, ordered, count)
}

// Numbers are written at an offset one after another, the highest byte of each first: turned round, a constraint's number is its four bytes as they are
// read.
fn put_numbers(res: &mut [u8], at: usize, numbers: &[u32])
    requires { (length numbers.now ≤ 1024) × (at + 4 * length numbers.now ≤ length res.old) }
    ensures { res.new ≡ sets res.old at (numbers_bytes numbers.now (length numbers.now)) }
{
    for (k, &number) in numbers.iter().enumerate() {
        basis::put_word32(res, at + 4 * k, order_number(number));
    }
}

// The header of version 2 with tick 1, which is what version 1 means.
fn put_header(res: &mut [u8], bidders: u8, slots: u8, constraints: usize)
    requires { (13 ≤ length res.old) × (constraints ≤ 1024) }
    ensures { res.new ≡ sets res.old 0 (header_of 1 bidders slots constraints) }
{
    let low = (constraints % 256) as u8;
    let high = (constraints / 256) as u8;
    res[..9].copy_from_slice(&[b'P', b'A', b'S', 2, 0, bidders, slots, low, high]);
    basis::put_word32(res, 9, 1);
}

// Bytes are copied as they stand.
// Kept: between two lent slices `copy_from_slice` calls memmove, and the library promises to call memcpy and memset alone (README, include/pas.h).
fn copy(part: &mut [u8], bytes: &[u8])
    requires { length part.old ≡ length bytes.now }
    ensures { part.new ≡ bytes.now }
{
    for (k, byte) in bytes.iter().enumerate() {
        part[k] = *byte;
    }
}

// An accepted sheet of version 1 is written anew where the buffer has room; the length written.
fn write_ordered(sheet: &[u8], res: &mut [u8]) -> Result<usize, Refusal>
    requires { Accepted sheet.now × (version sheet.now ≡ 1) }
    ensures { CanonicalWritten sheet.now res.old (rewritten_in result) res.new }
{
    let body = 4 * (sheet[5] as usize + sheet[6] as usize);
    let mut ordered = [0u32; 1024];
    let constraints = order_constraints(&mut ordered, sheet, 9 + body);
    let length = 13 + body + 4 * constraints;
    if res.len() < length {
        return Err(Refusal::ResultTooShort);
    }
    put_header(res, sheet[5], sheet[6], constraints);
    copy(&mut res[13..13 + body], &sheet[9..9 + body]);
    put_numbers(res, 13 + body, &ordered[..constraints]);
    Ok(length)
}

// An accepted sheet of version 2 is copied where the buffer has room; its length.
fn copy_whole(sheet: &[u8], res: &mut [u8]) -> Result<usize, Refusal>
    requires { Accepted sheet.now × (version sheet.now ≡ 2) }
    ensures { CanonicalWritten sheet.now res.old (rewritten_in result) res.new }
{
    let size = sheet.len();
    if res.len() < size {
        return Err(Refusal::ResultTooShort);
    }
    copy(&mut res[..size], sheet);
    Ok(size)
}

// The one sheet for the round is written to the front of the buffer, with every later byte as it was, and the answer is its length; or the first rule
// that the call breaks, one of the check's or 19, with every byte of the buffer as it was.
pub fn write(sheet: &[u8], res: &mut [u8]) -> Result<usize, Refusal>
    ensures { CanonicalWritten sheet.now res.old (rewritten_in result) res.new }
{
    sheet_check::check(sheet)?;
    if word16(sheet, 3) == 2 {
        return copy_whole(sheet, res);
    }
    write_ordered(sheet, res)
}
