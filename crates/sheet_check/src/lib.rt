// The check that gives a refused sheet its number.
#![tactic(auto)]

ghost use Rattle.std.specs.Prelude.{◌≡◌};
ghost use Rattle.refusal.specs.Numbers.{number_in};
ghost use Rattle.sheet.specs.Refusal.{refusal_of};

use basis::{word16, word32};
use check_constraints::check_free;
use check_numbers::{check_bids, check_counts, check_effects};
use refusal::Refusal;

mod version_two;

// The letters P A S and a 1, as one number: the first four bytes of a sheet of version 1, of which the fifth is 0.
const FIRST_BYTES: u32 = 22233424;

// The first rule that the sheet breaks, of 1 to 13 and 26 to 28; none for an accepted sheet. A sheet of version 1 has its effects
// at a known byte, and neither a tick nor an order to test; every other sheet goes the longer way. That way is called from three places so
// that it stays a call, and costs version 1 no register.
pub fn check(sheet: &[u8]) -> Result<(), Refusal>
    ensures { number_in result ≡ refusal_of sheet.now }
{
    // A slice is made anew for a call: one lent on as it came is first copied in one piece, where the caller wrote its two halves,
    // and the machine waits for that.
    let whole = &sheet[0..];
    if sheet.len() < 9 {
        return version_two::check(whole);
    }
    if word32(sheet, 0) != FIRST_BYTES {
        return version_two::check(whole);
    }
    if sheet[4] != 0 {
        return version_two::check(whole);
    }
    check_counts(sheet, 9, 1)?;
    let bidders = sheet[5];
    let slots = sheet[6];
    let constraints = word16(sheet, 7) as usize;
    check_effects(sheet, 9, slots as usize)?;
    let bids_start = 9 + 4 * (slots as usize);
    check_bids(sheet, bids_start, bidders as usize)?;
    let constraints_start = bids_start + 4 * (bidders as usize);
    check_free(whole, constraints_start, bidders, slots, constraints)
}
