// The check of a sheet that is not of version 1, part by part.
ghost use Rattle.std.specs.Prelude.{◌≡◌};
ghost use Rattle.sheet.specs.Sheet.{version};
ghost use Rattle.refusal.specs.Numbers.{number_in};
ghost use Rattle.sheet.specs.Refusal.{form_refusal, refusal_of};

use basis::{word16, word32};
use check_constraints::check_rising;
use check_numbers::{check_bids, check_counts, check_effects, check_form, check_ticks};
use refusal::Refusal;

// The first rule that the sheet breaks; none for an accepted sheet. One with the form of a sheet is of version 2.
pub fn check(sheet: &[u8]) -> Result<(), Refusal>
    requires { form_refusal sheet.now ≡ 0 → version sheet.now ≡ 2 }
    ensures { number_in result ≡ refusal_of sheet.now }
{
    // Made anew for the two calls that are left calls, as in `check`.
    let whole = &sheet[0..];
    check_form(sheet)?;
    let tick = word32(sheet, 9);
    check_counts(sheet, 13, tick)?;
    let bidders = sheet[5];
    let slots = sheet[6];
    let constraints = word16(sheet, 7) as usize;
    check_effects(sheet, 13, slots as usize)?;
    let bids_start = 13 + 4 * (slots as usize);
    check_bids(sheet, bids_start, bidders as usize)?;
    check_ticks(whole, bids_start, bidders as usize, tick)?;
    let constraints_start = bids_start + 4 * (bidders as usize);
    check_rising(whole, constraints_start, bidders, slots, constraints)
}
