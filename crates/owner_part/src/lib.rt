// One bidder's conditions as a part of the sheet itself: in version 2 they stand together, in owner order.
//
// Two searches by halves find where they start and where they end, so the part costs, besides the check, a number of steps that grows with the
// logarithm of the conditions.
#![tactic(auto)]

ghost use Rattle.std.specs.Prelude.{◌≡◌, ◌+◌, ◌*◌, ◌-◌, ◌≤◌};
ghost use Rattle.refusal.specs.Numbers.{number_in};
ghost use Rattle.sheet.specs.Sheet.{version, constraint_count, constraints_start};
ghost use Rattle.sheet.specs.Refusal.{Accepted};
ghost use Rattle.owner_part.specs.OwnerPart.{part_refusal, first_from, before_of, before_in, bounds_of, bounds_in, PartHanded};

use basis::word16;
use refusal::Refusal;

// Where a part is: the bytes of the sheet before the part, and its own bytes.
#[derive(Clone, Copy, Debug, PartialEq, Eq)]
pub struct Span {
    pub start: usize,
    pub length: usize,
}

// The first rule that the call breaks: one of the check's; 29 for a sheet of version 1, which has no order; then 16 for a bidder that the sheet has not.
#[tactic(auto, using(sheet_read::proofs::RoomLaws::room, refusal::proofs::NumberLaws::passed_on), unfolding(crate::specs::OwnerPart::part_refusal, crate::specs::OwnerPart::call_refusal))]
fn check_call(sheet: &[u8], bidder: u32) -> Result<(), Refusal>
    ensures { number_in result ≡ part_refusal sheet.now bidder }
{
    sheet_check::check(sheet)?;
    let bidders = u32::from(sheet[5]);
    if word16(sheet, 3) == 1 {
        return Err(Refusal::UnorderedVersion);
    }
    if bidder == 0 || bidders < bidder {
        return Err(Refusal::WrongBidder);
    }
    Ok(())
}

// How many constraints stand before the first whose owner is the bidder or a higher one.
#[tactic(auto, using(sheet_read::proofs::RoomLaws::room))]
fn first_from(sheet: &[u8], start: usize, constraints: usize, owner: u32) -> usize
    requires { Accepted sheet.now × (version sheet.now ≡ 2) × (start ≡ constraints_start sheet.now) × (constraints ≡ constraint_count sheet.now) }
    ensures { (result ≡ first_from sheet.now owner) × (result ≤ constraints) }
{
    // Kept: the conditions are bytes of the sheet, and the library's search by halves needs a slice of elements.
    let mut low = 0;
    let mut high = constraints;
    while low < high {
        let middle = low + (high - low) / 2;
        if u32::from(sheet[start + 4 * middle]) < owner {
            low = middle + 1;
        } else {
            high = middle;
        }
    }
    low
}

// Where one bidder's part is, or the first rule that the call breaks.
#[tactic(auto, using(sheet_read::proofs::RoomLaws::room, crate::proofs::CallLaws::answered))]
pub fn part_bounds(sheet: &[u8], bidder: u32) -> Result<Span, Refusal>
    ensures { bounds_in result ≡ bounds_of sheet.now bidder }
{
    check_call(sheet, bidder)?;
    let start = sheet_read::constraints_start(sheet);
    let constraints = sheet_read::constraint_count(sheet);
    let first = first_from(sheet, start, constraints, bidder);
    let next = first_from(sheet, start, constraints, bidder + 1);
    Ok(Span {
        start: start + 4 * first,
        length: 4 * (next - first),
    })
}

// The call that only checks: how many bytes of the sheet stand before the part, or the first rule that the call breaks.
pub fn check_part(sheet: &[u8], bidder: u32) -> Result<usize, Refusal>
    ensures { before_in result ≡ before_of sheet.now bidder }
{
    let span = part_bounds(sheet, bidder)?;
    Ok(span.start)
}

// The part of the lent sheet itself with one bidder's constraints. A refused call hands back the empty part at the sheet's start.
#[tactic(auto, using(crate::proofs::CallLaws::bounds_within))]
pub fn part(sheet: &[u8], bidder: u32) -> &[u8]
    ensures { PartHanded sheet.entry bidder result }
{
    match part_bounds(sheet, bidder) {
        Ok(span) => &sheet[span.start..span.start + span.length],
        Err(_) => &sheet[..0],
    }
}
