// The refusals of the constraints: 10 to 13 and, in version 2, 28.
#![tactic(auto)]

ghost use Rattle.std.specs.Prelude.{◌≡◌, false, ◌+◌, ◌*◌, ◌/◌, ◌%◌, ◌<◌, ◌≤◌, eqb, length};
ghost use Rattle.basis.specs.First.{first_over};
ghost use Rattle.refusal.specs.Numbers.{number_in};
ghost use Rattle.sheet.specs.Sheet.{version, bidder_count, slot_count, constraints_start};
ghost use Rattle.sheet.specs.Refusal.{in_range, fields_refusal, terms_refusal, constraint_refusal};
ghost use Rattle.sheet.specs.Accepted.{fields_number};

use basis::word32;
use refusal::Refusal;

// Whether a constraint's numbers are in range: owner 1 to n, the other bidder at most n, both slots at most m.
fn in_range(bidders: u8, slots: u8, owner: u8, own: u8, other: u8, others: u8) -> bool
    ensures { result ≡ in_range bidders slots owner own other others }
{
    if owner == 0 {
        return false;
    }
    if bidders < owner {
        return false;
    }
    if bidders < other {
        return false;
    }
    if slots < own {
        return false;
    }
    if slots < others {
        return false;
    }
    true
}

// 10 to 13: one constraint's four bytes.
fn check_terms(
    bidders: u8,
    slots: u8,
    owner: u8,
    own: u8,
    other: u8,
    others: u8,
) -> Result<(), Refusal>
    ensures { number_in result ≡ fields_refusal bidders slots owner own other others }
{
    if !in_range(bidders, slots, owner, own, other, others) {
        return Err(Refusal::OutOfRange);
    }
    if other == owner {
        return Err(Refusal::OtherIsOwner);
    }
    if other == 0 {
        if others != 0 {
            return Err(Refusal::HalfAnOther);
        }
        if own == 0 {
            return Err(Refusal::EmptyConstraint);
        }
        return Ok(());
    }
    if others == 0 {
        return Err(Refusal::HalfAnOther);
    }
    Ok(())
}

// A constraint's four bytes, read as one number, turned round so that the owner's counts most: of two constraints the one above has the larger
// number.
pub fn order_number(constraint: u32) -> u32
    ensures { result ≡ fields_number (constraint % 256) (constraint / 256 % 256) (constraint / 65536 % 256) (constraint / 16777216) }
{
    let owner = constraint % 256;
    let own = constraint / 256 % 256;
    let other = constraint / 65536 % 256;
    let others = constraint / 16777216;
    16777216 * owner + 65536 * own + 256 * other + others
}

// The first number over the constraints in sheet order: each through 10 to 13 and, where they must rise, 28.
fn check_each(
    sheet: &[u8],
    start: usize,
    bidders: u8,
    slots: u8,
    constraints: usize,
    rising: bool,
) -> Result<(), Refusal>
    requires start_value { (start ≡ constraints_start sheet.now) × (start + 4 * constraints ≤ length sheet.now) }
    requires bidders_value { (bidders ≡ bidder_count sheet.now) × (slots ≡ slot_count sheet.now) × (rising ≡ eqb (version sheet.now) 2) }
    ensures { number_in result ≡ first_over (constraint_refusal sheet.now) constraints }
{
    // The number of the constraint before, which has an owner, so 0 stands for none.
    let mut before: u32 = 0;
    for k in 0..constraints {
        let at = start + 4 * k;
        check_terms(
            bidders,
            slots,
            sheet[at],
            sheet[at + 1],
            sheet[at + 2],
            sheet[at + 3],
        )?;
        let number = order_number(word32(sheet, at));
        if rising & (number <= before) {
            return Err(Refusal::OutOfOrder);
        }
        before = number;
    }
    Ok(())
}

// Whether a constraint, its four bytes as one number, breaks any of 10 to 13. Every rule is tested and none ends the test early:
// no machine can foretell which kind of constraint comes next, and so there is no branch.
fn is_faulty(bidders: u32, slots: u32, constraint: u32) -> bool
    ensures { result ≡ false → fields_refusal bidders slots (constraint % 256) (constraint / 256 % 256) (constraint / 65536 % 256) (constraint / 16777216) ≡ 0 }
{
    let owner = constraint % 256;
    let own = constraint / 256 % 256;
    let other = constraint / 65536 % 256;
    let others = constraint / 16777216;
    (owner == 0)
        | (bidders < owner)
        | (bidders < other)
        | (slots < own)
        | (slots < others)
        | (other == owner)
        | ((other == 0) != (others == 0))
        | ((own == 0) & (other == 0))
}

// Whether any constraint breaks any of 10 to 13. Each is read as one number and none ends the pass, so that the machine tests several
// at once.
fn any_faulty(sheet: &[u8], start: usize, bidders: u8, slots: u8, constraints: usize) -> bool
    requires start_value { (start ≡ constraints_start sheet.now) × (start + 4 * constraints ≤ length sheet.now) }
    requires bidders_value { (bidders ≡ bidder_count sheet.now) × (slots ≡ slot_count sheet.now) }
    ensures { result ≡ false → first_over (terms_refusal sheet.now) constraints ≡ 0 }
{
    let most_bidder = u32::from(bidders);
    let most_slot = u32::from(slots);
    let mut found = false;
    for seen in 0..constraints {
        let constraint = word32(sheet, start + 4 * seen);
        found |= is_faulty(most_bidder, most_slot, constraint);
    }
    found
}

// Whether any constraint breaks any of 10 to 13 or is not above the one before it, again in a pass that none ends. The number before is kept
// and not worked out again; a constraint that breaks nothing has an owner, so 0 stands for none.
fn any_unfit(sheet: &[u8], start: usize, bidders: u8, slots: u8, constraints: usize) -> bool
    requires start_value { (start ≡ constraints_start sheet.now) × (start + 4 * constraints ≤ length sheet.now) }
    requires bidders_value { (bidders ≡ bidder_count sheet.now) × (slots ≡ slot_count sheet.now) }
    ensures { result ≡ false → first_over (constraint_refusal sheet.now) constraints ≡ 0 }
{
    let most_bidder = u32::from(bidders);
    let most_slot = u32::from(slots);
    let mut found = false;
    let mut before: u32 = 0;
    for seen in 0..constraints {
        let constraint = word32(sheet, start + 4 * seen);
        let number = order_number(constraint);
        found |= is_faulty(most_bidder, most_slot, constraint) | (number <= before);
        before = number;
    }
    found
}

// The constraints of version 1, which stand in any order: 10 to 13, each constraint in sheet order. An accepted sheet costs the quick pass
// alone; only a fault has its number looked for.
pub fn check_free(
    sheet: &[u8],
    start: usize,
    bidders: u8,
    slots: u8,
    constraints: usize,
) -> Result<(), Refusal>
    requires start_value { (start ≡ constraints_start sheet.now) × (start + 4 * constraints ≤ length sheet.now) }
    requires bidders_value { (bidders ≡ bidder_count sheet.now) × (slots ≡ slot_count sheet.now) × (version sheet.now ≡ 1) }
    ensures { number_in result ≡ first_over (constraint_refusal sheet.now) constraints }
{
    if any_faulty(sheet, start, bidders, slots, constraints) {
        return check_each(sheet, start, bidders, slots, constraints, false);
    }
    Ok(())
}

// The constraints of version 2, which rise: 10 to 13 and 28, again with the number looked for only where there is one.
pub fn check_rising(
    sheet: &[u8],
    start: usize,
    bidders: u8,
    slots: u8,
    constraints: usize,
) -> Result<(), Refusal>
    requires start_value { (start ≡ constraints_start sheet.now) × (start + 4 * constraints ≤ length sheet.now) }
    requires bidders_value { (bidders ≡ bidder_count sheet.now) × (slots ≡ slot_count sheet.now) × (version sheet.now ≡ 2) }
    ensures { number_in result ≡ first_over (constraint_refusal sheet.now) constraints }
{
    if any_unfit(sheet, start, bidders, slots, constraints) {
        return check_each(sheet, start, bidders, slots, constraints, true);
    }
    Ok(())
}
