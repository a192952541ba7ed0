// Whether a bidder's list is downward monotonic: each constraint ("condition") that asks for another one is looked up in the
// whole sheet.
use crate::fields;

// Kept: == and < of the arrays, here and in `rules::is_above`, were tried and are slower.
pub fn is_same(one: [u8; 4], two: [u8; 4]) -> bool {
    one[0] == two[0] && one[1] == two[1] && one[2] == two[2] && one[3] == two[3]
}

fn lists(sheet: &[u8], constraint: [u8; 4]) -> bool {
    for index in 0..fields::constraint_count(sheet) {
        if is_same(fields::constraint(sheet, index), constraint) {
            return true;
        }
    }
    false
}

// "for every condition with own place k from 1 to m − 1, the list also has the condition with own place k + 1 and the same other
// part. Own place 0 asks for nothing further."
fn is_followed(sheet: &[u8], constraint: [u8; 4]) -> bool {
    let own_slot = constraint[fields::OWN_SLOT];
    if own_slot == 0 || fields::slot_count(sheet) <= own_slot {
        return true;
    }
    let mut next = constraint;
    next[fields::OWN_SLOT] = own_slot + 1;
    lists(sheet, next)
}

// Whether a constraint is another bidder's or has what it asks for.
fn is_fine(sheet: &[u8], bidder: u8, constraint: [u8; 4]) -> bool {
    constraint[fields::OWNER] != bidder || is_followed(sheet, constraint)
}

pub fn is_downward(sheet: &[u8], bidder: u8) -> bool {
    (0..fields::constraint_count(sheet)).all(|index| is_fine(
        sheet,
        bidder,
        fields::constraint(sheet, index),
    ))
}
