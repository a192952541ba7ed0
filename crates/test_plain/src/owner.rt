// Where one owner's constraints ("conditions") stand in a version 2 sheet, by a plain scan of them all.
ghost use Rattle.std.specs.Prelude.{◌<◌, IfSome};

use crate::fields;

fn owner_at(sheet: &[u8], index: usize) -> u8 {
    let constraint = fields::constraint(sheet, index);
    constraint[fields::OWNER]
}

// The first constraint whose owner is one that is wanted.
fn first<F: Fn(u8) -> bool>(sheet: &[u8], is_wanted: F) -> Option<usize>
    requires { F.IsAlwaysCallable is_wanted }
    ensures { IfSome result (λ index. index < 65536) }
{
    for index in 0..fields::constraint_count(sheet) {
        if is_wanted(owner_at(sheet, index)) {
            return Some(index);
        }
    }
    None
}

// How many bytes of the sheet stand before the owner's part, which "is empty if it has none and then stands just before the first higher
// owner's, or at the sheet's end".
pub fn start(sheet: &[u8], owner: u8) -> usize {
    let own = first(sheet, |found| found == owner);
    let own_or_higher = own.or_else(|| first(sheet, |found| owner < found));
    let end = fields::constraint_count(sheet);
    fields::before_constraint(sheet, own_or_higher.unwrap_or(end))
}

// The bytes of all the owner's constraints, wherever they stand.
pub fn length(sheet: &[u8], owner: u8) -> usize {
    let mut bytes: usize = 0;
    for index in 0..fields::constraint_count(sheet) {
        if owner_at(sheet, index) == owner {
            bytes += 4;
        }
    }
    bytes
}
