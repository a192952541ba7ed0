// One call by the library and by the second engine, on the same sheet.
use crate::{bound, counts};
use std::io;
use test_both_engines::counts::hold;
use test_rival_sheets::{Kind, plain};

// What the factor's memory and the memory beside it hold before a call. No factor is so large.
const MARK: u32 = 173;

// The factor that is due, and the mark where the sheet is refused.
fn factor_due(sheet: &[u8], number: u32) -> u32 {
    if number == 0 {
        return plain::factor(sheet);
    }
    MARK
}

// Whether the memory holds the factor, and beside it what it held.
fn has_factor(lent: [u32; 3], factor: u32) -> bool {
    lent == [MARK, factor, MARK]
}

// The number, the factor and the memory beside it.
pub fn both(rt: &impl Print, tally: &mut [u64], sheet: &[u8], kind: Kind) -> io::Result<()> {
    let mut lent = [MARK; 3];
    let number = pas::pas_loss_bound(sheet, &mut lent[1]);
    let due = test_plain::check(sheet);
    let same = has_factor(lent, factor_due(sheet, due));
    hold(rt, tally, number == due, b"number")?;
    hold(rt, tally, same, b"factor")?;
    note(rt, tally, sheet, kind, number, lent[1])
}

// What the call is counted as; and where there is a factor, what it promises.
fn note(
    rt: &impl Print,
    tally: &mut [u64],
    sheet: &[u8],
    kind: Kind,
    number: u32,
    factor: u32,
) -> io::Result<()> {
    counts::note(tally, kind, number, factor);
    if number == 0 && factor != 0 {
        bound::hold_promise(rt, tally, sheet, factor)?;
    }
    Ok(())
}
