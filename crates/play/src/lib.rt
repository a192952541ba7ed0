// Play a round: a lent sheet in, the page with its prices in a lent buffer out.
#![tactic(auto)]

ghost use Rattle.std.specs.Prelude.{List, ◌++◌, ◌≡◌, ℕ, ◌*◌, ◌<◌, ◌≤◌, length, drop};
ghost use Rattle.basis.specs.Rows.{joined};
ghost use Rattle.auction.specs.Page.{at};
ghost use Rattle.basis.specs.First.{unless_refused};
ghost use Rattle.refusal.specs.Numbers.{number_in};
ghost use Rattle.sheet.specs.Refusal.{Accepted};
ghost use Rattle.sheet.specs.Sheet.{slot_count, tick_field};
ghost use Rattle.sheet.specs.Round.{round_of, with_floors};
ghost use Rattle.choice.specs.Critical.{Asked};
ghost use Rattle.play.specs.Play.{room_refusal, played_buffer, Played, PlayedFloors};
ghost use Rattle.play.specs.EngineEntries.{entry_in};

use greedy::Outcome;
use refusal::Refusal;

// An accepted sheet is played with floors that ask so much, where the buffer has room; 19 where it has not.
fn play_accepted(sheet: &[u8], asks: &[u32], res: &mut [u8]) -> Result<(), Refusal>
    requires { Accepted sheet.now × ((floors : List ℕ) × Asked (tick_field sheet.now) (slot_count sheet.now) floors asks.now) }
    ensures { (floors : List ℕ) → Asked (tick_field sheet.now) (slot_count sheet.now) floors asks.now → (number_in result ≡ room_refusal sheet.now res.old) × (res.new ≡ unless_refused (room_refusal sheet.now res.old) (played_buffer (with_floors (round_of sheet.now) floors) res.old) res.old) }
{
    let slots = sheet[6] as usize;
    if res.len() < 5 * slots {
        return Err(Refusal::ResultTooShort);
    }
    write_result(greedy::played(sheet, asks), slots, res);
    Ok(())
}

// The page and the prices are in the buffer, 5 bytes a slot, the bidder and the price low byte first, and every later byte as it was; or the first rule
// that the call breaks, one of the check's or 19, with every byte of the buffer as it was.
pub fn play(sheet: &[u8], res: &mut [u8]) -> Result<(), Refusal>
    ensures { Played sheet.now res.old (number_in result) res.new }
{
    sheet_check::check(sheet)?; // an accepted sheet from here on
    play_accepted(sheet, &[0; 16], res)
}

// The same with a floor under each slot, and 30 and 31 after the check's rules.
pub fn play_floors(sheet: &[u8], floors: &[u32], res: &mut [u8]) -> Result<(), Refusal>
    ensures { PlayedFloors floors.now sheet.now res.old (number_in result) res.new }
{
    sheet_check::check(sheet)?;
    let slots = sheet[6] as usize;
    floors::check_floors(floors, slots)?;
    let asks = floors::asked(floors, slots, sheet::tick_of(sheet));
    play_accepted(sheet, &asks, res)
}

// The page and the prices go to the front of the buffer.
fn write_result(outcome: Outcome, slots: usize, res: &mut [u8])
    requires slots_bound { (slots ≤ 16) × (5 * slots ≤ length res.old) }
    requires bidders_len { (length outcome.page.bidders ≡ 16) × (length outcome.prices ≡ 16) × ((k : ℕ) → at outcome.page k < 256) }
    ensures { res.new ≡ joined (entry_in outcome) slots ++ drop (5 * slots) res.old }
{
    for k in 0..slots {
        res[5 * k] = outcome.page.bidders[k].0 as u8;
        basis::put_word32(res, 5 * k + 1, outcome.prices[k]);
    }
}
