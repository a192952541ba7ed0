// The gain of a bidder from a played sheet, by its true constraints.
#![tactic(auto)]

ghost use Rattle.std.specs.Prelude.{true, ◌&&◌, eqb, List, ◌≡◌, ℕ, ◌*◌, ◌≤◌, ◌<◌, pos, neg_ℤ};
ghost use Rattle.auction.specs.Page.{placed};
ghost use Rattle.auction.specs.Broken.{broken, breaks_own};
ghost use Rattle.sheet.specs.Refusal.{Accepted};
ghost use Rattle.sheet.specs.Sheet.{slot_count, tick_field};
ghost use Rattle.choice.specs.Critical.{Asked};
ghost use Rattle.sheet.specs.Proper.{Proper};
ghost use Rattle.sheet.specs.Round.{round_of, with_floors};
ghost use Rattle.gain.specs.Gain.{slot_of, gain_if, gain_of};
ghost use Rattle.refusal.specs.Numbers.{number_in};
ghost use Rattle.gain.specs.Call.{later_refusal, gained_for, gained_in, gained_of, gained_floors_of};

use refusal::Refusal;
use sheet::{Bidder, Constraint, Page, Slot};

// "v, 0 to 1,000,000,000"
const MAX_WORTH: u32 = 1000000000;

// The slot where a bidder stands, 0 for none.
fn slot_of(page: Page, bidder: Bidder) -> Slot
    ensures { result.0 ≡ slot_of page bidder.0 }
{
    for k in 0..16u8 {
        if auction::stands(page, Slot(k + 1), bidder) {
            return Slot(k + 1);
        }
    }
    Slot(0)
}

// Whether a constraint is the bidder's and is broken on the page, where the bidder has a slot.
fn own_broken(page: Page, constraint: Constraint, bidder: Bidder) -> bool
    requires { Proper constraint × (placed page bidder.0 ≡ true) }
    ensures { result ≡ (eqb constraint.owner.0 bidder.0 && broken page constraint) }
{
    constraint.owner == bidder && auction::is_broken(page, constraint)
}

// Whether a constraint of the bidder is broken on the page, where it has a slot. The truth sheet's constraints are read one by one, and no round is made of them.
fn breaks_own(truth: &[u8], page: Page, bidder: Bidder) -> bool
    requires { Accepted truth.now × (placed page bidder.0 ≡ true) }
    ensures { result ≡ breaks_own (round_of truth.now) page bidder.0 }
{
    let used = sheet_read::constraint_count(truth);
    let start = sheet_read::constraints_start(truth);
    for a in 0..used {
        let constraint = sheet_read::constraint_at(truth, start, a);
        if own_broken(page, constraint, bidder) {
            return true;
        }
    }
    false
}

// effect × (worth − paid), or −(effect × paid) where a true constraint is broken.
fn gain_if(broken: bool, effect: u32, worth: u32, paid: u32) -> i64
    requires { (effect ≤ 1000000) × (worth ≤ 1000000000) × (paid ≤ 1000000000) }
    ensures { result ≡ gain_if broken effect worth paid }
{
    let clicks = u64::from(effect);
    if broken {
        return 0 - (clicks * u64::from(paid)) as i64;
    }
    if paid <= worth {
        return (clicks * u64::from(worth - paid)) as i64;
    }
    0 - (clicks * u64::from(paid - worth)) as i64
}

// The gain of a bidder from a sheet played with floors that ask so much.
fn gain_of(played: &[u8], asks: &[u32], truth: &[u8], bidder: Bidder, worth: u32) -> i64
    requires { Accepted played.now × ((floors : List ℕ) × Asked (tick_field played.now) (slot_count played.now) floors asks.now) × Accepted truth.now × (worth ≤ 1000000000) × (0 < bidder.0) }
    ensures { (floors : List ℕ) → Asked (tick_field played.now) (slot_count played.now) floors asks.now → result ≡ gain_of (with_floors (round_of played.now) floors) (round_of truth.now) bidder.0 worth }
{
    let outcome = greedy::played(played, asks);
    let page = outcome.page;
    let slot = slot_of(page, bidder);
    if slot.0 == 0 {
        return 0;
    }
    let k = slot.0 as usize - 1;
    let effect = sheet_read::effect_at(played, slot);
    gain_if(
        breaks_own(truth, page, bidder),
        effect,
        worth,
        outcome.prices[k],
    )
}

// The first rule that the truth sheet or a number of the call breaks, of 14 to 17.
fn check_later(played: &[u8], truth: &[u8], bidder: u32, worth: u32) -> Result<(), Refusal>
    requires { Accepted played.now }
    ensures { number_in result ≡ later_refusal played.now truth.now bidder worth }
{
    if sheet_check::check(truth).is_err() {
        return Err(Refusal::TruthRefused);
    }
    if truth[5] != played[5] {
        return Err(Refusal::TruthDiffers);
    }
    if truth[6] != played[6] {
        return Err(Refusal::TruthDiffers);
    }
    if bidder == 0 {
        return Err(Refusal::WrongBidder);
    }
    if u32::from(played[5]) < bidder {
        return Err(Refusal::WrongBidder);
    }
    if MAX_WORTH < worth {
        return Err(Refusal::WrongWorth);
    }
    Ok(())
}

// The gain, or the first rule of 14 to 17 that the call breaks, of an accepted sheet with floors that ask so much.
fn gain_accepted(
    played: &[u8],
    asks: &[u32],
    truth: &[u8],
    bidder: u32,
    worth: u32,
) -> Result<i64, Refusal>
    requires { Accepted played.now × ((floors : List ℕ) × Asked (tick_field played.now) (slot_count played.now) floors asks.now) }
    ensures { (floors : List ℕ) → Asked (tick_field played.now) (slot_count played.now) floors asks.now → gained_in result ≡ gained_for (later_refusal played.now truth.now bidder worth) (with_floors (round_of played.now) floors) truth.now bidder worth }
{
    check_later(played, truth, bidder, worth)?;
    Ok(gain_of(played, asks, truth, Bidder(bidder as u16), worth))
}

// The bidder's gain from the played sheet at a worth per click, by its constraints in the truth sheet; or the first rule that the call breaks, one of
// the check's or 14 to 17.
pub fn gain(played: &[u8], truth: &[u8], bidder: u32, worth: u32) -> Result<i64, Refusal>
    ensures { gained_in result ≡ gained_of played.now truth.now bidder worth }
{
    sheet_check::check(played)?;
    gain_accepted(played, &[0; 16], truth, bidder, worth)
}

// The same with a floor under each slot of the played sheet, and 30 and 31 after the check's rules.
pub fn gain_floors(
    played: &[u8],
    floors: &[u32],
    truth: &[u8],
    bidder: u32,
    worth: u32,
) -> Result<i64, Refusal>
    ensures { gained_in result ≡ gained_floors_of floors.now played.now truth.now bidder worth }
{
    sheet_check::check(played)?;
    let slots = played[6] as usize;
    floors::check_floors(floors, slots)?;
    let asks = floors::asked(floors, slots, sheet::tick_of(played));
    gain_accepted(played, &asks, truth, bidder, worth)
}
