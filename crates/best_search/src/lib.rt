// The best page of a round of up to 8 bidders and 8 slots, in two searches: the first finds the largest total, the second the first page in dictionary
// order that has it. Both go over what is free, by rank and slot, in words.
#![tactic(auto)]

ghost use Rattle.std.specs.Prelude.{◌≡◌, ℕ, suc, ◌+◌, ◌-◌, ◌*◌, ◌^◌, ◌<◌, ◌≤◌, length, get_or, drop, ◌++◌};
ghost use Rattle.basis.specs.Rows.{row};
ghost use Rattle.sheet.specs.Refusal.{Accepted};
ghost use Rattle.sheet.specs.Round.{round_of, with_floors};
ghost use Rattle.sheet.specs.Proper.{ProperFloors};
ghost use Rattle.basis.specs.First.{unless_refused};
ghost use Rattle.sheet.specs.Sheet.{bidder_count, slot_count};
ghost use Rattle.choice.specs.EngineRanking.{InOrder};
ghost use Rattle.auction.specs.Allowed.{total};
ghost use Rattle.auction.specs.Page.{at};
ghost use Rattle.best_page.specs.Best.{Best};
ghost use Rattle.best_clash.specs.EngineClash.{RanksOf};
ghost use Rattle.best_search.specs.Call.{bounds_refusal, best_buffer, chosen_for, chosen_in, BestGiven, BestFloorsGiven};
ghost use Rattle.best_search.specs.EngineFound.{Raised, SoughtIn};

use best_seats::Seats;
use refusal::Refusal;
use sheet::{Bidder, Page, Slot};

// The best page and its total.
#[derive(Clone, Copy, Debug, PartialEq, Eq)]
pub struct BestFound {
    pub page: Page,
    pub total: u64,
}

// Each bidder's rank, by its number.
fn ranks_of(ranked: &[u8], bidders: usize) -> [u8; 16]
    requires { (bidders ≤ 8) × ((bid : ℕ → ℕ) × InOrder bid bidders ranked.now) }
    ensures { RanksOf bidders ranked.now result × ((b : ℕ) → get_or result b 0 < 8) }
{
    let mut ranks = [0u8; 16];
    for rank in 0..bidders {
        let bidder = choice::ranked_at(ranked, rank);
        ranks[bidder.0 as usize] = rank as u8;
    }
    ranks
}

// The largest of the total that is known and of the totals that the settled slots, those before `slot`, can lead to. The highest bids are tried first, so
// that the first page is the greedy one, and what cannot lead to a larger total is left out. Where nothing is free, nobody can join the page.
fn raise(shut: &[u64; 64], gains: &[u64; 128], slot: Slot, free: Seats, had: u64, known: u64) -> u64
    requires slot_nonzero { (0 < slot.0) × (slot.0 ≤ 9) × (free.0 < 2 ^ (8 * (9 - slot.0))) × (had ≤ (slot.0 - 1) * 1000000000000000) }
    requires by_index { (x : ℕ) → get_or gains.now x 0 ≤ 1000000000000000 }
    ensures { Raised shut.now gains.now slot.0 free.0 had known result }
{
    if free.0 == 0 {
        if known < had {
            return had;
        }
        return known;
    }
    let next = best_seats::next_slot(slot);
    let mut highest = known;
    let mut left = best_seats::here(free);
    while left.0 != 0 {
        let rank = best_seats::first_rank(left);
        let ahead = best_node::look_ahead(shut, gains, slot, free, had, rank);
        if highest < ahead.most {
            highest = raise(shut, gains, next, ahead.free, ahead.had, highest);
        }
        left = best_seats::after_first(left);
    }
    let passed = best_node::pass_over(gains, slot, free, had);
    if highest < passed.most {
        highest = raise(shut, gains, next, passed.free, passed.had, highest);
    }
    highest
}

// The first page in dictionary order with the total, of those that the settled slots, those before `slot`, can lead to. The slot is settled with nobody and
// then with each bidder by its number, each time on the page as it was, and what remains is the same search with one slot fewer.
fn search(
    shut: &[u64; 64],
    gains: &[u64; 128],
    ranks: &[u8; 16],
    bidders: usize,
    slot: Slot,
    page: Page,
    free: Seats,
    had: u64,
    total: u64,
) -> Option<Page>
    requires slot_nonzero { (0 < slot.0) × (slot.0 ≤ 9) × (free.0 < 2 ^ (8 * (9 - slot.0))) × (had ≤ (slot.0 - 1) * 1000000000000000) }
    requires by_index { ((x : ℕ) → get_or gains.now x 0 ≤ 1000000000000000) × (bidders ≤ 8) × ((b : ℕ) → get_or ranks.now b 0 < 8) }
    ensures { SoughtIn shut.now gains.now ranks.now bidders slot.0 page free.0 had total result }
{
    if free.0 == 0 {
        return if had == total { Some(page) } else { None };
    }
    let next = best_seats::next_slot(slot);
    let passed = best_node::pass_over(gains, slot, free, had);
    if total <= passed.most {
        if let Some(first) = search(
            shut,
            gains,
            ranks,
            bidders,
            next,
            page,
            passed.free,
            passed.had,
            total,
        ) {
            return Some(first);
        }
    }
    for bidder in 1..=bidders as u16 {
        let bidder = Bidder(bidder);
        let rank = best_clash::rank_of(ranks, bidder);
        if best_seats::is_free(free, rank) {
            let ahead = best_node::look_ahead(shut, gains, slot, free, had, rank);
            if total <= ahead.most {
                if let Some(first) = search(
                    shut,
                    gains,
                    ranks,
                    bidders,
                    next,
                    auction::with_bidder(page, slot, bidder),
                    ahead.free,
                    ahead.had,
                    total,
                ) {
                    return Some(first);
                }
            }
        }
    }
    None
}

// The best page of a small round with a floor under each slot. Bids and effects are read and the constraints gone through once, and no round is made
// of them.
fn best_page(sheet: &[u8], floors: &[u32]) -> BestFound
    requires { Accepted sheet.now × (bidder_count sheet.now ≤ 8) × (slot_count sheet.now ≤ 8) × ProperFloors (slot_count sheet.now) floors.now }
    ensures { Best (with_floors (round_of sheet.now) floors.now) result.page × (result.total ≡ total (with_floors (round_of sheet.now) floors.now) result.page) }
{
    let bidders = sheet[5] as usize;
    let slots = sheet[6] as usize;
    let effects = sheet_read::accepted_effects(sheet);
    let bids = sheet_read::accepted_bids(sheet);
    let ranked = choice::ranking_of(&bids, bidders);
    let ranks = ranks_of(&ranked, bidders);
    let gains = best_bound::gains_of(&ranked, &bids, &effects, bidders, slots);
    let mut table = [0u64; 73];
    best_clash::fill_table(&mut table, &ranks, sheet);
    let shut = best_clash::shut_words(&table);
    let free = best_clash::first_free(&table, &ranked, &bids, floors, bidders, slots);
    let page = auction::empty_page();
    let largest = raise(&shut, &gains, Slot(1), free, 0, 0);
    let best = search(
        &shut,
        &gains,
        &ranks,
        bidders,
        Slot(1),
        page,
        free,
        0,
        largest,
    );
    BestFound {
        page: best.unwrap_or(page),
        total: largest,
    }
}

// The bidder numbers of the first slots go to the front of the buffer.
fn write_page(page: Page, slots: usize, res: &mut [u8])
    requires { (slots ≤ 16) × (slots ≤ length res.old) × ((k : ℕ) → at page k < 256) }
    ensures { res.new ≡ row (λ k. at page (suc k)) slots ++ drop slots res.old }
{
    for (k, bidder) in page.bidders[..slots].iter().enumerate() {
        res[k] = bidder.0 as u8;
    }
}

// The total of the best page, which goes to the buffer, or 18 or 19: of an accepted sheet with a floor under each slot.
fn best_accepted(sheet: &[u8], floors: &[u32], res: &mut [u8]) -> Result<u64, Refusal>
    requires { Accepted sheet.now × ProperFloors (slot_count sheet.now) floors.now }
    ensures { (chosen_in result ≡ chosen_for (bounds_refusal sheet.now res.old) (with_floors (round_of sheet.now) floors.now)) × (res.new ≡ unless_refused (bounds_refusal sheet.now res.old) (best_buffer (with_floors (round_of sheet.now) floors.now) res.old) res.old) }
{
    let bidders = sheet[5] as usize;
    let slots = sheet[6] as usize;
    if 8 < bidders || 8 < slots {
        return Err(Refusal::TooLargeForBest);
    }
    if res.len() < slots {
        return Err(Refusal::ResultTooShort);
    }
    let answer = best_page(sheet, floors);
    write_page(answer.page, slots, res);
    Ok(answer.total)
}

// The total of the best page, with the page's bidder numbers in the buffer, one byte a slot, and every later byte as it was; or the first rule that the
// call breaks, one of the check's, 18 or 19, with every byte of the buffer as it was.
pub fn best(sheet: &[u8], res: &mut [u8]) -> Result<u64, Refusal>
    ensures { BestGiven sheet.now res.old (chosen_in result) res.new }
{
    sheet_check::check(sheet)?;
    best_accepted(sheet, &[0; 16], res)
}

// The same with a floor under each slot, and 30 and 31 after the check's rules.
pub fn best_floors(sheet: &[u8], floors: &[u32], res: &mut [u8]) -> Result<u64, Refusal>
    ensures { BestFloorsGiven floors.now sheet.now res.old (chosen_in result) res.new }
{
    sheet_check::check(sheet)?;
    floors::check_floors(floors, sheet[6] as usize)?;
    best_accepted(sheet, floors, res)
}
