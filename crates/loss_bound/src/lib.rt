// What the greedy page can lose: of a sheet whose lists all come from "above named rivals", the number that times the greedy page's total is at least the total
// of every page.
//
// One pass over the constraints sees that each is a pair in which the rival stands above the owner, and notes who names whom. If m slots have p pairs with one
// above the other, then for each bidder and each rival that it names the sheet can have p different constraints, and no others: so it has all of them where its
// different constraints are no fewer than p times the rivals named. In version 2 all constraints are different, and so they are in version 1 where they rise;
// others of version 1 are put in order for it.
#![tactic(auto)]

ghost use Rattle.std.specs.Prelude.{Bool, true, ◌≡◌, ℕ, suc, ◌<◌, ◌≤◌, length, get_or};
ghost use Rattle.basis.specs.Counting.{sum_to, most_to};
ghost use Rattle.basis.specs.Tests.{all_below};
ghost use Rattle.sheet.specs.Sheet.{bidder_count, constraint_count, constraints_start};
ghost use Rattle.sheet.specs.Refusal.{Accepted};
ghost use Rattle.sheet.specs.Accepted.{order_number};
ghost use Rattle.canonical.specs.Canonical.{conditions_in_order};
ghost use Rattle.loss_bound.specs.LossBound.{names_rival, rival_above, loss_factor, LossBounded, loss_in};
ghost use Rattle.loss_bound.specs.EngineNaming.{with_name, Noted};

use basis::{word16, word32};
use bidder_sets::Bidders;
use check_constraints::order_number;
use refusal::Refusal;
use sheet::{Bidder, Slot};

// How often bidders are named in all, each by a bidder once, and how often the one that is named most.
#[derive(Clone, Copy)]
struct Naming {
    all: u32,
    most: u32,
}

// It is noted that the owner names the other bidder.
fn note(words: &mut [u64; 64], counts: &mut [u32; 64], owner: Bidder, other: Bidder)
    requires { (0 < owner.0) × (owner.0 ≤ 64) × (0 < other.0) × (other.0 ≤ 64) × (length words.old ≡ 64) × (length counts.old ≡ 64) × ((j : ℕ) → get_or counts.old j 0 ≤ 64) }
    ensures { (n : ℕ) (rival : ℕ → ℕ → Bool) → owner.0 ≤ n → other.0 ≤ n → Noted n rival words.old counts.old → Noted n (with_name rival owner.0 other.0) words.new counts.new }
{
    let at = owner.0 as usize - 1;
    let set = Bidders(words[at]);
    if bidder_sets::has(set, other) {
        return;
    }
    let more = bidder_sets::with(set, other);
    words[at] = more.0;
    let named = other.0 as usize - 1;
    counts[named] += 1;
}

// Whether each constraint of an accepted sheet is a pair in which the rival stands above the owner; and then words and counts, which were 0, say who names whom.
fn note_all(
    words: &mut [u64; 64],
    counts: &mut [u32; 64],
    sheet: &[u8],
    start: usize,
    count: usize,
) -> bool
    requires { Accepted sheet.now × (start ≡ constraints_start sheet.now) × (count ≡ constraint_count sheet.now) × (length words.old ≡ 64) × (length counts.old ≡ 64) × ((i : ℕ) → get_or words.old i 0 ≡ 0) × ((j : ℕ) → get_or counts.old j 0 ≡ 0) }
    ensures { (result ≡ all_below (rival_above sheet.now) (constraint_count sheet.now)) × (result ≡ true → Noted (bidder_count sheet.now) (names_rival sheet.now) words.new counts.new) }
{
    for k in 0..count {
        let at = start + 4 * k;
        let own = Slot(sheet[at + 1]);
        let others = Slot(sheet[at + 3]);
        if others.0 == 0 {
            return false;
        }
        if own <= others {
            return false;
        }
        let owner = Bidder(u16::from(sheet[at]));
        let other = Bidder(u16::from(sheet[at + 2]));
        note(words, counts, owner, other);
    }
    true
}

// Of how often each bidder is named: the sum, and the most.
fn naming_of(counts: &[u32]) -> Naming
    requires few { length counts.now ≤ 64 }
    requires low { (j : ℕ) → j < length counts.now → get_or counts.now j 0 ≤ 64 }
    ensures sum { (result.all ≡ sum_to (λ j. get_or counts.now j 0) (length counts.now)) × (result.all ≤ 4096) }
    ensures largest { (result.most ≡ most_to (λ j. get_or counts.now j 0) (length counts.now)) × (result.most ≤ 64) }
{
    let mut all = 0;
    let mut most = 0;
    for &here in counts {
        all += here;
        most = most.max(here);
    }
    Naming { all, most }
}

// Whether each constraint is above the one before it, so that none is there twice.
fn rises(sheet: &[u8], start: usize, count: usize) -> bool
    requires { Accepted sheet.now × (start ≡ constraints_start sheet.now) × (count ≡ constraint_count sheet.now) }
    ensures { result ≡ true → (k : ℕ) → suc k < constraint_count sheet.now → order_number sheet.now k < order_number sheet.now (suc k) }
{
    let mut before = 0;
    for k in 0..count {
        let number = order_number(word32(sheet, start + 4 * k));
        if number <= before {
            return false;
        }
        before = number;
    }
    true
}

// How many different constraints an accepted sheet has.
fn different(sheet: &[u8], start: usize, count: usize) -> usize
    requires { Accepted sheet.now × (start ≡ constraints_start sheet.now) × (count ≡ constraint_count sheet.now) }
    ensures { result ≡ length (conditions_in_order sheet.now) }
{
    if word16(sheet, 3) == 2 {
        return count;
    }
    if rises(sheet, start, count) {
        return count;
    }
    let mut ordered = [0u32; 1024];
    canonical::order_constraints(&mut ordered, sheet, start)
}

// The factor of an accepted sheet.
fn factor_of(sheet: &[u8]) -> u32
    requires { Accepted sheet.now }
    ensures { result ≡ loss_factor sheet.now }
{
    let start = sheet_read::constraints_start(sheet);
    let count = sheet_read::constraint_count(sheet);
    let mut words = [0u64; 64];
    let mut counts = [0u32; 64];
    let above = note_all(&mut words, &mut counts, sheet, start, count);
    if !above {
        return 0;
    }
    let naming = naming_of(&counts[..sheet[5] as usize]);
    let each = above_terms::slots_above(u32::from(sheet[6]));
    let whole = naming.all as usize * each;
    let had = different(sheet, start, count);
    if had < whole {
        return 0;
    }
    naming.most + 1
}

// The factor, which is d + 1 where all lists come from "above named rivals" and d is the largest number of bidders that name one same rival, and 0 where
// not; or the first rule that the sheet breaks.
pub fn bound(sheet: &[u8]) -> Result<u32, Refusal>
    ensures { LossBounded sheet.now (loss_in result) }
{
    sheet_check::check(sheet)?;
    Ok(factor_of(sheet))
}
