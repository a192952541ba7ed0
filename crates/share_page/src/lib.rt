// Whether a set of bidders could share a page: each above every rival of its own in the set.
//
// No order is tried. The first slot goes to the lowest member that no member names, the next one to the lowest of those left that nobody left names, and so on;
// where there is none, there is no such order. Each rival set is read once, into one word.
#![tactic(auto)]

ghost use Rattle.std.specs.Prelude.{true, ◌≡◌, ℕ, suc, ◌<◌, ◌≤◌, length, get_or, OnOk, MatchOption};
ghost use Rattle.std.proofs.lemmas.List.Edits.{sets};
ghost use Rattle.refusal.specs.Numbers.{number_in};
ghost use Rattle.bidder_sets.specs.BidderSets.{in_set, rivals_of};
ghost use Rattle.bidder_sets.specs.EngineSets.{in_word, Holds};
ghost use Rattle.share_page.specs.SharePage.{sets_refusal, shared_in, PageShared};
ghost use Rattle.share_page.specs.EngineShare.{in_table, rival_in, first_in, turns, all_found_to};

use bidder_sets::Bidders;
use refusal::Refusal;
use sheet::Bidder;

// The first of 23 and 24 that the rival sets break: where they break none, the rival set of each bidder is in a word of the table.
fn read_sets(table: &mut [u64; 64], sets: &[u8], n: u32) -> Result<(), Refusal>
    requires { n ≤ 64 }
    ensures number { number_in result ≡ sets_refusal n sets.now }
    ensures tabled { OnOk result ((i : ℕ) → i < n → Holds (get_or table.new i 0) (in_set (rivals_of sets.now (suc i)))) }
{
    let mut own = false;
    let mut at = 0;
    for i in 0..n as usize {
        let lent = bidder_sets::read_at(sets, at, n).ok_or(Refusal::WrongSet)?;
        own |= bidder_sets::has(lent.bidders, Bidder(i as u16 + 1));
        table[i] = lent.bidders.0;
        at = lent.end;
    }
    if at != sets.len() {
        return Err(Refusal::WrongSet);
    }
    if own {
        return Err(Refusal::RivalIsOwner);
    }
    Ok(())
}

// Whom those of the members that are left name.
fn rivals_of(table: &[u64; 64], members: &[u8], left: Bidders) -> Bidders
    requires { (k : ℕ) → k < length members.now → (0 < get_or members.now k 0) × (get_or members.now k 0 ≤ 64) }
    ensures { (x : ℕ) → in_word result.0 x ≡ rival_in (in_table table.now) members.now (in_word left.0) x }
{
    let mut rivals = Bidders(0);
    for member in members {
        let member = Bidder(u16::from(*member));
        if bidder_sets::has(left, member) {
            let set = Bidders(table[member.0 as usize - 1]);
            rivals = bidder_sets::either(rivals, set);
        }
    }
    rivals
}

// The first of the members that is in a set.
fn first_in(members: &[u8], set: Bidders) -> Option<u8>
    requires { (k : ℕ) → k < length members.now → (0 < get_or members.now k 0) × (get_or members.now k 0 ≤ 64) }
    ensures { MatchOption result (first_in members.now (in_word set.0) ≡ 0) (λ first. (first ≡ first_in members.now (in_word set.0)) × (0 < first) × (first ≤ 64)) }
{
    for &member in members {
        if bidder_sets::has(set, Bidder(u16::from(member))) {
            return Some(member);
        }
    }
    None
}

// The members, lent in rising order, are put into an order: whether there is one for each turn.
fn put_in_order(order: &mut [u8; 64], table: &[u64; 64], members: &[u8], set: Bidders) -> bool
    requires few { length members.now ≤ 64 }
    requires bidders { (k : ℕ) → k < length members.now → (0 < get_or members.now k 0) × (get_or members.now k 0 ≤ 64) }
    ensures all { result ≡ all_found_to (in_table table.now) members.now (in_word set.0) (length members.now) }
    ensures put { result ≡ true → order.new ≡ sets order.old 0 (turns (in_table table.now) members.now (in_word set.0) (length members.now)) }
{
    let mut left = set;
    for k in 0..members.len() {
        let rivals = rivals_of(table, members, left);
        let free = bidder_sets::but(left, rivals);
        let Some(next) = first_in(members, free) else {
            return false;
        };
        order[k] = next;
        left = bidder_sets::without(left, Bidder(u16::from(next)));
    }
    true
}

// Whether the set could share a page, or the first rule that the call breaks, of 4, 5, 23, 24 and 19. A yes has the first order of the members, one byte
// each, at the front of the buffer, and every later byte as it was; a no and a refusal leave every byte as it was.
pub fn share(n: u32, m: u32, members: &[u8], sets: &[u8], res: &mut [u8]) -> Result<bool, Refusal>
    ensures { PageShared n m members.now sets.now res.old (shared_in result) res.new }
{
    slot_terms::check_size(n, m)?;
    let set = bidder_sets::read(members, n).ok_or(Refusal::WrongSet)?;
    let mut table = [0u64; 64];
    read_sets(&mut table, sets, n)?;
    let mut space = [0u8; 64];
    let count = bidder_sets::list(set, n, &mut space);
    let rising = &space[..count];
    if m < count as u32 {
        return Ok(false);
    }
    let mut order = [0u8; 64];
    if !put_in_order(&mut order, &table, rising, set) {
        return Ok(false);
    }
    if res.len() < count {
        return Err(Refusal::ResultTooShort);
    }
    res[..count].copy_from_slice(&order[..count]);
    Ok(true)
}
