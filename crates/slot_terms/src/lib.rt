// Top-of-page terms: the source's slot-specific profile. A bidder gives the lowest slot that it accepts and, for each other bidder, how many top slots that
// one must not have; its constraints are written from these, in rising order of their four bytes.
//
// No sheet is read. How many constraints there are is known before any is written: one for each slot of a bar, and one for each slot below the limit. They go in
// runs whose numbers differ by one step.
#![tactic(auto)]

ghost use Rattle.std.specs.Prelude.{not, ◌||◌, ◌≡◌, ℕ, suc, ◌+◌, ◌*◌, ◌<◌, ◌≤◌, eqb, ltb, length, get_or, OnOk};
ghost use Rattle.std.proofs.lemmas.List.Edits.{sets};
ghost use Rattle.basis.specs.Bytes.{bytes32};
ghost use Rattle.basis.specs.Rows.{joined};
ghost use Rattle.basis.specs.Tests.{any_below};
ghost use Rattle.sheet.specs.Encoded.{quads};
ghost use Rattle.refusal.specs.Numbers.{number_in};
ghost use Rattle.slot_terms.specs.SlotTerms.{bar_for, barred, size_refusal, owner_refusal, profile_refusal, written_in, OwnerFits, TermsFit, SlotTermsWritten};
ghost use Rattle.slot_terms.specs.EngineTerms.{word_of, bars_to};

use refusal::Refusal;
use sheet::{Bidder, Slot};

// How far a constraint's number rises with its own slot, and with its other's slot.
const OWN_STEP: u32 = 1 << 8;

pub const OTHERS_STEP: u32 = 1 << 24;

// The first of 4 and 5 that numbers of bidders and slots break: none for those that a sheet can have.
#[tactic(auto, unfolding(crate::specs::SlotTerms::size_refusal), using(std::proofs::lemmas::Bool::Decides::nat_tests))]
pub fn check_size(n: u32, m: u32) -> Result<(), Refusal>
    ensures number { number_in result ≡ size_refusal n m }
    ensures fits { OnOk result ((0 < n) × (n ≤ 64) × (0 < m) × (m ≤ 16)) }
{
    if n == 0 || 64 < n {
        return Err(Refusal::WrongBidders);
    }
    if m == 0 || 16 < m {
        return Err(Refusal::WrongSlots);
    }
    Ok(())
}

// The first of 4, 5 and 16: none for an owner that a sheet of n bidders and m slots can have.
#[tactic(auto, unfolding(crate::specs::SlotTerms::owner_refusal), using(std::proofs::lemmas::Bool::Decides::nat_tests))]
pub fn check_owner(n: u32, m: u32, owner: u32) -> Result<(), Refusal>
    ensures number { number_in result ≡ owner_refusal n m owner }
    ensures fits { OnOk result (OwnerFits n m owner) }
{
    check_size(n, m)?;
    if owner == 0 || n < owner {
        return Err(Refusal::WrongBidder);
    }
    Ok(())
}

// Whether the list of bars is not n long, or has a bar above m.
fn bars_wrong(bars: &[u8], n: u32, m: u32) -> bool
    ensures { result ≡ (not (eqb (length bars.now) n) || any_below (λ i. ltb m (bar_for bars.now (suc i))) n) }
{
    bars.len() != n as usize || bars.iter().any(|bar| m < u32::from(*bar))
}

// The first of 20 to 22: none for a limit and bars that give constraints.
#[tactic(auto, unfolding(crate::specs::SlotTerms::profile_refusal), using(std::proofs::lemmas::Bool::Decides::nat_tests, crate::proofs::RefusalLaws::bar_at))]
fn check_profile(n: u32, m: u32, owner: u32, limit: u32, bars: &[u8]) -> Result<(), Refusal>
    requires { OwnerFits n m owner }
    ensures number { number_in result ≡ profile_refusal n m owner limit bars.now }
    ensures fits { OnOk result (TermsFit n m owner limit bars.now) }
{
    if limit == 0 || m < limit {
        return Err(Refusal::WrongLimit);
    }
    if bars_wrong(bars, n, m) {
        return Err(Refusal::WrongBars);
    }
    if bars[owner as usize - 1] != 0 {
        return Err(Refusal::BarAgainstOwner);
    }
    Ok(())
}

// The bars together.
fn sum_bars(bars: &[u8]) -> usize
    requires few { length bars.now ≤ 64 }
    requires low { (i : ℕ) → i < length bars.now → get_or bars.now i 0 ≤ 16 }
    ensures together { result ≡ bars_to bars.now (length bars.now) }
    ensures most { result ≤ 1024 }
{
    bars.iter().map(|bar| usize::from(*bar)).sum()
}

// A constraint as the number of its four bytes, low byte first: the owner is the lowest.
pub fn word_of(owner: Bidder, own: Slot, other: Bidder, others: Slot) -> u32
    requires { (owner.0 < 256) × (own.0 < 256) × (other.0 < 256) × (others.0 < 256) }
    ensures { result ≡ word_of owner.0 own.0 other.0 others.0 }
{
    u32::from_le_bytes([owner.0 as u8, own.0, other.0 as u8, others.0])
}

// Numbers are written at an offset one after another, each a step above the one before it.
pub fn put_run(res: &mut [u8], at: usize, first: u32, step: u32, count: usize)
    requires { (at + 4 * count ≤ length res.old) × (first + step * count < 4294967296) }
    ensures { res.new ≡ sets res.old at (joined (λ k. bytes32 (first + step * k)) count) }
{
    let mut word = first;
    for k in 0..count {
        basis::put_word32(res, at + 4 * k, word);
        word += step;
    }
}

// The constraints of all bars are written at an offset: for each bidder, by its number, those that keep it from slots 1 to its bar.
fn put_all_barred(res: &mut [u8], start: usize, owner: Bidder, bars: &[u8])
    requires few { length bars.now ≤ 64 }
    requires bidder { owner.0 ≤ 64 }
    requires low { (i : ℕ) → i < length bars.now → get_or bars.now i 0 ≤ 16 }
    requires room { start + 4 * bars_to bars.now (length bars.now) ≤ length res.old }
    ensures { res.new ≡ sets res.old start (quads (joined (λ i. barred owner.0 (suc i) (bar_for bars.now (suc i))) (length bars.now))) }
{
    let mut at = start;
    for (i, bar) in bars.iter().enumerate() {
        let bar = usize::from(*bar);
        let top = word_of(owner, Slot(0), Bidder(i as u16 + 1), Slot(1));
        put_run(res, at, top, OTHERS_STEP, bar);
        at += 4 * bar;
    }
}

// How many constraints are written, which stand at the front of the buffer, with every later byte as it was; or the first rule that the call breaks,
// of 4, 5, 16, 20 to 22 and 19, with every byte of the buffer as it was.
pub fn write(
    n: u32,
    m: u32,
    owner: u32,
    limit: u32,
    bars: &[u8],
    res: &mut [u8],
) -> Result<u32, Refusal>
    ensures { SlotTermsWritten n m owner limit bars.now res.old (written_in result) res.new }
{
    check_owner(n, m, owner)?;
    check_profile(n, m, owner, limit, bars)?;
    let by_bars = sum_bars(bars);
    let first = limit + 1;
    let by_limit = (m + 1 - first) as usize;
    let bars_length = 4 * by_bars;
    let limit_length = 4 * by_limit;
    if res.len() < bars_length + limit_length {
        return Err(Refusal::ResultTooShort);
    }
    let owner = Bidder(owner as u16);
    put_all_barred(res, 0, owner, bars);
    let below = word_of(owner, Slot(first as u8), Bidder(0), Slot(0));
    put_run(res, bars_length, below, OWN_STEP, by_limit);
    Ok((by_bars + by_limit) as u32)
}
