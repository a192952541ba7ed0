// Above named rivals: the source's identity-specific profile. A bidder names its rivals; its constraints are, for each rival, all pairs of slots in which the
// rival stands above it, written in rising order of their four bytes.
//
// No sheet is read. The rivals are put into rising order, each once; how many constraints there are is then known before any is written. They go in runs whose
// numbers differ by one step.
#![tactic(auto)]

ghost use Rattle.std.specs.Prelude.{◌≡◌, ℕ, ◌+◌, ◌*◌, ◌<◌, ◌≤◌, length, get_or};
ghost use Rattle.std.proofs.lemmas.List.Edits.{sets};
ghost use Rattle.sheet.specs.Encoded.{quads};
ghost use Rattle.slot_terms.specs.SlotTerms.{written_in};
ghost use Rattle.above_terms.specs.AboveTerms.{AboveTermsWritten};
ghost use Rattle.above_terms.specs.EngineAbove.{slot_pairs, all_pairs, slots_above};

use refusal::Refusal;
use sheet::{Bidder, Slot};

// A rival's lowest slot in a pair is so many above the owner's.
const ABOVE: u32 = 1;

// How many pairs of slots 1 to m have one above the other.
pub fn slots_above(m: u32) -> usize
    requires { (0 < m) × (m ≤ 16) }
    ensures { result ≡ slots_above m }
{
    ((m - ABOVE) * (m + 1 - ABOVE) / 2) as usize
}

// The constraints with the owner at one slot are written at an offset: for each rival, in the order of the list, those with the rival at each slot above. Where
// they end is returned.
fn put_slot(res: &mut [u8], start: usize, owner: Bidder, own: Slot, others: &[u8]) -> usize
    requires bidder { owner.0 ≤ 64 }
    requires first { 0 < own.0 }
    requires last { own.0 ≤ 16 }
    requires low { (j : ℕ) → j < length others.now → get_or others.now j 0 ≤ 64 }
    requires room { start + 4 * length (slot_pairs owner.0 own.0 others.now (length others.now)) ≤ length res.old }
    ensures end { result ≡ start + 4 * length (slot_pairs owner.0 own.0 others.now (length others.now)) }
    ensures written { res.new ≡ sets res.old start (quads (slot_pairs owner.0 own.0 others.now (length others.now))) }
{
    let above = (u32::from(own.0) - ABOVE) as usize;
    let mut at = start;
    for other in others {
        let top = slot_terms::word_of(owner, own, Bidder(u16::from(*other)), Slot(1));
        slot_terms::put_run(res, at, top, slot_terms::OTHERS_STEP, above);
        at += 4 * above;
    }
    at
}

// All of them are written at the front of the buffer, slot by slot.
fn put_all(res: &mut [u8], owner: Bidder, m: u32, others: &[u8])
    requires bidder { owner.0 ≤ 64 }
    requires slots { m ≤ 16 }
    requires low { (j : ℕ) → j < length others.now → get_or others.now j 0 ≤ 64 }
    requires room { 4 * length (all_pairs owner.0 others.now m) ≤ length res.old }
    ensures { res.new ≡ sets res.old 0 (quads (all_pairs owner.0 others.now m)) }
{
    let mut at = 0;
    for k in 0..m as u8 {
        at = put_slot(res, at, owner, Slot(k + 1), others);
    }
}

// How many constraints are written, which stand at the front of the buffer, with every later byte as it was; or the first rule that the call breaks,
// of 4, 5, 16, 23 to 25 and 19, with every byte of the buffer as it was.
pub fn write(n: u32, m: u32, owner: u32, rivals: &[u8], res: &mut [u8]) -> Result<u32, Refusal>
    ensures { AboveTermsWritten n m owner rivals.now res.old (written_in result) res.new }
{
    slot_terms::check_owner(n, m, owner)?;
    let set = bidder_sets::read(rivals, n).ok_or(Refusal::WrongSet)?;
    let owner = Bidder(owner as u16);
    if bidder_sets::has(set, owner) {
        return Err(Refusal::RivalIsOwner);
    }
    let mut space = [0u8; 64];
    let count = bidder_sets::list(set, n, &mut space);
    let others = &space[..count];
    let each = slots_above(m);
    let pairs = others.len() * each;
    if 1024 < pairs {
        return Err(Refusal::TooManyTerms);
    }
    if res.len() < 4 * pairs {
        return Err(Refusal::ResultTooShort);
    }
    put_all(res, owner, m, others);
    Ok(pairs as u32)
}
