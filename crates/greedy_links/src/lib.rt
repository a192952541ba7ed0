// Every constraint as one link of two keys that must not both be true of a page, and what the links of one chain say.
//
// A key is a bidder at a slot, or at any slot, in one number; key 0 is always so. A constraint is broken exactly when both its keys are true.
// One of them is its chain's: the other bidder at the other's slot, or, of an own-slot constraint, the owner at that slot. The second is its
// owner's: the owner at its own slot, or at any slot, or, of an own-slot constraint, always so.
//
// So the constraints that a bidder at a slot could break are along one chain. It goes from the last link of a key (`last`) to the one before
// it with the same key (`links`), and so on; links are counted from 1 there, and 0 ends a chain. The owner's key of a link is worked out
// where the link is met, from the sheet: most links are met by nobody. Lists of links and marks are lent as numbers; what is a bidder, a
// slot or a key becomes a type where it is read.
#![tactic(auto)]

ghost use Rattle.std.specs.Prelude.{◌||◌, ◌≡◌, ℕ, suc, ◌<◌, ◌≤◌, eqb, length};
ghost use Rattle.sheet.specs.Sheet.{constraint_count, constraints_start};
ghost use Rattle.sheet.specs.Refusal.{Accepted};
ghost use Rattle.sheet.specs.Round.{constraint_at, round_of};
ghost use Rattle.sheet.specs.Proper.{Proper};
ghost use Rattle.greedy_links.specs.EngineKeys.{key, chain_bidder, chain_slot, owner_bidder, owner_slot, is_marked, made_so};
ghost use Rattle.greedy_links.specs.EngineLinks.{link_key, link_owner, Linked, Kept, some_owner_of, named_for};

use sheet::{Bidder, Constraint, Kind, Round, Slot};

// A key for each of 64 bidders at each of 16 slots and at any slot, and the one that is always so.
pub const KEYS: usize = 1089;
// A link for each of 1,024 constraints ("0 to 1,024").
pub const LINKS: usize = 1024;

// Whose chain a link is in: a bidder at a slot.
#[derive(Clone, Copy)]
pub struct ChainKey(pub u16);

// Where a constraint's owner must stand: a bidder at a slot, at any slot where that is 0; always so where the bidder is nobody.
#[derive(Clone, Copy, PartialEq, Eq)]
pub struct OwnerKey(pub u16);

// The owner's key that is always so.
const ALWAYS_SO: OwnerKey = OwnerKey(0);

// By whose constraints a candidate is named where it would stand: by an earlier winner's; or, told only where that is not so, by itself, with an
// own-slot constraint. (Its other constraints name others, and bar it by their marks.)
#[derive(Clone, Copy)]
pub struct Named {
    pub earlier: bool,
    pub itself: bool,
}

// A bidder at a slot, or at any slot where that is 0, in one number.
fn key(bidder: Bidder, slot: Slot) -> u16
    requires { (bidder.0 ≤ 64) × (slot.0 ≤ 16) }
    ensures { result ≡ key bidder.0 slot.0 }
{
    64 * u16::from(slot.0) + bidder.0
}

// The key of the chain of a bidder at a slot.
pub fn chain_key(bidder: Bidder, slot: Slot) -> ChainKey
    requires { (bidder.0 ≤ 64) × (slot.0 ≤ 16) }
    ensures { result.0 ≡ key bidder.0 slot.0 }
{
    ChainKey(key(bidder, slot))
}

// The key of an owner at a slot, slot 0 for any slot.
pub fn owner_key(bidder: Bidder, slot: Slot) -> OwnerKey
    requires { (bidder.0 ≤ 64) × (slot.0 ≤ 16) }
    ensures { result.0 ≡ key bidder.0 slot.0 }
{
    OwnerKey(key(bidder, slot))
}

// Whether an owner's key is marked.
#[tactic(auto, unfolding(crate::specs::EngineKeys::is_marked))]
pub fn is_marked(marks: &[u8], owner: OwnerKey) -> bool
    requires { owner.0 < length marks.now }
    ensures { result ≡ is_marked marks.now owner.0 }
{
    marks[owner.0 as usize] != 0
}

// One more key is marked.
fn mark(marks: &mut [u8], owner: OwnerKey)
    requires { owner.0 < length marks.old }
    ensures { (x : ℕ) → is_marked marks.new x ≡ (is_marked marks.old x || eqb x owner.0) }
{
    marks[owner.0 as usize] = 1;
}

// The two keys, part by part: chosen by a match of its own each, the machine has no branch on a kind that it cannot foretell.
#[tactic(auto, unfolding(crate::specs::EngineKeys::chain_bidder))]
fn chain_bidder(owner: Bidder, kind: Kind) -> Bidder
    ensures { result.0 ≡ chain_bidder owner.0 kind }
{
    match kind {
        Kind::OwnSlot(_) => owner,
        Kind::OtherSlot(other, _) => other,
        Kind::Pair(_, other, _) => other,
    }
}

#[tactic(auto, unfolding(crate::specs::EngineKeys::chain_slot))]
fn chain_slot(kind: Kind) -> Slot
    ensures { result.0 ≡ chain_slot kind }
{
    match kind {
        Kind::OwnSlot(slot) => slot,
        Kind::OtherSlot(_, slot) => slot,
        Kind::Pair(_, _, slot) => slot,
    }
}

#[tactic(auto, unfolding(crate::specs::EngineKeys::owner_bidder))]
fn owner_bidder(owner: Bidder, kind: Kind) -> Bidder
    ensures { result.0 ≡ owner_bidder owner.0 kind }
{
    match kind {
        Kind::OwnSlot(_) => Bidder(0),
        Kind::OtherSlot(_, _) => owner,
        Kind::Pair(_, _, _) => owner,
    }
}

#[tactic(auto, unfolding(crate::specs::EngineKeys::owner_slot))]
fn owner_slot(kind: Kind) -> Slot
    ensures { result.0 ≡ owner_slot kind }
{
    match kind {
        Kind::OwnSlot(_) => Slot(0),
        Kind::OtherSlot(_, _) => Slot(0),
        Kind::Pair(own, _, _) => own,
    }
}

// The owner's key of a link.
fn owner_at(sheet: &[u8], start: usize, number: usize) -> OwnerKey
    requires { Accepted sheet.now × (start ≡ constraints_start sheet.now) × (number < constraint_count sheet.now) }
    ensures { result.0 ≡ link_owner (round_of sheet.now) number }
{
    let constraint = sheet_read::constraint_at(sheet, start, number);
    let owner = constraint.owner;
    let kind = constraint.kind;
    owner_key(owner_bidder(owner, kind), owner_slot(kind))
}

// A constraint becomes the last link of its chain, and the last one until now comes before it.
fn link(last: &mut [u16], links: &mut [u16], chain: ChainKey, number: usize)
    requires { (length last.old ≡ 1089) × (length links.old ≡ 1024) × (chain.0 ≤ 1088) × (number < 1024) }
    ensures { (q : Round) → chain.0 ≡ link_key q number → Linked q number last.old links.old → Linked q (suc number) last.new links.new }
{
    let at = chain.0 as usize;
    links[number] = last[at];
    last[at] = (number + 1) as u16;
}

// One more constraint is linked.
fn enter(last: &mut [u16], links: &mut [u16], constraint: Constraint, number: usize)
    requires { (length last.old ≡ 1089) × (length links.old ≡ 1024) × Proper constraint × (number < 1024) }
    ensures { (q : Round) → constraint_at q number ≡ constraint → Linked q number last.old links.old → Linked q (suc number) last.new links.new }
{
    let owner = constraint.owner;
    let kind = constraint.kind;
    let chain = chain_key(chain_bidder(owner, kind), chain_slot(kind));
    link(last, links, chain, number);
}

// The constraints of an accepted sheet are linked, in lent lists of zeros. The round is made here and used where it was made.
pub fn link_all(last: &mut [u16], links: &mut [u16], sheet: &[u8])
    requires { Accepted sheet.now × Linked (round_of sheet.now) 0 last.old links.old }
    ensures { Linked (round_of sheet.now) (round_of sheet.now).used last.new links.new }
{
    let round = sheet_read::accepted_round(sheet);
    let constraints = &round.constraints[..round.used];
    for (i, constraint) in constraints.iter().enumerate() {
        enter(last, links, *constraint, i);
    }
}

// A winner stands at its slot: the keys that this makes true are marked.
pub fn hold(held: &mut [u8], winner: Bidder, at: Slot)
    requires { (length held.old ≡ 1089) × (winner.0 ≤ 64) × (at.0 ≤ 16) }
    ensures { (x : ℕ) → is_marked held.new x ≡ (is_marked held.old x || made_so winner.0 at.0 x) }
{
    let anywhere = owner_key(winner, Slot(0));
    mark(held, anywhere);
    let there = owner_key(winner, at);
    mark(held, there);
}

// A chain's key is true: the owners of its links must not stand where their links say, and these keys are marked.
pub fn bar_chain(
    barred: &mut [u8],
    last: &[u16],
    links: &[u16],
    sheet: &[u8],
    start: usize,
    chain: ChainKey,
)
    requires { (length barred.old ≡ 1089) × (chain.0 ≤ 1088) × Kept sheet.now start last.now links.now }
    ensures { (y : ℕ) → is_marked barred.new y ≡ (is_marked barred.old y || some_owner_of (round_of sheet.now) chain.0 (λ z. eqb z y) (round_of sheet.now).used) }
{
    let mut next = last[chain.0 as usize] as usize;
    while next != 0 {
        let owner = owner_at(sheet, start, next - 1);
        mark(barred, owner);
        next = links[next - 1] as usize;
    }
}

// By whose constraints a chain's bidder is named at the chain's slot: an earlier winner's, of which the owner stands where it says; or, where there
// is none, an own-slot constraint of its own, which is always so.
pub fn named_by(
    held: &[u8],
    last: &[u16],
    links: &[u16],
    sheet: &[u8],
    start: usize,
    chain: ChainKey,
) -> Named
    requires { (length held.now ≡ 1089) × (chain.0 ≤ 1088) × Kept sheet.now start last.now links.now }
    ensures { result ≡ named_for (some_owner_of (round_of sheet.now) chain.0 (is_marked held.now) (round_of sheet.now).used) (some_owner_of (round_of sheet.now) chain.0 (λ y. eqb y 0) (round_of sheet.now).used) }
{
    let mut next = last[chain.0 as usize] as usize;
    let mut itself = false;
    while next != 0 {
        let owner = owner_at(sheet, start, next - 1);
        if is_marked(held, owner) {
            return Named {
                earlier: true,
                itself: false,
            };
        }
        itself |= owner == ALWAYS_SO;
        next = links[next - 1] as usize;
    }
    Named {
        earlier: false,
        itself,
    }
}
