// Sets of bidders: lists of numbers that callers lend, each read into one word, a bit for each of 64 bidders. A repeat sets a bit that is set.
#![tactic(auto)]

ghost use Rattle.std.specs.Prelude.{true, not, ◌&&◌, ◌||◌, ◌≡◌, ℕ, ◌<◌, ◌≤◌, ◌↔◌, eqb, ltb, length, IsNone, IfSome};
ghost use Rattle.std.proofs.lemmas.List.Edits.{sets};
ghost use Rattle.bidder_sets.specs.BidderSets.{in_set, numbers_wrong, set_at, end_at};
ghost use Rattle.bidder_sets.specs.EngineSets.{in_word, Holds, rising_members};

use sheet::Bidder;

// A set of bidders, a bit each, bidder 1's the lowest.
#[derive(Clone, Copy, Debug, PartialEq, Eq)]
pub struct Bidders(pub u64);

// One of several sets lent one after another, and where it ends.
#[derive(Clone, Copy)]
pub struct NextSet {
    pub bidders: Bidders,
    pub end: usize,
}

// Whether a bidder is in a set.
pub fn has(set: Bidders, bidder: Bidder) -> bool
    requires { (0 < bidder.0) × (bidder.0 ≤ 64) }
    ensures { result ≡ in_word set.0 bidder.0 }
{
    (set.0 >> (bidder.0 - 1)) % 2 != 0
}

// One bidder alone.
fn only(bidder: Bidder) -> Bidders
    requires { (0 < bidder.0) × (bidder.0 ≤ 64) }
    ensures { Holds result.0 (λ b. eqb b bidder.0) }
{
    Bidders(1u64 << (bidder.0 - 1))
}

// Either set.
pub fn either(set: Bidders, more: Bidders) -> Bidders
    ensures { (b : ℕ) → in_word result.0 b ≡ (in_word set.0 b || in_word more.0 b) }
{
    Bidders(set.0 | more.0)
}

// A set and one bidder more, which it may have.
pub fn with(set: Bidders, bidder: Bidder) -> Bidders
    requires { (0 < bidder.0) × (bidder.0 ≤ 64) }
    ensures { Holds result.0 (λ b. in_word set.0 b || eqb b bidder.0) }
{
    either(set, only(bidder))
}

// What is in one set and not in another.
pub fn but(set: Bidders, others: Bidders) -> Bidders
    ensures { (b : ℕ) → in_word result.0 b ≡ (in_word set.0 b && not (in_word others.0 b)) }
{
    Bidders((set.0 | others.0) ^ others.0)
}

// A set without one bidder.
pub fn without(set: Bidders, bidder: Bidder) -> Bidders
    requires { (0 < bidder.0) × (bidder.0 ≤ 64) }
    ensures { Holds result.0 (λ b. in_word set.0 b && not (eqb b bidder.0)) }
{
    but(set, only(bidder))
}

// The set that a list names, or none where one of its numbers is 0 or above n.
pub fn read(set: &[u8], n: u32) -> Option<Bidders>
    requires { n ≤ 64 }
    ensures wrong { IsNone result ↔ (numbers_wrong n set.now ≡ true) }
    ensures named { IfSome result (λ bidders. Holds bidders.0 (in_set set.now)) }
{
    let mut bidders = Bidders(0);
    for &number in set {
        if number == 0 || n < u32::from(number) {
            return None;
        }
        bidders = with(bidders, Bidder(u16::from(number)));
    }
    Some(bidders)
}

// The set whose length stands at a byte, or none where it runs past the bytes or one of its numbers is 0 or above n.
pub fn read_at(sets: &[u8], at: usize, n: u32) -> Option<NextSet>
    requires { n ≤ 64 }
    ensures wrong { IsNone result ↔ ((ltb (length sets.now) (end_at sets.now at) || numbers_wrong n (set_at sets.now at)) ≡ true) }
    ensures named { IfSome result (λ next. (next.end ≡ end_at sets.now at) × Holds next.bidders.0 (in_set (set_at sets.now at))) }
{
    let length = usize::from(*sets.get(at)?);
    let start = at + 1;
    let set = sets[start..].get(..length)?;
    let bidders = read(set, n)?;
    Some(NextSet {
        bidders,
        end: start + length,
    })
}

// The bidders of a set, up to bidder n, in rising order at the front of a space: how many they are.
pub fn list(set: Bidders, n: u32, space: &mut [u8; 64]) -> usize
    requires { n ≤ 64 }
    ensures { (result ≡ length (rising_members (in_word set.0) n)) × (space.new ≡ sets space.old 0 (rising_members (in_word set.0) n)) }
{
    let mut count = 0;
    for i in 0..n as u8 {
        let number = i + 1;
        if has(set, Bidder(u16::from(number))) {
            space[count] = number;
            count += 1;
        }
    }
    count
}
