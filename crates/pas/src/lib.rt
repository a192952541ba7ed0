// The fourteen calls as programs see them (include/pas.h is their manual); `pas_c` exports them by the C convention.
//
// Each returns 0 or the number of the first rule that the call breaks. On a refusal nothing lent changes, the answer's own memory
// included.
#![tactic(auto)]

ghost use Rattle.std.specs.Prelude.{◌≡◌};
ghost use Rattle.refusal.specs.Numbers.{number_in};
ghost use Rattle.sheet.specs.Refusal.{refusal_of};
ghost use Rattle.play.specs.Play.{Played, PlayedFloors};
ghost use Rattle.pas.specs.Calls.{DownwardGiven, GainGiven, GainFloorsGiven, BestPageGiven, BestFloorsPageGiven, PartGiven, CanonicalGiven, SlotTermsGiven, AboveTermsGiven, SharePageGiven, LossBoundGiven};
ghost use Rattle.pas.specs.EngineTold.{answer_in, yes_in};

use refusal::Refusal;

// 1 to 13 or 26 to 28, or 0 for an accepted sheet.
pub fn pas_check(sheet: &[u8]) -> u32
    ensures { result ≡ refusal_of sheet.now }
{
    refusal::number_in(sheet_check::check(sheet))
}

// The check's numbers or 19; or 0, with 5 bytes a slot in the buffer, the bidder and the price low byte first, and every later byte as it was.
pub fn pas_play(sheet: &[u8], res: &mut [u8]) -> u32
    ensures { Played sheet.now res.old result res.new }
{
    refusal::number_in(play::play(sheet, res))
}

// What C is told of a call: 0, with the answer in the caller's memory; or the number of the rule that the call breaks, with that memory as it was.
fn tell<T: Copy>(given: Result<T, Refusal>, answer: &mut T) -> u32
    ensures told { result ≡ number_in given }
    ensures written { answer.new ≡ answer_in given answer.old }
{
    match given {
        Ok(value) => {
            *answer = value;
            0
        }
        Err(refusal) => refusal.number(),
    }
}

// An answer of yes or no as C is told it: 1 or 0.
#[tactic(auto, unfolding(crate::specs::Calls::yes_number))]
fn in_number(given: Result<bool, Refusal>) -> Result<u8, Refusal>
    ensures { result ≡ yes_in given }
{
    match given {
        Ok(yes) => Ok(u8::from(yes)),
        Err(refusal) => Err(refusal),
    }
}

// The check's numbers or 16; or 0, with 1 in the answer where the bidder's list is downward monotonic and 0 where it is not.
pub fn pas_downward(sheet: &[u8], bidder: u32, answer: &mut u8) -> u32
    ensures { DownwardGiven sheet.now bidder answer.old result answer.new }
{
    tell(in_number(downward::test(sheet, bidder)), answer)
}

// The check's numbers or 14 to 17; or 0, with the bidder's gain from the played sheet at a worth per click, by its constraints in the truth sheet.
pub fn pas_gain(played: &[u8], truth: &[u8], bidder: u32, worth: u32, gain: &mut i64) -> u32
    ensures { GainGiven played.now truth.now bidder worth gain.old result gain.new }
{
    tell(gain::gain(played, truth, bidder, worth), gain)
}

// The check's numbers, 18 or 19; or 0, with the best page's bidder numbers in the buffer, one byte a slot, every later byte as it was, and the
// page's total.
pub fn pas_best(sheet: &[u8], res: &mut [u8], total: &mut u64) -> u32
    ensures { BestPageGiven sheet.now res.old total.old result res.new total.new }
{
    tell(best_search::best(sheet, res), total)
}

// The check's numbers, 29 or 16; or 0, with how many bytes of the sheet stand before the part with the bidder's constraints, and how many it has.
pub fn pas_owner_part(sheet: &[u8], bidder: u32, start: &mut usize, length: &mut usize) -> u32
    ensures { PartGiven sheet.now bidder start.old length.old result start.new length.new }
{
    match owner_part::part_bounds(sheet, bidder) {
        Ok(part) => {
            *start = part.start;
            *length = part.length;
            0
        }
        Err(refusal) => refusal.number(),
    }
}

// As `pas_play`, with a floor under each slot: the check's numbers, 30, 31 or 19; or 0, with the page and the prices in the buffer.
pub fn pas_play_floors(sheet: &[u8], floors: &[u32], res: &mut [u8]) -> u32
    ensures { PlayedFloors floors.now sheet.now res.old result res.new }
{
    refusal::number_in(play::play_floors(sheet, floors, res))
}

// As `pas_gain`, with a floor under each slot of the played sheet: the check's numbers, 30, 31 or 14 to 17; or 0, with the gain.
pub fn pas_gain_floors(
    played: &[u8],
    floors: &[u32],
    truth: &[u8],
    bidder: u32,
    worth: u32,
    gain: &mut i64,
) -> u32
    ensures { GainFloorsGiven floors.now played.now truth.now bidder worth gain.old result gain.new }
{
    tell(
        gain::gain_floors(played, floors, truth, bidder, worth),
        gain,
    )
}

// As `pas_best`, with a floor under each slot: the check's numbers, 30, 31, 18 or 19; or 0, with the best page and its total.
pub fn pas_best_floors(sheet: &[u8], floors: &[u32], res: &mut [u8], total: &mut u64) -> u32
    ensures { BestFloorsPageGiven floors.now sheet.now res.old total.old result res.new total.new }
{
    tell(best_search::best_floors(sheet, floors, res), total)
}

// The check's numbers or 19; or 0, with the one sheet for the round at the front of the buffer, version 2 with the constraints in order and each once,
// every later byte as it was, and the length of that sheet.
pub fn pas_canonical(sheet: &[u8], res: &mut [u8], written: &mut usize) -> u32
    ensures { CanonicalGiven sheet.now res.old written.old result res.new written.new }
{
    tell(canonical::write(sheet, res), written)
}

// 4, 5, 16, 20 to 22 or 19; or 0, with the owner's constraints by its limit and the bars at the front of the buffer, four bytes each in rising order, every
// later byte as it was, and how many they are. No sheet is read.
pub fn pas_slot_terms(
    n: u32,
    m: u32,
    owner: u32,
    limit: u32,
    bars: &[u8],
    res: &mut [u8],
    count: &mut u32,
) -> u32
    ensures { SlotTermsGiven n m owner limit bars.now res.old count.old result res.new count.new }
{
    tell(slot_terms::write(n, m, owner, limit, bars, res), count)
}

// 4, 5, 16, 23 to 25 or 19; or 0, with the owner's constraints by its rivals at the front of the buffer, four bytes each in rising order, every later byte as
// it was, and how many they are. No sheet is read.
pub fn pas_above_terms(
    n: u32,
    m: u32,
    owner: u32,
    rivals: &[u8],
    res: &mut [u8],
    count: &mut u32,
) -> u32
    ensures { AboveTermsGiven n m owner rivals.now res.old count.old result res.new count.new }
{
    tell(above_terms::write(n, m, owner, rivals, res), count)
}

// 4, 5, 23, 24 or 19; or 0, with 1 in the answer where the members could share a page, each above every rival of its own among them, and then their first such
// order at the front of the buffer, one byte each, every later byte as it was; and with 0 in the answer where they could not, and every byte as it was.
pub fn pas_share_page(
    n: u32,
    m: u32,
    members: &[u8],
    sets: &[u8],
    res: &mut [u8],
    answer: &mut u8,
) -> u32
    ensures { SharePageGiven n m members.now sets.now res.old answer.old result res.new answer.new }
{
    tell(
        in_number(share_page::share(n, m, members, sets, res)),
        answer,
    )
}

// The check's numbers; or 0, with the factor: d + 1 where all lists come from "above named rivals" and d is the largest number of bidders that name one same
// rival, and 0 where not.
pub fn pas_loss_bound(sheet: &[u8], factor: &mut u32) -> u32
    ensures { LossBoundGiven sheet.now factor.old result factor.new }
{
    tell(loss_bound::bound(sheet), factor)
}
