// The floors of a call: what a lent list of them must be, for a page of so many slots (document 02, S-7).
#![tactic(auto)]

ghost use Rattle.std.specs.Prelude.{◌≡◌, ◌<◌, ◌≤◌, ltb};
ghost use Rattle.std.specs.List.{list_any};
ghost use Rattle.sheet.specs.Proper.{ProperFloors};
ghost use Rattle.choice.specs.Critical.{floor_asks, Asked};
ghost use Rattle.refusal.specs.Numbers.{number_in};
ghost use Rattle.floors.specs.Floors.{floors_refusal};

use refusal::Refusal;

// "a floor above 1,000,000,000"
const MAX_FLOOR: u32 = 1000000000;

// Whether some floor is above the highest bid that a sheet can have.
fn some_too_high(floors: &[u32]) -> bool
    ensures { result ≡ list_any (λ floor. ltb 1000000000 floor) floors.now }
{
    floors.iter().any(|floor| *floor > MAX_FLOOR)
}

// The first rule that a list of floors breaks for a page of so many slots: 30 where it is not as long as the page, then 31 where a floor is too high.
pub fn check_floors(floors: &[u32], slots: usize) -> Result<(), Refusal>
    ensures { number_in result ≡ floors_refusal slots floors.now }
{
    if floors.len() != slots {
        return Err(Refusal::WrongFloorCount);
    }
    if some_too_high(floors) {
        return Err(Refusal::WrongFloor);
    }
    Ok(())
}

// What a floor asks: the least multiple of the tick that is not below it. No floor asks nothing, and is not divided.
fn floor_asks(tick: u32, floor: u32) -> u32
    requires { (0 < tick) × (tick ≤ 1000000000) × (floor ≤ 1000000000) }
    ensures { result ≡ floor_asks tick floor }
{
    if floor == 0 {
        return 0;
    }
    (floor + (tick - 1)) / tick * tick
}

// What the floors of so many slots ask, with 0 after them.
pub fn asked(floors: &[u32], slots: usize, tick: u32) -> [u32; 16]
    requires { (slots ≤ 16) × ProperFloors slots floors.now × (0 < tick) × (tick ≤ 1000000000) }
    ensures { Asked tick slots floors.now result }
{
    let mut asks = [0u32; 16];
    for (k, floor) in floors[..slots].iter().enumerate() {
        asks[k] = floor_asks(tick, *floor);
    }
    asks
}
