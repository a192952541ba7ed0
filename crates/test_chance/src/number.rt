// Numbers that look random and are the same in every run.
ghost use Rattle.std.specs.Prelude.{◌<◌, ◌≤◌};

// The next state (xorshift). A state of 0 stays 0, so a seed is not 0.
fn step(state: u64) -> u64 {
    let first = state ^ (state << 13);
    let second = first ^ (first >> 7);
    second ^ (second << 17)
}

// The remainder, which fits where the divisor does.
fn remainder(drawn: u64, divisor: u64) -> u32
    requires { (0 < divisor) × (divisor ≤ 4294967296) }
    ensures { result < divisor }
{
    (drawn % divisor) as u32
}

// A number from 0 to `most`.
pub fn up_to(state: &mut u64, most: u32) -> u32
    ensures { result ≤ most }
{
    let drawn = step(*state);
    *state = drawn;
    remainder(drawn >> 20, u64::from(most) + 1)
}

// A number below the limit.
pub fn below(state: &mut u64, limit: u32) -> u32
    requires { 0 < limit }
    ensures { result < limit }
{
    up_to(state, limit - 1)
}

// A number from `least` to `most`, or `least` where it is the larger.
pub fn between(state: &mut u64, least: u32, most: u32) -> u32 {
    if least < most {
        return least + up_to(state, most - least);
    }
    least
}

// True once in `times`, on average.
pub fn once_in(state: &mut u64, times: u32) -> bool
    requires { 0 < times }
{
    below(state, times) == 0
}
