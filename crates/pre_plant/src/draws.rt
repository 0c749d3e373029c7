ghost use Rattle.std.specs.Prelude.{◌≡◌, ◌<◌, length, IfOk};
ghost use Rattle.pre_plant.specs.Draws.{next_state, draws_of, draw};

use std::alloc::{AllocError, Global};

/// How many draws a plant takes.
pub(crate) const COUNT: usize = 360;

/// The multiplier of the generator, whose states are numbers below 2^64.
const MULTIPLIER: u64 = 6364136223846793005;

/// Its increment.
const INCREMENT: u64 = 1442695040888963407;

/// The lower bits of a state, which a draw leaves out.
const LEFT_OUT: u32 = 33;

fn next_state(state: u64) -> u64
    ensures { result ≡ next_state state }
{
    state.wrapping_mul(MULTIPLIER).wrapping_add(INCREMENT)
}

/// All draws of the plant of this number, in order.
pub(crate) fn draws_of(alloc: Global, number: u64) -> Result<Vec<u64>, AllocError>
    ensures { IfOk result (λ draws. draws.items ≡ draws_of number) }
{
    let mut draws = Vec::new(alloc);
    let mut state = number;
    for _count in 0..COUNT {
        state = next_state(state);
        draws.push(state >> LEFT_OUT)?;
    }
    Ok(draws)
}

/// The draw of this number, below a bound.
pub(crate) fn draw(draws: &[u64], number: usize, below: u64) -> u64
    requires there { number < length draws.now }
    requires some { 0 < below }
    ensures value { result ≡ draw draws.now number below }
    ensures within { result < below }
{
    draws[number] % below
}
