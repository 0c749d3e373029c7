ghost use Rattle.std.specs.Prelude.{◌≡◌, ◌*◌, ◌<◌, ◌≤◌, ◌^◌};
ghost use Rattle.std.specs.Option.{SomeIff};
ghost use Rattle.pre_bound.specs.Solutions.{least_delay, least_growth, least_size};

use crate::Certificate;

/// Rates count octets in so many ticks.
const SCALE: u128 = 1_000_000;

/// The number, where a certificate may say it.
fn within_limit(number: u128) -> Option<u64>
    ensures { SomeIff result (number ≤ 10 ^ 12) number }
{
    if number <= u128::from(Certificate::LIMIT) {
        Some(number as u64)
    } else {
        None
    }
}

/// The least delay at a port, in ticks: block and work are ticks, the rate counts wire octets of the higher
/// priorities for each 1,000,000 ticks, the cost is in ticks for an octet. None exactly where it would pass 10^12.
pub fn hop_delay(block: u64, work: u64, rate: u64, cost: u64) -> Option<u64>
    requires block { block ≤ 10 ^ 12 }
    requires work { work ≤ 10 ^ 12 }
    requires rate { rate ≤ 10 ^ 12 }
    requires cost { cost ≤ 10 ^ 12 }
    requires load { cost * rate < 1_000_000 }
    ensures { SomeIff result (least_delay block work rate cost ≤ 10 ^ 12) (least_delay block work rate cost) }
{
    let left = SCALE - u128::from(cost) * u128::from(rate);
    let busy = SCALE * (u128::from(block) + u128::from(work)) / left;
    within_limit(busy.max(84 * u128::from(cost)))
}

/// The least burst of a stream at its next hop, in wire octets, after this burst, rate and delay at a hop of that cost.
/// None exactly where it would pass 10^12.
pub fn grown(burst: u64, rate: u64, delay: u64, cost: u64) -> Option<u64>
    requires burst { burst ≤ 10 ^ 12 }
    requires rate { rate ≤ 10 ^ 12 }
    requires delay { delay ≤ 10 ^ 12 }
    requires cost { cost ≤ 10 ^ 12 }
    ensures { SomeIff result (least_growth burst rate delay cost ≤ 10 ^ 12) (least_growth burst rate delay cost) }
{
    let spread = u128::from(delay).saturating_sub(84 * u128::from(cost));
    let parts = SCALE * u128::from(burst) + u128::from(rate) * spread;
    within_limit((parts + (SCALE - 1)) / SCALE)
}

/// The least size of a queue, in wire octets, whose streams have these bursts and rates together and this delay.
/// None exactly where it would pass 10^12.
pub fn queue_size(bursts: u64, rate: u64, delay: u64) -> Option<u64>
    requires bursts { bursts ≤ 10 ^ 12 }
    requires rate { rate ≤ 10 ^ 12 }
    requires delay { delay ≤ 10 ^ 12 }
    ensures { SomeIff result (least_size bursts rate delay ≤ 10 ^ 12) (least_size bursts rate delay) }
{
    let parts = SCALE * u128::from(bursts) + u128::from(rate) * u128::from(delay);
    within_limit(parts / SCALE)
}
