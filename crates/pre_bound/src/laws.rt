ghost use Rattle.std.specs.Prelude.{ℕ, ◌*◌, ◌<◌};
ghost use Rattle.pre_bound.specs.Solutions.{CoversDelay, CoversGrowth, CoversQueue, IsLeast, least_delay, least_growth, least_size};
ghost use Rattle.pre_bound.specs.Complete.{GoodPassNowhere, GoodHaveRoom, SettledAlike};
ghost use Rattle.pre_bound.specs.Promises.{BoundsWithin, BurstsWithin, FollowsWithin, GoodAreAtLeast, RanksRise, SameNumbers, SettledAreGood, SettledAreLeast, SettledIsLeast};

/// What `hop_delay`, `grown` and `queue_size` give are the least numbers that cover.
pub fn least_solutions()
    ensures delay { (block work rate cost : ℕ) → cost * rate < 1_000_000 → IsLeast (CoversDelay block work rate cost) (least_delay block work rate cost) }
    ensures growth { (burst rate delay cost : ℕ) → IsLeast (CoversGrowth burst rate delay cost) (least_growth burst rate delay cost) }
    ensures size { (bursts rate delay : ℕ) → IsLeast (CoversQueue bursts rate delay) (least_size bursts rate delay) }
{}

/// Ranks that are longest chains, and delays each of which is the least one over the delays at the hops before it, give good
/// numbers, which are at most those of every good certificate with ranks: a certificate that says them is the least one.
pub fn settled_law()
    ensures good { SettledAreGood }
    ensures least { SettledAreLeast }
    ensures certificate { SettledIsLeast }
{}

/// Each number of a good certificate is at least the least solution of its clause over the numbers before it.
pub fn good_law()
    ensures { GoodAreAtLeast }
{}

/// A port's least numbers depend on the delays at arcs of lower ranks alone, and ranks that are longest chains rise along
/// each route, whose arcs are the network's.
pub fn order_law()
    ensures same { SameNumbers }
    ensures rise { RanksRise }
    ensures within { FollowsWithin }
{}

/// Where no port passes the limit, no settled burst and no bound does.
pub fn limit_law()
    ensures bursts { BurstsWithin }
    ensures bounds { BoundsWithin }
{}

/// Where there is a good certificate, no port passes the limit over delays that are settled before it, and each ring has
/// room for the least size of its port. Settled delays give the same numbers whatever settles them.
pub fn completeness_law()
    ensures ports { GoodPassNowhere }
    ensures rings { GoodHaveRoom }
    ensures alike { SettledAlike }
{}
