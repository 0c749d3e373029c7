ghost use Rattle.std.specs.Prelude.{◌≡◌, IfOk, ◌∷◌, [], codes, Some, None};
ghost use Rattle.pre_streams.specs.Pair.{pair_row, IsPairCurve};
ghost use Rattle.pre_streams.specs.PairStreams.{IsPair};
ghost use Rattle.pre_streams.specs.Fits.{Fits};
ghost use Rattle.pre_topo.specs.PairNetwork as network;
ghost use Rattle.pre_topo.specs.declared.network.Network.{Network};

use crate::{Row, Streams};
use pre_base::{ArcId, Items, Name, NodeId, Prio};
use pre_curve::Curve;
use std::alloc::{AllocError, Global};

fn pair_row(
    alloc: Global,
    name: &str,
    vid: u16,
    prio: Prio,
    curve: Option<Curve>,
) -> Result<Row, AllocError>
    ensures { IfOk result (λ r. r ≡ pair_row name.now vid prio curve) }
{
    Ok(Row {
        name: Name::copied(alloc, name)?,
        vid,
        prio,
        route: Items::from_vec([NodeId(0), NodeId(1)].to_vec(alloc)?),
        arcs: Items::from_vec([ArcId(0)].to_vec(alloc)?),
        max: 1522,
        curve,
    })
}

fn pair_curve() -> Curve
    ensures { IsPairCurve result }
{
    Curve {
        burst: 2000,
        rate: 100_000,
    }
}

/// The built-in streams from `a` to `b` of the network `pair`: the express stream `x` of VID 10 and priority 6,
/// with a burst of 2000 octets and a rate of 100000, and the flow `y` of VID 20 and priority 0, of frames up to 1522 octets.
pub fn pair(alloc: Global) -> Result<Streams, AllocError>
    ensures rows { IfOk result IsPair }
    ensures fits { IfOk result (λ streams. (net : Network) → network.IsPair net → Fits net streams) }
{
    let curve = pair_curve();
    let mut rows = Items::new(alloc);
    rows.push(pair_row(alloc, "x", 10, Prio(6), Some(curve))?)?;
    rows.push(pair_row(alloc, "y", 20, Prio(0), None)?)?;
    Ok(Streams { rows })
}
