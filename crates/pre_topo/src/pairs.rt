ghost use Rattle.std.specs.Prelude.{◌≡◌, IfOk, ◌∷◌, []};
ghost use Rattle.pre_topo.specs.Pair.{station, pair_arc, pair_nodes, pair_arcs, default_timing};
ghost use Rattle.pre_topo.specs.PairNetwork.{IsPair};

use crate::{Arc, Mode, Network, Node, NodeKind, Policy, Timing};
use pre_base::{Items, Name, NodeId};
use std::alloc::{AllocError, Global};

fn default_timing() -> Timing
    ensures { result ≡ default_timing }
{
    Timing {
        interval: 30_000_000_000,
        ttl: 120,
        unit: 1_000_000_000,
        verify: 10_000_000,
    }
}

fn station_named(alloc: Global, name: &str) -> Result<Node, AllocError>
    ensures { IfOk result (λ n. n ≡ station name.now) }
{
    Ok(Node {
        name: Name::copied(alloc, name)?,
        kind: NodeKind::Station,
        latency: 0,
    })
}

fn pair_nodes(alloc: Global) -> Result<Items<Node>, AllocError>
    ensures { IfOk result (λ nodes. nodes ≡ pair_nodes) }
{
    let mut nodes = Items::new(alloc);
    nodes.push(station_named(alloc, "a")?)?;
    nodes.push(station_named(alloc, "b")?)?;
    Ok(nodes)
}

fn pair_arc(from: NodeId, to: NodeId) -> Arc
    ensures { result ≡ record pair_arc { from = from; to = to } }
{
    Arc {
        from,
        to,
        cost: 1,
        delay: 0,
        mode: Mode::On,
        policy: Policy::Quiet,
        add_frag: 0,
        rings: [64; 8],
        express_from: 4,
        largest: 1522,
    }
}

fn pair_arcs(alloc: Global) -> Result<Items<Arc>, AllocError>
    ensures { IfOk result (λ arcs. arcs ≡ pair_arcs) }
{
    let arcs = [
        pair_arc(NodeId(0), NodeId(1)),
        pair_arc(NodeId(1), NodeId(0)),
    ];
    Ok(Items::from_vec(arcs.to_vec(alloc)?))
}

/// The built-in network: stations `a` and `b`, and a link between them that preempts, of one tick an octet,
/// no delay, rings of 64 frames, express priorities from 4 on and preemptable frames up to 1522 octets.
pub fn pair(alloc: Global) -> Result<Network, AllocError>
    ensures { IfOk result IsPair }
{
    Ok(Network {
        express_from: 4,
        timing: default_timing(),
        nodes: pair_nodes(alloc)?,
        arcs: pair_arcs(alloc)?,
    })
}
