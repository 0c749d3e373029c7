ghost use Rattle.std.specs.Prelude.{◌≡◌, ◌<◌, ◌+◌, ◌++◌, IfOk, OnOk};
ghost use Rattle.std.specs.Fmt.{decimal};
ghost use Rattle.pre_plant.specs.Lists.{list_of, joined_of};
ghost use Rattle.pre_plant.specs.Networks.{plant_timing, bridge, station, plant_nodes, arc_between, link_between, chain_link, station_link, plant_arcs, IsPlantNetwork};

use pre_base::{Items, Name, NodeId};
use pre_topo::{Arc, Mode, Network, Node, NodeKind, Policy, Timing};
use std::alloc::{AllocError, Global};

/// The bridges stand first among the nodes, and the stations behind them.
pub(crate) const BRIDGES: u16 = 12;

/// How many stations there are.
pub(crate) const STATIONS: u16 = 40;

/// The links of the chain.
const CHAIN_LINKS: u16 = BRIDGES - 1;

/// The frames that a ring holds, by priority.
const RINGS: [u16; 8] = [8, 8, 8, 8, 112, 112, 112, 112];

fn plant_timing() -> Timing
    ensures { result ≡ plant_timing }
{
    Timing {
        interval: 1_000_000,
        ttl: 4,
        unit: 1_000_000,
        verify: 50_000,
    }
}

/// A text with a number behind it.
pub(crate) fn numbered(alloc: Global, front: &str, number: u16) -> Result<Name, AllocError>
    ensures { IfOk result (λ n. n ≡ front.now ++ decimal number) }
{
    Ok(Name::of(format!(in alloc; "{front}{number}")?))
}

fn bridge(alloc: Global, number: u16) -> Result<Node, AllocError>
    ensures { IfOk result (λ n. n ≡ bridge number) }
{
    Ok(Node {
        name: numbered(alloc, "b", number)?,
        kind: NodeKind::Bridge,
        latency: 1000,
    })
}

fn station(alloc: Global, number: u16) -> Result<Node, AllocError>
    ensures { IfOk result (λ n. n ≡ station number) }
{
    Ok(Node {
        name: numbered(alloc, "s", number)?,
        kind: NodeKind::Station,
        latency: 0,
    })
}

#[tactic(auto, using(crate::proofs::ListLaws::list_behind_none, crate::proofs::ListLaws::list_behind_more))]
fn put_bridges(alloc: Global, nodes: &mut Items<Node>) -> Result<(), AllocError>
    ensures { OnOk result (nodes.new ≡ nodes.old ++ list_of 12 bridge) }
{
    for number in 0..BRIDGES {
        nodes.push(bridge(alloc, number)?)?;
    }
    Ok(())
}

#[tactic(auto, using(crate::proofs::ListLaws::list_behind_none, crate::proofs::ListLaws::list_behind_more))]
fn put_stations(alloc: Global, nodes: &mut Items<Node>) -> Result<(), AllocError>
    ensures { OnOk result (nodes.new ≡ nodes.old ++ list_of 40 station) }
{
    for number in 0..STATIONS {
        nodes.push(station(alloc, number)?)?;
    }
    Ok(())
}

#[tactic(auto, unfolding(crate::specs::Networks::plant_nodes))]
fn plant_nodes(alloc: Global) -> Result<Items<Node>, AllocError>
    ensures { IfOk result (λ nodes. nodes ≡ plant_nodes) }
{
    let mut nodes = Items::new(alloc);
    put_bridges(alloc, &mut nodes)?;
    put_stations(alloc, &mut nodes)?;
    Ok(nodes)
}

fn arc_between(from: u16, to: u16) -> Arc
    ensures { result ≡ arc_between from to }
{
    Arc {
        from: NodeId(from),
        to: NodeId(to),
        cost: 8,
        delay: 40,
        mode: Mode::Negotiate,
        policy: Policy::Quiet,
        add_frag: 0,
        rings: RINGS,
        express_from: 4,
        largest: 1522,
    }
}

fn put_link(arcs: &mut Items<Arc>, first: u16, second: u16) -> Result<(), AllocError>
    ensures { OnOk result (arcs.new ≡ arcs.old ++ link_between first second) }
{
    arcs.push(arc_between(first, second))?;
    arcs.push(arc_between(second, first))?;
    Ok(())
}

/// The place of a station among the nodes.
pub(crate) fn place_of_station(station: u16) -> u16
    requires { station < 40 }
    ensures { result ≡ 12 + station }
{
    BRIDGES + station
}

#[tactic(auto, using(crate::proofs::ListLaws::joined_behind_none, crate::proofs::ListLaws::joined_behind_more))]
fn put_chain(arcs: &mut Items<Arc>) -> Result<(), AllocError>
    ensures { OnOk result (arcs.new ≡ arcs.old ++ joined_of 11 chain_link) }
{
    for bridge in 0..CHAIN_LINKS {
        put_link(arcs, bridge, bridge + 1)?;
    }
    Ok(())
}

#[tactic(auto, using(crate::proofs::ListLaws::joined_behind_none, crate::proofs::ListLaws::joined_behind_more))]
fn put_spread(arcs: &mut Items<Arc>) -> Result<(), AllocError>
    ensures { OnOk result (arcs.new ≡ arcs.old ++ joined_of 40 station_link) }
{
    for station in 0..STATIONS {
        put_link(arcs, place_of_station(station), station % BRIDGES)?;
    }
    Ok(())
}

#[tactic(auto, unfolding(crate::specs::Networks::plant_arcs))]
fn plant_arcs(alloc: Global) -> Result<Items<Arc>, AllocError>
    ensures { IfOk result (λ arcs. arcs ≡ plant_arcs) }
{
    let mut arcs = Items::new(alloc);
    put_chain(&mut arcs)?;
    put_spread(&mut arcs)?;
    Ok(arcs)
}

/// The network of every plant: 12 bridges in a chain, and 40 stations, each linked to the bridge of its number modulo 12.
pub(crate) fn plant_network(alloc: Global) -> Result<Network, AllocError>
    ensures { IfOk result IsPlantNetwork }
{
    Ok(Network {
        express_from: 4,
        timing: plant_timing(),
        nodes: plant_nodes(alloc)?,
        arcs: plant_arcs(alloc)?,
    })
}
