ghost use Rattle.std.specs.Prelude.{◌≡◌, ◌<◌, ◌≤◌, ◌++◌, IfOk, OnOk};
ghost use Rattle.pre_plant.specs.Rows.{distance, bridge_on_way, arc_on_way, chain_nodes, chain_arcs, route_between, arcs_between};

use crate::networks::{BRIDGES, place_of_station};
use pre_base::{ArcId, Items, NodeId};
use std::alloc::{AllocError, Global};

/// The arc from station 0 to its bridge. The arcs of each link stand together, there and back.
const FIRST_STATION_ARC: u16 = 22;

fn distance(a: u16, b: u16) -> u16
    ensures { result ≡ distance a b }
{
    a.abs_diff(b)
}

fn bridge_on_way(a: u16, b: u16, links: u16) -> u16
    requires few { a < 12 }
    requires ends { b < 12 }
    requires way { links ≤ distance a b }
    ensures { result ≡ bridge_on_way a b links }
{
    if a <= b { a + links } else { a - links }
}

fn arc_on_way(a: u16, b: u16, links: u16) -> u16
    requires few { a < 12 }
    requires ends { b < 12 }
    requires way { links < distance a b }
    ensures { result ≡ arc_on_way a b links }
{
    if a <= b {
        2 * (a + links)
    } else {
        2 * (a - (links + 1)) + 1
    }
}

#[tactic(auto, using(crate::proofs::ListLaws::list_behind_none, crate::proofs::ListLaws::list_behind_more))]
fn put_chain_nodes(route: &mut Items<NodeId>, a: u16, b: u16) -> Result<(), AllocError>
    requires few { a < 12 }
    requires ends { b < 12 }
    ensures { OnOk result (route.new ≡ route.old ++ chain_nodes a b) }
{
    for links in 0..distance(a, b) + 1 {
        route.push(NodeId(bridge_on_way(a, b, links)))?;
    }
    Ok(())
}

#[tactic(auto, using(crate::proofs::ListLaws::list_behind_none, crate::proofs::ListLaws::list_behind_more))]
fn put_chain_arcs(arcs: &mut Items<ArcId>, a: u16, b: u16) -> Result<(), AllocError>
    requires few { a < 12 }
    requires ends { b < 12 }
    ensures { OnOk result (arcs.new ≡ arcs.old ++ chain_arcs a b) }
{
    for links in 0..distance(a, b) {
        arcs.push(ArcId(arc_on_way(a, b, links)))?;
    }
    Ok(())
}

/// The nodes on the way from one station to another.
#[tactic(auto, unfolding(crate::specs::Rows::route_between))]
pub(crate) fn route_between(alloc: Global, from: u16, to: u16) -> Result<Items<NodeId>, AllocError>
    requires from { from < 40 }
    requires to { to < 40 }
    ensures { IfOk result (λ route. route ≡ route_between from to) }
{
    let mut route = Items::new(alloc);
    route.push(NodeId(place_of_station(from)))?;
    put_chain_nodes(&mut route, from % BRIDGES, to % BRIDGES)?;
    route.push(NodeId(place_of_station(to)))?;
    Ok(route)
}

/// The arcs on that way.
#[tactic(auto, unfolding(crate::specs::Rows::arcs_between))]
pub(crate) fn arcs_between(alloc: Global, from: u16, to: u16) -> Result<Items<ArcId>, AllocError>
    requires from { from < 40 }
    requires to { to < 40 }
    ensures { IfOk result (λ arcs. arcs ≡ arcs_between from to) }
{
    let mut arcs = Items::new(alloc);
    arcs.push(ArcId(FIRST_STATION_ARC + 2 * from))?;
    put_chain_arcs(&mut arcs, from % BRIDGES, to % BRIDGES)?;
    arcs.push(ArcId(FIRST_STATION_ARC + 2 * to + 1))?;
    Ok(arcs)
}
