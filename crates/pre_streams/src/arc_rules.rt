ghost use Rattle.std.specs.Prelude.{◌≡◌};
ghost use Rattle.pre_streams.specs.FileRules.{meets, meets_at, holds_along};

use crate::building::{arc_id, node_id};
use pre_base::{ArcId, Name};
use pre_table::Whole;
use pre_topo::{Arc, Network};

/// What each arc of its route asks of a row.
#[derive(Clone, Copy, Debug)]
pub enum ArcRule {
    /// The priority is express there.
    Express(Whole),
    /// The priority is preemptable there.
    Preemptable(Whole),
    /// Preemptable frames may have so many octets there.
    Carries(Whole),
}

fn meets(rule: ArcRule, arc: &Arc) -> bool
    ensures { result ≡ meets rule arc.now }
{
    match rule {
        ArcRule::Express(prio) => !prio.is_below(u64::from(arc.express_from)),
        ArcRule::Preemptable(prio) => prio.is_below(u64::from(arc.express_from)),
        ArcRule::Carries(max) => max.is_within(0, u64::from(arc.largest)),
    }
}

fn meets_at(net: &Network, rule: ArcRule, arc: ArcId) -> bool
    ensures { result ≡ meets_at net.now rule arc }
{
    match net.arcs.as_slice().get(usize::from(arc.0)) {
        None => false,
        Some(arc) => meets(rule, arc),
    }
}

/// Whether each arc of a route has what the rule asks.
pub(crate) fn holds_along(net: &Network, rule: ArcRule, route: &[Name]) -> bool
    ensures { result ≡ holds_along net.now rule route.now }
{
    let mut rest = route;
    while let [from, to, ..] = rest {
        let arc = arc_id(net, node_id(net, from), node_id(net, to));
        if !meets_at(net, rule, arc) {
            return false;
        }
        rest = &rest[1..];
    }
    true
}
