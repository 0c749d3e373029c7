ghost use Rattle.std.specs.Prelude.{IfOk};
ghost use Rattle.pre_streams.specs.Fits as streams_rules;
ghost use Rattle.pre_script.specs.Fits as script_rules;
ghost use Rattle.pre_plant.specs.Plants.{IsPlant};
ghost use Rattle.pre_plant.specs.Curves.{CurvesHold};
ghost use Rattle.pre_plant.specs.Counts.{HasCounts};

use crate::draws::draws_of;
use crate::lines::plant_script;
use crate::networks::plant_network;
use crate::rows::plant_streams;
use pre_script::Script;
use pre_streams::Streams;
use pre_topo::Network;
use std::alloc::{AllocError, Global};

/// The plant of this number: 12 bridges in a chain and 40 stations, whose links negotiate whether they preempt; 60 streams
/// and 30 flows between stations; and a script of their sends up to tick 10,000,000, with 20 losses and 20 damages.
/// The number is the first state of the generator that draws the rows' ways, sizes and first ticks and what is lost and damaged.
/// The streams fit the network and the script fits both, and its sends keep to the curves of their streams.
/// An error is want of memory.
pub fn plant(alloc: Global, number: u64) -> Result<(Network, Streams, Script), AllocError>
    ensures plant { IfOk result (λ p. IsPlant number p.0 p.1 p.2) }
    ensures streams_fit { IfOk result (λ p. streams_rules.Fits p.0 p.1) }
    ensures script_fits { IfOk result (λ p. script_rules.Fits p.0 p.1 p.2) }
    ensures curves { IfOk result (λ p. CurvesHold p.1.rows p.2.sends) }
    ensures counts { IfOk result (λ p. HasCounts p.0 p.1 p.2) }
{
    let draws = draws_of(alloc, number)?;
    let network = plant_network(alloc)?;
    let streams = plant_streams(alloc, draws.as_slice())?;
    let script = plant_script(alloc, draws.as_slice())?;
    Ok((network, streams, script))
}
