ghost use Rattle.std.specs.Prelude.{◌≡◌, ◌≤◌, ◌↔◌, [], ◌∷◌, ◌++◌, nat_lt, map, drop, length, position, slice_get, IfOk, IfErr, IsErr, OnOk, All};
ghost use Rattle.pre_topo.specs.Arcs.{IsArc, latency_at};
ghost use Rattle.pre_topo.specs.Nodes.{IsNode};
ghost use Rattle.circular_buffer.specs.Buffer.{buffer};
ghost use Rattle.pre_bridge.specs.Ingresses.{ingress_of, is_due_at, due_of, dues_of, lesser, IsLeastOf};

use circular_buffer::HeapCircularBuffer;
use pre_base::{ArcId, NodeId, Tick};
use pre_rings::FrameRef;
use pre_topo::{Arc, Node};
use std::alloc::{AllocError, Global};

/// Octet times that the shortest frame takes on an arc, with its preamble and gap.
const SHORTEST: u64 = 84;

/// A frame that stays until its latency is over, and the arc by which it leaves.
#[derive(Debug, Drop)]
pub struct Waiting {
    pub due: Tick,
    pub next: ArcId,
    pub frame: FrameRef,
}

/// What has arrived by one arc, oldest first.
#[derive(Drop)]
pub struct Ingress {
    /// The node to which the arc leads.
    pub node: NodeId,
    /// That node's latency, in ticks.
    pub latency: u32,
    pub queue: HeapCircularBuffer<Waiting>,
}

impl Ingress {
    /// Whether its oldest frame is due.
    pub(crate) fn is_due(&self, now: Tick) -> bool
        ensures { result ≡ is_due_at now.0 self.now.queue.items }
    {
        match self.queue.front() {
            Some(waiting) => waiting.due.0 <= now.0,
            None => false,
        }
    }

    /// Lets a frame stay behind the others; hands it back exactly where there is no room.
    pub(crate) fn keep(&mut self, waiting: Waiting) -> Result<(), FrameRef>
        ensures full { IsErr result ↔ (self.old.queue.capacity ≤ length self.old.queue.items) }
        ensures kept { OnOk result (self.new ≡ record self.old { queue = buffer (self.old.queue.items ++ waiting ∷ []) self.old.queue.capacity }) }
        ensures back { IfErr result (λ back. (back ≡ waiting.frame) × (self.new ≡ self.old)) }
    {
        match self.queue.try_push_back(waiting) {
            Ok(()) => Ok(()),
            Err(waiting) => Err(waiting.frame),
        }
    }

    /// Takes out its oldest frame.
    pub(crate) fn release(&mut self) -> Option<Waiting>
        ensures oldest { result ≡ slice_get self.old.queue.items 0 }
        ensures rest { self.new ≡ record self.old { queue = buffer (drop 1 self.old.queue.items) self.old.queue.capacity } }
    {
        self.queue.pop_front()
    }

    /// Whether one more frame may stay.
    pub(crate) fn has_room(&self) -> bool
        ensures { result ≡ nat_lt (length self.now.queue.items) self.now.queue.capacity }
    {
        self.queue.len() < self.queue.capacity()
    }

    /// When its oldest frame is due.
    pub(crate) fn due(&self) -> Option<u64>
        ensures { result ≡ due_of self.now.queue.items }
    {
        let waiting = self.queue.front()?;
        Some(waiting.due.0)
    }
}

/// The first place at which a frame is due.
pub(crate) fn place_due(ingresses: &[Ingress], now: Tick) -> Option<usize>
    ensures { result ≡ position (λ ingress. is_due_at now.0 ingress.queue.items) ingresses.now }
{
    ingresses.iter().position(|ingress| ingress.is_due(now))
}

/// The lesser of two ticks, where there are two.
fn lesser(first: Option<u64>, second: Option<u64>) -> Option<u64>
    ensures { result ≡ lesser first second }
{
    match (first, second) {
        (Some(a), Some(b)) => Some(a.min(b)),
        _ => first.or(second),
    }
}

/// The least tick at which an oldest frame is due.
pub(crate) fn least_due(ingresses: &[Ingress]) -> Option<u64>
    ensures { IsLeastOf (dues_of ingresses.now) result }
{
    let mut least = None;
    for ingress in ingresses {
        least = lesser(least, ingress.due());
    }
    least
}

/// The latency of a node.
fn latency_at(nodes: &[Node], node: NodeId) -> u64
    ensures { result ≡ latency_at nodes.now node.0 }
{
    match nodes.get(usize::from(node.0)) {
        Some(node) => node.latency,
        None => 0,
    }
}

/// An arc by which nothing has arrived, with room for as many frames as may arrive by it within the
/// latency, and one more.
fn ingress_of(alloc: Global, nodes: &[Node], arc: &Arc) -> Result<Ingress, AllocError>
    requires nodes { All IsNode nodes.now }
    requires arc { IsArc nodes.now arc.now }
    ensures { IfOk result (λ ingress. ingress ≡ ingress_of nodes.now arc.now) }
{
    let latency = latency_at(nodes, arc.to);
    let capacity = latency / (SHORTEST * arc.cost) + 1;
    Ok(Ingress {
        node: arc.to,
        latency: latency as u32,
        queue: HeapCircularBuffer::with_capacity(alloc, capacity as usize)?,
    })
}

/// The same for each arc.
pub(crate) fn ingresses_of(
    alloc: Global,
    nodes: &[Node],
    arcs: &[Arc],
) -> Result<Vec<Ingress>, AllocError>
    requires nodes { All IsNode nodes.now }
    requires arcs { All (IsArc nodes.now) arcs.now }
    ensures { IfOk result (λ ingresses. ingresses.items ≡ map (ingress_of nodes.now) arcs.now) }
{
    let mut ingresses = Vec::with_capacity(alloc, arcs.len())?;
    for arc in arcs {
        ingresses.push(ingress_of(alloc, nodes, arc)?)?;
    }
    Ok(ingresses)
}
