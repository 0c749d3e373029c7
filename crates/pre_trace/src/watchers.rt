ghost use Rattle.std.specs.Prelude.{◌≡◌, ◌↔◌, ℕ, List, IsTrue, IsOk, OnErr};
ghost use Rattle.std.proofs.Common.{refl, ◌∙◌};
ghost use Rattle.pre_base.specs.Faults.{HasCause};
ghost use Rattle.pre_base.specs.Told.{WhereTold, StillTells, StillTells-refl, StillTells-trans};
ghost use Rattle.pre_base.specs.Sinks.{TakesAll};
ghost use Rattle.pre_history.specs.History.{History, PlainEvent};
ghost use Rattle.pre_history.specs.Plain.{plain, IsEvent};
ghost use Rattle.pre_history.specs.Names.{HasArc, HasNode, IsOf};
ghost use Rattle.pre_trace.specs.Text.{line};
ghost use Rattle.pre_trace.specs.Watching.{GoesOn, HoldsText, HoldsTorn};

use crate::{Event, put_event};
use pre_base::{ArcId, Failed, NodeId, Sink};
use pre_topo::Network;

/// Something that is told the events of a run.
pub trait Watcher {
    /// It took this history, on top of these octets.
    ghost took: { Self → List ℕ → History → Type 0 };

    /// It took this history and then failed at this event.
    ghost torn: { Self → List ℕ → History → PlainEvent → Type 0 };

    /// How often it has failed.
    ghost faults: { Self → ℕ };

    /// Nothing that an event leaves as it is has changed: where it writes, for which network, and whether that tells.
    ghost same: { Self → Self → Type 0 };

    /// Takes an event.
    fn event(&mut self, e: &Event) -> Result<(), Failed>
        requires { IsEvent (plain e.now) }
        ensures goes { GoesOn result (took self.old) (took self.new) (torn self.new) (plain e.now) }
        ensures cause { HasCause (faults self.old) (faults self.new) result }
        ensures same { same self.old self.new };

    /// How often it has failed.
    fn faults(&self) -> u64
        ensures { result ≡ faults self.now };

    ghost same_refl: { (w : Self) → same w w };

    ghost same_trans: { (u v w : Self) → same u v → same v w → same u w };
}

/// A watcher that writes the line of each event whose arc or node is the network's, and answers Ok to any other.
pub struct TraceWatcher<'a, S: Sink> {
    sink: &'a mut S,
    net: &'a Network,
}

impl<S: Sink> Drop for TraceWatcher<'_, S> {
    fn drop(self)
        ensures { self.exit.0.now ≡ self.entry.sink.now }
    {
        let TraceWatcher { sink: _, net: _ } = self;
    }
}

impl<'a, S: Sink> TraceWatcher<'a, S> {
    /// Writes to this sink, with the names of this network.
    pub fn over(sink: &'a mut S, net: &'a Network) -> TraceWatcher<'a, S>
        ensures reference { result.sink.ghost_name ≡ sink.entry.ghost_name }
        ensures sink { result.sink.now ≡ sink.old }
        ensures net { result.net.now ≡ net.now }
    {
        TraceWatcher { sink, net }
    }
}

fn has_arc(net: &Network, arc: ArcId) -> bool
    ensures { IsTrue result ↔ HasArc net.now arc.0 }
{
    (arc.0 as usize) < net.arcs.len()
}

fn has_node(net: &Network, node: NodeId) -> bool
    ensures { IsTrue result ↔ HasNode net.now node.0 }
{
    (node.0 as usize) < net.nodes.len()
}

/// Whether the arc or node of the event, where it has one, is the network's.
fn is_of(net: &Network, e: &Event) -> bool
    ensures { IsTrue result ↔ IsOf net.now (plain e.now) }
{
    match *e {
        Event::Set { arc, .. } => has_arc(net, arc),
        Event::Begin { arc, .. } => has_arc(net, arc),
        Event::Ended { arc, .. } => has_arc(net, arc),
        Event::Arrive { arc, .. } => has_arc(net, arc),
        Event::Active { arc, .. } => has_arc(net, arc),
        Event::Dropped { arc, .. } => has_arc(net, arc),
        Event::Deliver { node, .. } => has_node(net, node),
        Event::Enter { arc, .. } => has_arc(net, arc),
        Event::Count { arc, .. } => has_arc(net, arc),
        Event::Finish { .. } => true,
    }
}

impl<S: Sink> Watcher for TraceWatcher<'_, S> {
    ghost took = { λ w base h. HoldsText w.net.now (S.tells w.sink.now) base h };

    ghost torn = { λ w base h e. HoldsTorn w.net.now (S.tells w.sink.now) base h e };

    ghost faults = { λ w. S.faults w.sink.now };

    ghost same = { λ v w. (w.sink.ghost_name ≡ v.sink.ghost_name) × (w.net.now ≡ v.net.now) × StillTells (S.tells v.sink.now) (S.tells w.sink.now) };

    ghost same_refl = { λ w. (refl, refl, StillTells-refl (S.tells w.sink.now)) };

    ghost same_trans = { λ u v w p q. (q.0 ∙ p.0, q.1 ∙ p.1, StillTells-trans (S.tells u.sink.now) (S.tells v.sink.now) (S.tells w.sink.now) p.2 q.2) };

    #[tactic(auto, using(crate::proofs::Histories::line_goes))]
    fn event(&mut self, e: &Event) -> Result<(), Failed>
        requires { IsEvent (plain e.now) }
        ensures known { IsOf self.old.net.now (plain e.now) → WhereTold (S.tells self.old.sink.now) (S.tells self.new.sink.now) (TakesAll result (line self.old.net.now (plain e.now))) }
        // An event of another network is left out.
        ensures unknown { ¬ IsOf self.old.net.now (plain e.now) → IsOk result × (self.new.sink.now ≡ self.old.sink.now) }
        ensures failed { OnErr result (IsOf self.old.net.now (plain e.now)) }
        ensures goes { GoesOn result (HoldsText self.old.net.now (S.tells self.old.sink.now))
            (HoldsText self.new.net.now (S.tells self.new.sink.now)) (HoldsTorn self.new.net.now (S.tells self.new.sink.now)) (plain e.now) }
        ensures cause { HasCause (S.faults self.old.sink.now) (S.faults self.new.sink.now) result }
        ensures same { (self.new.sink.ghost_name ≡ self.old.sink.ghost_name) × (self.new.net.now ≡ self.old.net.now) × StillTells (S.tells self.old.sink.now) (S.tells self.new.sink.now) }
    {
        if is_of(self.net, e) {
            put_event(e, self.net, self.sink)
        } else {
            Ok(())
        }
    }

    fn faults(&self) -> u64 {
        self.sink.faults()
    }
}
