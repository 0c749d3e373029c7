ghost use Rattle.std.specs.Prelude.{◌≡◌, ◌≤◌, ◌+◌, ◌<◌, ◌^◌, ◌*◌, ◌∷◌, [], ◌++◌, ℕ, List, Some, IfSome, OnErr, length};
ghost use Rattle.std.proofs.Common.{refl, ◌∙◌};
ghost use Rattle.pre_base.specs.Faults.{HasCause};
ghost use Rattle.pre_base.specs.Told.{WhereTold, StillTells, StillTells-refl, StillTells-trans};
ghost use Rattle.pre_base.specs.Sinks.{TakesAll};
ghost use Rattle.pre_pcap.specs.Written.{record_octets};
ghost use Rattle.pre_history.specs.History.{Begin, Ended, History, PlainEvent};
ghost use Rattle.pre_history.specs.Octets as octets_of_history;
ghost use Rattle.pre_history.specs.Plain.{plain, IsEvent};
ghost use Rattle.pre_trace.specs.Watching.{GoesOn};
ghost use Rattle.pre_incoming.specs.Changes.{damaged};
ghost use Rattle.pre_incoming.specs.Inputs.{scenario_of};
ghost use Rattle.pre_dissect.specs.Captured.{octets_of, recorded_of, records_of};
ghost use Rattle.pre_dissect.specs.Sendings.{IsEnding};
ghost use Rattle.pre_dissect.specs.Watching.{HasTaken, HoldsTorn};

use crate::adverts::{advert_at, is_lldp};
use crate::changes::{Change, change_of};
use crate::newest::{Ending, Newest};
use crate::sending::put_sent;
use pre_base::{ArcId, Failed, GREATEST_PACKET, Sink, Tick};
use pre_history::Event;
use pre_incoming::{Inputs, damage, is_lost, smd_place};
use pre_pcap::put_record;
use pre_script::Script;
use pre_streams::Streams;
use pre_topo::Network;
use pre_trace::Watcher;

/// A watcher that writes the records of one arc: for each mPacket that ends on the arc and isn't lost, the octets that arrive, at
/// the tick at which they do. It takes no memory. The header of the file is written by whoever makes the capture, before it.
pub struct CaptureWatcher<'a, S: Sink> {
    sink: &'a mut S,
    inputs: Inputs<'a>,
    arc: ArcId,
    // whether the arc is active
    active: bool,
    // the newest mPacket of the arc
    newest: Option<Newest>,
    // the LLDP frame that it carries, if it does
    advert: [u8; 64],
}

impl<S: Sink> Drop for CaptureWatcher<'_, S> {
    fn drop(self)
        ensures { self.exit.0.now ≡ self.entry.sink.now }
    {
        let CaptureWatcher {
            sink: _,
            inputs: _,
            arc: _,
            active: _,
            newest: _,
            advert: _,
        } = self;
    }
}

impl<'a, S: Sink> CaptureWatcher<'a, S> {
    /// Writes the records of this arc to the sink, in a run of the script over the network and the streams. It has taken nothing
    /// yet.
    pub fn over(
        sink: &'a mut S,
        net: &'a Network,
        streams: &'a Streams,
        script: &'a Script,
        arc: ArcId,
    ) -> CaptureWatcher<'a, S>
        ensures reference { result.sink.ghost_name ≡ sink.entry.ghost_name }
        ensures sink { result.sink.now ≡ sink.old }
        ensures scenario { scenario_of result.inputs ≡ record { net = net.now; streams = streams.now; script = script.now } }
        ensures arc { result.arc ≡ arc }
        ensures nothing { (base : List ℕ) → IfSome (S.tells sink.old) (λ t. t.octets ≡ base)
            → HasTaken (scenario_of result.inputs) arc.0 result.active result.newest result.advert (S.tells result.sink.now) base [] }
    {
        CaptureWatcher {
            sink,
            inputs: Inputs {
                net,
                streams,
                script,
            },
            arc,
            active: false,
            newest: None,
            advert: [0; 64],
        }
    }
}

// The first tick that no record can have.
const NO_TICK: u64 = 4_000_000_000_000_000_000;

// Writes an mPacket as it arrives: its octets as sent are damaged in place, as the script says.
fn put_arrived<S: Sink>(
    sink: &mut S,
    script: &Script,
    arc: ArcId,
    newest: Newest,
    due: u64,
    octets: &mut [u8],
) -> Result<(), Failed>
    requires due { due < 4 * 10 ^ 18 }
    requires size { length octets.old ≤ 65535 }
    ensures octets { WhereTold (S.tells sink.old) (S.tells sink.new) (TakesAll result (record_octets due (damaged script.now arc.0 newest.ord (octets_of_history.smd_place newest.kind) octets.old))) }
    ensures cause { HasCause (S.faults sink.old) (S.faults sink.new) result }
{
    damage(script, arc, newest.ord, smd_place(newest.kind), octets);
    put_record(sink, Tick(due), octets)
}

// Writes the record of the newest mPacket of an arc, which has ended so.
fn put_ended<S: Sink>(
    sink: &mut S,
    inputs: &Inputs,
    arc: ArcId,
    newest: Newest,
    advert: &[u8; 64],
    ending: Ending,
) -> Result<(), Failed>
    ensures octets { (h : History) (b : Begin) (e : Ended) → IsEnding (scenario_of inputs.now) h arc.0 newest advert.now ending b e
        → WhereTold (S.tells sink.old) (S.tells sink.new) (TakesAll result (octets_of (records_of (recorded_of (scenario_of inputs.now) h arc.0 (Some b) e)))) }
    ensures cause { HasCause (S.faults sink.old) (S.faults sink.new) result }
    ensures early { OnErr result (ending.tick.0 ≤ (scenario_of inputs.now).script.until.0) }
    ensures tells { StillTells (S.tells sink.old) (S.tells sink.new) }
{
    if is_lost(inputs.script, arc, newest.ord) || ending.tick.0 > inputs.script.until.0 {
        return Ok(());
    }
    let Some(link) = inputs.net.arcs.as_slice().get(usize::from(arc.0)) else {
        return Ok(());
    };
    let due = ending.tick.0.saturating_add(link.delay);
    if due >= NO_TICK {
        return Ok(());
    }
    let mut octets = [0; GREATEST_PACKET as usize];
    let Some(count) = put_sent(inputs, newest, advert, ending, &mut octets) else {
        return Ok(());
    };
    put_arrived(sink, inputs.script, arc, newest, due, &mut octets[..count])
}

impl<S: Sink> Watcher for CaptureWatcher<'_, S> {
    ghost took = { λ x base h. HasTaken (scenario_of x.inputs) x.arc.0 x.active x.newest x.advert (S.tells x.sink.now) base h };

    ghost torn = { λ x base h e. HoldsTorn (scenario_of x.inputs) x.arc.0 (S.tells x.sink.now) base h e };

    ghost faults = { λ x. S.faults x.sink.now };

    ghost same = { λ v x. (x.sink.ghost_name ≡ v.sink.ghost_name) × (scenario_of x.inputs ≡ scenario_of v.inputs) × (x.arc ≡ v.arc) × StillTells (S.tells v.sink.now) (S.tells x.sink.now) };

    ghost same_refl = { λ x. (refl, refl, refl, StillTells-refl (S.tells x.sink.now)) };

    ghost same_trans = { λ u v x p q. (q.0 ∙ p.0, q.1 ∙ p.1, q.2 ∙ p.2, StillTells-trans (S.tells u.sink.now) (S.tells v.sink.now) (S.tells x.sink.now) p.3 q.3) };

    fn event(&mut self, e: &Event) -> Result<(), Failed>
        requires { IsEvent (plain e.now) }
        ensures goes { GoesOn result (HasTaken (scenario_of self.old.inputs) self.old.arc.0 self.old.active self.old.newest self.old.advert (S.tells self.old.sink.now))
            (HasTaken (scenario_of self.new.inputs) self.new.arc.0 self.new.active self.new.newest self.new.advert (S.tells self.new.sink.now))
            (HoldsTorn (scenario_of self.new.inputs) self.new.arc.0 (S.tells self.new.sink.now)) (plain e.now) }
        ensures cause { HasCause (S.faults self.old.sink.now) (S.faults self.new.sink.now) result }
        ensures same { (self.new.sink.ghost_name ≡ self.old.sink.ghost_name) × (scenario_of self.new.inputs ≡ scenario_of self.old.inputs)
            × (self.new.arc ≡ self.old.arc) × StillTells (S.tells self.old.sink.now) (S.tells self.new.sink.now) }
    {
        match change_of(e, self.arc) {
            Change::Nothing => Ok(()),
            Change::Begun { tick, newest } => {
                if is_lldp(newest.what) {
                    self.advert = advert_at(&self.inputs, self.arc, tick, self.active);
                }
                self.newest = Some(newest);
                Ok(())
            }
            Change::Active { value } => {
                self.active = value;
                Ok(())
            }
            Change::Ended { ending } => match self.newest {
                Some(newest) => put_ended(
                    self.sink,
                    &self.inputs,
                    self.arc,
                    newest,
                    &self.advert,
                    ending,
                ),
                None => Ok(()),
            },
        }
    }

    fn faults(&self) -> u64 {
        self.sink.faults()
    }
}
