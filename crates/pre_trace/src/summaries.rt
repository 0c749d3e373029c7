ghost use Rattle.std.specs.Prelude.{◌≡◌, ◌^◌, ◌<◌, ◌++◌, ◌∷◌, [], ℕ, List, IfOk, IsOk, Option, length, slice_get, slice_index_or, take};
ghost use Rattle.std.specs.Option.{option_map};
ghost use Rattle.std.proofs.Common.{refl, ◌∙◌};
ghost use Rattle.pre_base.specs.Faults.{HasCause};
ghost use Rattle.pre_history.specs.History.{History, PlainEvent};
ghost use Rattle.pre_history.specs.Plain.{plain, IsEvent};
ghost use Rattle.pre_trace.specs.Watching.{GoesOn};
ghost use Rattle.pre_trace.specs.Figures.{ComeOnce, closings, figures_of, is_sent, most_closings, sent_of};
ghost use Rattle.pre_trace.specs.Sums.{Sums, figures_from, no_tally, plain_closing};

use crate::tallies::{Closing, Tally, event_of, slots_of, take_up, tallies_of};
use crate::{Event, Watcher};
use pre_base::{Failed, Items, StreamId};
use pre_script::{Script, SendLine};
use pre_streams::Streams;
use std::alloc::{AllocError, Global};

/// How many frames of a row were sent by the end of the run and how many delivered, and the most ticks from the send of one
/// to its delivery, which are 0 where none was.
#[derive(Clone, Copy, Debug, PartialEq, Eq)]
pub struct Figures {
    pub sent: u64,
    pub delivered: u64,
    pub greatest: u64,
}

/// A watcher that keeps the figures of each row and the events of the end of a run. It takes no memory once it is made, and
/// never fails.
#[derive(Debug, Drop)]
pub struct Summary<'a> {
    script: &'a Script,
    tallies: Items<Tally>,
    slots: Items<Closing>,
    kept: usize,
}

/// A script has fewer than 2^64 sends.
fn sends_are_few(script: &Script)
    ensures { length script.now.sends < 2 ^ 64 }
{
    let _count = script.sends.len();
}

fn is_sent(script: &Script, stream: StreamId, line: &SendLine) -> bool
    ensures { result ≡ is_sent script.now stream.0 line.now }
{
    line.send.stream == stream && line.send.tick <= script.until
}

fn sends_of(script: &Script, stream: StreamId) -> u64
    ensures { result ≡ sent_of script.now stream.0 }
{
    let mut count: u64 = 0;
    for line in script.sends.as_slice() {
        if is_sent(script, stream, line) {
            count += 1;
        }
    }
    count
}

impl<'a> Summary<'a> {
    /// A summary of a run of the script, for each row of the streams. It has taken nothing yet.
    pub fn make(
        alloc: Global,
        streams: &Streams,
        script: &'a Script,
    ) -> Result<Summary<'a>, AllocError>
        ensures nothing { IfOk result (λ s. Sums script.now s.tallies s.slots s.kept []) }
        ensures script { IfOk result (λ s. s.script.now ≡ script.now) }
        ensures rows { IfOk result (λ s. length s.tallies ≡ length streams.now.rows) }
    {
        sends_are_few(script);
        let tallies = tallies_of(alloc, streams.rows.len())?;
        let slots = slots_of(alloc)?;
        Ok(Summary {
            script,
            tallies,
            slots,
            kept: 0,
        })
    }

    /// The events of the end that are kept.
    pub(crate) fn kept_closings(&self) -> &[Closing]
        ensures { result.now ≡ take self.now.kept self.now.slots }
    {
        let count = self.kept.min(self.slots.len());
        &self.slots.as_slice()[..count]
    }

    /// What is kept of a row, and nothing where there is no such row.
    fn tally(&self, stream: StreamId) -> Tally
        ensures { result ≡ slice_index_or self.now.tallies stream.0 no_tally }
    {
        match self.tallies.as_slice().get(stream.0 as usize) {
            Some(tally) => *tally,
            None => Tally {
                delivered: 0,
                greatest: 0,
            },
        }
    }

    /// The figures of a row. They are those of the history that was taken, where its deliveries are of sends of the script, at
    /// most one of each and none before its tick.
    pub fn figures(&self, stream: StreamId) -> Figures
        ensures kept { result ≡ figures_from self.now.script.now self.now.tallies stream.0 }
        ensures figures { (h : History) → Sums self.now.script.now self.now.tallies self.now.slots self.now.kept h
            → ComeOnce self.now.script.now h → stream.0 < length self.now.tallies → result ≡ figures_of self.now.script.now h stream.0 }
    {
        let tally = self.tally(stream);
        Figures {
            sent: sends_of(self.script, stream),
            delivered: tally.delivered,
            greatest: tally.greatest,
        }
    }

    /// Number `i`, counted from 0, of the first 257 Count and Finish events that were taken: None exactly where there are not so
    /// many. A run has at most 257 of them.
    pub fn closing(&self, i: usize) -> Option<Event<'static>>
        ensures kept { option_map plain result ≡ option_map plain_closing (slice_get (take self.now.kept self.now.slots) i) }
        ensures closing { (h : History) → Sums self.now.script.now self.now.tallies self.now.slots self.now.kept h
            → option_map plain result ≡ slice_get (take most_closings (closings h)) i }
    {
        let closing = self.kept_closings().get(i)?;
        Some(event_of(*closing))
    }
}

impl Watcher for Summary<'_> {
    ghost took = { λ w base h. Sums w.script.now w.tallies w.slots w.kept h };

    ghost torn = { λ w base h e. ⊥ };

    ghost faults = { λ w. 0 };

    ghost same = { λ v w. (w.script.now ≡ v.script.now) × (length w.tallies ≡ length v.tallies) };

    ghost same_refl = { λ w. (refl, refl) };

    ghost same_trans = { λ u v w p q. (q.0 ∙ p.0, q.1 ∙ p.1) };

    fn event(&mut self, e: &Event) -> Result<(), Failed>
        requires { IsEvent (plain e.now) }
        ensures never_fails { IsOk result }
        ensures goes { GoesOn result (λ base h. Sums self.old.script.now self.old.tallies self.old.slots self.old.kept h)
            (λ base h. Sums self.new.script.now self.new.tallies self.new.slots self.new.kept h) (λ base h e. ⊥) (plain e.now) }
        ensures cause { HasCause 0 0 result }
        ensures same { (self.new.script.now ≡ self.old.script.now) × (length self.new.tallies ≡ length self.old.tallies) }
    {
        take_up(
            self.script,
            &mut self.tallies,
            &mut self.slots,
            &mut self.kept,
            e,
        );
        Ok(())
    }

    fn faults(&self) -> u64
        ensures { result ≡ 0 }
    {
        0
    }
}
