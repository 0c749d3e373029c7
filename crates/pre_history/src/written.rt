ghost use Rattle.pre_text.specs.Reading.{AreOctets};
ghost use Rattle.pre_history.specs.Names.{IsOf};
ghost use Rattle.pre_history.specs.Plain.{plain, IsEvent};
ghost use Rattle.pre_history.specs.Written.{HasOctets, IsNumber, IsWhat, IsWritten};

use crate::{Event, What};
use pre_topo::Network;

/// A word of 64 bits is a number below 2^64.
fn number_fits(number: u64)
    ensures { IsNumber number }
{}

/// Octets are numbers below 256.
fn octets_fit(octets: &[u8])
    ensures { AreOctets octets.now }
{}

/// So are those of a check, which has four.
fn check_fits(check: [u8; 4])
    ensures { HasOctets check }
{
    octets_fit(&check);
}

/// The number of a frame is one of 64 bits.
fn what_fits(what: What)
    ensures { IsWhat what }
{}

/// An event of a network can be told over it: the ranges of its fields are those of their types.
pub fn events_are_written(net: &Network, event: &Event)
    requires kind { IsEvent (plain event.now) }
    requires known { IsOf net.now (plain event.now) }
    ensures { IsWritten net.now (plain event.now) }
{
    match *event {
        Event::Set { tick, .. } => number_fits(tick.0),
        Event::Begin {
            tick,
            ord,
            what,
            from,
            ..
        } => {
            number_fits(tick.0);
            number_fits(ord);
            what_fits(what);
            number_fits(from as u64);
        }
        Event::Ended {
            tick,
            ord,
            size,
            check,
            ..
        } => {
            number_fits(tick.0);
            number_fits(ord);
            number_fits(size as u64);
            check_fits(check);
        }
        Event::Arrive { tick, ord, .. } => {
            number_fits(tick.0);
            number_fits(ord);
        }
        Event::Deliver {
            tick,
            frame,
            hex,
            ..
        } => {
            number_fits(tick.0);
            number_fits(frame.0 as u64);
            octets_fit(hex);
        }
        Event::Active { tick, .. } => number_fits(tick.0),
        Event::Enter {
            tick,
            prio,
            frame,
            ..
        }
        | Event::Dropped {
            tick,
            prio,
            frame,
            ..
        } => {
            number_fits(tick.0);
            number_fits(prio.number() as u64);
            number_fits(frame.0 as u64);
        }
        Event::Count {
            err,
            smd,
            ok,
            rx,
            tx,
            ..
        } => {
            number_fits(err);
            number_fits(smd);
            number_fits(ok);
            number_fits(rx);
            number_fits(tx);
        }
        Event::Finish {
            until,
            sent,
            delivered,
            dropped,
        } => {
            number_fits(until.0);
            number_fits(sent);
            number_fits(delivered);
            number_fits(dropped);
        }
    }
}
