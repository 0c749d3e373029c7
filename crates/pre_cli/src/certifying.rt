ghost use Rattle.std.specs.Prelude.{◌≡◌, ◌<◌, ◌≤◌, length, Ok, Err};
ghost use Rattle.pre_topo.specs.declared.network.Network as network;
ghost use Rattle.pre_streams.specs.Fits.{Fits};
ghost use Rattle.pre_streams.specs.declared.rows.Row as stream_row;
ghost use Rattle.pre_bound.specs.Good.{IsStream};
ghost use Rattle.pre_certify.specs.Refusals.{names_cycle};
ghost use Rattle.pre_rounds.specs.Causes as of_rounds;
ghost use Rattle.pre_cli.specs.Answers.{outside};
ghost use Rattle.pre_cli.specs.Certifying.{HaveCycle, HasCertificate, IsLeastOfBoth, IsPortAt, IsAnswerTo, CertifiedCause, CertifiedLeaves, CertifyingCause, CertifyingLeaves};
ghost use Rattle.pre_cli.specs.Certifying as certifying;

use crate::Status;
use crate::files::{network_named, streams_named};
use crate::flushing::flushed;
use pre_base::{ArcId, Prio, Shelf, Sink, StreamId};
use pre_bound::Certificate;
use pre_certify::{Unfit, certify, put_certificate};
use pre_rounds::{RoundsFault, rounds};
use pre_streams::{Row, Streams};
use pre_topo::Network;
use std::alloc::Global;

pub(crate) fn unfit_status(cause: Unfit) -> Status
    ensures { result ≡ certifying.unfit_status cause }
{
    match cause {
        Unfit::Memory => Status::Memory,
        Unfit::Overload { arc } => Status::Unfit(Unfit::Overload { arc }),
        Unfit::Cycle { arcs } => Status::Unfit(Unfit::Cycle { arcs }),
        Unfit::Large { arc, prio } => Status::Unfit(Unfit::Large { arc, prio }),
        Unfit::Ring { arc, prio, need } => Status::Unfit(Unfit::Ring { arc, prio, need }),
    }
}

fn is_cycle(cause: &Unfit) -> bool
    ensures { result ≡ names_cycle cause.now }
{
    match cause {
        Unfit::Cycle { arcs: _ } => true,
        Unfit::Overload { arc: _ } => false,
        Unfit::Large { arc: _, prio: _ } => false,
        Unfit::Ring {
            arc: _,
            prio: _,
            need: _,
        } => false,
        Unfit::Memory => false,
    }
}

/// The port at a hop of a stream's route.
fn port_at(rows: &[Row], stream: StreamId, hop: u64) -> (ArcId, Prio)
    requires { (row : stream_row.Row) × IsStream rows.now stream.0 row × (hop < length row.arcs) }
    ensures { IsPortAt rows.now stream.0 hop result.0 result.1 }
{
    let row = &rows[stream.0 as usize];
    (row.arcs.as_slice()[hop as usize], row.prio)
}

/// The answer to a fault of the rounds.
fn rounds_status(rows: &[Row], fault: RoundsFault) -> Status
    requires { (net : network.Network) × of_rounds.Cause net rows.now fault }
    ensures { IsAnswerTo fault rows.now result }
{
    match fault {
        RoundsFault::Overload { arc } => Status::Unfit(Unfit::Overload { arc }),
        RoundsFault::Large { arc, prio } => Status::Unfit(Unfit::Large { arc, prio }),
        RoundsFault::Unsettled { arc, prio } => Status::Unsettled { arc, prio },
        RoundsFault::Wide { stream, hop } => {
            let (arc, prio) = port_at(rows, stream, hop);
            Status::Unfit(Unfit::Large { arc, prio })
        }
        RoundsFault::Ring { arc, prio, need } => Status::Unfit(Unfit::Ring { arc, prio, need }),
        RoundsFault::Memory => Status::Memory,
    }
}

/// Writes the least certificate, and passes it on.
fn put_least<S: Sink>(
    certificate: &Certificate,
    net: &Network,
    streams: &Streams,
    sink: &mut S,
) -> Status
    requires least { IsLeastOfBoth net.now streams.now certificate.now }
    requires has { HasCertificate net.now streams.now }
    ensures cause { CertifiedCause result net.now streams.now (S.faults sink.old) (S.faults sink.new) }
    ensures leaves { CertifiedLeaves result net.now streams.now (S.tells sink.old) (S.tells sink.new) }
    ensures later { S.faults sink.old ≤ S.faults sink.new }
{
    match put_certificate(certificate, net, streams, sink) {
        Ok(()) => flushed(sink, Status::Done),
        Err(_) => Status::WriteFault,
    }
}

/// Certifies streams whose routes have a cycle, without ranks, and writes the certificate.
fn certify_rounds<S: Sink>(alloc: Global, net: &Network, streams: &Streams, sink: &mut S) -> Status
    requires fits { Fits net.now streams.now }
    requires cycle { HaveCycle net.now streams.now }
    ensures cause { CertifiedCause result net.now streams.now (S.faults sink.old) (S.faults sink.new) }
    ensures leaves { CertifiedLeaves result net.now streams.now (S.tells sink.old) (S.tells sink.new) }
    ensures later { S.faults sink.old ≤ S.faults sink.new }
{
    match rounds(alloc, net, streams) {
        Ok(certificate) => put_least(&certificate, net, streams, sink),
        Err(fault) => rounds_status(streams.rows.as_slice(), fault),
    }
}

/// Certifies streams, without ranks where their routes have a cycle, and writes the certificate.
fn certify_streams<S: Sink>(alloc: Global, net: &Network, streams: &Streams, sink: &mut S) -> Status
    requires { Fits net.now streams.now }
    ensures cause { CertifiedCause result net.now streams.now (S.faults sink.old) (S.faults sink.new) }
    ensures leaves { CertifiedLeaves result net.now streams.now (S.tells sink.old) (S.tells sink.new) }
    ensures later { S.faults sink.old ≤ S.faults sink.new }
{
    match certify(alloc, net, streams) {
        Ok(certificate) => put_least(&certificate, net, streams, sink),
        Err(cause) => {
            if is_cycle(&cause) {
                certify_rounds(alloc, net, streams, sink)
            } else {
                unfit_status(cause)
            }
        }
    }
}

/// The command `certify` with the names of a network file and a stream file, or `pair` for the built-in text: it writes
/// the least certificate of the streams, without ranks where their routes have a cycle.
pub(crate) fn certify_files<H: Shelf, S: Sink>(
    alloc: Global,
    net_word: &str,
    streams_word: &str,
    shelf: &mut H,
    sink: &mut S,
) -> Status
    ensures cause { CertifyingCause result net_word.now streams_word.now
        (outside H.faults H.tells shelf.old shelf.new S.faults S.tells sink.old sink.new) }
    ensures leaves { CertifyingLeaves result net_word.now streams_word.now
        (outside H.faults H.tells shelf.old shelf.new S.faults S.tells sink.old sink.new) }
    ensures shelf_later { H.faults shelf.old ≤ H.faults shelf.new }
    ensures sink_later { S.faults sink.old ≤ S.faults sink.new }
{
    match network_named(alloc, net_word, shelf) {
        Ok(net) => match streams_named(alloc, streams_word, &net, shelf) {
            Ok(streams) => certify_streams(alloc, &net, &streams, sink),
            Err(status) => status,
        },
        Err(status) => status,
    }
}
