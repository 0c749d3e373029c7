ghost use Rattle.std.specs.Prelude.{◌≡◌, ◌≤◌, ◌++◌, IfOk, IfErr};
ghost use Rattle.pre_base.specs.Faults.{HasCause};
ghost use Rattle.pre_base.specs.Told.{WhereTold};
ghost use Rattle.pre_base.specs.Sinks.{TakesAll};
ghost use Rattle.pre_streams.specs.Fits.{Fits};
ghost use Rattle.pre_certify.specs.Text.{certificate_text};
ghost use Rattle.pre_admit.specs.Certified.{IsPlan};
ghost use Rattle.pre_cli.specs.Answers.{outside};
ghost use Rattle.pre_cli.specs.Files.{OfFiles, InPlace, IsNoFile};
ghost use Rattle.pre_cli.specs.Readings.{Instead, AnswerCause, AnswerLeaves};
ghost use Rattle.pre_cli.specs.Admitting.{AreMoreIn, MoreRefused, has_flow, HasNoFlow, more_in, both_in, adding, admitting, AdmitsAll, AdmitsFront, AdmitsTo, AddsTo};
ghost use Rattle.pre_cli.specs.Outcomes.{held_lines};
ghost use Rattle.pre_cli.specs.Words.{admit_words};

use crate::certifying::unfit_status;
use crate::files::{file_text, network_named, stream_status, streams_named};
use crate::flushing::flushed;
use crate::outcomes::put_outcomes;
use crate::{FileWord, Status};
use pre_admit::{Outcome, Plan, admit_all};
use pre_base::{Failed, FileRow, Shelf, Sink};
use pre_certify::put_certificate;
use pre_streams::{Row, Streams, read_streams};
use pre_topo::Network;
use std::alloc::Global;

/// The streams and flows of a file for this network, or the answer in their place.
fn rows_in<H: Shelf>(
    alloc: Global,
    name: &str,
    net: &Network,
    shelf: &mut H,
) -> Result<Streams, Status>
    ensures fits { IfOk result (Fits net.now) }
    ensures rows { IfOk result (λ more. WhereTold (H.tells shelf.old) (H.tells shelf.new) (OfFiles (AreMoreIn name.now net.now more))) }
    ensures cause { IfErr result (λ s. InPlace s (IsNoFile name.now) (MoreRefused name.now net.now) (H.faults shelf.old) (H.faults shelf.new) (H.tells shelf.old) (H.tells shelf.new)) }
    ensures later { H.faults shelf.old ≤ H.faults shelf.new }
{
    match file_text(alloc, FileWord::More, name, shelf) {
        Ok(text) => match read_streams(alloc, text.as_slice(), net) {
            Ok(more) => Ok(more),
            Err(fault) => Err(stream_status(FileWord::More, fault)),
        },
        Err(status) => Err(status),
    }
}

fn has_flow(rows: &[Row]) -> bool
    ensures { result ≡ has_flow rows.now }
{
    rows.iter().any(|row| row.curve.is_none())
}

/// The same, where there is no flow, and else the fault of the counts.
fn more_in<H: Shelf>(
    alloc: Global,
    name: &str,
    net: &Network,
    shelf: &mut H,
) -> Result<Streams, Status>
    ensures fits { IfOk result (Fits net.now) }
    ensures streams { IfOk result HasNoFlow }
    ensures more { IfOk result (λ more. WhereTold (H.tells shelf.old) (H.tells shelf.new) (OfFiles ((more_in name.now net.now).gives more))) }
    ensures cause { IfErr result (λ s. Instead (more_in name.now net.now) s (H.faults shelf.old) (H.faults shelf.new) (H.tells shelf.old) (H.tells shelf.new)) }
    ensures later { H.faults shelf.old ≤ H.faults shelf.new }
{
    match rows_in(alloc, name, net, shelf) {
        Ok(more) => {
            if has_flow(more.rows.as_slice()) {
                return Err(Status::Rules {
                    file: FileWord::More,
                    row: FileRow::Top,
                    rule: 8,
                });
            }
            Ok(more)
        }
        Err(status) => Err(status),
    }
}

/// Streams, and those that are to be admitted to them.
#[derive(Drop)]
struct Added {
    streams: Streams,
    more: Streams,
}

/// The streams and the streams more that two words stand for, for this network, or the answer in their place.
fn added_named<H: Shelf>(
    alloc: Global,
    streams_word: &str,
    more_word: &str,
    net: &Network,
    shelf: &mut H,
) -> Result<Added, Status>
    ensures fits { IfOk result (λ x. Fits net.now x.streams) }
    ensures more { IfOk result (λ x. Fits net.now x.more) }
    ensures streams { IfOk result (λ x. HasNoFlow x.more) }
    ensures added { IfOk result (λ x. WhereTold (H.tells shelf.old) (H.tells shelf.new) (OfFiles ((both_in streams_word.now more_word.now net.now).gives (x.streams, x.more)))) }
    ensures cause { IfErr result (λ s. Instead (both_in streams_word.now more_word.now net.now) s (H.faults shelf.old) (H.faults shelf.new) (H.tells shelf.old) (H.tells shelf.new)) }
    ensures later { H.faults shelf.old ≤ H.faults shelf.new }
{
    match streams_named(alloc, streams_word, net, shelf) {
        Ok(streams) => match more_in(alloc, more_word, net, shelf) {
            Ok(more) => Ok(Added { streams, more }),
            Err(status) => Err(status),
        },
        Err(status) => Err(status),
    }
}

/// A network, and what is to be held over it.
#[derive(Drop)]
struct Input {
    net: Network,
    added: Added,
}

/// The network, the streams and the streams more that three words stand for, or the answer in their place.
fn input_named<H: Shelf>(
    alloc: Global,
    net_word: &str,
    streams_word: &str,
    more_word: &str,
    shelf: &mut H,
) -> Result<Input, Status>
    ensures fits { IfOk result (λ x. Fits x.net x.added.streams) }
    ensures more { IfOk result (λ x. Fits x.net x.added.more) }
    ensures streams { IfOk result (λ x. HasNoFlow x.added.more) }
    ensures input { IfOk result (λ x. WhereTold (H.tells shelf.old) (H.tells shelf.new)
        (OfFiles ((adding (admit_words net_word.now streams_word.now more_word.now)).gives (x.net, (x.added.streams, x.added.more))))) }
    ensures cause { IfErr result (λ s. Instead (adding (admit_words net_word.now streams_word.now more_word.now)) s
        (H.faults shelf.old) (H.faults shelf.new) (H.tells shelf.old) (H.tells shelf.new)) }
    ensures later { H.faults shelf.old ≤ H.faults shelf.new }
{
    match network_named(alloc, net_word, shelf) {
        Ok(net) => match added_named(alloc, streams_word, more_word, &net, shelf) {
            Ok(added) => Ok(Input { net, added }),
            Err(status) => Err(status),
        },
        Err(status) => Err(status),
    }
}

/// Writes what came of the rows, and the certificate of the streams that are held.
fn put_held<S: Sink>(plan: &Plan<'_>, outcomes: &[Outcome], sink: &mut S) -> Result<(), Failed>
    ensures octets { WhereTold (S.tells sink.old) (S.tells sink.new)
        (TakesAll result (held_lines plan.now.streams.rows outcomes.now ++ certificate_text plan.now.net.now plan.now.streams.rows plan.now.certificate)) }
    ensures cause { HasCause (S.faults sink.old) (S.faults sink.new) result }
{
    put_outcomes(sink, plan.streams.rows.as_slice(), outcomes)?;
    put_certificate(&plan.certificate, plan.net, &plan.streams, sink)
}

/// Admits the rows one after the other and writes what came of them, and passes it on.
fn admit_to<S: Sink>(alloc: Global, plan: &mut Plan<'_>, more: Streams, sink: &mut S) -> Status
    requires plan { IsPlan plan.old.net.now plan.old.streams plan.old.certificate }
    requires more { Fits plan.old.net.now more }
    requires streams { HasNoFlow more }
    ensures ends { AdmitsTo (plan.old.net.now, (plan.old.streams, more)) result (S.faults sink.old) (S.faults sink.new) (S.tells sink.old) (S.tells sink.new) }
    ensures later { S.faults sink.old ≤ S.faults sink.new }
{
    match admit_all(alloc, plan, more.rows) {
        Ok(outcomes) => match put_held(plan, outcomes.as_slice(), sink) {
            Ok(()) => flushed(sink, Status::Done),
            Err(_) => Status::WriteFault,
        },
        Err(_) => Status::Memory,
    }
}

/// Certifies the streams, and admits the others to them.
fn admit_added<S: Sink>(alloc: Global, net: &Network, added: Added, sink: &mut S) -> Status
    requires fits { Fits net.now added.streams }
    requires more { Fits net.now added.more }
    requires streams { HasNoFlow added.more }
    ensures ends { AddsTo (net.now, (added.streams, added.more)) result (S.faults sink.old) (S.faults sink.new) (S.tells sink.old) (S.tells sink.new) }
    ensures later { S.faults sink.old ≤ S.faults sink.new }
{
    match Plan::make(alloc, net, added.streams) {
        Ok(mut plan) => admit_to(alloc, &mut plan, added.more, sink),
        Err(cause) => unfit_status(cause),
    }
}

/// The command `admit` with words for a network and streams, as `certify` takes them, and the name of a file of more streams:
/// it admits these one after the other, and writes what came of each and the certificate of the streams that are held then.
pub(crate) fn admit_files<H: Shelf, S: Sink>(
    alloc: Global,
    net_word: &str,
    streams_word: &str,
    more_word: &str,
    shelf: &mut H,
    sink: &mut S,
) -> Status
    ensures cause { AnswerCause (admitting (admit_words net_word.now streams_word.now more_word.now)) result
        (outside H.faults H.tells shelf.old shelf.new S.faults S.tells sink.old sink.new) }
    ensures leaves { AnswerLeaves (admitting (admit_words net_word.now streams_word.now more_word.now)) AdmitsAll AdmitsFront result
        (outside H.faults H.tells shelf.old shelf.new S.faults S.tells sink.old sink.new) }
    ensures shelf_later { H.faults shelf.old ≤ H.faults shelf.new }
    ensures sink_later { S.faults sink.old ≤ S.faults sink.new }
{
    match input_named(alloc, net_word, streams_word, more_word, shelf) {
        Ok(input) => {
            let added = input.added;
            admit_added(alloc, &input.net, added, sink)
        }
        Err(status) => status,
    }
}
