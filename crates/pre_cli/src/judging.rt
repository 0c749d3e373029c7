ghost use Rattle.std.specs.Prelude.{◌≡◌, ◌≤◌, IfOk, IfErr};
ghost use Rattle.pre_base.specs.Told.{WhereTold};
ghost use Rattle.pre_streams.specs.Fits.{Fits};
ghost use Rattle.pre_bound.specs.Listed.{GoodCertificate};
ghost use Rattle.pre_check.specs.Lines.{HasRows};
ghost use Rattle.pre_certify.specs.Text.{certificate_text};
ghost use Rattle.pre_cli.specs.Answers.{outside};
ghost use Rattle.pre_cli.specs.Files.{OfFiles, InPlace, IsNoFile};
ghost use Rattle.pre_cli.specs.Readings.{Instead, AnswerCause, AnswerLeaves};
ghost use Rattle.pre_cli.specs.Judging.{IsCertificateIn, CertificateRefused, good_certificate_in, certified_in, judging, accepted_text, Accepts, AcceptsFront, Migrates, MigratesFront};
ghost use Rattle.pre_cli.specs.Words.{judge_words};
ghost use Rattle.pre_cli.specs.Judging as judging_words;
ghost use Rattle.pre_cli.specs.Putting.{PutEnds, PutCause};

use crate::files::{file_text, network_named, streams_named};
use crate::flushing::flushed;
use crate::{FileWord, Status};
use pre_base::{Shelf, Sink, write_all};
use pre_bound::Certificate;
use pre_certify::put_certificate;
use pre_check::{CertificateFault, Verdict, judge, read_certificate};
use pre_streams::Streams;
use pre_topo::Network;
use std::alloc::Global;

fn certificate_status(fault: CertificateFault) -> Status
    ensures { result ≡ judging_words.certificate_status fault }
{
    match fault {
        CertificateFault::Fault { line, rule } => Status::Form {
            file: FileWord::Cert,
            line,
            rule,
        },
        CertificateFault::Memory => Status::Memory,
    }
}

/// The certificate of a file for this network and these streams, or the answer in its place.
fn certificate_in<H: Shelf>(
    alloc: Global,
    name: &str,
    net: &Network,
    streams: &Streams,
    shelf: &mut H,
) -> Result<Certificate, Status>
    requires { Fits net.now streams.now }
    ensures rows { IfOk result (HasRows net.now streams.now.rows) }
    ensures certificate { IfOk result (λ c. WhereTold (H.tells shelf.old) (H.tells shelf.new) (OfFiles (IsCertificateIn name.now net.now streams.now c))) }
    ensures cause { IfErr result (λ s. InPlace s (IsNoFile name.now) (CertificateRefused name.now net.now streams.now)
        (H.faults shelf.old) (H.faults shelf.new) (H.tells shelf.old) (H.tells shelf.new)) }
    ensures later { H.faults shelf.old ≤ H.faults shelf.new }
{
    match file_text(alloc, FileWord::Cert, name, shelf) {
        Ok(text) => match read_certificate(alloc, text.as_slice(), net, streams) {
            Ok(certificate) => Ok(certificate),
            Err(fault) => Err(certificate_status(fault)),
        },
        Err(status) => Err(status),
    }
}

/// The same, where the certificate is good, and else the first clause that fails.
fn good_certificate_in<H: Shelf>(
    alloc: Global,
    name: &str,
    net: &Network,
    streams: &Streams,
    shelf: &mut H,
) -> Result<Certificate, Status>
    requires { Fits net.now streams.now }
    ensures good { IfOk result (GoodCertificate net.now streams.now) }
    ensures certificate { IfOk result (λ c. WhereTold (H.tells shelf.old) (H.tells shelf.new) (OfFiles ((good_certificate_in name.now net.now streams.now).gives c))) }
    ensures cause { IfErr result (λ s. Instead (good_certificate_in name.now net.now streams.now) s (H.faults shelf.old) (H.faults shelf.new) (H.tells shelf.old) (H.tells shelf.new)) }
    ensures later { H.faults shelf.old ≤ H.faults shelf.new }
{
    match certificate_in(alloc, name, net, streams, shelf) {
        Ok(certificate) => match judge(net, streams, &certificate) {
            Verdict::Accepted => Ok(certificate),
            Verdict::Rejected { clause, row } => Err(Status::Rejected { clause, row }),
        },
        Err(status) => Err(status),
    }
}

/// Streams and a good certificate for them.
#[derive(Drop)]
pub struct Certified {
    pub streams: Streams,
    pub certificate: Certificate,
}

/// The streams and the good certificate that two words stand for, for this network, or the answer in their place.
pub(crate) fn certified_named<H: Shelf>(
    alloc: Global,
    streams_word: &str,
    certificate_word: &str,
    net: &Network,
    shelf: &mut H,
) -> Result<Certified, Status>
    ensures fits { IfOk result (λ x. Fits net.now x.streams) }
    ensures good { IfOk result (λ x. GoodCertificate net.now x.streams x.certificate) }
    ensures certified { IfOk result (λ x. WhereTold (H.tells shelf.old) (H.tells shelf.new) (OfFiles ((certified_in streams_word.now certificate_word.now net.now).gives (x.streams, x.certificate)))) }
    ensures cause { IfErr result (λ s. Instead (certified_in streams_word.now certificate_word.now net.now) s (H.faults shelf.old) (H.faults shelf.new) (H.tells shelf.old) (H.tells shelf.new)) }
    ensures later { H.faults shelf.old ≤ H.faults shelf.new }
{
    match streams_named(alloc, streams_word, net, shelf) {
        Ok(streams) => match good_certificate_in(alloc, certificate_word, net, &streams, shelf) {
            Ok(certificate) => Ok(Certified {
                streams,
                certificate,
            }),
            Err(status) => Err(status),
        },
        Err(status) => Err(status),
    }
}

/// A network, and what is certified over it.
#[derive(Drop)]
pub struct Judged {
    pub net: Network,
    pub certified: Certified,
}

/// The network, the streams and the good certificate that three words stand for, or the answer in their place.
pub fn judged_named<H: Shelf>(
    alloc: Global,
    net_word: &str,
    streams_word: &str,
    certificate_word: &str,
    shelf: &mut H,
) -> Result<Judged, Status>
    ensures fits { IfOk result (λ x. Fits x.net x.certified.streams) }
    ensures good { IfOk result (λ x. GoodCertificate x.net x.certified.streams x.certified.certificate) }
    ensures judged { IfOk result (λ x. WhereTold (H.tells shelf.old) (H.tells shelf.new)
        (OfFiles ((judging (judge_words net_word.now streams_word.now certificate_word.now)).gives (x.net, (x.certified.streams, x.certified.certificate))))) }
    ensures cause { IfErr result (λ s. Instead (judging (judge_words net_word.now streams_word.now certificate_word.now)) s
        (H.faults shelf.old) (H.faults shelf.new) (H.tells shelf.old) (H.tells shelf.new)) }
    ensures later { H.faults shelf.old ≤ H.faults shelf.new }
{
    match network_named(alloc, net_word, shelf) {
        Ok(net) => match certified_named(alloc, streams_word, certificate_word, &net, shelf) {
            Ok(certified) => Ok(Judged { net, certified }),
            Err(status) => Err(status),
        },
        Err(status) => Err(status),
    }
}

/// Writes that a certificate is good, and passes it on.
fn put_accepted<S: Sink>(sink: &mut S) -> Status
    ensures ends { PutEnds result accepted_text (S.tells sink.old) (S.tells sink.new) }
    ensures cause { PutCause result (S.faults sink.old) (S.faults sink.new) }
{
    match write_all(sink, b"accepted\n") {
        Ok(()) => flushed(sink, Status::Done),
        Err(_) => Status::WriteFault,
    }
}

/// Writes a certificate, and passes it on.
fn put_migrated<S: Sink>(
    certificate: &Certificate,
    net: &Network,
    streams: &Streams,
    sink: &mut S,
) -> Status
    ensures ends { PutEnds result (certificate_text net.now streams.now.rows certificate.now) (S.tells sink.old) (S.tells sink.new) }
    ensures cause { PutCause result (S.faults sink.old) (S.faults sink.new) }
{
    match put_certificate(certificate, net, streams, sink) {
        Ok(()) => flushed(sink, Status::Done),
        Err(_) => Status::WriteFault,
    }
}

/// The command `judge` with words for a network and streams, as `certify` takes them, and the name of a certificate: it
/// writes that the certificate is good, where it is.
pub(crate) fn judge_files<H: Shelf, S: Sink>(
    alloc: Global,
    net_word: &str,
    streams_word: &str,
    certificate_word: &str,
    shelf: &mut H,
    sink: &mut S,
) -> Status
    ensures cause { AnswerCause (judging (judge_words net_word.now streams_word.now certificate_word.now)) result
        (outside H.faults H.tells shelf.old shelf.new S.faults S.tells sink.old sink.new) }
    ensures leaves { AnswerLeaves (judging (judge_words net_word.now streams_word.now certificate_word.now)) Accepts AcceptsFront result
        (outside H.faults H.tells shelf.old shelf.new S.faults S.tells sink.old sink.new) }
    ensures shelf_later { H.faults shelf.old ≤ H.faults shelf.new }
    ensures sink_later { S.faults sink.old ≤ S.faults sink.new }
{
    match judged_named(alloc, net_word, streams_word, certificate_word, shelf) {
        Ok(_judged) => put_accepted(sink),
        Err(status) => status,
    }
}

/// The command `migrate` with the same words: it writes the certificate, where it is good, as `certify` writes certificates.
pub(crate) fn migrate_files<H: Shelf, S: Sink>(
    alloc: Global,
    net_word: &str,
    streams_word: &str,
    certificate_word: &str,
    shelf: &mut H,
    sink: &mut S,
) -> Status
    ensures cause { AnswerCause (judging (judge_words net_word.now streams_word.now certificate_word.now)) result
        (outside H.faults H.tells shelf.old shelf.new S.faults S.tells sink.old sink.new) }
    ensures leaves { AnswerLeaves (judging (judge_words net_word.now streams_word.now certificate_word.now)) Migrates MigratesFront result
        (outside H.faults H.tells shelf.old shelf.new S.faults S.tells sink.old sink.new) }
    ensures shelf_later { H.faults shelf.old ≤ H.faults shelf.new }
    ensures sink_later { S.faults sink.old ≤ S.faults sink.new }
{
    match judged_named(alloc, net_word, streams_word, certificate_word, shelf) {
        Ok(judged) => {
            let certified = &judged.certified;
            put_migrated(
                &certified.certificate,
                &judged.net,
                &certified.streams,
                sink,
            )
        }
        Err(status) => status,
    }
}
