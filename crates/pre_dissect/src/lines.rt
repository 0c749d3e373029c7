ghost use Rattle.std.specs.Prelude.{◌≡◌, ◌∷◌, ◌++◌, [], map};
ghost use Rattle.pre_base.specs.Faults as faults;
ghost use Rattle.pre_base.specs.Told.{WhereTold};
ghost use Rattle.pre_base.specs.Sinks.{TakesAll};
ghost use Rattle.pre_text.specs.Spelled.{spelled};
ghost use Rattle.pre_mpacket.specs.Spelling as spelling;
ghost use Rattle.pre_pcap.specs.Views.{packet_record};
ghost use Rattle.pre_trace.specs.Text.{kind_word};
ghost use Rattle.pre_receive.specs.Takings as takings;
ghost use Rattle.pre_dissect.specs.PacketWords.{cause_word, packet_words};
ghost use Rattle.pre_dissect.specs.Dissections.{record_line};
ghost use Rattle.pre_dissect.specs.Answers.{TakesRecord};

use pre_base::{Failed, Sink};
use pre_mpacket::{Kind, one_mpacket, read_mpacket};
use pre_pcap::Record;
use pre_receive::{Cause, Receiver, Taken};
use pre_text::{Word, put_line};

// The word of a kind, as a trace tells it.
fn kind_of(kind: Kind) -> Word<'static, 'static>
    requires { spelling.HasCounts kind }
    ensures { spelled result ≡ kind_word kind }
{
    match kind {
        Kind::Express => Word::Octets(b"E"),
        Kind::Verify => Word::Octets(b"V"),
        Kind::Respond => Word::Octets(b"R"),
        Kind::Start(count) => Word::Two(b'S', b'0' + count),
        Kind::Continue(count, fragment) => Word::Four(b'C', b'0' + count, b'.', b'0' + fragment),
    }
}

// The word of a cause.
fn cause_of(cause: Cause) -> Word<'static, 'static>
    ensures { spelled result ≡ cause_word cause }
{
    match cause {
        Cause::Smd => Word::Octets(b"smd"),
        Cause::Fragment => Word::Octets(b"fragment"),
        Cause::Size => Word::Octets(b"size"),
        Cause::NoFrame => Word::Octets(b"noframe"),
        Cause::Count => Word::Octets(b"count"),
        Cause::Check => Word::Octets(b"check"),
    }
}

// The words for the kind and the size of the mPacket that the octets spell, or - for each.
fn packet_of(octets: &[u8]) -> (Word<'static, 'static>, Word<'static, 'static>)
    ensures { packet_words (spelling.mpacket_of octets.now) ≡ spelled result.0 ∷ spelled result.1 ∷ [] }
{
    one_mpacket();
    match read_mpacket(octets) {
        Ok(packet) => {
            let size = packet.mdata.len() as u64 + packet.check.len() as u64;
            (kind_of(packet.kind), Word::Number(size))
        }
        Err(_) => (Word::Octets(b"-"), Word::Octets(b"-")),
    }
}

// Writes the line of a record, by its place and by what it gave.
fn put_record_line<S: Sink>(
    sink: &mut S,
    place: u64,
    packet: &Record,
    taken: &Taken,
) -> Result<(), Failed>
    ensures octets { WhereTold (S.tells sink.old) (S.tells sink.new) (TakesAll result (record_line place (packet_record packet.now) (takings.plain taken.now))) }
    ensures cause { faults.HasCause (S.faults sink.old) (S.faults sink.new) result }
{
    let (kind, size) = packet_of(packet.octets);
    let seconds = Word::Number(u64::from(packet.seconds));
    let fraction = u64::from(packet.fraction);
    match *taken {
        Taken::Frame(frame) => put_line(
            sink,
            &seconds,
            &[
                Word::Number(fraction),
                Word::Number(place),
                kind,
                size,
                Word::Octets(b"frame"),
                Word::Hex(frame),
            ],
        ),
        Taken::Verify => put_line(
            sink,
            &seconds,
            &[
                Word::Number(fraction),
                Word::Number(place),
                kind,
                size,
                Word::Octets(b"verify"),
            ],
        ),
        Taken::Respond => put_line(
            sink,
            &seconds,
            &[
                Word::Number(fraction),
                Word::Number(place),
                kind,
                size,
                Word::Octets(b"respond"),
            ],
        ),
        Taken::Part => put_line(
            sink,
            &seconds,
            &[
                Word::Number(fraction),
                Word::Number(place),
                kind,
                size,
                Word::Octets(b"part"),
            ],
        ),
        Taken::Nothing(cause) => put_line(
            sink,
            &seconds,
            &[
                Word::Number(fraction),
                Word::Number(place),
                kind,
                size,
                Word::Octets(b"nothing"),
                cause_of(cause),
            ],
        ),
    }
}

/// Takes the octets of a record, and writes its line.
pub(crate) fn take_record<S: Sink>(
    receiver: &mut Receiver,
    place: u64,
    packet: &Record,
    sink: &mut S,
) -> Result<(), Failed>
    ensures line { TakesRecord result receiver.old receiver.new place (packet_record packet.now) (S.tells sink.old) (S.tells sink.new) }
    ensures cause { faults.HasCause (S.faults sink.old) (S.faults sink.new) result }
{
    let taken = receiver.take(packet.octets);
    put_record_line(sink, place, packet, &taken)
}
