ghost use Rattle.std.specs.Prelude.{◌≡◌, ℕ, ◌<◌, ◌≤◌, ◌^◌, List, [], ◌∷◌, ◌++◌, length, map, Option, Some, string_bytes, IfOk, IfErr};
ghost use Rattle.std.specs.Fmt.{decimal};
ghost use Rattle.pre_base.specs.Faults.{HasCause, Rose};
ghost use Rattle.pre_base.specs.Told.{WhereTold};
ghost use Rattle.pre_base.specs.Sinks.{TakesAll};
ghost use Rattle.pre_text.specs.Spelled.{spelled};
ghost use Rattle.pre_mpacket.specs.Spelling as spelling;
ghost use Rattle.pre_trace.specs.Text.{kind_word};
ghost use Rattle.pre_receive.specs.Takings as takings;
ghost use Rattle.pre_receive.specs.Receivers as receivers;
ghost use Rattle.pre_cli.specs.Answers.{outside};
ghost use Rattle.pre_cli.specs.Listing.{cause_word, taking_words, packet_words, packet_line, TakesListAll};
ghost use Rattle.pre_cli.specs.Listed.{GivesLine, ListedCause, ListedLeaves, ListingCause, ListingLeaves, IsPacketFile, IsFileCause};

use crate::flushing::flushed;
use crate::packet_files::{PacketFault, read_packets};
use crate::{FileWord, Status};
use pre_base::{Failed, Items, ReadError, Shelf, Sink, read_whole};
use pre_mpacket::{Kind, one_mpacket, read_mpacket};
use pre_receive::{Cause, Receiver, Taken};
use pre_text::{Word, put_line};
use std::alloc::Global;

fn kind_of(kind: Kind) -> Word<'static, 'static>
    requires { spelling.HasCounts kind }
    ensures { spelled result ≡ kind_word kind }
{
    match kind {
        Kind::Express => Word::Octets(b"E"),
        Kind::Verify => Word::Octets(b"V"),
        Kind::Respond => Word::Octets(b"R"),
        Kind::Start(count) => Word::Two(b'S', b'0' + count),
        Kind::Continue(count, fragment) => Word::Four(b'C', b'0' + count, b'.', b'0' + fragment),
    }
}

fn cause_of(cause: Cause) -> Word<'static, 'static>
    ensures { spelled result ≡ cause_word cause }
{
    match cause {
        Cause::Smd => Word::Octets(b"smd"),
        Cause::Fragment => Word::Octets(b"fragment"),
        Cause::Size => Word::Octets(b"size"),
        Cause::NoFrame => Word::Octets(b"noframe"),
        Cause::Count => Word::Octets(b"count"),
        Cause::Check => Word::Octets(b"check"),
    }
}

// The words for the kind and the size of the mPacket that the octets spell, or - for each.
fn head_of(octets: &[u8]) -> (Word<'static, 'static>, Word<'static, 'static>)
    ensures { packet_words (spelling.mpacket_of octets.now) ≡ spelled result.0 ∷ spelled result.1 ∷ [] }
{
    one_mpacket();
    match read_mpacket(octets) {
        Ok(packet) => {
            let size = packet.mdata.len() as u64 + packet.check.len() as u64;
            (kind_of(packet.kind), Word::Number(size))
        }
        Err(_) => (Word::Octets(b"-"), Word::Octets(b"-")),
    }
}

// Writes the line of an arrival, from its place on, with what it gave.
fn put_packet<S: Sink>(sink: &mut S, place: u64, octets: &[u8], taken: &Taken) -> Result<(), Failed>
    ensures octets { WhereTold (S.tells sink.old) (S.tells sink.new) (TakesAll result (packet_line place octets.now (takings.plain taken.now))) }
    ensures cause { HasCause (S.faults sink.old) (S.faults sink.new) result }
{
    let (kind, size) = head_of(octets);
    let place = Word::Number(place);
    match *taken {
        Taken::Frame(frame) => put_line(
            sink,
            &place,
            &[kind, size, Word::Octets(b"frame"), Word::Hex(frame)],
        ),
        Taken::Verify => put_line(sink, &place, &[kind, size, Word::Octets(b"verify")]),
        Taken::Respond => put_line(sink, &place, &[kind, size, Word::Octets(b"respond")]),
        Taken::Part => put_line(sink, &place, &[kind, size, Word::Octets(b"part")]),
        Taken::Nothing(cause) => put_line(
            sink,
            &place,
            &[kind, size, Word::Octets(b"nothing"), cause_of(cause)],
        ),
    }
}

// Takes an arrival, and writes its line.
fn put_taken<S: Sink>(
    receiver: &mut Receiver,
    place: u64,
    octets: &[u8],
    sink: &mut S,
) -> Result<(), Failed>
    ensures line { GivesLine result receiver.old receiver.new place octets.now (S.tells sink.old) (S.tells sink.new) }
    ensures cause { HasCause (S.faults sink.old) (S.faults sink.new) result }
{
    let taken = receiver.take(octets);
    put_packet(sink, place, octets, &taken)
}

// Takes the arrivals one after another, and writes the line of each.
fn put_listing<S: Sink>(
    receiver: &mut Receiver,
    arrivals: &[Items<u8>],
    sink: &mut S,
) -> Result<(), Failed>
    requires { receivers.Stands receiver.old [] }
    ensures lines { WhereTold (S.tells sink.old) (S.tells sink.new) (TakesListAll result arrivals.now) }
    ensures cause { HasCause (S.faults sink.old) (S.faults sink.new) result }
{
    pre_receive::later_takings();
    for (place, octets) in arrivals.iter().enumerate() {
        put_taken(receiver, place as u64, octets.as_slice(), sink)?;
    }
    Ok(())
}

// Lists the arrivals that the octets of a file spell.
fn list_octets<S: Sink>(alloc: Global, octets: &[u8], sink: &mut S) -> Status
    ensures cause { ListedCause result octets.now (S.faults sink.old) (S.faults sink.new) }
    ensures leaves { ListedLeaves result octets.now (S.tells sink.old) (S.tells sink.new) }
    ensures later { S.faults sink.old ≤ S.faults sink.new }
{
    let arrivals = match read_packets(alloc, octets) {
        Ok(arrivals) => arrivals,
        Err(PacketFault::Line(line)) => {
            return Status::Form {
                file: FileWord::Mpackets,
                line,
                rule: 1,
            };
        }
        Err(PacketFault::Memory) => return Status::Memory,
    };
    let Ok(mut receiver) = Receiver::make(alloc) else {
        return Status::Memory;
    };
    match put_listing(&mut receiver, arrivals.as_slice(), sink) {
        Ok(()) => flushed(sink, Status::Done),
        Err(_) => Status::WriteFault,
    }
}

// The octets of a file of mPackets, or the answer in their place.
fn file_octets<H: Shelf>(alloc: Global, name: &str, shelf: &mut H) -> Result<Vec<u8>, Status>
    ensures octets { IfOk result (λ octets. WhereTold (H.tells shelf.old) (H.tells shelf.new) (IsPacketFile name.now octets.items)) }
    ensures cause { IfErr result (λ status. IsFileCause status name.now (H.faults shelf.old) (H.faults shelf.new) (H.tells shelf.old) (H.tells shelf.new)) }
    ensures within { IfOk result (λ octets. length octets.items ≤ 16777216) }
    ensures later { H.faults shelf.old ≤ H.faults shelf.new }
{
    match read_whole(alloc, shelf, name) {
        Ok(octets) => Ok(octets),
        Err(ReadError::Fault) => Err(Status::ReadFault),
        Err(ReadError::Length) => Err(Status::Form {
            file: FileWord::Mpackets,
            line: 0,
            rule: 0,
        }),
        Err(ReadError::Memory) => Err(Status::Memory),
    }
}

/// The command `mpackets` with the name of a file: one receiver takes the arrivals of the whole file, and each line tells
/// what one gave.
pub(crate) fn list_file<H: Shelf, S: Sink>(
    alloc: Global,
    name: &str,
    shelf: &mut H,
    sink: &mut S,
) -> Status
    ensures cause { ListingCause result name.now
        (outside H.faults H.tells shelf.old shelf.new S.faults S.tells sink.old sink.new) }
    ensures leaves { ListingLeaves result name.now
        (outside H.faults H.tells shelf.old shelf.new S.faults S.tells sink.old sink.new) (S.tells sink.old) (S.tells sink.new) }
    ensures shelf_later { H.faults shelf.old ≤ H.faults shelf.new }
    ensures sink_later { S.faults sink.old ≤ S.faults sink.new }
{
    match file_octets(alloc, name, shelf) {
        Ok(octets) => list_octets(alloc, octets.as_slice(), sink),
        Err(status) => status,
    }
}
