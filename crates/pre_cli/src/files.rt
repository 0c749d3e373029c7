ghost use Rattle.std.specs.Prelude.{◌≡◌, ◌<◌, ◌≤◌, length, IfOk, IfErr, Ok, Err};
ghost use Rattle.pre_base.specs.Told.{WhereTold};
ghost use Rattle.pre_streams.specs.Fits.{Fits};
ghost use Rattle.pre_cli.specs.Files.{pair_network, pair_streams, IsTextIn, OfFiles, IsGone, IsLong, InPlace, IsNetIn, NetRefused, AreStreamsIn, StreamsRefused};
ghost use Rattle.pre_cli.specs.Files as files;

use crate::{FileWord, Status};
use pre_base::{FileRow, ReadError, Shelf, read_whole};
use pre_streams::{StreamFault, Streams, read_streams};
use pre_topo::{Network, TopoFault, read_network};
use std::alloc::Global;

/// The text that `pair` stands for in the place of a network file.
#[tactic(auto, unfolding(crate::specs::Files::pair_network))]
fn pair_network() -> &'static [u8]
    ensures text { result.now ≡ pair_network }
    ensures short { length result.now ≤ 16777216 }
{
    b"express_from = 4\n[[node]]\nname = \"a\"\nkind = \"station\"\n[[node]]\nname = \"b\"\nkind = \"station\"\n[[link]]\nends = [\"a\", \"b\"]\ncost = 1\nmode = \"on\"\nrings = [64, 64, 64, 64, 64, 64, 64, 64]\n"
}

/// The text that `pair` stands for in the place of a stream file.
#[tactic(auto, unfolding(crate::specs::Files::pair_streams))]
fn pair_streams() -> &'static [u8]
    ensures text { result.now ≡ pair_streams }
    ensures short { length result.now ≤ 16777216 }
{
    b"[[stream]]\nname = \"x\"\nvid = 10\nprio = 6\nroute = [\"a\", \"b\"]\nmax = 1522\nburst = 2000\nrate = 100000\n[[flow]]\nname = \"y\"\nvid = 20\nprio = 0\nroute = [\"a\", \"b\"]\nmax = 1522\n"
}

/// The octets of a file, or the answer in their place.
pub fn file_text<H: Shelf>(
    alloc: Global,
    file: FileWord,
    word: &str,
    shelf: &mut H,
) -> Result<Vec<u8>, Status>
    ensures text { IfOk result (λ text. WhereTold (H.tells shelf.old) (H.tells shelf.new) (OfFiles (files.IsFileIn word.now text.items))) }
    ensures cause { IfErr result (λ s. InPlace s (files.IsNoFile word.now) (files.IsLongFile file word.now)
        (H.faults shelf.old) (H.faults shelf.new) (H.tells shelf.old) (H.tells shelf.new)) }
    ensures later { H.faults shelf.old ≤ H.faults shelf.new }
{
    match read_whole(alloc, shelf, word) {
        Ok(text) => Ok(text),
        Err(ReadError::Fault) => Err(Status::ReadFault),
        Err(ReadError::Length) => Err(Status::Form {
            file,
            line: 0,
            rule: 0,
        }),
        Err(ReadError::Memory) => Err(Status::Memory),
    }
}

/// The text that a word of the command stands for, or the answer in its place.
fn text_of<H: Shelf>(
    alloc: Global,
    file: FileWord,
    built_in: &[u8],
    word: &str,
    shelf: &mut H,
) -> Result<Vec<u8>, Status>
    requires { length built_in.now ≤ 16777216 }
    ensures text { IfOk result (λ text. WhereTold (H.tells shelf.old) (H.tells shelf.new) (OfFiles (IsTextIn built_in.now word.now text.items))) }
    ensures cause { IfErr result (λ s. InPlace s (IsGone built_in.now word.now) (IsLong file built_in.now word.now) (H.faults shelf.old) (H.faults shelf.new) (H.tells shelf.old) (H.tells shelf.new)) }
    ensures later { H.faults shelf.old ≤ H.faults shelf.new }
{
    if word == "pair" {
        match built_in.to_vec(alloc) {
            Ok(text) => Ok(text),
            Err(_) => Err(Status::Memory),
        }
    } else {
        file_text(alloc, file, word, shelf)
    }
}

fn topo_status(fault: TopoFault) -> Status
    ensures { result ≡ files.topo_status fault }
{
    let (row, rule) = match fault {
        TopoFault::Memory => return Status::Memory,
        TopoFault::Toml => {
            return Status::Form {
                file: FileWord::Net,
                line: 0,
                rule: 1,
            };
        }
        TopoFault::Field { row } => (row, 2),
        TopoFault::Name { row } => (row, 3),
        TopoFault::End { row } => (row, 4),
        TopoFault::Range { row } => (row, 5),
        TopoFault::Count => (FileRow::Top, 6),
        TopoFault::Slots => (FileRow::Top, 7),
        TopoFault::Wires => (FileRow::Top, 8),
    };
    Status::Rules {
        file: FileWord::Net,
        row,
        rule,
    }
}

pub(crate) fn stream_status(file: FileWord, fault: StreamFault) -> Status
    ensures { result ≡ files.stream_status file fault }
{
    let (row, rule) = match fault {
        StreamFault::Memory => return Status::Memory,
        StreamFault::Toml => {
            return Status::Form {
                file,
                line: 0,
                rule: 1,
            };
        }
        StreamFault::Field { row } => (row, 2),
        StreamFault::Name { row } => (row, 3),
        StreamFault::Route { row, hop: _ } => (row, 4),
        StreamFault::Class { row } => (row, 5),
        StreamFault::Range { row } => (row, 6),
        StreamFault::Burst { row } => (row, 7),
        StreamFault::Count => (FileRow::Top, 8),
    };
    Status::Rules { file, row, rule }
}

/// The network that a word stands for, or the answer in its place.
pub fn network_named<H: Shelf>(alloc: Global, word: &str, shelf: &mut H) -> Result<Network, Status>
    ensures net { IfOk result (λ net. WhereTold (H.tells shelf.old) (H.tells shelf.new) (OfFiles (IsNetIn word.now net))) }
    ensures cause { IfErr result (λ s. InPlace s (IsGone pair_network word.now) (NetRefused word.now) (H.faults shelf.old) (H.faults shelf.new) (H.tells shelf.old) (H.tells shelf.new)) }
    ensures later { H.faults shelf.old ≤ H.faults shelf.new }
{
    match text_of(alloc, FileWord::Net, pair_network(), word, shelf) {
        Ok(text) => match read_network(alloc, text.as_slice()) {
            Ok(net) => Ok(net),
            Err(fault) => Err(topo_status(fault)),
        },
        Err(status) => Err(status),
    }
}

/// The streams that a word stands for, for this network, or the answer in their place.
pub(crate) fn streams_named<H: Shelf>(
    alloc: Global,
    word: &str,
    net: &Network,
    shelf: &mut H,
) -> Result<Streams, Status>
    ensures fits { IfOk result (Fits net.now) }
    ensures streams { IfOk result (λ streams. WhereTold (H.tells shelf.old) (H.tells shelf.new) (OfFiles (AreStreamsIn word.now net.now streams))) }
    ensures cause { IfErr result (λ s. InPlace s (IsGone pair_streams word.now) (StreamsRefused word.now net.now) (H.faults shelf.old) (H.faults shelf.new) (H.tells shelf.old) (H.tells shelf.new)) }
    ensures later { H.faults shelf.old ≤ H.faults shelf.new }
{
    match text_of(alloc, FileWord::Streams, pair_streams(), word, shelf) {
        Ok(text) => match read_streams(alloc, text.as_slice(), net) {
            Ok(streams) => Ok(streams),
            Err(fault) => Err(stream_status(FileWord::Streams, fault)),
        },
        Err(status) => Err(status),
    }
}
