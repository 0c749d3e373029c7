ghost use Rattle.std.specs.Prelude.{◌≡◌, Option, None, Some, Ok, IfOk};
ghost use Rattle.pre_text.specs.Words.{pairs_within};
ghost use Rattle.pre_cli.specs.PacketFiles.{ReadsAs, LineReadsAs, after_line, arrivals_of, max_arrival};

use pre_base::Items;
use pre_text::{Line, LineWords, Lines, hex_pairs, starts_comment};
use std::alloc::{AllocError, Global};

/// The most octets that a line may spell.
const MOST: usize = 4096;

/// Why a file of mPackets isn't read.
#[derive(Clone, Copy, Debug, PartialEq, Eq)]
pub(crate) enum PacketFault {
    /// The line of this number isn't one word of pairs of hexadecimal digits with at most 4096 octets.
    Line(u64),
    /// Want of memory.
    Memory,
}

/// The arrivals that a text spells, one in a line, each from the preamble on. Lines without words and those that begin
/// with `#` are skipped, and counted.
pub(crate) fn read_packets(alloc: Global, text: &[u8]) -> Result<Items<Items<u8>>, PacketFault>
    ensures { ReadsAs result (arrivals_of text.now) }
{
    let mut found = Items::new(alloc);
    let mut lines = Lines::of(text);
    while let Some(line) = lines.next_line() {
        match read_line(alloc, &mut found, &line) {
            Ok(()) => {}
            Err(fault) => return Err(fault),
        }
    }
    Ok(found)
}

fn read_line(alloc: Global, found: &mut Items<Items<u8>>, line: &Line) -> Result<(), PacketFault>
    ensures { LineReadsAs result found.new (after_line found.old (line.now.number, line.now.octets.now)) }
{
    let mut words = LineWords::of(line.octets);
    let Some(word) = words.next_word() else {
        return Ok(());
    };
    if starts_comment(word) {
        return Ok(());
    }
    if words.next_word().is_some() {
        return Err(PacketFault::Line(line.number));
    }
    match octets_of(alloc, word) {
        Err(_) => Err(PacketFault::Memory),
        Ok(None) => Err(PacketFault::Line(line.number)),
        Ok(Some(octets)) => match found.push(octets) {
            Ok(()) => Ok(()),
            Err(_) => Err(PacketFault::Memory),
        },
    }
}

// The octets that a word spells, where it is one of pairs.
fn octets_of(alloc: Global, word: &[u8]) -> Result<Option<Items<u8>>, AllocError>
    ensures { IfOk result (λ octets. octets ≡ pairs_within max_arrival word.now) }
{
    let mut room = [0; MOST];
    match hex_pairs(word, &mut room) {
        None => Ok(None),
        Some(count) => {
            let octets = room[..count].to_vec(alloc)?;
            Ok(Some(Items::from_vec(octets)))
        }
    }
}
