ghost use Rattle.std.specs.Prelude.{◌≡◌, ℕ, Option, Some, None, IfOk, slice_get};
ghost use Rattle.std.specs.Option.{option_map};
ghost use Rattle.std.specs.Str.{bytes_eq};
ghost use Rattle.pre_script.specs.Saying.{SaysAs, damage_of, damage_said, four, lose_said, one, said_by, send_of, send_of_size, send_said, set_of};
ghost use Rattle.pre_script.specs.Saying.{set_said, setting_at, setting_of, three, two, until_said};
ghost use Rattle.pre_script.specs.Rules.{max_damaged};
ghost use Rattle.pre_text.specs.Words.{pairs_within};
ghost use Rattle.pre_script.specs.Drafts.{seen, IsLatest};

use crate::drafts::Draft;
use crate::rules::{
    COUNT, HORIZON, MAX_DAMAGED, MAX_DAMAGES, MAX_LOSSES, MAX_SENDS, MAX_SETS, MODE, NAME, NUMBER,
    ORDER, SIZE, WORD, is_negotiating_at, last_tick,
};
use crate::{Damage, Loss, SendLine, SetLine, Setting};
use pre_base::{ArcId, Items, Send, StreamId, Tick};
use pre_streams::{Row, Streams};
use pre_text::{LineWords, hex_pairs, number};
use pre_topo::Network;
use std::alloc::{AllocError, Global};

/// What a line of a script says.
#[derive(Debug, Drop)]
pub enum Said {
    Send(SendLine),
    Set(SetLine),
    Lose(Loss),
    Damage(Damage),
    Until(Tick),
}

/// Why a line isn't taken up.
#[derive(Clone, Copy, Debug)]
pub enum Refusal {
    /// It breaks this rule.
    Rule(u8),
    /// There isn't enough memory.
    Memory,
}

fn ruled(said: Result<Said, u8>) -> Result<Said, Refusal>
    ensures { SaysAs result said }
{
    match said {
        Ok(said) => Ok(said),
        Err(rule) => Err(Refusal::Rule(rule)),
    }
}

fn is(word: &[u8], text: &[u8]) -> bool
    ensures { result ≡ bytes_eq word.now text.now }
{
    word == text
}

fn one_word<'a>(words: &mut LineWords<'a>) -> Option<&'a [u8]>
    ensures { option_map (λ w. w.now) result ≡ one words.old }
{
    let first = words.next_word()?;
    match words.next_word() {
        None => Some(first),
        Some(_) => None,
    }
}

fn two_words<'a>(words: &mut LineWords<'a>) -> Option<(&'a [u8], &'a [u8])>
    ensures { option_map (λ w. (w.0.now, w.1.now)) result ≡ two words.old }
{
    let first = words.next_word()?;
    let second = words.next_word()?;
    match words.next_word() {
        None => Some((first, second)),
        Some(_) => None,
    }
}

fn four_words<'a>(words: &mut LineWords<'a>) -> Option<(&'a [u8], &'a [u8], &'a [u8], &'a [u8])>
    ensures { option_map (λ w. (w.0.now, w.1.now, w.2.now, w.3.now)) result ≡ four words.old }
{
    let first = words.next_word()?;
    let (second, third, fourth) = three_words(words)?;
    Some((first, second, third, fourth))
}

fn three_words<'a>(words: &mut LineWords<'a>) -> Option<(&'a [u8], &'a [u8], &'a [u8])>
    ensures { option_map (λ w. (w.0.now, w.1.now, w.2.now)) result ≡ three words.old }
{
    let first = words.next_word()?;
    let second = words.next_word()?;
    let third = words.next_word()?;
    match words.next_word() {
        None => Some((first, second, third)),
        Some(_) => None,
    }
}

/// A send of the row, at its size.
fn send_of_size(
    draft: &Draft,
    row: &Row,
    line: u64,
    tick: Tick,
    stream: StreamId,
    size: u64,
) -> Result<Said, u8>
    requires { IsLatest draft.now }
    ensures { result ≡ send_of_size (seen draft.now) row.now line tick.0 stream.0 size }
{
    if !draft.comes_last(tick) {
        return Err(ORDER);
    }
    if size < 64 || size > row.max as u64 {
        return Err(SIZE);
    }
    if draft.sends.len() >= MAX_SENDS {
        return Err(COUNT);
    }
    let size = size as u16;
    Ok(Said::Send(SendLine {
        send: Send { tick, stream, size },
        line,
    }))
}

fn row_at(streams: &Streams, stream: StreamId) -> Option<&Row>
    ensures { option_map (λ r. r.now) result ≡ slice_get streams.now.rows stream.0 }
{
    streams.rows.as_slice().get(stream.0 as usize)
}

/// A send by the name of its row.
fn send_of(
    draft: &Draft,
    streams: &Streams,
    line: u64,
    tick: Tick,
    name: &[u8],
    size: u64,
) -> Result<Said, u8>
    requires { IsLatest draft.now }
    ensures { result ≡ send_of streams.now (seen draft.now) line tick.0 name.now size }
{
    let stream = streams.stream_named(name).ok_or(NAME)?;
    let row = row_at(streams, stream).ok_or(NAME)?;
    send_of_size(draft, row, line, tick, stream, size)
}

fn send_said(draft: &Draft, streams: &Streams, line: u64, words: &mut LineWords) -> Result<Said, u8>
    requires { IsLatest draft.now }
    ensures { result ≡ send_said streams.now (seen draft.now) line words.old }
{
    let (tick, name, size) = three_words(words).ok_or(WORD)?;
    let tick = number(tick).ok_or(NUMBER)?;
    let size = number(size).ok_or(NUMBER)?;
    send_of(draft, streams, line, Tick(tick), name, size)
}

fn setting_of(word: &[u8]) -> Option<Setting>
    ensures { result ≡ setting_of word.now }
{
    if is(word, b"on") {
        Some(Setting::On)
    } else if is(word, b"off") {
        Some(Setting::Off)
    } else if is(word, b"gone") {
        Some(Setting::Gone)
    } else {
        None
    }
}

/// The value, where the arc can be set to it.
fn setting_at(net: &Network, arc: ArcId, word: &[u8]) -> Option<Setting>
    ensures { result ≡ setting_at net.now arc.0 word.now }
{
    if is_negotiating_at(net, arc) {
        setting_of(word)
    } else {
        None
    }
}

fn set_of(draft: &Draft, net: &Network, tick: Tick, arc: ArcId, word: &[u8]) -> Result<Said, u8>
    requires { IsLatest draft.now }
    ensures { result ≡ set_of net.now (seen draft.now) tick.0 arc.0 word.now }
{
    if !draft.comes_last(tick) {
        return Err(ORDER);
    }
    let value = setting_at(net, arc, word).ok_or(MODE)?;
    if draft.sets.len() >= MAX_SETS {
        return Err(COUNT);
    }
    Ok(Said::Set(SetLine { tick, arc, value }))
}

fn set_said(draft: &Draft, net: &Network, words: &mut LineWords) -> Result<Said, u8>
    requires { IsLatest draft.now }
    ensures { result ≡ set_said net.now (seen draft.now) words.old }
{
    let (tick, name, value) = three_words(words).ok_or(WORD)?;
    let tick = number(tick).ok_or(NUMBER)?;
    let arc = net.arc_named(name).ok_or(NAME)?;
    set_of(draft, net, Tick(tick), arc, value)
}

fn lose_said(draft: &Draft, net: &Network, words: &mut LineWords) -> Result<Said, u8>
    ensures { result ≡ lose_said net.now (seen draft.now) words.old }
{
    let (arc, ordinal) = two_words(words).ok_or(WORD)?;
    let ordinal = number(ordinal).ok_or(NUMBER)?;
    let arc = net.arc_named(arc).ok_or(NAME)?;
    if draft.losses.len() >= MAX_LOSSES {
        return Err(COUNT);
    }
    Ok(Said::Lose(Loss { arc, ordinal }))
}

/// The octets that a word of 1 to 32 pairs spells.
fn octets_of(alloc: Global, word: &[u8]) -> Result<Option<Items<u8>>, AllocError>
    ensures { IfOk result (λ octets. octets ≡ pairs_within max_damaged word.now) }
{
    let mut room = [0; MAX_DAMAGED];
    match hex_pairs(word, &mut room) {
        None => Ok(None),
        Some(count) => Ok(Some(Items::from_vec(room[..count].to_vec(alloc)?))),
    }
}

/// A damage of the arc of this name.
fn damage_of(
    draft: &Draft,
    net: &Network,
    name: &[u8],
    ordinal: u64,
    offset: u64,
    octets: Items<u8>,
) -> Result<Said, u8>
    ensures { result ≡ damage_of net.now (seen draft.now) name.now ordinal offset octets }
{
    let arc = net.arc_named(name).ok_or(NAME)?;
    if draft.damages.len() >= MAX_DAMAGES {
        return Err(COUNT);
    }
    Ok(Said::Damage(Damage {
        arc,
        ordinal,
        offset,
        octets,
    }))
}

fn damage_said(
    alloc: Global,
    draft: &Draft,
    net: &Network,
    words: &mut LineWords,
) -> Result<Said, Refusal>
    ensures { SaysAs result (damage_said net.now (seen draft.now) words.old) }
{
    let (name, ordinal, offset, octets) = four_words(words).ok_or(Refusal::Rule(WORD))?;
    let ordinal = number(ordinal).ok_or(Refusal::Rule(NUMBER))?;
    let offset = number(offset).ok_or(Refusal::Rule(NUMBER))?;
    match octets_of(alloc, octets) {
        Ok(Some(octets)) => ruled(damage_of(draft, net, name, ordinal, offset, octets)),
        Ok(None) => Err(Refusal::Rule(NUMBER)),
        Err(_) => Err(Refusal::Memory),
    }
}

fn until_said(net: &Network, words: &mut LineWords) -> Result<Said, u8>
    ensures { result ≡ until_said net.now words.old }
{
    let tick = one_word(words).ok_or(WORD)?;
    let tick = number(tick).ok_or(NUMBER)?;
    if tick > last_tick(net) {
        return Err(HORIZON);
    }
    Ok(Said::Until(Tick(tick)))
}

/// What a line says by its first word and the others, or the rule that it breaks.
pub(crate) fn said_by(
    alloc: Global,
    draft: &Draft,
    net: &Network,
    streams: &Streams,
    line: u64,
    first: &[u8],
    words: &mut LineWords,
) -> Result<Said, Refusal>
    requires { IsLatest draft.now }
    ensures { SaysAs result (said_by net.now streams.now (seen draft.now) line first.now words.old) }
{
    if is(first, b"send") {
        ruled(send_said(draft, streams, line, words))
    } else if is(first, b"set") {
        ruled(set_said(draft, net, words))
    } else if is(first, b"lose") {
        ruled(lose_said(draft, net, words))
    } else if is(first, b"damage") {
        damage_said(alloc, draft, net, words)
    } else if is(first, b"until") {
        ruled(until_said(net, words))
    } else {
        Err(Refusal::Rule(WORD))
    }
}
