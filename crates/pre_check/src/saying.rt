ghost use Rattle.std.specs.Prelude.{◌≡◌, ℕ, ◌≤◌, Option, Some, None, IfOk};
ghost use Rattle.std.specs.Option.{option_map};
ghost use Rattle.std.specs.Str.{bytes_eq};
ghost use Rattle.pre_check.specs.Saying.{arc_of, arc_said, bound_of, bound_said, end_said, first_said, hop_of, hop_said, is_small, no_words, old_arc};
ghost use Rattle.pre_check.specs.Saying.{old_arc_of, old_largest, one, port_numbers, port_of, port_said, ranked_arc, said_by, six, split, three, two, unranked_arc, version_of};

use crate::due::{Due, arc_due, bound_due, hop_due, is_end, is_first, port_due};
use crate::uses::has_flow;
use pre_base::{ArcId, Prio, StreamId};
use pre_bound::{ArcRow, Certificate, HopRow, PortRow};
use pre_streams::{Row, Streams};
use pre_text::{LineWords, number};
use pre_topo::Network;

const WORD: u8 = 1;

const NUMBER: u8 = 2;

const ROW: u8 = 3;

pub(crate) const END: u8 = 4;

pub(crate) const AFTER_END: u8 = 5;

const LARGE: u8 = 6;

/// What a line of a certificate says.
#[derive(Clone, Copy, Debug)]
pub enum Said {
    First(u64),
    Arc(ArcRow),
    Port(PortRow),
    Hop(HopRow),
    Bound(StreamId, u64),
    End,
}

fn is(word: &[u8], text: &[u8]) -> bool
    ensures { result ≡ bytes_eq word.now text.now }
{
    word == text
}

fn no_words(words: &mut LineWords) -> bool
    ensures { result ≡ no_words words.old }
{
    words.next_word().is_none()
}

fn one_word<'a>(words: &mut LineWords<'a>) -> Option<&'a [u8]>
    ensures { option_map (λ w. w.now) result ≡ one words.old }
{
    let first = words.next_word()?;
    match words.next_word() {
        None => Some(first),
        Some(_) => None,
    }
}

fn two_words<'a>(words: &mut LineWords<'a>) -> Option<(&'a [u8], &'a [u8])>
    ensures { option_map (λ w. (w.0.now, w.1.now)) result ≡ two words.old }
{
    let first = words.next_word()?;
    let second = words.next_word()?;
    match words.next_word() {
        None => Some((first, second)),
        Some(_) => None,
    }
}

fn three_words<'a>(words: &mut LineWords<'a>) -> Option<(&'a [u8], &'a [u8], &'a [u8])>
    ensures { option_map (λ w. (w.0.now, w.1.now, w.2.now)) result ≡ three words.old }
{
    let first = words.next_word()?;
    let second = words.next_word()?;
    let third = words.next_word()?;
    match words.next_word() {
        None => Some((first, second, third)),
        Some(_) => None,
    }
}

type Six<'a> = (&'a [u8], &'a [u8], &'a [u8], &'a [u8], &'a [u8], &'a [u8]);

fn six_words<'a>(words: &mut LineWords<'a>) -> Option<Six<'a>>
    ensures { option_map (λ w. (w.0.now, w.1.now, w.2.now, w.3.now, w.4.now, w.5.now)) result ≡ six words.old }
{
    let first = words.next_word()?;
    let second = words.next_word()?;
    let third = words.next_word()?;
    let fourth = words.next_word()?;
    let fifth = words.next_word()?;
    let sixth = words.next_word()?;
    match words.next_word() {
        None => Some((first, second, third, fourth, fifth, sixth)),
        Some(_) => None,
    }
}

fn version_of(word: &[u8]) -> Option<u64>
    ensures { result ≡ version_of word.now }
{
    if is(word, b"1") {
        Some(1)
    } else if is(word, b"2") {
        Some(2)
    } else if is(word, b"3") {
        Some(3)
    } else {
        None
    }
}

fn first_said(due: &Due, words: &mut LineWords) -> Result<Said, u8>
    ensures { result ≡ first_said due.now words.old }
{
    let word = one_word(words).ok_or(WORD)?;
    let version = version_of(word).ok_or(WORD)?;
    if is_first(due) {
        Ok(Said::First(version))
    } else {
        Err(ROW)
    }
}

fn is_small(n: u64) -> bool
    ensures { result ≡ is_small n }
{
    n <= Certificate::LIMIT
}

/// An arc's row, where it is due.
fn arc_of(
    net: &Network,
    due: &Due,
    name: &[u8],
    rank: Option<u64>,
    largest: u64,
) -> Result<Said, u8>
    ensures { result ≡ arc_of net.now due.now name.now rank largest }
{
    let arc = arc_due(net, due, name).ok_or(ROW)?;
    if is_small(rank.unwrap_or(0)) && is_small(largest) {
        Ok(Said::Arc(ArcRow { arc, rank, largest }))
    } else {
        Err(LARGE)
    }
}

/// The greatest preemptable frame that a text of version 1 counts with, in octets.
fn old_largest(rows: &[Row], arc: ArcId) -> u64
    ensures { result ≡ old_largest rows.now arc.0 }
{
    if has_flow(rows, arc) { 1522 } else { 0 }
}

/// An arc's row of version 1, where it is due.
fn old_arc_of(net: &Network, rows: &[Row], due: &Due, name: &[u8], rank: u64) -> Result<Said, u8>
    ensures { result ≡ old_arc_of net.now rows.now due.now name.now rank }
{
    let arc = arc_due(net, due, name).ok_or(ROW)?;
    if !is_small(rank) {
        return Err(LARGE);
    }
    Ok(Said::Arc(ArcRow {
        arc,
        rank: Some(rank),
        largest: old_largest(rows, arc),
    }))
}

fn ranked_arc(net: &Network, due: &Due, words: &mut LineWords) -> Result<Said, u8>
    ensures { result ≡ ranked_arc net.now due.now words.old }
{
    let (name, rank, largest) = three_words(words).ok_or(WORD)?;
    let rank = number(rank).ok_or(NUMBER)?;
    let largest = number(largest).ok_or(NUMBER)?;
    arc_of(net, due, name, Some(rank), largest)
}

fn old_arc(net: &Network, rows: &[Row], due: &Due, words: &mut LineWords) -> Result<Said, u8>
    ensures { result ≡ old_arc net.now rows.now due.now words.old }
{
    let (name, rank) = two_words(words).ok_or(WORD)?;
    let rank = number(rank).ok_or(NUMBER)?;
    old_arc_of(net, rows, due, name, rank)
}

fn unranked_arc(net: &Network, due: &Due, words: &mut LineWords) -> Result<Said, u8>
    ensures { result ≡ unranked_arc net.now due.now words.old }
{
    let (name, largest) = two_words(words).ok_or(WORD)?;
    let largest = number(largest).ok_or(NUMBER)?;
    arc_of(net, due, name, None, largest)
}

fn arc_said(
    net: &Network,
    rows: &[Row],
    version: u64,
    due: &Due,
    words: &mut LineWords,
) -> Result<Said, u8>
    ensures { result ≡ arc_said net.now rows.now version due.now words.old }
{
    if version == 1 {
        old_arc(net, rows, due, words)
    } else if version == 3 {
        unranked_arc(net, due, words)
    } else {
        ranked_arc(net, due, words)
    }
}

/// A port's row, where it is due.
fn port_of(
    net: &Network,
    due: &Due,
    name: &[u8],
    prio: u64,
    block: u64,
    work: u64,
    rate: u64,
    delay: u64,
    size: u64,
) -> Result<Said, u8>
    ensures { result ≡ port_of net.now due.now name.now prio block work rate delay size }
{
    let (arc, prio) = port_due(net, due, name, prio).ok_or(ROW)?;
    if is_small(block)
        && (is_small(work) && (is_small(rate) && (is_small(delay) && is_small(size))))
    {
        Ok(Said::Port(PortRow {
            arc,
            prio,
            block,
            work,
            rate,
            delay,
            size,
        }))
    } else {
        Err(LARGE)
    }
}

fn port_numbers(net: &Network, due: &Due, name: &[u8], words: &mut LineWords) -> Result<Said, u8>
    ensures { result ≡ port_numbers net.now due.now name.now words.old }
{
    let (prio, block, work, rate, delay, size) = six_words(words).ok_or(WORD)?;
    let prio = number(prio).ok_or(NUMBER)?;
    let block = number(block).ok_or(NUMBER)?;
    let work = number(work).ok_or(NUMBER)?;
    let rate = number(rate).ok_or(NUMBER)?;
    let delay = number(delay).ok_or(NUMBER)?;
    let size = number(size).ok_or(NUMBER)?;
    port_of(net, due, name, prio, block, work, rate, delay, size)
}

fn port_said(net: &Network, due: &Due, words: &mut LineWords) -> Result<Said, u8>
    ensures { result ≡ port_said net.now due.now words.old }
{
    let name = words.next_word().ok_or(WORD)?;
    port_numbers(net, due, name, words)
}

/// A hop's row, where it is due.
fn hop_of(streams: &Streams, due: &Due, name: &[u8], hop: u64, burst: u64) -> Result<Said, u8>
    ensures { result ≡ hop_of streams.now due.now name.now hop burst }
{
    let stream = hop_due(streams, due, name, hop).ok_or(ROW)?;
    if is_small(burst) {
        Ok(Said::Hop(HopRow { stream, hop, burst }))
    } else {
        Err(LARGE)
    }
}

fn hop_said(streams: &Streams, due: &Due, words: &mut LineWords) -> Result<Said, u8>
    ensures { result ≡ hop_said streams.now due.now words.old }
{
    let (name, hop, burst) = three_words(words).ok_or(WORD)?;
    let hop = number(hop).ok_or(NUMBER)?;
    let burst = number(burst).ok_or(NUMBER)?;
    hop_of(streams, due, name, hop, burst)
}

/// A bound's row, where it is due.
fn bound_of(streams: &Streams, due: &Due, name: &[u8], bound: u64) -> Result<Said, u8>
    ensures { result ≡ bound_of streams.now due.now name.now bound }
{
    let stream = bound_due(streams, due, name).ok_or(ROW)?;
    if is_small(bound) {
        Ok(Said::Bound(stream, bound))
    } else {
        Err(LARGE)
    }
}

fn bound_said(streams: &Streams, due: &Due, words: &mut LineWords) -> Result<Said, u8>
    ensures { result ≡ bound_said streams.now due.now words.old }
{
    let (name, bound) = two_words(words).ok_or(WORD)?;
    let bound = number(bound).ok_or(NUMBER)?;
    bound_of(streams, due, name, bound)
}

fn end_said(due: &Due, words: &mut LineWords) -> Result<Said, u8>
    ensures { result ≡ end_said due.now words.old }
{
    if !no_words(words) {
        return Err(WORD);
    }
    if is_end(due) { Ok(Said::End) } else { Err(ROW) }
}

/// What a line says by its first word and the others, where it is the line that is due; or the rule that it breaks.
pub(crate) fn said_by(
    net: &Network,
    streams: &Streams,
    version: u64,
    due: &Due,
    first: &[u8],
    words: &mut LineWords,
) -> Result<Said, u8>
    ensures { result ≡ said_by net.now streams.now version due.now first.now words.old }
{
    if is(first, b"certificate") {
        first_said(due, words)
    } else if is(first, b"arc") {
        arc_said(net, streams.rows.as_slice(), version, due, words)
    } else if is(first, b"port") {
        port_said(net, due, words)
    } else if is(first, b"hop") {
        hop_said(streams, due, words)
    } else if is(first, b"bound") {
        bound_said(streams, due, words)
    } else if is(first, b"end") {
        end_said(due, words)
    } else {
        Err(WORD)
    }
}
