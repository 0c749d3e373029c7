//! Delays and queues in traces beside the bounds and the sizes that certificates print.

use crate::examples::{Example, certified, examples};
use crate::plants::{PAIR, SHORT_ROWS, TWO_ROWS};
use crate::running::{shelf_with, wide_sink, words_of};
use pre_base::MemoryShelf;
use pre_cli::preempt;
use std::alloc::Global;
use std::test::Fail;

/// The number behind two words, in the first line that begins with them.
fn number_behind(text: &str, first: &str, second: &str) -> Option<u64> {
    for line in text.lines() {
        let mut words = line.split_whitespace();
        if words.next() == Some(first) && words.next() == Some(second) {
            return words.next()?.parse().ok();
        }
    }
    None
}

/// The words behind `send` in the line of a frame: the tick, the stream and the size.
fn send_of(script: &str, frame: usize) -> Option<(u64, &str, u64)> {
    let mut sends = script.lines().filter(|line| line.starts_with("send "));
    let mut words = sends.nth(frame)?.split_whitespace();
    let tick = words.nth(1)?.parse().ok()?;
    let stream = words.next()?;
    Some((tick, stream, words.next()?.parse().ok()?))
}

/// How long after its send a frame is delivered, where it is.
fn delay_of(script: &str, trace: &str, frame: usize) -> Option<u64> {
    let (sent, _, _) = send_of(script, frame)?;
    for line in trace.lines() {
        let mut words = line.split_whitespace();
        let tick = words.next()?;
        if words.next() == Some("deliver") && words.nth(1)?.parse() == Ok(frame) {
            let delivered: u64 = tick.parse().ok()?;
            return delivered.checked_sub(sent);
        }
    }
    None
}

/// The first frame of a stream that isn't delivered within the bound.
fn late_frame(certificate: &str, script: &str, trace: &str) -> Option<usize> {
    for frame in 0..script.lines().count() {
        let (_, stream, _) = send_of(script, frame)?;
        let Some(bound) = number_behind(certificate, "bound", stream) else {
            continue;
        };
        if delay_of(script, trace, frame).is_none_or(|delay| bound < delay) {
            return Some(frame);
        }
    }
    None
}

/// What a line of a trace tells of a port.
#[derive(Clone, Copy)]
enum Told {
    /// A frame enters its ring.
    Enters(usize),
    /// A frame begins on its arc, of whichever priority.
    Begins(usize),
    Nothing,
}

/// The tick of a line, and what it tells of a port.
fn told_of(line: &str, arc: &str, prio: &str) -> Option<(u64, Told)> {
    let mut words = line.split_whitespace();
    let tick = words.next()?.parse().ok()?;
    let event = words.next()?;
    if words.next() != Some(arc) {
        return Some((tick, Told::Nothing));
    }
    let told = if event == "enter" && words.next() == Some(prio) {
        Told::Enters(words.next()?.parse().ok()?)
    } else if event == "begin" {
        match words.nth(2)?.parse() {
            Ok(frame) => Told::Begins(frame),
            Err(_) => Told::Nothing,
        }
    } else {
        Told::Nothing
    };
    Some((tick, told))
}

/// The wire octets of frames of a script.
fn octets_of(script: &str, frames: &[usize]) -> Option<u64> {
    let mut octets: u64 = 0;
    for frame in frames {
        let (_, _, size) = send_of(script, *frame)?;
        octets = octets.checked_add(size)?.checked_add(20)?;
    }
    Some(octets)
}

/// The most wire octets that wait at a port, behind all that happens at a tick.
fn most_waiting(
    alloc: Global,
    script: &str,
    trace: &str,
    arc: &str,
    prio: &str,
) -> Result<u64, Fail> {
    let mut frames: Vec<usize> = Vec::new(alloc);
    let mut most = 0;
    let mut now = 0;
    for line in trace.lines() {
        let Some((tick, told)) = told_of(line, arc, prio) else {
            continue;
        };
        if now != tick {
            most = most.max(octets_of(script, frames.as_slice()).ok_or("a frame")?);
            now = tick;
        }
        match told {
            Told::Enters(frame) => frames.push(frame)?,
            Told::Begins(frame) => frames.retain(|waiting| *waiting != frame),
            Told::Nothing => {}
        }
    }
    Ok(most)
}

/// The arc, the priority and the size of a port, of its line in a certificate.
fn port_of(line: &str) -> Option<(&str, &str, u64)> {
    let mut words = line.split_whitespace();
    if words.next() != Some("port") {
        return None;
    }
    let arc = words.next()?;
    let prio = words.next()?;
    Some((arc, prio, words.nth(4)?.parse().ok()?))
}

/// The line of the first port at which more waits than its size.
fn overfull_port<'a>(
    alloc: Global,
    certificate: &'a str,
    script: &str,
    trace: &str,
) -> Result<Option<&'a str>, Fail> {
    for line in certificate.lines() {
        if let Some((arc, prio, size)) = port_of(line) {
            if most_waiting(alloc, script, trace, arc, prio)? > size {
                return Ok(Some(line));
            }
        }
    }
    Ok(None)
}

/// What a command leaves in its sink. It ends with status 0.
fn output_of(alloc: Global, shelf: &mut MemoryShelf, command: &str) -> Result<String, Fail> {
    let mut sink = wide_sink(alloc)?;
    let words = words_of(alloc, command)?;
    let status = preempt(alloc, words.as_slice(), shelf, &mut sink);
    if status.number() != 0 {
        return Err("a command that isn't done".into());
    }
    Ok(String::from_str(alloc, std::str::from_utf8(sink.octets())?)?)
}

/// The certificate of an example, which is judged to be good, and the trace of its script.
fn certified_trace(alloc: Global, example: &Example) -> Result<(String, String), Fail> {
    let mut shelf = shelf_with(alloc, example.script.as_bytes())?;
    shelf.put("net", example.network.as_bytes())?;
    shelf.put("streams", example.streams.as_bytes())?;
    let certificate = match example.certificate {
        Some(certificate) => String::from_str(alloc, certificate)?,
        None => output_of(alloc, &mut shelf, "certify net streams")?,
    };
    shelf.put("cert", certificate.as_bytes())?;
    if output_of(alloc, &mut shelf, "judge net streams cert")?.as_str() != "accepted\n" {
        return Err("a certificate that isn't good".into());
    }
    let trace = output_of(alloc, &mut shelf, "replay net streams cert script")?;
    Ok((certificate, trace))
}

/// Behind a frame of 123 octets that began a tick before, and that can't be cut, an express frame takes a tick less than its
/// bound; and so does the last one of a burst, which a search over scripts found. Until it begins all of the burst waits.
#[test]
fn a_tick_less_than_the_bound(rt: HostRuntime) -> Result<(), Fail> {
    let alloc = rt.alloc();
    for (streams, script, frame, delay, bound, burst) in [
        (
            SHORT_ROWS,
            "send 0 y 123\nsend 1 x 64\nuntil 5000\n",
            1,
            214,
            215,
            84,
        ),
        (
            TWO_ROWS,
            "send 0 y 123\nsend 1 x 1522\nsend 1 x 438\nuntil 5000\n",
            2,
            2130,
            2131,
            2000,
        ),
    ] {
        let (certificate, trace) = certified_trace(alloc, &certified(PAIR, streams, script))?;
        assert_eq!(rt;
            number_behind(certificate.as_str(), "bound", "x"),
            Some(bound)
        );
        assert_eq!(rt; delay_of(script, trace.as_str(), frame), Some(delay));
        assert_eq!(rt;
            most_waiting(alloc, script, trace.as_str(), "a>b", "6")?,
            burst
        );
    }
    Ok(())
}

/// Each express frame of each example is delivered within its stream's bound, and each queue is within its size.
#[test]
fn examples_within_their_certificates(rt: HostRuntime) -> Result<(), Fail> {
    let alloc = rt.alloc();
    for (place, example) in examples().iter().enumerate() {
        let (certificate, trace) = certified_trace(alloc, example)?;
        let (certificate, trace) = (certificate.as_str(), trace.as_str());
        assert_eq!(rt;
            late_frame(certificate, example.script, trace),
            None,
            "{place}"
        );
        assert_eq!(rt;
            overfull_port(alloc, certificate, example.script, trace)?,
            None,
            "{place}"
        );
    }
    Ok(())
}
