ghost use Rattle.std.specs.Prelude.{◌≡◌, map, string_bytes};
ghost use Rattle.pre_text.specs.Words.{number_of};
ghost use Rattle.pre_draw.specs.Commands.{command_asked, command_of, queueing, range_of, running, with_four, with_six, with_two};
ghost use Rattle.pre_cli.specs.Words.{judge_words};

use crate::queues::QueueWords;
use pre_text::number;

/// What the words ask for, with the words behind the command's name.
pub(crate) enum Asked<'a> {
    /// `run NET TRACE`, or `run NET TRACE FROM TO` for a range of ticks
    Run {
        net: &'a str,
        trace: &'a str,
        range: Option<(u64, u64)>,
    },
    /// `queue NET STREAMS CERT TRACE ARC PRIO`, PRIO a plain number below 8
    Queue {
        words: QueueWords<'a>,
        prio: u8,
    },
    /// `bounds NET STREAMS CERT TRACE`
    Bounds {
        net: &'a str,
        streams: &'a str,
        certificate: &'a str,
        trace: &'a str,
    },
    /// The words have none of these forms.
    Unknown,
}

/// The ticks from one to another, where the words are plain numbers and the first isn't above the second.
fn range_of(from: &str, to: &str) -> Option<(u64, u64)>
    ensures { result ≡ range_of (number_of from.now) (number_of to.now) }
{
    match (number(from.as_bytes()), number(to.as_bytes())) {
        (Some(from), Some(to)) if from <= to => Some((from, to)),
        _ => None,
    }
}

fn running<'a>(net: &'a str, trace: &'a str, from: &str, to: &str) -> Asked<'a>
    ensures { command_asked result ≡ running net.now trace.now (range_of (number_of from.now) (number_of to.now)) }
{
    match range_of(from, to) {
        Some(range) => Asked::Run {
            net,
            trace,
            range: Some(range),
        },
        None => Asked::Unknown,
    }
}

fn queueing<'a>(words: QueueWords<'a>, prio: &str) -> Asked<'a>
    ensures { command_asked result ≡
        queueing (judge_words words.entry.net.now words.entry.streams.now words.entry.certificate.now) words.entry.trace.now words.entry.arc.now (number_of prio.now) }
{
    match number(prio.as_bytes()) {
        Some(prio) if prio < 8 => Asked::Queue {
            words,
            prio: prio as u8,
        },
        _ => Asked::Unknown,
    }
}

fn with_two<'a>(command: &str, net: &'a str, trace: &'a str) -> Asked<'a>
    ensures { command_asked result ≡ with_two command.now net.now trace.now }
{
    if command == "run" {
        Asked::Run {
            net,
            trace,
            range: None,
        }
    } else {
        Asked::Unknown
    }
}

fn with_four<'a>(
    command: &str,
    first: &'a str,
    second: &'a str,
    third: &'a str,
    fourth: &'a str,
) -> Asked<'a>
    ensures { command_asked result ≡ with_four command.now first.now second.now third.now fourth.now }
{
    if command == "run" {
        running(first, second, third, fourth)
    } else if command == "bounds" {
        Asked::Bounds {
            net: first,
            streams: second,
            certificate: third,
            trace: fourth,
        }
    } else {
        Asked::Unknown
    }
}

fn with_six<'a>(command: &str, words: QueueWords<'a>, prio: &str) -> Asked<'a>
    ensures { command_asked result ≡
        with_six command.now (judge_words words.entry.net.now words.entry.streams.now words.entry.certificate.now) words.entry.trace.now words.entry.arc.now prio.now }
{
    if command == "queue" {
        queueing(words, prio)
    } else {
        Asked::Unknown
    }
}

/// What the words ask for.
pub(crate) fn command_of(words: &[String]) -> Asked<'_>
    ensures { command_asked result ≡ command_of (map string_bytes words.now) }
{
    if let [command, net, trace] = words {
        return with_two(command, net, trace);
    }
    if let [command, first, second, third, fourth] = words {
        return with_four(command, first, second, third, fourth);
    }
    if let [command, net, streams, certificate, trace, arc, prio] = words {
        let words = QueueWords {
            net,
            streams,
            certificate,
            trace,
            arc,
        };
        return with_six(command, words, prio);
    }
    Asked::Unknown
}
