ghost use Rattle.std.specs.Prelude.{◌≡◌, map, string_bytes};
ghost use Rattle.pre_text.specs.Words.{number_of};
ghost use Rattle.pre_cli.specs.Commands.{command_asked, command_of, drilling};

use pre_text::number;

/// What the words ask for, with the words behind the command's name.
pub(crate) enum Asked<'a> {
    /// `certify NET STREAMS`
    Certifies {
        net: &'a str,
        streams: &'a str,
    },
    /// `mpackets FILE`
    Lists {
        file: &'a str,
    },
    /// `judge NET STREAMS CERT`
    Judges {
        net: &'a str,
        streams: &'a str,
        certificate: &'a str,
    },
    /// `migrate NET STREAMS CERT`
    Migrates {
        net: &'a str,
        streams: &'a str,
        certificate: &'a str,
    },
    /// `admit NET STREAMS MORE`
    Admits {
        net: &'a str,
        streams: &'a str,
        more: &'a str,
    },
    /// `replay NET STREAMS CERT SCRIPT`
    Replays {
        net: &'a str,
        streams: &'a str,
        certificate: &'a str,
        script: &'a str,
    },
    /// `drill N`, N a plain number up to 999,999,999
    Drills {
        number: u64,
    },
    /// `capture NET STREAMS SCRIPT ARC`
    Captures {
        net: &'a str,
        streams: &'a str,
        script: &'a str,
        arc: &'a str,
    },
    /// `dissect FILE`
    Dissects {
        file: &'a str,
    },
    /// The words have none of these forms.
    Unknown,
}

/// The most that a drill's number may be.
const MAX_DRILL: u64 = 999_999_999;

/// What a drill's word asks for.
fn drilling(word: &str) -> Asked<'static>
    ensures { command_asked result ≡ drilling (number_of word.now) }
{
    match number(word.as_bytes()) {
        Some(number) if number <= MAX_DRILL => Asked::Drills { number },
        _ => Asked::Unknown,
    }
}

/// What the words ask for.
pub(crate) fn command_of(words: &[String]) -> Asked<'_>
    ensures { command_asked result ≡ command_of (map string_bytes words.now) }
{
    match words {
        [command, file] if command.as_str() == "mpackets" => Asked::Lists { file },
        [command, word] if command.as_str() == "drill" => drilling(word),
        [command, file] if command.as_str() == "dissect" => Asked::Dissects { file },
        [command, net, streams] if command.as_str() == "certify" => {
            Asked::Certifies { net, streams }
        }
        [command, net, streams, certificate] if command.as_str() == "judge" => Asked::Judges {
            net,
            streams,
            certificate,
        },
        [command, net, streams, certificate] if command.as_str() == "migrate" => Asked::Migrates {
            net,
            streams,
            certificate,
        },
        [command, net, streams, more] if command.as_str() == "admit" => {
            Asked::Admits { net, streams, more }
        }
        [command, net, streams, certificate, script] if command.as_str() == "replay" => {
            Asked::Replays {
                net,
                streams,
                certificate,
                script,
            }
        }
        [command, net, streams, script, arc] if command.as_str() == "capture" => {
            Asked::Captures {
                net,
                streams,
                script,
                arc,
            }
        }
        _ => Asked::Unknown,
    }
}
