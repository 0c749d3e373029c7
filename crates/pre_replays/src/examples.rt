//! Every example that has a certificate, with a script that presses its streams: their bursts come at once and as soon as
//! the rate allows, and preemptable frames begin a tick before them.

use crate::plants::{
    ACROSS_AREAS, AREAS, BRIDGED, BY_BRIDGE, BY_LINE, BY_TWO_ARCS, BY_TWO_BRIDGES, HALF_OFF, LINE,
    LONG_FRAGMENTS, NARROW, NEGOTIATED, OFF, PAIR, PASSING, PLANT, RING, ROUND,
    SHORT_BEFORE_GREATEST, SHORT_BEFORE_SHORT, SHORT_FRAMES, SHORT_ROWS, SLOW, THREE_ROWS,
    TWO_ARCS, TWO_BRIDGES, TWO_ROWS, WIDE, WIDE_OFF,
};

/// A network, streams over it, and a script that runs until each express frame is delivered.
#[derive(Clone, Copy)]
pub struct Example {
    pub network: &'static str,
    pub streams: &'static str,
    pub script: &'static str,
    /// A good certificate, where the streams have none with ranks.
    pub certificate: Option<&'static str>,
}

/// An example whose certificate is the least one.
pub fn certified(network: &'static str, streams: &'static str, script: &'static str) -> Example {
    Example {
        network,
        streams,
        script,
        certificate: None,
    }
}

/// Two greatest bursts of the built-in stream, and frames as soon as its rate gives them back.
const BURSTS: &str = "send 0 y 123
send 1 x 1522
send 1 x 438
send 1 y 1522
send 4580 y 123
send 4581 x 438
send 9160 y 1522
send 9161 x 438
send 10001 x 64
send 10841 x 64
send 11681 x 64
send 12521 x 64
send 33000 y 123
send 33001 x 1522
send 33001 x 438
until 60000
";

/// The same bursts, a tick behind a preemptable frame that goes whole.
const BEHIND_WHOLE: &str = "send 0 y 1522
send 1 x 1522
send 1 x 438
send 1 y 1522
send 4581 x 438
send 9161 x 438
send 33000 y 1522
send 33001 x 1522
send 33001 x 438
until 60000
";

/// The same, where an end that negotiates has preemption off.
const SWITCHED_OFF: &str = "set 0 a>b off
send 1000 y 1522
send 1001 x 1522
send 1001 x 438
send 1001 y 1522
send 5581 x 438
send 33000 y 1522
send 33001 x 1522
send 33001 x 438
until 60000
";

/// Two preemptable frames, and a frame that comes where the second one can't be cut any more: on the next link it waits for
/// all of it.
const BEHIND_TWO: &str = "send 0 y 1522
send 0 y 1522
send 3010 x 64
send 87010 y 1522
send 87011 x 64
send 172000 y 1522
send 173470 x 64
until 180000
";

/// Frames of the least size, a tick behind preemptable ones of which the second is cut.
const LEAST: &str = "send 0 y 123
send 1 x 64
send 83900 y 1522
send 84001 x 64
send 168000 y 123
send 168001 x 64
until 175000
";

/// A burst of the higher priority before a frame of the lower one, and what the rates give back.
const TWO_PRIORITIES: &str = "send 0 y 123
send 1 z 500
send 1 x 64
send 8401 z 64
send 84000 y 123
send 84001 z 500
send 84001 x 64
send 168000 y 1522
send 168001 z 64
send 168002 x 64
send 168003 z 64
until 175000
";

/// The same frames behind preemptable ones of 2000 octets, and of 123.
const BEHIND_GREATEST: &str = "send 0 y 2000
send 1 x 64
send 83000 y 2000
send 84001 x 64
send 168000 y 123
send 168001 x 64
until 175000
";

/// The same frames behind preemptable ones of 100 octets.
const BEHIND_SHORT: &str = "send 0 y 100
send 1 x 64
send 84000 y 100
send 84001 x 64
send 168000 y 100
send 168000 y 100
send 168001 x 64
until 175000
";

/// Preemptable frames in a row: on both links one begins a tick before the stream's frame comes, and can't be cut.
const BY_ONE_BRIDGE: &str = "send 0 y 206
send 1 y 123
send 227 x 64
send 84226 y 123
send 84227 x 64
send 84228 y 1522
send 168000 y 1522
send 168000 y 1522
send 168300 x 64
until 175000
";

/// A preemptable frame that begins at the bridge a tick before the stream's frame enters there.
const IN_AREAS: &str = "send 0 y 123
send 60 x 64
send 84000 y 1522
send 84060 x 64
send 168000 y 123
send 168000 y 123
send 168203 x 64
until 175000
";

/// Bursts from both stations at once, again and again.
const FROM_TWO_STATIONS: &str = "send 0 x 64
send 0 z 64
send 0 x 64
send 0 z 64
send 84000 z 64
send 84000 x 64
send 252000 x 64
send 252000 x 64
send 252072 z 64
send 252072 z 64
until 260000
";

/// Two cycles of the line: set points, images in the way, and an alarm that meets them.
const CYCLES: &str = "send 0 axis1 64
send 0 axis2 64
send 0 video 1522
send 100 video 1522
send 200 video 1522
send 1600 alarm 64
send 84000 axis2 64
send 84000 axis1 64
send 84000 video 123
send 84001 video 1522
send 85600 alarm 64
until 95000
";

/// The same cycles, once the links have agreed to preempt.
const LATER_CYCLES: &str = "send 2000 axis1 64
send 2000 axis2 64
send 2000 video 1522
send 2100 video 1522
send 2200 video 1522
send 3600 alarm 64
send 86000 axis2 64
send 86000 axis1 64
send 86000 video 123
send 86001 video 1522
send 87600 alarm 64
until 97000
";

/// A frame of each stream that goes round, at one tick, and as soon as the rate gives it back.
const ROUNDS: &str = "send 0 c1 64
send 0 c2 64
send 0 c3 64
send 84000 c3 64
send 84072 c1 64
send 84144 c2 64
send 168072 c1 64
send 168144 c2 64
send 168156 c3 64
until 175000
";

/// Streams that go round three bridges: no ranks rise along their routes.
const WITHOUT_RANKS: &str = "certificate 3
arc p>q 0
arc q>r 0
arc r>p 0
arc s>p 0
arc p>s 0
arc t>q 0
arc q>t 0
arc u>r 0
arc r>u 0
port p>q 6 84 171 0 255 171
port q>r 6 84 171 0 255 171
port r>p 6 84 171 0 255 171
port s>p 6 84 84 0 168 84
port p>s 6 84 87 0 171 87
port t>q 6 84 84 0 168 84
port q>t 6 84 87 0 171 87
port u>r 6 84 84 0 168 84
port r>u 6 84 87 0 171 87
hop c1 0 84
hop c1 1 85
hop c1 2 86
hop c1 3 87
hop c2 0 84
hop c2 1 85
hop c2 2 86
hop c2 3 87
hop c3 0 84
hop c3 1 85
hop c3 2 86
hop c3 3 87
bound c1 801
bound c2 801
bound c3 801
end
";

/// All of them.
pub fn examples() -> [Example; 20] {
    [
        certified(PAIR, TWO_ROWS, BURSTS),
        certified(OFF, TWO_ROWS, BEHIND_WHOLE),
        certified(LONG_FRAGMENTS, TWO_ROWS, BURSTS),
        certified(SLOW, TWO_ROWS, BURSTS),
        certified(NEGOTIATED, TWO_ROWS, BURSTS),
        certified(PASSING, TWO_ROWS, SWITCHED_OFF),
        certified(PAIR, SHORT_ROWS, LEAST),
        certified(NARROW, SHORT_ROWS, LEAST),
        certified(PAIR, THREE_ROWS, TWO_PRIORITIES),
        certified(WIDE, SHORT_BEFORE_GREATEST, BEHIND_GREATEST),
        certified(WIDE_OFF, SHORT_BEFORE_GREATEST, BEHIND_GREATEST),
        certified(SHORT_FRAMES, SHORT_BEFORE_SHORT, BEHIND_SHORT),
        certified(BRIDGED, BY_BRIDGE, BY_ONE_BRIDGE),
        certified(HALF_OFF, BY_BRIDGE, BEHIND_TWO),
        certified(AREAS, ACROSS_AREAS, IN_AREAS),
        certified(TWO_ARCS, BY_TWO_ARCS, FROM_TWO_STATIONS),
        certified(TWO_BRIDGES, BY_TWO_BRIDGES, FROM_TWO_STATIONS),
        certified(LINE, BY_LINE, CYCLES),
        certified(PLANT, BY_LINE, LATER_CYCLES),
        Example {
            network: RING,
            streams: ROUND,
            script: ROUNDS,
            certificate: Some(WITHOUT_RANKS),
        },
    ]
}
