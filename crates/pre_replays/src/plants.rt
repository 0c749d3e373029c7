//! Networks and streams that the examples run over.

/// Two stations and a link of which neither direction preempts.
pub const OFF: &str = r#"express_from = 4
[[node]]
name = "a"
kind = "station"
[[node]]
name = "b"
kind = "station"
[[link]]
ends = ["a", "b"]
cost = 1
mode = "off"
rings = [64, 64, 64, 64, 64, 64, 64, 64]
"#;

/// The same, for preemptable frames of up to 2000 octets.
pub const WIDE_OFF: &str = r#"express_from = 4
[[node]]
name = "a"
kind = "station"
[[node]]
name = "b"
kind = "station"
[[link]]
ends = ["a", "b"]
cost = 1
mode = "off"
rings = [64, 64, 64, 64, 64, 64, 64, 64]
largest = 2000
"#;

/// Two stations, and rings of one frame each.
pub const NARROW: &str = r#"express_from = 4
[[node]]
name = "a"
kind = "station"
[[node]]
name = "b"
kind = "station"
[[link]]
ends = ["a", "b"]
cost = 1
mode = "on"
rings = [1, 1, 1, 1, 1, 1, 1, 1]
"#;

/// The same over a link that doesn't preempt.
pub const NARROW_OFF: &str = r#"express_from = 4
[[node]]
name = "a"
kind = "station"
[[node]]
name = "b"
kind = "station"
[[link]]
ends = ["a", "b"]
cost = 1
mode = "off"
rings = [1, 1, 1, 1, 1, 1, 1, 1]
"#;

/// The same, with a wire that takes 6000 ticks.
pub const FAR: &str = r#"express_from = 4
[[node]]
name = "a"
kind = "station"
[[node]]
name = "b"
kind = "station"
[[link]]
ends = ["a", "b"]
cost = 1
delay = 6000
mode = "off"
rings = [1, 1, 1, 1, 1, 1, 1, 1]
"#;

/// A bridge between two stations.
pub const BRIDGED: &str = r#"express_from = 4
[[node]]
name = "a"
kind = "station"
[[node]]
name = "m"
kind = "bridge"
latency = 100
[[node]]
name = "b"
kind = "station"
[[link]]
ends = ["a", "m"]
cost = 1
mode = "on"
rings = [64, 64, 64, 64, 64, 64, 64, 64]
[[link]]
ends = ["m", "b"]
cost = 1
mode = "on"
rings = [64, 64, 64, 64, 64, 64, 64, 64]
"#;

/// The built-in stream and flow.
pub const TWO_ROWS: &str =
    "[[stream]]\nname = \"x\"\nvid = 10\nprio = 6\nroute = [\"a\", \"b\"]\nmax = 1522\nburst = 2000\nrate = 100000\n[[flow]]\nname = \"y\"\nvid = 20\nprio = 0\nroute = [\"a\", \"b\"]\nmax = 1522\n";

/// A flow alone.
pub const ONE_FLOW: &str =
    "[[flow]]\nname = \"y\"\nvid = 20\nprio = 0\nroute = [\"a\", \"b\"]\nmax = 1522\n";

/// A stream of short frames, and a flow.
pub const SHORT_ROWS: &str =
    "[[stream]]\nname = \"x\"\nvid = 10\nprio = 6\nroute = [\"a\", \"b\"]\nmax = 64\nburst = 84\nrate = 1000\n[[flow]]\nname = \"y\"\nvid = 20\nprio = 0\nroute = [\"a\", \"b\"]\nmax = 1522\n";

/// Two streams, of which the second may send more at once.
pub const TWO_STREAMS: &str = r#"[[stream]]
name = "x"
vid = 10
prio = 6
route = ["a", "b"]
max = 64
burst = 84
rate = 1000
[[stream]]
name = "z"
vid = 11
prio = 7
route = ["a", "b"]
max = 64
burst = 168
rate = 1000
"#;

/// A flow of the greatest frames.
pub const WIDE_FLOW: &str =
    "[[flow]]\nname = \"y\"\nvid = 20\nprio = 0\nroute = [\"a\", \"b\"]\nmax = 2000\n";

/// A stream of short frames and a flow by way of the bridge.
pub const BY_BRIDGE: &str = r#"[[stream]]
name = "x"
vid = 10
prio = 6
route = ["a", "m", "b"]
max = 64
burst = 84
rate = 1000
[[flow]]
name = "y"
vid = 20
prio = 0
route = ["a", "m", "b"]
max = 1522
"#;

/// Two stations whose frames go by way of one bridge to a third one.
pub const TWO_ARCS: &str = r#"express_from = 4
[[node]]
name = "a"
kind = "station"
[[node]]
name = "c"
kind = "station"
[[node]]
name = "m"
kind = "bridge"
latency = 100
[[node]]
name = "b"
kind = "station"
[[link]]
ends = ["a", "m"]
cost = 1
mode = "on"
rings = [64, 64, 64, 64, 64, 64, 64, 64]
[[link]]
ends = ["c", "m"]
cost = 1
mode = "on"
rings = [64, 64, 64, 64, 64, 64, 64, 64]
[[link]]
ends = ["m", "b"]
cost = 1
mode = "on"
rings = [64, 64, 64, 64, 64, 64, 64, 64]
"#;

/// Their streams, of one priority.
pub const BY_TWO_ARCS: &str = r#"[[stream]]
name = "x"
vid = 10
prio = 6
route = ["a", "m", "b"]
max = 64
burst = 168
rate = 1000
[[stream]]
name = "z"
vid = 11
prio = 6
route = ["c", "m", "b"]
max = 64
burst = 168
rate = 1000
"#;

/// Two stations that each have a bridge to a third one: the link to the second bridge is one tick longer, and that bridge is one tick faster.
pub const TWO_BRIDGES: &str = r#"express_from = 4
[[node]]
name = "a"
kind = "station"
[[node]]
name = "c"
kind = "station"
[[node]]
name = "m"
kind = "bridge"
latency = 100
[[node]]
name = "n"
kind = "bridge"
latency = 99
[[node]]
name = "b"
kind = "station"
[[link]]
ends = ["a", "m"]
cost = 1
mode = "on"
rings = [64, 64, 64, 64, 64, 64, 64, 64]
[[link]]
ends = ["c", "n"]
cost = 1
delay = 1
mode = "on"
rings = [64, 64, 64, 64, 64, 64, 64, 64]
[[link]]
ends = ["m", "b"]
cost = 1
mode = "on"
rings = [64, 64, 64, 64, 64, 64, 64, 64]
[[link]]
ends = ["n", "b"]
cost = 1
mode = "on"
rings = [64, 64, 64, 64, 64, 64, 64, 64]
"#;

/// Their streams, of two priorities.
pub const BY_TWO_BRIDGES: &str = r#"[[stream]]
name = "x"
vid = 10
prio = 6
route = ["a", "m", "b"]
max = 64
burst = 168
rate = 1000
[[stream]]
name = "z"
vid = 11
prio = 7
route = ["c", "n", "b"]
max = 64
burst = 168
rate = 1000
"#;

/// A line of three switches, with a controller at the first, a drive at the second, and a drive and a camera at the third one.
pub const LINE: &str = r#"express_from = 4
[[node]]
name = "controller"
kind = "station"
[[node]]
name = "switch1"
kind = "bridge"
latency = 500
[[node]]
name = "switch2"
kind = "bridge"
latency = 500
[[node]]
name = "switch3"
kind = "bridge"
latency = 500
[[node]]
name = "drive1"
kind = "station"
[[node]]
name = "drive2"
kind = "station"
[[node]]
name = "camera"
kind = "station"
[[link]]
ends = ["controller", "switch1"]
cost = 1
delay = 6
mode = "off"
[[link]]
ends = ["switch1", "switch2"]
cost = 1
delay = 6
mode = "off"
[[link]]
ends = ["switch2", "switch3"]
cost = 1
delay = 6
mode = "off"
[[link]]
ends = ["drive1", "switch2"]
cost = 1
delay = 6
mode = "off"
[[link]]
ends = ["drive2", "switch3"]
cost = 1
delay = 6
mode = "off"
[[link]]
ends = ["camera", "switch3"]
cost = 1
delay = 6
mode = "off"
"#;

/// Set points, an alarm and images over that line.
pub const BY_LINE: &str = r#"[[stream]]
name = "axis1"
vid = 10
prio = 6
route = ["controller", "switch1", "switch2", "drive1"]
max = 64
burst = 84
rate = 1000
[[stream]]
name = "axis2"
vid = 11
prio = 6
route = ["controller", "switch1", "switch2", "switch3", "drive2"]
max = 64
burst = 84
rate = 1000
[[stream]]
name = "alarm"
vid = 12
prio = 7
route = ["drive2", "switch3", "switch2", "switch1", "controller"]
max = 64
burst = 84
rate = 1000
[[flow]]
name = "video"
vid = 20
prio = 0
route = ["camera", "switch3", "switch2", "switch1", "controller"]
max = 1522
"#;

/// Two stations and a link that preempts.
pub const PAIR: &str = r#"express_from = 4
[[node]]
name = "a"
kind = "station"
[[node]]
name = "b"
kind = "station"
[[link]]
ends = ["a", "b"]
cost = 1
mode = "on"
rings = [64, 64, 64, 64, 64, 64, 64, 64]
"#;

/// The same, where a fragment that is cut has 124 octets of its frame at least.
pub const LONG_FRAGMENTS: &str = "node = [
    {name = 'a', kind = 'station'},
    {name = 'b', kind = 'station'},
]
link = [
    {ends = ['a', 'b'], cost = 1, mode = 'on', add_frag = 1, rings = [64, 64, 64, 64, 64, 64, 64, 64]},
]
";

/// The same, at eight ticks an octet.
pub const SLOW: &str = "node = [
    {name = 'a', kind = 'station'},
    {name = 'b', kind = 'station'},
]
link = [
    {ends = ['a', 'b'], cost = 8, mode = 'on', rings = [64, 64, 64, 64, 64, 64, 64, 64]},
]
";

/// The same, for preemptable frames of up to 2000 octets.
pub const WIDE: &str = "node = [
    {name = 'a', kind = 'station'},
    {name = 'b', kind = 'station'},
]
link = [
    {ends = ['a', 'b'], cost = 1, mode = 'on', largest = 2000},
]
";

/// The same, for preemptable frames of up to 100 octets.
pub const SHORT_FRAMES: &str = "node = [
    {name = 'a', kind = 'station'},
    {name = 'b', kind = 'station'},
]
link = [
    {ends = ['a', 'b'], cost = 1, mode = 'on', largest = 100},
]
";

/// Two stations and a link that negotiates, over which preemptable frames wait until preemption is active.
pub const NEGOTIATED: &str = "timing = {interval = 10000, ttl = 4, unit = 10000, verify = 1000}
node = [
    {name = 'a', kind = 'station'},
    {name = 'b', kind = 'station'},
]
link = [
    {ends = ['a', 'b'], cost = 1, mode = 'negotiate', rings = [64, 64, 64, 64, 64, 64, 64, 64]},
]
";

/// The same, where they go whole until then.
pub const PASSING: &str = "timing = {interval = 10000, ttl = 4, unit = 10000, verify = 1000}
node = [
    {name = 'a', kind = 'station'},
    {name = 'b', kind = 'station'},
]
link = [
    {ends = ['a', 'b'], cost = 1, mode = 'negotiate', policy = 'pass', rings = [64, 64, 64, 64, 64, 64, 64, 64]},
]
";

/// A bridge without latency between two stations. The first link preempts, and the second does not.
pub const HALF_OFF: &str = "node = [
    {name = 'a', kind = 'station'},
    {name = 'm', kind = 'bridge', latency = 0},
    {name = 'b', kind = 'station'},
]
link = [
    {ends = ['a', 'm'], cost = 1, mode = 'on'},
    {ends = ['m', 'b'], cost = 1, mode = 'off'},
]
";

/// A bridge between three stations. Priorities are express from 4 on over the first link, and from 6 on over the others.
pub const AREAS: &str = "express_from = 4
node = [
    {name = 'a', kind = 'station'},
    {name = 'm', kind = 'bridge', latency = 100},
    {name = 'b', kind = 'station'},
    {name = 'c', kind = 'station'},
]
link = [
    {ends = ['a', 'm'], cost = 1, mode = 'on'},
    {ends = ['m', 'b'], cost = 1, mode = 'on', express_from = 6},
    {ends = ['c', 'm'], cost = 1, mode = 'on', express_from = 6},
]
";

/// Three bridges in a ring, with a station at each.
pub const RING: &str = "node = [
    {name = 'p', kind = 'bridge'},
    {name = 'q', kind = 'bridge'},
    {name = 'r', kind = 'bridge'},
    {name = 's', kind = 'station'},
    {name = 't', kind = 'station'},
    {name = 'u', kind = 'station'},
]
link = [
    {ends = ['p', 'q'], cost = 1, mode = 'on'},
    {ends = ['q', 'r'], cost = 1, mode = 'on'},
    {ends = ['r', 'p'], cost = 1, mode = 'on'},
    {ends = ['s', 'p'], cost = 1, mode = 'on'},
    {ends = ['t', 'q'], cost = 1, mode = 'on'},
    {ends = ['u', 'r'], cost = 1, mode = 'on'},
]
";

/// The line of three switches, with links that negotiate.
pub const PLANT: &str = "node = [
    {name = 'controller', kind = 'station'},
    {name = 'switch1', kind = 'bridge', latency = 500},
    {name = 'switch2', kind = 'bridge', latency = 500},
    {name = 'switch3', kind = 'bridge', latency = 500},
    {name = 'drive1', kind = 'station'},
    {name = 'drive2', kind = 'station'},
    {name = 'camera', kind = 'station'},
]
link = [
    {ends = ['controller', 'switch1'], cost = 1, delay = 6, mode = 'negotiate'},
    {ends = ['switch1', 'switch2'], cost = 1, delay = 6, mode = 'negotiate'},
    {ends = ['switch2', 'switch3'], cost = 1, delay = 6, mode = 'negotiate'},
    {ends = ['drive1', 'switch2'], cost = 1, delay = 6, mode = 'negotiate'},
    {ends = ['drive2', 'switch3'], cost = 1, delay = 6, mode = 'negotiate'},
    {ends = ['camera', 'switch3'], cost = 1, delay = 6, mode = 'negotiate'},
]
";

/// Two streams and a flow that they interrupt.
pub const THREE_ROWS: &str = "stream = [
    {name = 'x', vid = 10, prio = 6, route = ['a', 'b'], max = 64, burst = 84, rate = 1000},
    {name = 'z', vid = 11, prio = 7, route = ['a', 'b'], max = 500, burst = 520, rate = 10000},
]
flow = [
    {name = 'y', vid = 20, prio = 0, route = ['a', 'b'], max = 1522},
]
";

/// A stream of short frames, and a flow of frames of up to 2000 octets.
pub const SHORT_BEFORE_GREATEST: &str = "stream = [
    {name = 'x', vid = 10, prio = 6, route = ['a', 'b'], max = 64, burst = 84, rate = 1000},
]
flow = [
    {name = 'y', vid = 20, prio = 0, route = ['a', 'b'], max = 2000},
]
";

/// The same stream, and a flow of frames of up to 100 octets.
pub const SHORT_BEFORE_SHORT: &str = "stream = [
    {name = 'x', vid = 10, prio = 6, route = ['a', 'b'], max = 64, burst = 84, rate = 1000},
]
flow = [
    {name = 'y', vid = 20, prio = 0, route = ['a', 'b'], max = 100},
]
";

/// A stream that changes areas, and a flow that joins it in the second one.
pub const ACROSS_AREAS: &str = "stream = [
    {name = 'x', vid = 10, prio = 6, route = ['a', 'm', 'b'], max = 64, burst = 84, rate = 1000},
]
flow = [
    {name = 'y', vid = 20, prio = 5, route = ['c', 'm', 'b'], max = 1522},
]
";

/// Streams that go round, each by the arcs between three bridges and those to and from stations.
pub const ROUND: &str = "stream = [
    {name = 'c1', vid = 1, prio = 6, route = ['s', 'p', 'q', 'r', 'u'], max = 64, burst = 84, rate = 1000},
    {name = 'c2', vid = 2, prio = 6, route = ['t', 'q', 'r', 'p', 's'], max = 64, burst = 84, rate = 1000},
    {name = 'c3', vid = 3, prio = 6, route = ['u', 'r', 'p', 'q', 't'], max = 64, burst = 84, rate = 1000},
]
";
