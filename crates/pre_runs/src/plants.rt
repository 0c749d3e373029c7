//! Networks, and streams over them, that the examples run.

/// An express stream and a preemptable flow.
const EXPRESS_AND_NOT: &str = "stream = [
    {name = 'x', vid = 10, prio = 6, route = ['a', 'b'], max = 1522, burst = 2000, rate = 100000},
]
flow = [
    {name = 'y', vid = 20, prio = 0, route = ['a', 'b'], max = 1522},
]
";

/// The same, and a flow of a higher preemptable priority.
const TWO_FLOWS: &str = "stream = [
    {name = 'x', vid = 10, prio = 6, route = ['a', 'b'], max = 1522, burst = 2000, rate = 100000},
]
flow = [
    {name = 'y', vid = 20, prio = 0, route = ['a', 'b'], max = 1522},
    {name = 'z', vid = 21, prio = 3, route = ['a', 'b'], max = 1522},
]
";

/// An express stream of short frames, and a flow of frames of up to 2000 octets.
const WIDE_FLOW: &str = "stream = [
    {name = 'x', vid = 10, prio = 6, route = ['a', 'b'], max = 64, burst = 84, rate = 1000},
]
flow = [
    {name = 'y', vid = 20, prio = 0, route = ['a', 'b'], max = 2000},
]
";

/// A stream and a flow by way of the bridge.
const BY_THE_BRIDGE: &str = "stream = [
    {name = 'x', vid = 10, prio = 6, route = ['a', 'm', 'b'], max = 64, burst = 84, rate = 1000},
]
flow = [
    {name = 'y', vid = 20, prio = 0, route = ['a', 'm', 'b'], max = 1522},
]
";

/// A stream and a flow from two stations to the third one. The priority of the flow would be express over the link of the
/// stream.
const TO_THE_THIRD: &str = "stream = [
    {name = 'x', vid = 10, prio = 6, route = ['a', 'm', 'b'], max = 64, burst = 84, rate = 1000},
]
flow = [
    {name = 'y', vid = 20, prio = 5, route = ['c', 'm', 'b'], max = 1522},
]
";

/// Two stations and a link that preempts, an express stream and a preemptable flow.
pub const PREEMPTING: (&str, &str) = (
    "node = [
    {name = 'a', kind = 'station'},
    {name = 'b', kind = 'station'},
]
link = [
    {ends = ['a', 'b'], cost = 1, mode = 'on'},
]
",
    EXPRESS_AND_NOT,
);

/// The same, with a wire that takes 3000 ticks.
pub const FAR: (&str, &str) = (
    "node = [
    {name = 'a', kind = 'station'},
    {name = 'b', kind = 'station'},
]
link = [
    {ends = ['a', 'b'], cost = 1, mode = 'on', delay = 3000},
]
",
    EXPRESS_AND_NOT,
);

/// The first link, and a second flow of a higher preemptable priority.
pub const THREE_ROWS: (&str, &str) = (
    "node = [
    {name = 'a', kind = 'station'},
    {name = 'b', kind = 'station'},
]
link = [
    {ends = ['a', 'b'], cost = 1, mode = 'on'},
]
",
    TWO_FLOWS,
);

/// The first link, where a fragment that is cut has 124 octets of its frame at least.
pub const LONG_FRAGMENTS: (&str, &str) = (
    "node = [
    {name = 'a', kind = 'station'},
    {name = 'b', kind = 'station'},
]
link = [
    {ends = ['a', 'b'], cost = 1, mode = 'on', add_frag = 1},
]
",
    EXPRESS_AND_NOT,
);

/// The first link, at eight ticks an octet.
pub const SLOW: (&str, &str) = (
    "node = [
    {name = 'a', kind = 'station'},
    {name = 'b', kind = 'station'},
]
link = [
    {ends = ['a', 'b'], cost = 8, mode = 'on'},
]
",
    EXPRESS_AND_NOT,
);

/// The first link, with rings of one frame each.
pub const NARROW: (&str, &str) = (
    "node = [
    {name = 'a', kind = 'station'},
    {name = 'b', kind = 'station'},
]
link = [
    {ends = ['a', 'b'], cost = 1, mode = 'on', rings = [1, 1, 1, 1, 1, 1, 1, 1]},
]
",
    EXPRESS_AND_NOT,
);

/// The first link, for preemptable frames of up to 2000 octets.
pub const WIDE: (&str, &str) = (
    "node = [
    {name = 'a', kind = 'station'},
    {name = 'b', kind = 'station'},
]
link = [
    {ends = ['a', 'b'], cost = 1, mode = 'on', largest = 2000},
]
",
    WIDE_FLOW,
);

/// Two stations and a link that does not preempt, for preemptable frames of up to 2000 octets.
pub const WIDE_WHOLE: (&str, &str) = (
    "node = [
    {name = 'a', kind = 'station'},
    {name = 'b', kind = 'station'},
]
link = [
    {ends = ['a', 'b'], cost = 1, mode = 'off', largest = 2000},
]
",
    WIDE_FLOW,
);

/// A bridge between three stations. Priorities are express from 4 on over the first link, and from 6 on over the others.
pub const AREAS: (&str, &str) = (
    "node = [
    {name = 'a', kind = 'station'},
    {name = 'm', kind = 'bridge', latency = 100},
    {name = 'b', kind = 'station'},
    {name = 'c', kind = 'station'},
]
link = [
    {ends = ['a', 'm'], cost = 1, mode = 'on'},
    {ends = ['m', 'b'], cost = 1, mode = 'on', express_from = 6},
    {ends = ['c', 'm'], cost = 1, mode = 'on', express_from = 6},
]
",
    TO_THE_THIRD,
);

/// A bridge without latency between two stations. The first link preempts, and the second does not.
pub const PREEMPTING_THEN_NOT: (&str, &str) = (
    "node = [
    {name = 'a', kind = 'station'},
    {name = 'm', kind = 'bridge', latency = 0},
    {name = 'b', kind = 'station'},
]
link = [
    {ends = ['a', 'm'], cost = 1, mode = 'on'},
    {ends = ['m', 'b'], cost = 1, mode = 'off'},
]
",
    BY_THE_BRIDGE,
);

/// Two stations and a link that negotiates, over which preemptable frames wait until preemption is active.
pub const NEGOTIATING: (&str, &str) = (
    "timing = {interval = 100000, ttl = 4, unit = 100000, verify = 1000}
node = [
    {name = 'a', kind = 'station'},
    {name = 'b', kind = 'station'},
]
link = [
    {ends = ['a', 'b'], cost = 1, mode = 'negotiate'},
]
",
    EXPRESS_AND_NOT,
);

/// The same, where they go whole until then.
pub const PASSING: (&str, &str) = (
    "timing = {interval = 100000, ttl = 4, unit = 100000, verify = 1000}
node = [
    {name = 'a', kind = 'station'},
    {name = 'b', kind = 'station'},
]
link = [
    {ends = ['a', 'b'], cost = 1, mode = 'negotiate', policy = 'pass'},
]
",
    EXPRESS_AND_NOT,
);

/// The first link that negotiates, where an advert counts for 1000 ticks only.
pub const FORGETTING: (&str, &str) = (
    "timing = {interval = 100000, ttl = 1, unit = 1000, verify = 1000}
node = [
    {name = 'a', kind = 'station'},
    {name = 'b', kind = 'station'},
]
link = [
    {ends = ['a', 'b'], cost = 1, mode = 'negotiate'},
]
",
    EXPRESS_AND_NOT,
);

/// The first link that negotiates, with a wire that takes 12 ticks.
pub const NEAR: (&str, &str) = (
    "timing = {interval = 100000, ttl = 4, unit = 100000, verify = 1000}
node = [
    {name = 'a', kind = 'station'},
    {name = 'b', kind = 'station'},
]
link = [
    {ends = ['a', 'b'], cost = 1, mode = 'negotiate', delay = 12},
]
",
    EXPRESS_AND_NOT,
);

/// The first link that negotiates, with a wire that takes longer than three attempts.
pub const LATE: (&str, &str) = (
    "timing = {interval = 100000, ttl = 4, unit = 100000, verify = 100}
node = [
    {name = 'a', kind = 'station'},
    {name = 'b', kind = 'station'},
]
link = [
    {ends = ['a', 'b'], cost = 1, mode = 'negotiate', delay = 1500},
]
",
    EXPRESS_AND_NOT,
);
