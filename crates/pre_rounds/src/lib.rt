//! Certificates without ranks: bursts and delays are found round by round, so streams may go round in a cycle.
#![tactic(auto)]

mod bounds;
mod faults;
mod maker;
mod ports;
mod rows;
mod settle;
mod tables;

pub use faults::RoundsFault;
pub use maker::rounds;

#[cfg(test)]
mod tests {
    use super::*;
    use pre_base::MemorySink;
    use pre_certify::put_certificate;
    use pre_streams::read_streams;
    use pre_topo::read_network;
    use std::alloc::Global;
    use std::test::Fail;

    /// Three bridges in a ring, with a station at each.
    const RING: &str = r#"express_from = 4
node = [
    {name = "p", kind = "bridge"},
    {name = "q", kind = "bridge"},
    {name = "r", kind = "bridge"},
    {name = "s", kind = "station"},
    {name = "t", kind = "station"},
    {name = "u", kind = "station"},
]
link = [
    {ends = ["p", "q"], cost = 1, mode = "on", rings = [64, 64, 64, 64, 64, 64, 64, 64]},
    {ends = ["q", "r"], cost = 1, mode = "on", rings = [64, 64, 64, 64, 64, 64, 64, 64]},
    {ends = ["r", "p"], cost = 1, mode = "on", rings = [64, 64, 64, 64, 64, 64, 64, 64]},
    {ends = ["s", "p"], cost = 1, mode = "on", rings = [64, 64, 64, 64, 64, 64, 64, 64]},
    {ends = ["t", "q"], cost = 1, mode = "on", rings = [64, 64, 64, 64, 64, 64, 64, 64]},
    {ends = ["u", "r"], cost = 1, mode = "on", rings = [64, 64, 64, 64, 64, 64, 64, 64]},
]
"#;

    /// Three streams, each over two links of the ring.
    const ROUND: &str = r#"stream = [
    {name = "c1", vid = 1, prio = 6, route = ["s", "p", "q", "r", "u"], max = 64, burst = 84, rate = 1000},
    {name = "c2", vid = 2, prio = 6, route = ["t", "q", "r", "p", "s"], max = 64, burst = 84, rate = 1000},
    {name = "c3", vid = 3, prio = 6, route = ["u", "r", "p", "q", "t"], max = 64, burst = 84, rate = 1000},
]
"#;

    /// A burst of 84 octets grows by one at each hop.
    const CERTIFICATE: &str = "certificate 3
arc p>q 0
arc q>r 0
arc r>p 0
arc s>p 0
arc p>s 0
arc t>q 0
arc q>t 0
arc u>r 0
arc r>u 0
port p>q 6 84 171 0 255 171
port q>r 6 84 171 0 255 171
port r>p 6 84 171 0 255 171
port s>p 6 84 84 0 168 84
port p>s 6 84 87 0 171 87
port t>q 6 84 84 0 168 84
port q>t 6 84 87 0 171 87
port u>r 6 84 84 0 168 84
port r>u 6 84 87 0 171 87
hop c1 0 84
hop c1 1 85
hop c1 2 86
hop c1 3 87
hop c2 0 84
hop c2 1 85
hop c2 2 86
hop c2 3 87
hop c3 0 84
hop c3 1 85
hop c3 2 86
hop c3 3 87
bound c1 801
bound c2 801
bound c3 801
end
";

    /// Five bridges in a ring, with a station at each.
    const RING_OF_FIVE: &str = r#"express_from = 4
node = [
    {name = "g0", kind = "bridge"},
    {name = "g1", kind = "bridge"},
    {name = "g2", kind = "bridge"},
    {name = "g3", kind = "bridge"},
    {name = "g4", kind = "bridge"},
    {name = "h0", kind = "station"},
    {name = "h1", kind = "station"},
    {name = "h2", kind = "station"},
    {name = "h3", kind = "station"},
    {name = "h4", kind = "station"},
]
link = [
    {ends = ["g0", "g1"], cost = 1, mode = "on", rings = [64, 64, 64, 64, 64, 64, 64, 64]},
    {ends = ["g1", "g2"], cost = 1, mode = "on", rings = [64, 64, 64, 64, 64, 64, 64, 64]},
    {ends = ["g2", "g3"], cost = 1, mode = "on", rings = [64, 64, 64, 64, 64, 64, 64, 64]},
    {ends = ["g3", "g4"], cost = 1, mode = "on", rings = [64, 64, 64, 64, 64, 64, 64, 64]},
    {ends = ["g4", "g0"], cost = 1, mode = "on", rings = [64, 64, 64, 64, 64, 64, 64, 64]},
    {ends = ["h0", "g0"], cost = 1, mode = "on", rings = [64, 64, 64, 64, 64, 64, 64, 64]},
    {ends = ["h1", "g1"], cost = 1, mode = "on", rings = [64, 64, 64, 64, 64, 64, 64, 64]},
    {ends = ["h2", "g2"], cost = 1, mode = "on", rings = [64, 64, 64, 64, 64, 64, 64, 64]},
    {ends = ["h3", "g3"], cost = 1, mode = "on", rings = [64, 64, 64, 64, 64, 64, 64, 64]},
    {ends = ["h4", "g4"], cost = 1, mode = "on", rings = [64, 64, 64, 64, 64, 64, 64, 64]},
]
"#;

    /// Five streams, each over four links of the ring.
    const ROUND_OF_FIVE: &str = r#"stream = [
    {name = "c0", vid = 1, prio = 6, route = ["h0", "g0", "g1", "g2", "g3", "g4", "h4"], max = 64, burst = 84, rate = 200000},
    {name = "c1", vid = 2, prio = 6, route = ["h1", "g1", "g2", "g3", "g4", "g0", "h0"], max = 64, burst = 84, rate = 200000},
    {name = "c2", vid = 3, prio = 6, route = ["h2", "g2", "g3", "g4", "g0", "g1", "h1"], max = 64, burst = 84, rate = 200000},
    {name = "c3", vid = 4, prio = 6, route = ["h3", "g3", "g4", "g0", "g1", "g2", "h2"], max = 64, burst = 84, rate = 200000},
    {name = "c4", vid = 5, prio = 6, route = ["h4", "g4", "g0", "g1", "g2", "g3", "h3"], max = 64, burst = 84, rate = 200000},
]
"#;

    /// The rounds of the streams of two texts, the certificate written.
    fn rounds_of(
        alloc: Global,
        net: &str,
        streams: &str,
        sink: &mut MemorySink,
    ) -> Result<(), RoundsFault> {
        let Ok(net) = read_network(alloc, net.as_bytes()) else {
            return Err(RoundsFault::Memory);
        };
        let Ok(streams) = read_streams(alloc, streams.as_bytes(), &net) else {
            return Err(RoundsFault::Memory);
        };
        let certificate = rounds(alloc, &net, &streams)?;
        match put_certificate(&certificate, &net, &streams, sink) {
            Ok(()) => Ok(()),
            Err(_failed) => Err(RoundsFault::Memory),
        }
    }

    #[test]
    fn three_in_a_ring(rt: HostRuntime) -> Result<(), Fail> {
        let mut sink = MemorySink::make(rt.alloc(), 2000, 100, &[])?;
        assert!(rt; rounds_of(rt.alloc(), RING, ROUND, &mut sink).is_ok());
        assert_eq!(rt; sink.octets(), CERTIFICATE.as_bytes());
        Ok(())
    }

    /// The arc and the priority at which a number passes 10^12, where one does.
    fn large_at(fault: &RoundsFault) -> Option<(u16, u8)> {
        match fault {
            RoundsFault::Large { arc, prio } => Some((arc.0, prio.number())),
            _ => None,
        }
    }

    // Each stream takes a fifth of the time of its links, and bursts grow from round to round.
    #[test]
    fn five_in_a_ring(rt: HostRuntime) -> Result<(), Fail> {
        let mut sink = MemorySink::make(rt.alloc(), 2000, 100, &[])?;
        let Err(fault) = rounds_of(rt.alloc(), RING_OF_FIVE, ROUND_OF_FIVE, &mut sink) else {
            assert!(rt; false);
            return Ok(());
        };
        assert_eq!(rt; large_at(&fault), Some((0, 6)));
        Ok(())
    }
}
