//! Networks: stations, bridges and the arcs between them.
#![tactic(auto)]

mod arcs;
mod building;
mod checks;
mod copies;
mod faults;
mod fields;
mod names;
mod network;
mod nodes;
mod pairs;
mod ranges;
mod raw;
mod reading;
mod rows;
mod sums;
mod writing;

pub use arcs::{Arc, Mode, Policy, reverse};
pub use faults::TopoFault;
pub use network::Network;
pub use nodes::{Node, NodeKind, Timing};
pub use pairs::pair;
pub use reading::read_network;
pub use writing::put_network;

#[cfg(test)]
mod tests {
    use super::*;
    use pre_base::{ArcId, MemorySink, NodeId};
    use std::test::Fail;

    #[test]
    fn names_of_pair(rt: HostRuntime) -> Result<(), Fail> {
        let net = pair(rt.alloc())?;
        assert_eq!(rt; net.node_name(NodeId(0)), b"a".as_slice());
        assert_eq!(rt; net.node_name(NodeId(1)), b"b".as_slice());
        assert_eq!(rt; net.node_name(NodeId(2)), b"".as_slice());
        assert_eq!(rt; net.arc_named(b"a>b"), Some(ArcId(0)));
        assert_eq!(rt; net.arc_named(b"b>a"), Some(ArcId(1)));
        for word in [
            "a>c", "c>b", "a>a", "a<b", "a>", ">b", "a>b>", "a>bb", "aa>b", "ab", "a", "",
        ] {
            assert_eq!(rt; net.arc_named(word.as_bytes()), None, "{word}");
        }
        Ok(())
    }

    const PAIR: &str = r#"express_from = 4

[timing]
interval = 30000000000
ttl = 120
unit = 1000000000
verify = 10000000

[[node]]
name = "a"
kind = "station"
latency = 0

[[node]]
name = "b"
kind = "station"
latency = 0

[[link]]
ends = ["a", "b"]
cost = 1
delay = 0
mode = "on"
policy = "quiet"
add_frag = 0
rings = [64, 64, 64, 64, 64, 64, 64, 64]
express_from = 4
largest = 1522
"#;

    #[test]
    fn text_of_pair(rt: HostRuntime) -> Result<(), Fail> {
        let net = pair(rt.alloc())?;
        let mut sink = MemorySink::make(rt.alloc(), 512, 7, &[])?;
        assert!(rt; put_network(&net, &mut sink).is_ok());
        assert_eq!(rt; sink.octets(), PAIR.as_bytes());
        Ok(())
    }

    #[test]
    fn ways_of_a_link(rt: HostRuntime) {
        for (there, back) in [(0, 1), (2, 3), (254, 255)] {
            assert_eq!(rt; reverse(ArcId(there)), ArcId(back));
            assert_eq!(rt; reverse(ArcId(back)), ArcId(there));
        }
    }
}
