//! Streams and flows: what is sent through a network, and by which arcs.
#![tactic(auto)]

mod arc_rules;
mod building;
mod checks;
mod faults;
mod fields;
mod first_places;
mod laws;
mod lookups;
mod pairs;
mod raw;
mod raw_rows;
mod reading;
mod routes;
mod rows;

pub use faults::StreamFault;
pub use laws::routes_law;
pub use pairs::pair;
pub use reading::read_streams;
pub use rows::{Row, Streams};

#[cfg(test)]
mod tests {
    use super::*;
    use pre_base::{ArcId, NodeId, StreamId};
    use std::test::Fail;

    #[test]
    fn rows_of_pair(rt: HostRuntime) -> Result<(), Fail> {
        let streams = pair(rt.alloc())?;
        assert_eq!(rt; streams.stream_named(b"x"), Some(StreamId(0)));
        assert_eq!(rt; streams.stream_named(b"y"), Some(StreamId(1)));
        for word in ["z", "xy", "X", ""] {
            assert_eq!(rt; streams.stream_named(word.as_bytes()), None, "{word}");
        }
        for vid in [10, 20] {
            assert_eq!(rt; streams.next_arc(NodeId(0), vid), Some(ArcId(0)), "{vid}");
            assert_eq!(rt; streams.next_arc(NodeId(1), vid), None, "{vid}");
        }
        assert_eq!(rt; streams.next_arc(NodeId(0), 11), None);
        assert_eq!(rt; streams.next_arc(NodeId(2), 10), None);
        routes_law();
        Ok(())
    }
}
