//! Token bucket curves: which sends they allow, over every window of time, and a meter that keeps them.
#![tactic(auto)]

mod breach;
mod curves;
mod laws;
mod meter;

pub use breach::first_breach;
pub use curves::Curve;
pub use laws::{accepted_law, token_bucket_law};
pub use meter::Meter;

#[cfg(test)]
mod tests {
    use super::*;
    use pre_base::{Send, StreamId, Tick};
    use std::test::Fail;

    // One frame of 64 octets takes 84 of the wire, which is the whole burst.
    #[test]
    fn two_at_once(rt: HostRuntime) -> Result<(), Fail> {
        let curve = Curve {
            burst: 84,
            rate: 1000,
        };
        let sends = [
            Send {
                tick: Tick(0),
                stream: StreamId(0),
                size: 64,
            },
            Send {
                tick: Tick(0),
                stream: StreamId(0),
                size: 64,
            },
        ];
        assert_eq!(rt; first_breach(&sends, &curve), Some(1));
        assert_eq!(rt; first_breach(&sends[..1], &curve), None);
        Ok(())
    }

    // From tick 0 on the rate has given back more than was sent: only the last two break the curve.
    #[test]
    fn a_later_window(rt: HostRuntime) -> Result<(), Fail> {
        let curve = Curve {
            burst: 200,
            rate: 1000,
        };
        let sends = [
            Send {
                tick: Tick(0),
                stream: StreamId(0),
                size: 64,
            },
            Send {
                tick: Tick(1_000_000),
                stream: StreamId(0),
                size: 100,
            },
            Send {
                tick: Tick(1_000_001),
                stream: StreamId(0),
                size: 100,
            },
        ];
        assert_eq!(rt; first_breach(&sends, &curve), Some(2));
        Ok(())
    }

    // After 84,000 ticks the rate has given back the 84 octets, and a refused offer takes none of them.
    #[test]
    fn a_meter_drains(rt: HostRuntime) -> Result<(), Fail> {
        let curve = Curve {
            burst: 84,
            rate: 1000,
        };
        let mut meter = Meter::new(curve);
        assert!(rt; meter.offer(Tick(0), 84));
        assert!(rt; !meter.offer(Tick(83_999), 84));
        assert!(rt; meter.offer(Tick(84_000), 84));
        assert!(rt; !meter.offer(Tick(84_000), 1));
        Ok(())
    }
}
