//! The least certificate of a network's express streams, or why there is none.
#![tactic(auto)]

mod certifier;
mod cycles;
mod laws;
mod loads;
mod ports;
mod ranks;
mod rings;
mod rows;
mod settle;
mod text;
mod unfit;

pub use certifier::certify;
pub use laws::refusal_law;
pub use loads::{
    burst_of, cost_at, first_overload, has_arc, has_port, hop_of, is_on, rate_of, rates_on,
};
pub use ports::{block_octets, delay_at, largest_used, ticks_before};
pub use rings::ring_at;
pub use rows::bound_rows;
pub use text::put_certificate;
pub use unfit::Unfit;

#[cfg(test)]
mod tests {
    use super::*;
    use pre_base::{ArcId, Prio, StreamId};
    use pre_bound::{ArcRow, HopRow, PortRow};
    use std::test::Fail;

    // One stream of burst 2000 and rate 100000 over one arc of one tick an octet, behind a fragment of 143 octets.
    #[test]
    fn one_stream(rt: HostRuntime) -> Result<(), Fail> {
        let net = pre_topo::pair(rt.alloc())?;
        let streams = pre_streams::pair(rt.alloc())?;
        let Ok(certificate) = certify(rt.alloc(), &net, &streams) else {
            assert!(rt; false);
            return Ok(());
        };
        let arc = ArcRow {
            arc: ArcId(0),
            rank: Some(0),
            largest: 1522,
        };
        assert_eq!(rt; certificate.arcs.as_slice(), [arc].as_slice());
        let port = PortRow {
            arc: ArcId(0),
            prio: Prio(6),
            block: 143,
            work: 2000,
            rate: 0,
            delay: 2143,
            size: 2214,
        };
        assert_eq!(rt; certificate.ports.as_slice(), [port].as_slice());
        let hop = HopRow {
            stream: StreamId(0),
            hop: 0,
            burst: 2000,
        };
        assert_eq!(rt; certificate.hops.as_slice(), [hop].as_slice());
        assert_eq!(rt;
            certificate.bounds.as_slice(),
            [(StreamId(0), 2131)].as_slice()
        );
        Ok(())
    }
}
