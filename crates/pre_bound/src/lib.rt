//! Certificates of express streams: what makes one good, and the least solutions of its inequalities.
#![tactic(auto)]

mod certificate;
mod laws;
mod rows;
mod solutions;

pub use certificate::Certificate;
pub use laws::{completeness_law, good_law, least_solutions, limit_law, order_law, settled_law};
pub use rows::{ArcRow, HopRow, PortRow};
pub use solutions::{grown, hop_delay, queue_size};

#[cfg(test)]
mod tests {
    use super::*;
    use std::test::Fail;

    // A frame of 64 octets behind a fragment of 143 octets that can't be cut; two priorities, of which the higher has a
    // burst of 520 and a rate of 10000.
    #[test]
    fn delays_of_a_port(rt: HostRuntime) -> Result<(), Fail> {
        assert_eq!(rt; hop_delay(143, 84, 0, 1), Some(227));
        assert_eq!(rt; hop_delay(143, 85, 0, 1), Some(228));
        assert_eq!(rt; hop_delay(143, 604, 10_000, 1), Some(754));
        assert_eq!(rt; hop_delay(143, 520, 0, 1), Some(663));
        assert_eq!(rt; hop_delay(0, 0, 0, 1), Some(84));
        assert_eq!(rt;
            hop_delay(Certificate::LIMIT, 0, 0, 1),
            Some(Certificate::LIMIT)
        );
        assert_eq!(rt; hop_delay(Certificate::LIMIT, 1, 0, 1), None);
        Ok(())
    }

    #[test]
    fn bursts_and_queues(rt: HostRuntime) -> Result<(), Fail> {
        assert_eq!(rt; grown(84, 1000, 227, 1), Some(85));
        assert_eq!(rt; grown(84, 1000, 84, 1), Some(84));
        assert_eq!(rt; grown(Certificate::LIMIT, 1, 85, 1), None);
        assert_eq!(rt; queue_size(84, 1000, 227), Some(84));
        assert_eq!(rt; queue_size(520, 10_000, 663), Some(526));
        assert_eq!(rt; queue_size(2000, 100_000, 2143), Some(2214));
        assert_eq!(rt; queue_size(Certificate::LIMIT, 1_000_000, 1), None);
        Ok(())
    }
}
