//! Where frames wait: a store of slots for their octets, and the eight rings of a port.
#![tactic(auto)]

mod rings;
mod slots;
mod store;

pub use rings::PortRings;
pub use slots::{FrameRef, Slot};
pub use store::FrameStore;

#[cfg(test)]
mod tests {
    use super::*;
    use pre_base::{FrameNo, Prio};
    use std::test::Fail;

    #[test]
    fn one_slot(rt: HostRuntime) -> Result<(), Fail> {
        let mut store = FrameStore::make(rt.alloc(), 1)?;
        for n in 0..200_u8 {
            let slot = store.take_slot().ok_or("no slot is in")?;
            store.fill(&slot, &[n, n, n]);
            assert_eq!(rt; store.octets(&slot), [n, n, n].as_slice());
            store.fill(&slot, &[n]);
            assert_eq!(rt; store.octets(&slot), [n].as_slice());
            store.give_back(slot);
        }
        Ok(())
    }

    // 240 frames enter the eight rings of 30, and leave in the order in which they entered.
    #[test]
    fn many_slots(rt: HostRuntime) -> Result<(), Fail> {
        let mut store = FrameStore::make(rt.alloc(), 241)?;
        let mut rings = PortRings::make(rt.alloc(), [30; 8])?;
        for n in 0..241_u32 {
            let slot = store.take_slot().ok_or("no slot is in")?;
            let prio = Prio((n % 8) as u8);
            let frame = FrameRef {
                slot,
                frame: FrameNo(n),
                size: 64,
                prio,
                vid: 1,
            };
            assert_eq!(rt; rings.enter(prio, frame).is_ok(), n < 240);
        }
        assert!(rt; store.take_slot().is_none());
        for n in 0..240_u32 {
            let prio = Prio((n % 8) as u8);
            assert_eq!(rt; rings.highest(Prio(0), Prio(7)), Some(Prio(7)));
            let front = rings.front(prio).ok_or("the ring is empty")?;
            assert_eq!(rt; front.frame, FrameNo(n));
            let frame = rings.leave(prio).ok_or("the ring is empty")?;
            assert_eq!(rt; frame.frame, FrameNo(n));
        }
        assert_eq!(rt; rings.highest(Prio(0), Prio(7)), None);
        Ok(())
    }
}
