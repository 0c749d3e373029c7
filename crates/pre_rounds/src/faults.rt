ghost use Rattle.std.specs.Prelude.{◌≡◌};
ghost use Rattle.pre_rounds.specs.declared.faults.RoundsFault.TheVariants.{Memory};

use pre_base::{ArcId, Prio, StreamId};
use std::alloc::AllocError;

/// Why the rounds give no certificate.
#[derive(Debug, Drop)]
pub enum RoundsFault {
    /// The streams of the arc want all of its time: the least such arc.
    Overload { arc: ArcId },
    /// In the first round in which a number passes 10^12, the first port, by arc and priority, at which one does.
    Large { arc: ArcId, prio: Prio },
    /// No round up to 1000 is settled. Behind this port, the first by arc and priority, round 1000 and the one after it have
    /// different bursts.
    Unsettled { arc: ArcId, prio: Prio },
    /// The first stream whose bound passes 10^12, and the first hop of its route up to which the ticks do.
    Wide { stream: StreamId, hop: u64 },
    /// The ring of the port has fewer places than it needs: the first such port by arc and priority.
    Ring { arc: ArcId, prio: Prio, need: u64 },
    /// There isn't enough memory.
    Memory,
}

impl From<AllocError> for RoundsFault {
    ghost from_gives = { λ _ e. e ≡ Memory };

    fn from(_error: AllocError) -> RoundsFault {
        RoundsFault::Memory
    }
}
