ghost use Rattle.std.specs.Prelude.{◌≡◌};
ghost use Rattle.pre_certify.specs.declared.unfit.Unfit.TheVariants.{Memory};

use pre_base::{ArcId, Items, Prio};
use std::alloc::AllocError;

/// Why there is no certificate.
#[derive(Debug, Drop)]
pub enum Unfit {
    /// The streams of the arc want all of its time: the least such arc.
    Overload { arc: ArcId },
    /// Each arc is followed by the next on some stream's route, and the last by the first; the least one comes first.
    Cycle { arcs: Items<ArcId> },
    /// A number at the port passes 10^12: the first such port by rank, arc and priority.
    Large { arc: ArcId, prio: Prio },
    /// The ring of the port has fewer places than it needs: the first such port by arc and priority.
    Ring { arc: ArcId, prio: Prio, need: u64 },
    /// There isn't enough memory.
    Memory,
}

impl From<AllocError> for Unfit {
    ghost from_gives = { λ _ e. e ≡ Memory };

    fn from(_error: AllocError) -> Unfit {
        Unfit::Memory
    }
}
