ghost use Rattle.std.specs.Prelude.{◌≡◌};
ghost use Rattle.pre_dissect.specs.declared.faults.DissectFault.TheVariants as fault;

use pre_base::Failed;
use pre_pcap::PcapFault;
use std::alloc::AllocError;
use thiserror::Error;

/// Why a capture file wasn't dissected to its end.
#[derive(Clone, Copy, Debug, PartialEq, Eq, Error)]
pub enum DissectFault {
    /// The first fault of the file.
    #[error("{0}")]
    Pcap(PcapFault),
    /// The sink failed.
    #[error("a line wasn't written")]
    Failed,
    /// There isn't enough memory.
    #[error("not enough memory")]
    Memory,
}

impl From<PcapFault> for DissectFault {
    ghost from_gives = { λ first e. e ≡ fault.Pcap first };

    fn from(first: PcapFault) -> DissectFault {
        DissectFault::Pcap(first)
    }
}

impl From<Failed> for DissectFault {
    ghost from_gives = { λ _ e. e ≡ fault.Failed };

    fn from(_: Failed) -> DissectFault {
        DissectFault::Failed
    }
}

impl From<AllocError> for DissectFault {
    ghost from_gives = { λ _ e. e ≡ fault.Memory };

    fn from(_: AllocError) -> DissectFault {
        DissectFault::Memory
    }
}
