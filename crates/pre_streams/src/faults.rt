use pre_base::FileRow;
use std::alloc::AllocError;

/// Why a stream file can't be read. The first fault by rule is answered, then by row, streams first.
#[derive(Clone, Copy, Debug, PartialEq, Eq)]
pub enum StreamFault {
    /// Rule 1: the text isn't a TOML document.
    Toml,
    /// Rule 2: a key is missing or isn't known, or a value is of another kind.
    Field { row: FileRow },
    /// Rule 3: a name isn't one, or was given before.
    Name { row: FileRow },
    /// Rule 4: the route's entry `hop`, counted from 0, isn't a node, was visited before, is of the wrong kind or
    /// has no link with the entry before it; or the route differs there from an earlier one of its VID.
    Route { row: FileRow, hop: u64 },
    /// Rule 5: a stream's priority isn't express on an arc of its route, or a flow's is.
    Class { row: FileRow },
    /// Rule 6: a number, or the length of a route, is outside its range, or a flow's greatest frame is above that of an
    /// arc of its route.
    Range { row: FileRow },
    /// Rule 7: a burst has no room for the greatest frame with preamble and gap.
    Burst { row: FileRow },
    /// Rule 8: there are more than 256 streams or 256 flows.
    Count,
    /// There isn't enough memory.
    Memory,
}

impl From<AllocError> for StreamFault {
    ghost use Rattle.std.specs.Prelude.{◌≡◌};
    ghost use Rattle.pre_streams.specs.declared.faults.StreamFault.TheVariants.{Memory};

    ghost from_gives = { λ _ e. e ≡ Memory };

    fn from(_: AllocError) -> StreamFault {
        StreamFault::Memory
    }
}
