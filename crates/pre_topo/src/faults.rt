use pre_base::FileRow;
use std::alloc::AllocError;

/// Why a network file can't be read. The first fault by rule is answered, then by row.
#[derive(Clone, Copy, Debug, PartialEq, Eq)]
pub enum TopoFault {
    /// Rule 1: the text isn't a TOML document.
    Toml,
    /// Rule 2: a key is missing or isn't known, or a value is of another kind.
    Field { row: FileRow },
    /// Rule 3: a node's name isn't a name, or was given before.
    Name { row: FileRow },
    /// Rule 4: an end isn't a node, both ends are one node, or the two nodes are linked already.
    End { row: FileRow },
    /// Rule 5: a number or word is outside its range.
    Range { row: FileRow },
    /// Rule 6: there are fewer than 2 or more than 128 nodes, or no link or more than 128.
    Count,
    /// Rule 7: the arcs may keep more than 60,000 frames.
    Slots,
    /// Rule 8: more than 67,108,864 octets may be on the wires.
    Wires,
    /// There isn't enough memory.
    Memory,
}

impl From<AllocError> for TopoFault {
    ghost use Rattle.std.specs.Prelude.{◌≡◌};
    ghost use Rattle.pre_topo.specs.declared.faults.TopoFault.TheVariants.{Memory};

    ghost from_gives = { λ _ e. e ≡ Memory };

    fn from(_: AllocError) -> TopoFault {
        TopoFault::Memory
    }
}
