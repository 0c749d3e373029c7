ghost use Rattle.std.specs.Prelude.{◌≡◌, ◌≤◌, length, Some, slice_get, IsSome, IfSome, OnOk, OnErr, IfErr};
ghost use Rattle.std.specs.Option.{option_map};

use crate::lookups::{arc_of_vid, first_flow, place_of};
use pre_base::{ArcId, Items, Name, NodeId, Prio, StreamId};
use pre_curve::Curve;

/// An express stream, which has a curve, or a preemptable flow, which has none.
#[derive(Debug, Drop)]
pub struct Row {
    pub name: Name,
    /// The VLAN identifier (IEEE 802.1Q), 1 to 4094: it stands for the route.
    pub vid: u16,
    pub prio: Prio,
    /// The nodes from the first to the last.
    pub route: Items<NodeId>,
    /// The arcs from each node of the route to the next.
    pub arcs: Items<ArcId>,
    /// The greatest frame, in octets with its check: 64 to 2000.
    pub max: u16,
    pub curve: Option<Curve>,
}

/// Express streams, and behind them preemptable flows.
#[derive(Debug, Drop)]
pub struct Streams {
    pub rows: Items<Row>,
    pub ghost few: { length rows ≤ 512 },
}

impl Streams {
    ghost use Rattle.pre_streams.specs.Hops.{IsNextArc};
    ghost use Rattle.pre_streams.specs.Named.{row_named};
    ghost use Rattle.std.specs.List.{remove};
    ghost use Rattle.pre_topo.specs.declared.network.Network.{Network};
    ghost use Rattle.pre_streams.specs.Rows.{IsRow};
    ghost use Rattle.pre_streams.specs.Fits.{Fits};
    ghost use Rattle.pre_streams.specs.Joined.{CanJoin, first_flow, with_stream};

    /// The arc that the route of this VID takes from the node: None exactly where no row of that VID leaves it.
    /// Where the streams fit a network, all rows of the VID take this arc (`routes_law`).
    pub fn next_arc(&self, node: NodeId, vid: u16) -> Option<ArcId>
        ensures { IsNextArc self.now.rows node vid result }
    {
        arc_of_vid(self.rows.as_slice(), node, vid)
    }

    /// The row of this name: None exactly where no row has it.
    pub fn stream_named(&self, word: &[u8]) -> Option<StreamId>
        ensures { option_map (λ s. s.0) result ≡ row_named self.now word.now }
    {
        let place = place_of(self.rows.as_slice(), word)?;
        Some(StreamId(place as u16))
    }

    /// The place of the first flow, and the number of the rows where there is none.
    pub fn first_flow(&self) -> usize
        ensures { result ≡ first_flow self.now.rows }
    {
        first_flow(self.rows.as_slice())
    }

    /// Puts a stream in behind the other streams, before the flows, so that they go on to fit each network for which the row
    /// meets the rules of a stream. Memory comes from the allocator of the rows; where there isn't enough, the row comes back
    /// and the rows stay.
    pub fn insert_stream(&mut self, row: Row) -> Result<(), Row>
        requires { CanJoin self.old.rows row }
        ensures ok { OnOk result (self.new.rows ≡ with_stream self.old.rows row) }
        ensures err { OnErr result (self.new.rows ≡ self.old.rows) }
        ensures back { IfErr result (λ back. back ≡ row) }
        ensures fits { (net : Network) → Fits net self.old → IsRow net row → Fits net self.new }
    {
        let place = first_flow(self.rows.as_slice());
        self.rows.insert(place, row)
    }

    /// Takes a stream out; the rows behind it move up by one, and go on to fit each network.
    pub fn remove_stream(&mut self, stream: StreamId) -> Row
        requires { (r : Row) × (slice_get self.old.rows stream.0 ≡ Some r) × IsSome r.curve }
        ensures row { slice_get self.old.rows stream.0 ≡ Some result }
        ensures rows { self.new.rows ≡ remove self.old.rows stream.0 }
        ensures fits { (net : Network) → Fits net self.old → Fits net self.new }
    {
        self.rows.remove(usize::from(stream.0))
    }
}
