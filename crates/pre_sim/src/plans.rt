ghost use Rattle.std.specs.Prelude.{◌≡◌, ◌<◌, ◌≤◌, ◌^◌, length, slice_get, Some};

use pre_base::ArcId;
use pre_incoming::Inputs;
use pre_script::Script;
use pre_streams::Streams;
use pre_topo::{Arc, Network};

/// All that a run is given.
#[derive(Clone, Copy)]
pub(crate) struct Plan<'a> {
    pub net: &'a Network,
    pub streams: &'a Streams,
    pub script: &'a Script,
}

impl<'a> Plan<'a> {
    /// What frames are built from.
    pub fn inputs(&self) -> Inputs<'a>
        ensures net { result.net.now ≡ self.now.net.now }
        ensures streams { result.streams.now ≡ self.now.streams.now }
        ensures script { result.script.now ≡ self.now.script.now }
    {
        Inputs {
            net: self.net,
            streams: self.streams,
            script: self.script,
        }
    }
}

/// The arc of this number.
pub(crate) fn arc_at<'a>(net: &'a Network, arc: ArcId) -> &'a Arc
    requires { arc.0 < length net.now.arcs }
    ensures found { slice_get net.now.arcs arc.0 ≡ Some result.now }
    ensures cost { (1 ≤ result.now.cost) × (result.now.cost ≤ 1000) }
    ensures delay { result.now.delay ≤ 10 ^ 9 }
    ensures add_frag { result.now.add_frag ≤ 3 }
    ensures express { result.now.express_from < 8 }
    ensures end { result.now.to.0 < length net.now.nodes }
{
    &net.arcs.as_slice()[arc.0 as usize]
}
