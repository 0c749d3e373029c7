ghost use Rattle.std.specs.Prelude.{◌≡◌, ◌≤◌, false, All, IfSome, IfNone, IsTrue, count_by, is_some};
ghost use Rattle.pre_streams.specs.Joined.{first_flow};
ghost use Rattle.pre_admit.specs.Routes.{DifferAt, DiffersAt, SharesNodes, HasOtherRoute};
ghost use Rattle.pre_admit.specs.Names.{has_name};
ghost use Rattle.pre_admit.specs.Reasons.{NoReason, IsPlainReason, why_of};

use pre_base::NodeId;
use pre_certify::Unfit;
use pre_streams::{Row, Streams};

/// Why a stream isn't admitted.
#[derive(Debug, Drop)]
pub enum Why {
    /// A row has its name.
    Name,
    /// A row with its VID takes another route, which differs first at this entry, counted from 0.
    Route { hop: u64 },
    /// There are 256 streams.
    Count,
    /// With it the streams have no certificate.
    Unfit(Unfit),
    /// There isn't enough memory.
    Memory,
}

/// What a refusal of the certifier is as a reason.
pub(crate) fn why_of(unfit: Unfit) -> Why
    ensures { result ≡ why_of unfit }
{
    match unfit {
        Unfit::Memory => Why::Memory,
        other => Why::Unfit(other),
    }
}

fn has_name(rows: &[Row], row: &Row) -> bool
    ensures { result ≡ has_name rows.now row.now.name }
{
    rows.iter().any(|held| held.name.is(row.name.as_str()))
}

/// The first place at which two routes differ.
fn difference(a: &[NodeId], b: &[NodeId]) -> Option<usize>
    ensures found { IfSome result (DifferAt a.now b.now) }
    ensures missing { IfNone result (a.now ≡ b.now) }
{
    let shorter = a.len().min(b.len());
    for hop in 0..shorter {
        if a[hop] != b[hop] {
            return Some(hop);
        }
    }
    if a.len() == b.len() {
        None
    } else {
        Some(shorter)
    }
}

/// Where the row's route differs from that of a row with its VID.
fn other_route_of(held: &Row, row: &Row) -> Option<usize>
    ensures found { IfSome result (DiffersAt row.now held.now) }
    ensures missing { IfNone result (SharesNodes row.now held.now) }
{
    if held.vid == row.vid {
        difference(held.route.as_slice(), row.route.as_slice())
    } else {
        None
    }
}

fn other_route(rows: &[Row], row: &Row) -> Option<usize>
    ensures found { IfSome result (HasOtherRoute rows.now row.now) }
    ensures missing { IfNone result (All (SharesNodes row.now) rows.now) }
{
    for held in rows {
        if let Some(hop) = other_route_of(held, row) {
            return Some(hop);
        }
    }
    None
}

/// The first reason against a row that comes before any certificate is asked for.
pub(crate) fn reason(streams: &Streams, row: &Row) -> Option<Why>
    ensures found { IfSome result (IsPlainReason streams.now.rows row.now) }
    ensures missing { IfNone result (NoReason streams.now.rows row.now) }
{
    let rows = streams.rows.as_slice();
    if has_name(rows, row) {
        return Some(Why::Name);
    }
    if let Some(hop) = other_route(rows, row) {
        let hop = hop as u64;
        return Some(Why::Route { hop });
    }
    if streams.first_flow() < 256 {
        None
    } else {
        Some(Why::Count)
    }
}
