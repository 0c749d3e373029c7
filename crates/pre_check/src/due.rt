ghost use Rattle.std.specs.Prelude.{◌≡◌, ◌++◌, ◌≤◌, ℕ, length, map, OnOk, IfOk};
ghost use Rattle.std.specs.Option.{option_map};
ghost use Rattle.std.specs.List.{range_with_len};
ghost use Rattle.pre_bound.specs.Uses.{has_arc, has_port};
ghost use Rattle.pre_check.specs.Due.{due_arcs, due_ports, due_hops, due_hop, due_bounds, due_lines, is_arc, is_stream_named, is_first, is_end, arc_due, port_due, hop_due, bound_due};

use crate::uses::is_on;
use pre_base::{ArcId, Items, Prio, StreamId};
use pre_streams::{Row, Streams};
use pre_topo::Network;
use std::alloc::{AllocError, Global};

/// What a line of a certificate is due to say.
#[derive(Clone, Copy, Debug)]
pub enum Due {
    First,
    Arc(ArcId),
    Port(ArcId, Prio),
    Hop(StreamId, u64),
    Bound(StreamId),
    End,
}

/// Whether a stream uses the arc.
fn has_arc(rows: &[Row], arc: ArcId) -> bool
    ensures { result ≡ has_arc rows.now arc.0 }
{
    rows.iter().any(|row| is_on(row, arc, 0, 8))
}

/// Whether a stream of this priority uses the arc.
fn has_port(rows: &[Row], arc: ArcId, prio: Prio) -> bool
    ensures { result ≡ has_port rows.now arc.0 prio }
{
    let prio = prio.number();
    rows.iter().any(|row| is_on(row, arc, prio, prio + 1))
}

fn push_arcs(due: &mut Items<Due>, net: &Network, rows: &[Row]) -> Result<(), AllocError>
    ensures { OnOk result (due.new ≡ due.old ++ due_arcs net.now rows.now) }
{
    for place in 0..net.arcs.len() {
        let arc = ArcId(place as u16);
        if has_arc(rows, arc) {
            due.push(Due::Arc(arc))?;
        }
    }
    Ok(())
}

fn push_ports(due: &mut Items<Due>, net: &Network, rows: &[Row]) -> Result<(), AllocError>
    ensures { OnOk result (due.new ≡ due.old ++ due_ports net.now rows.now) }
{
    for place in 0..net.arcs.len() * 8 {
        let arc = ArcId((place / 8) as u16);
        let prio = (place % 8) as u8;
        if has_port(rows, arc, Prio(prio)) {
            due.push(Due::Port(arc, Prio(prio)))?;
        }
    }
    Ok(())
}

fn push_hops(due: &mut Items<Due>, stream: StreamId, count: usize) -> Result<(), AllocError>
    ensures { OnOk result (due.new ≡ due.old ++ map due_hop (map (λ hop. (stream.0, hop)) (range_with_len 0 count))) }
{
    for hop in 0..count {
        due.push(Due::Hop(stream, hop as u64))?;
    }
    Ok(())
}

fn push_routes(due: &mut Items<Due>, rows: &[Row]) -> Result<(), AllocError>
    requires { length rows.now ≤ 512 }
    ensures { OnOk result (due.new ≡ due.old ++ due_hops rows.now) }
{
    for stream in 0..rows.len() {
        let row = &rows[stream];
        if row.curve.is_some() {
            push_hops(due, StreamId(stream as u16), row.arcs.len())?;
        }
    }
    Ok(())
}

fn push_bounds(due: &mut Items<Due>, rows: &[Row]) -> Result<(), AllocError>
    requires { length rows.now ≤ 512 }
    ensures { OnOk result (due.new ≡ due.old ++ due_bounds rows.now) }
{
    for stream in 0..rows.len() {
        let row = &rows[stream];
        if row.curve.is_some() {
            due.push(Due::Bound(StreamId(stream as u16)))?;
        }
    }
    Ok(())
}

/// The lines that are due, in their order.
pub(crate) fn due_lines(
    alloc: Global,
    net: &Network,
    rows: &[Row],
) -> Result<Items<Due>, AllocError>
    requires { length rows.now ≤ 512 }
    ensures { IfOk result (λ due. due ≡ due_lines net.now rows.now) }
{
    let mut due = Items::new(alloc);
    due.push(Due::First)?;
    push_arcs(&mut due, net, rows)?;
    push_ports(&mut due, net, rows)?;
    push_routes(&mut due, rows)?;
    push_bounds(&mut due, rows)?;
    due.push(Due::End)?;
    Ok(due)
}

fn is_arc(net: &Network, arc: ArcId, name: &[u8]) -> bool
    ensures { result ≡ is_arc net.now arc.0 name.now }
{
    match net.arc_named(name) {
        Some(named) => named.0 == arc.0,
        None => false,
    }
}

fn is_stream(streams: &Streams, stream: StreamId, name: &[u8]) -> bool
    ensures { result ≡ is_stream_named streams.now stream.0 name.now }
{
    match streams.stream_named(name) {
        Some(named) => named.0 == stream.0,
        None => false,
    }
}

pub(crate) fn is_first(due: &Due) -> bool
    ensures { result ≡ is_first due.now }
{
    match due {
        Due::First => true,
        _ => false,
    }
}

pub(crate) fn is_end(due: &Due) -> bool
    ensures { result ≡ is_end due.now }
{
    match due {
        Due::End => true,
        _ => false,
    }
}

/// The arc that is due, where the name is its.
pub(crate) fn arc_due(net: &Network, due: &Due, name: &[u8]) -> Option<ArcId>
    ensures { option_map (λ a. a.0) result ≡ arc_due net.now due.now name.now }
{
    match due {
        Due::Arc(arc) => {
            if is_arc(net, *arc, name) {
                Some(*arc)
            } else {
                None
            }
        }
        _ => None,
    }
}

/// The port that is due, where the name and the priority are its.
pub(crate) fn port_due(net: &Network, due: &Due, name: &[u8], n: u64) -> Option<(ArcId, Prio)>
    ensures { option_map (λ p. (p.0.0, p.1)) result ≡ port_due net.now due.now name.now n }
{
    match due {
        Due::Port(arc, prio) => {
            if is_arc(net, *arc, name) && u64::from(prio.number()) == n {
                Some((*arc, Prio(prio.number())))
            } else {
                None
            }
        }
        _ => None,
    }
}

/// The stream whose hop is due, where the name and the hop are those.
pub(crate) fn hop_due(streams: &Streams, due: &Due, name: &[u8], n: u64) -> Option<StreamId>
    ensures { option_map (λ s. s.0) result ≡ hop_due streams.now due.now name.now n }
{
    match due {
        Due::Hop(stream, hop) => {
            if is_stream(streams, *stream, name) && *hop == n {
                Some(*stream)
            } else {
                None
            }
        }
        _ => None,
    }
}

/// The stream whose bound is due, where the name is its.
pub(crate) fn bound_due(streams: &Streams, due: &Due, name: &[u8]) -> Option<StreamId>
    ensures { option_map (λ s. s.0) result ≡ bound_due streams.now due.now name.now }
{
    match due {
        Due::Bound(stream) => {
            if is_stream(streams, *stream, name) {
                Some(*stream)
            } else {
                None
            }
        }
        _ => None,
    }
}
