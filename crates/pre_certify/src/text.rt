ghost use Rattle.std.specs.Prelude.{◌≡◌};
ghost use Rattle.pre_base.specs.Faults.{HasCause};
ghost use Rattle.pre_base.specs.Told.{WhereTold};
ghost use Rattle.pre_base.specs.Sinks.{TakesAll};
ghost use Rattle.pre_text.specs.Spelled.{spelled};
ghost use Rattle.pre_topo.specs.Named.{arc_name};
ghost use Rattle.pre_certify.specs.Text.{stream_name, version_of, first_line, arc_line, port_line, hop_line, bound_line, arc_lines, port_lines, hop_lines, bound_lines, certificate_text};

use pre_base::{ArcId, Failed, Sink, StreamId};
use pre_bound::{ArcRow, Certificate, HopRow, PortRow};
use pre_streams::{Row, Streams};
use pre_text::{Word, put_line};
use pre_topo::Network;

fn arc_of(net: &Network, arc: ArcId) -> Word<'_, 'static>
    ensures { spelled result ≡ arc_name net.now arc.0 }
{
    match net.arcs.as_slice().get(arc.0 as usize) {
        Some(arc) => Word::Ends(net.node_name(arc.from), net.node_name(arc.to)),
        None => Word::Octets(b""),
    }
}

fn stream_of(rows: &[Row], stream: StreamId) -> Word<'_, 'static>
    ensures { spelled result ≡ stream_name rows.now stream.0 }
{
    match rows.get(stream.0 as usize) {
        Some(row) => Word::Octets(row.name.as_str().as_bytes()),
        None => Word::Octets(b""),
    }
}

fn put_arc<S: Sink>(net: &Network, row: &ArcRow, sink: &mut S) -> Result<(), Failed>
    ensures octets { WhereTold (S.tells sink.old) (S.tells sink.new) (TakesAll result (arc_line net.now row.now)) }
    ensures cause { HasCause (S.faults sink.old) (S.faults sink.new) result }
{
    let (first, arc) = (Word::Octets(b"arc"), arc_of(net, row.arc));
    let largest = Word::Number(row.largest);
    match row.rank {
        Some(rank) => put_line(sink, &first, &[arc, Word::Number(rank), largest]),
        None => put_line(sink, &first, &[arc, largest]),
    }
}

fn put_arcs<S: Sink>(net: &Network, rows: &[ArcRow], sink: &mut S) -> Result<(), Failed>
    ensures octets { WhereTold (S.tells sink.old) (S.tells sink.new) (TakesAll result (arc_lines net.now rows.now)) }
    ensures cause { HasCause (S.faults sink.old) (S.faults sink.new) result }
{
    for row in rows {
        put_arc(net, row, sink)?;
    }
    Ok(())
}

fn put_port<S: Sink>(net: &Network, row: &PortRow, sink: &mut S) -> Result<(), Failed>
    ensures octets { WhereTold (S.tells sink.old) (S.tells sink.new) (TakesAll result (port_line net.now row.now)) }
    ensures cause { HasCause (S.faults sink.old) (S.faults sink.new) result }
{
    let words = [
        arc_of(net, row.arc),
        Word::Number(u64::from(row.prio.number())),
        Word::Number(row.block),
        Word::Number(row.work),
        Word::Number(row.rate),
        Word::Number(row.delay),
        Word::Number(row.size),
    ];
    put_line(sink, &Word::Octets(b"port"), &words)
}

fn put_ports<S: Sink>(net: &Network, rows: &[PortRow], sink: &mut S) -> Result<(), Failed>
    ensures octets { WhereTold (S.tells sink.old) (S.tells sink.new) (TakesAll result (port_lines net.now rows.now)) }
    ensures cause { HasCause (S.faults sink.old) (S.faults sink.new) result }
{
    for row in rows {
        put_port(net, row, sink)?;
    }
    Ok(())
}

fn put_hop<S: Sink>(streams: &[Row], row: &HopRow, sink: &mut S) -> Result<(), Failed>
    ensures octets { WhereTold (S.tells sink.old) (S.tells sink.new) (TakesAll result (hop_line streams.now row.now)) }
    ensures cause { HasCause (S.faults sink.old) (S.faults sink.new) result }
{
    let words = [
        stream_of(streams, row.stream),
        Word::Number(row.hop),
        Word::Number(row.burst),
    ];
    put_line(sink, &Word::Octets(b"hop"), &words)
}

fn put_hops<S: Sink>(streams: &[Row], rows: &[HopRow], sink: &mut S) -> Result<(), Failed>
    ensures octets { WhereTold (S.tells sink.old) (S.tells sink.new) (TakesAll result (hop_lines streams.now rows.now)) }
    ensures cause { HasCause (S.faults sink.old) (S.faults sink.new) result }
{
    for row in rows {
        put_hop(streams, row, sink)?;
    }
    Ok(())
}

fn put_bound<S: Sink>(streams: &[Row], row: &(StreamId, u64), sink: &mut S) -> Result<(), Failed>
    ensures octets { WhereTold (S.tells sink.old) (S.tells sink.new) (TakesAll result (bound_line streams.now row.now)) }
    ensures cause { HasCause (S.faults sink.old) (S.faults sink.new) result }
{
    let words = [stream_of(streams, row.0), Word::Number(row.1)];
    put_line(sink, &Word::Octets(b"bound"), &words)
}

fn put_bounds<S: Sink>(
    streams: &[Row],
    rows: &[(StreamId, u64)],
    sink: &mut S,
) -> Result<(), Failed>
    ensures octets { WhereTold (S.tells sink.old) (S.tells sink.new) (TakesAll result (bound_lines streams.now rows.now)) }
    ensures cause { HasCause (S.faults sink.old) (S.faults sink.new) result }
{
    for row in rows {
        put_bound(streams, row, sink)?;
    }
    Ok(())
}

/// The text's version: with ranks it is 2, and without them 3.
fn version_of(arcs: &[ArcRow]) -> u64
    ensures { result ≡ version_of arcs.now }
{
    match arcs {
        [] => 2,
        [row, ..] => { if row.rank.is_some() { 2 } else { 3 } }
    }
}

/// Writes the first line.
fn put_first<S: Sink>(arcs: &[ArcRow], sink: &mut S) -> Result<(), Failed>
    ensures octets { WhereTold (S.tells sink.old) (S.tells sink.new) (TakesAll result (first_line arcs.now)) }
    ensures cause { HasCause (S.faults sink.old) (S.faults sink.new) result }
{
    let version = Word::Number(version_of(arcs));
    put_line(sink, &Word::Octets(b"certificate"), &[version])
}

/// Writes a certificate: its version, a line for each arc, port, hop and bound in the order of its rows, and `end`. The first
/// line is `certificate 3` where the first arc has no rank, and else `certificate 2`; an arc's line has its rank where it has
/// one. Arcs and streams have their names in the network and among the rows.
///
/// # Errors
///
/// `Failed` only where the sink failed, which then took a front of the text.
pub fn put_certificate<S: Sink>(
    c: &Certificate,
    net: &Network,
    streams: &Streams,
    sink: &mut S,
) -> Result<(), Failed>
    ensures octets { WhereTold (S.tells sink.old) (S.tells sink.new) (TakesAll result (certificate_text net.now streams.now.rows c.now)) }
    ensures cause { HasCause (S.faults sink.old) (S.faults sink.new) result }
{
    let rows = streams.rows.as_slice();
    put_first(c.arcs.as_slice(), sink)?;
    put_arcs(net, c.arcs.as_slice(), sink)?;
    put_ports(net, c.ports.as_slice(), sink)?;
    put_hops(rows, c.hops.as_slice(), sink)?;
    put_bounds(rows, c.bounds.as_slice(), sink)?;
    put_line(sink, &Word::Octets(b"end"), &[])
}
