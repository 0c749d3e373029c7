ghost use Rattle.std.specs.Prelude.{◌≡◌, ◌<◌};
ghost use Rattle.std.specs.List.{flat_map};
ghost use Rattle.pre_base.specs.Faults.{HasCause};
ghost use Rattle.pre_base.specs.Told.{WhereTold};
ghost use Rattle.pre_base.specs.Sinks.{TakesAll};
ghost use Rattle.pre_text.specs.Spelled.{spelled};
ghost use Rattle.pre_topo.specs.Text.{kind_word, mode_word, policy_word, head_text, node_text, nodes_text, link_head, link_rest, link_text, links_text, ring_text};
ghost use Rattle.pre_topo.specs.NetworkText.{network_text};

use crate::names::name_of;
use crate::{Arc, Mode, Network, Node, NodeKind, Policy, Timing};
use pre_base::{Failed, Sink};
use pre_text::{Word, put_word};

fn kind_word(kind: NodeKind) -> &'static [u8]
    ensures { result.now ≡ kind_word kind }
{
    match kind {
        NodeKind::Station => b"station",
        NodeKind::Bridge => b"bridge",
    }
}

fn mode_word(mode: Mode) -> &'static [u8]
    ensures { result.now ≡ mode_word mode }
{
    match mode {
        Mode::Off => b"off",
        Mode::On => b"on",
        Mode::Negotiate => b"negotiate",
    }
}

fn policy_word(policy: Policy) -> &'static [u8]
    ensures { result.now ≡ policy_word policy }
{
    match policy {
        Policy::Pass => b"pass",
        Policy::Quiet => b"quiet",
    }
}

/// Writes words with nothing between them.
fn put_words<S: Sink>(sink: &mut S, words: &[Word]) -> Result<(), Failed>
    ensures octets { WhereTold (S.tells sink.old) (S.tells sink.new) (TakesAll result (flat_map spelled words.now)) }
    ensures cause { HasCause (S.faults sink.old) (S.faults sink.new) result }
{
    for word in words {
        put_word(sink, word)?;
    }
    Ok(())
}

fn put_head<S: Sink>(sink: &mut S, express_from: u8, timing: &Timing) -> Result<(), Failed>
    ensures octets { WhereTold (S.tells sink.old) (S.tells sink.new) (TakesAll result (head_text express_from timing.now)) }
    ensures cause { HasCause (S.faults sink.old) (S.faults sink.new) result }
{
    put_words(
        sink,
        &[
            Word::Octets(b"express_from = "),
            Word::Number(u64::from(express_from)),
            Word::Octets(b"\n\n[timing]\ninterval = "),
            Word::Number(timing.interval),
            Word::Octets(b"\nttl = "),
            Word::Number(timing.ttl),
            Word::Octets(b"\nunit = "),
            Word::Number(timing.unit),
            Word::Octets(b"\nverify = "),
            Word::Number(timing.verify),
            Word::Octets(b"\n"),
        ],
    )
}

fn put_node<S: Sink>(sink: &mut S, node: &Node) -> Result<(), Failed>
    ensures octets { WhereTold (S.tells sink.old) (S.tells sink.new) (TakesAll result (node_text node.now)) }
    ensures cause { HasCause (S.faults sink.old) (S.faults sink.new) result }
{
    put_words(
        sink,
        &[
            Word::Octets(b"\n[[node]]\nname = \""),
            Word::Octets(node.name.as_str().as_bytes()),
            Word::Octets(b"\"\nkind = \""),
            Word::Octets(kind_word(node.kind)),
            Word::Octets(b"\"\nlatency = "),
            Word::Number(node.latency),
            Word::Octets(b"\n"),
        ],
    )
}

fn put_nodes<S: Sink>(sink: &mut S, nodes: &[Node]) -> Result<(), Failed>
    ensures octets { WhereTold (S.tells sink.old) (S.tells sink.new) (TakesAll result (nodes_text nodes.now)) }
    ensures cause { HasCause (S.faults sink.old) (S.faults sink.new) result }
{
    for node in nodes {
        put_node(sink, node)?;
    }
    Ok(())
}

fn ring(arc: &Arc, prio: usize) -> Word<'static, 'static>
    requires { prio < 8 }
    ensures { spelled result ≡ ring_text arc.now prio }
{
    Word::Number(u64::from(arc.rings[prio]))
}

fn put_link_head<S: Sink>(sink: &mut S, nodes: &[Node], arc: &Arc) -> Result<(), Failed>
    ensures octets { WhereTold (S.tells sink.old) (S.tells sink.new) (TakesAll result (link_head nodes.now arc.now)) }
    ensures cause { HasCause (S.faults sink.old) (S.faults sink.new) result }
{
    put_words(
        sink,
        &[
            Word::Octets(b"\n[[link]]\nends = [\""),
            Word::Octets(name_of(nodes, arc.from)),
            Word::Octets(b"\", \""),
            Word::Octets(name_of(nodes, arc.to)),
            Word::Octets(b"\"]\ncost = "),
            Word::Number(arc.cost),
            Word::Octets(b"\ndelay = "),
            Word::Number(arc.delay),
            Word::Octets(b"\nmode = \""),
            Word::Octets(mode_word(arc.mode)),
            Word::Octets(b"\"\npolicy = \""),
            Word::Octets(policy_word(arc.policy)),
            Word::Octets(b"\"\nadd_frag = "),
            Word::Number(u64::from(arc.add_frag)),
        ],
    )
}

fn put_link_rest<S: Sink>(sink: &mut S, arc: &Arc) -> Result<(), Failed>
    ensures octets { WhereTold (S.tells sink.old) (S.tells sink.new) (TakesAll result (link_rest arc.now)) }
    ensures cause { HasCause (S.faults sink.old) (S.faults sink.new) result }
{
    let comma = Word::Octets(b", ");
    put_words(
        sink,
        &[
            Word::Octets(b"\nrings = ["),
            ring(arc, 0),
            comma,
            ring(arc, 1),
            comma,
            ring(arc, 2),
            comma,
            ring(arc, 3),
            comma,
            ring(arc, 4),
            comma,
            ring(arc, 5),
            comma,
            ring(arc, 6),
            comma,
            ring(arc, 7),
            Word::Octets(b"]\nexpress_from = "),
            Word::Number(u64::from(arc.express_from)),
            Word::Octets(b"\nlargest = "),
            Word::Number(u64::from(arc.largest)),
            Word::Octets(b"\n"),
        ],
    )
}

fn put_link<S: Sink>(sink: &mut S, nodes: &[Node], arc: &Arc) -> Result<(), Failed>
    ensures octets { WhereTold (S.tells sink.old) (S.tells sink.new) (TakesAll result (link_text nodes.now arc.now)) }
    ensures cause { HasCause (S.faults sink.old) (S.faults sink.new) result }
{
    put_link_head(sink, nodes, arc)?;
    put_link_rest(sink, arc)
}

fn put_links<S: Sink>(sink: &mut S, nodes: &[Node], arcs: &[Arc]) -> Result<(), Failed>
    ensures octets { WhereTold (S.tells sink.old) (S.tells sink.new) (TakesAll result (links_text nodes.now arcs.now)) }
    ensures cause { HasCause (S.faults sink.old) (S.faults sink.new) result }
{
    let mut rest = arcs;
    while let [arc, _, further @ ..] = rest {
        put_link(sink, nodes, arc)?;
        rest = further;
    }
    Ok(())
}

/// Writes the network as a file in TOML with each of its keys: the top and the timing, the nodes, and the links by their
/// arcs from the first end to the second. Tests show that `read_network` reads the same network from it.
///
/// # Errors
///
/// `Failed` only where the sink failed. Then a front of the file is written.
pub fn put_network<S: Sink>(net: &Network, sink: &mut S) -> Result<(), Failed>
    ensures octets { WhereTold (S.tells sink.old) (S.tells sink.new) (TakesAll result (network_text net.now)) }
    ensures cause { HasCause (S.faults sink.old) (S.faults sink.new) result }
{
    put_head(sink, net.express_from, &net.timing)?;
    put_nodes(sink, net.nodes.as_slice())?;
    put_links(sink, net.nodes.as_slice(), net.arcs.as_slice())
}
