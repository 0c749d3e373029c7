ghost use Rattle.std.specs.Prelude.{◌≡◌, ◌++◌, ◌∷◌};
ghost use Rattle.std.specs.Str.{bytes_eq};
ghost use Rattle.pre_topo.specs.Names.{name_of_node, name_of_arc, place_of_arc};

use crate::{Arc, Node};
use pre_base::NodeId;

/// The name of a node, and nothing where there is no such node.
pub(crate) fn name_of(nodes: &[Node], node: NodeId) -> &[u8]
    ensures { result.now ≡ name_of_node nodes.now node.0 }
{
    match nodes.get(node.0 as usize) {
        None => &[],
        Some(node) => node.name.as_str().as_bytes(),
    }
}

/// Whether the word is these two names with `>` between.
fn is_joined(word: &[u8], from: &[u8], to: &[u8]) -> bool
    ensures { result ≡ bytes_eq (from.now ++ 62 ∷ to.now) word.now }
{
    let at = from.len();
    if word.len() <= at {
        return false;
    }
    if word[at] != b'>' {
        return false;
    }
    if &word[..at] != from {
        return false;
    }
    &word[at + 1..] == to
}

fn has_name(nodes: &[Node], arc: &Arc, word: &[u8]) -> bool
    ensures { result ≡ bytes_eq (name_of_arc nodes.now arc.now) word.now }
{
    is_joined(word, name_of(nodes, arc.from), name_of(nodes, arc.to))
}

/// The place of the first arc with this name.
pub(crate) fn place_of(nodes: &[Node], arcs: &[Arc], word: &[u8]) -> Option<usize>
    ensures { result ≡ place_of_arc nodes.now arcs.now word.now }
{
    arcs.iter().position(|arc| has_name(nodes, arc, word))
}
