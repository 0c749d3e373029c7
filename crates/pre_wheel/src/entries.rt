ghost use Rattle.std.specs.Prelude.{◌≡◌, ◌≢◌, ℕ, ◌+◌, ◌*◌, ◌/◌, ◌%◌, ◌<◌, ◌≤◌, None, length, slice_index_or};
ghost use Rattle.pre_wheel.specs.Winners.{IsEarlier, IsWon, leaf_of};

use pre_base::Tick;

/// A member and the tick at which it is due.
#[derive(Clone, Copy, Debug)]
pub(crate) struct Entry {
    pub tick: Tick,
    pub member: u16,
}

/// A member's entry.
pub(crate) fn leaf(member: u16, at: Option<Tick>) -> Option<Entry>
    ensures { result ≡ leaf_of member at }
{
    let tick = at?;
    Some(Entry { tick, member })
}

/// The entry that comes first: the one with the lesser tick, and of two at one tick the lesser member's.
fn earlier(left: Option<Entry>, right: Option<Entry>) -> Option<Entry>
    ensures { IsEarlier result left right }
{
    let Some(a) = left else {
        return right;
    };
    let Some(b) = right else {
        return left;
    };
    if b.tick.0 < a.tick.0 || (b.tick.0 == a.tick.0 && b.member < a.member) {
        right
    } else {
        left
    }
}

/// Lets the nodes above one that has changed win anew, from its parent up to the root.
pub(crate) fn renew(nodes: &mut [Option<Entry>], changed: usize)
    requires even { length nodes.old % 2 ≡ 0 }
    requires inside { changed < length nodes.old }
    requires others { (i : ℕ) → 0 < i → 2 * i + 1 < length nodes.old → i ≢ changed / 2 → IsWon nodes.old i }
    ensures won { (i : ℕ) → 0 < i → 2 * i + 1 < length nodes.old → IsWon nodes.new i }
    ensures leaves { (k : ℕ) → length nodes.old ≤ 2 * k → slice_index_or nodes.new k None ≡ slice_index_or nodes.old k None }
{
    let mut node = changed / 2;
    while node > 0 {
        nodes[node] = earlier(nodes[2 * node], nodes[2 * node + 1]);
        node /= 2;
    }
}
