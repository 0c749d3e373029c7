ghost use Rattle.std.specs.Prelude.{◌≡◌, ◌<◌, IfOk, IfSome, IfNone, None};
ghost use Rattle.std.specs.FinMap as map;
ghost use Rattle.std.specs.Ordering.{nat_cmp};
ghost use Rattle.pre_wheel.specs.Dues.{IsFirstDue, IsEmpty, with_due};

use crate::entries::{Entry, leaf, renew};
use pre_base::Tick;
use std::alloc::{AllocError, Global};
use std::marker::Model;

/// The node that all members play up to.
const ROOT: usize = 1;

/// A finite map from member to tick, for a number of members that is chosen when it is made.
///
/// The members stand in one vector as the leaves of a tournament: the two nodes below a node play, and
/// the entry that comes first wins the node. So `set` costs one game for each level, 16 at 65,535
/// members, and `next` reads the root and costs one `set`, however far apart the ticks are.
#[derive(Drop)]
pub struct Wheel {
    members: usize,
    nodes: Vec<Option<Entry>>,
}

impl Model for Wheel {
    ghost use Rattle.pre_wheel.specs.Dues.{Dues, dues_code};

    ghost Value = { Dues };

    ghost coded = { dues_code };

    ghost use Rattle.pre_wheel.specs.Winners.{dues_of, IsTournament};

    ghost view = { λ w. dues_of w.members w.nodes.items };

    ghost invariant = { λ w. IsTournament w.members w.nodes.items };
}

impl Wheel {
    /// A wheel on which no member has a tick. No other call takes memory.
    pub fn make(alloc: Global, members: u16) -> Result<Wheel, AllocError>
        ensures { IfOk result (λ wheel. wheel ≡ record { members = members; due = map.empty }) }
    {
        let members = usize::from(members);
        let nodes = vec![in alloc; None; 2 * members]?;
        Ok(Wheel { members, nodes })
    }

    /// Gives a member a tick, or takes away the one that it has.
    pub fn set(&mut self, member: u16, at: Option<Tick>)
        requires { member < self.old.members }
        ensures due { self.new ≡ with_due self.old member at }
        ensures members { self.new.members ≡ self.old.members }
    {
        let place = self.members + usize::from(member);
        self.nodes[place] = leaf(member, at);
        renew(&mut self.nodes, place);
    }

    /// Takes out the entry with the least tick, and of these the one with the least member; `None` exactly
    /// where no member has a tick.
    pub fn next(&mut self) -> Option<(Tick, u16)>
        ensures member { IfSome result (λ entry. entry.1 < self.old.members) }
        ensures least { IfSome result (λ entry. IsFirstDue self.old entry.1 entry.0.0) }
        ensures out { IfSome result (λ entry. self.new ≡ with_due self.old entry.1 None) }
        ensures members { self.new.members ≡ self.old.members }
        ensures none { IfNone result (IsEmpty self.old) }
        ensures same { IfNone result (self.new ≡ self.old) }
    {
        if self.members == 0 {
            return None;
        }
        let first = self.nodes[ROOT]?;
        self.set(first.member, None);
        Some((first.tick, first.member))
    }
}
