ghost use Rattle.std.specs.Prelude.{◌≡◌, ◌+◌, ◌^◌, ◌≤◌, ◌<◌, length, replicate};
ghost use Rattle.pre_base.specs.declared.limits.TheConstants.{GREATEST_FRAME};
ghost use Rattle.pre_mpacket.specs.Spelling.{PlainPacket, HasCounts, IsWhole};
ghost use Rattle.pre_send.specs.Tasks.{task_kind, task_size, TaskTold};
ghost use Rattle.pre_send.specs.Packets.{in_one_piece, bare};
ghost use Rattle.pre_mpacket.specs.declared.packets.Kind.TheVariants as kind;

use crate::pieces::{Piece, with_check};
use pre_crc::Running;
use pre_mpacket::Kind;
use pre_rings::{FrameRef, FrameStore};

/// What is under way.
#[derive(Debug, Drop)]
pub(crate) enum Task {
    /// A whole frame.
    Frame(FrameRef),
    /// A fragment of a frame.
    Fragment(Piece),
    Verify,
    Respond,
    Lldp,
}

/// An mPacket that is under way.
#[derive(Debug, Drop)]
pub(crate) struct Going {
    pub began: u64,
    pub task: Task,
    /// The first tick from which on an express frame waits, once that was told.
    pub waits: Option<u64>,
    ghost began_within: { began ≤ 10 ^ 18 },
    ghost size_least: { 64 ≤ task_size task },
    ghost size_most: { task_size task ≤ GREATEST_FRAME },
}

impl Task {
    /// Its kind, and the place of its mData in its frame.
    pub fn kind(&self) -> (Kind, u16)
        ensures kind { result ≡ task_kind self.now }
        ensures counts { HasCounts result.0 }
    {
        match self {
            Task::Frame(_) | Task::Lldp => (Kind::Express, 0),
            Task::Fragment(piece) => (piece.kind(), piece.from),
            Task::Verify => (Kind::Verify, 0),
            Task::Respond => (Kind::Respond, 0),
        }
    }

    ghost use Rattle.pre_send.specs.Endings.{HoldsTask};
    ghost use Rattle.pre_send.specs.Lendings.{LendsTask, GivesTask};

    /// Its mPacket as it is planned, with its check as sent.
    pub fn packet<'a>(&self, store: &'a FrameStore, other: &'a [u8]) -> (Kind, &'a [u8], [u8; 4])
        requires size { 64 ≤ task_size self.now }
        requires holds { HoldsTask self.now store.now }
        requires other { LendsTask self.now other.now }
        ensures given { GivesTask self.now store.now other.now (record { kind = result.0; mdata = result.1.now; check = result.2 }) }
        ensures whole { IsWhole (record { kind = result.0; mdata = result.1.now; check = result.2 }) }
    {
        match self {
            Task::Frame(frame) => in_one_piece(store.octets(&frame.slot)),
            Task::Fragment(piece) => piece.packet(store),
            Task::Verify => bare(Kind::Verify, other),
            Task::Respond => bare(Kind::Respond, other),
            Task::Lldp => in_one_piece(other),
        }
    }
}

impl Going {
    ghost use Rattle.pre_send.specs.Goings.{GoingTold};

    /// Its octets of mData and check, as they are planned.
    pub fn size(&self) -> u16
        ensures { result ≡ task_size self.now.task }
    {
        match &self.task {
            Task::Frame(frame) => frame.size,
            Task::Fragment(piece) => piece.size(),
            Task::Verify | Task::Respond | Task::Lldp => 64,
        }
    }

    /// The same, where an express frame waits from a tick on: the first such tick fixes the cut.
    pub fn told(self, waits: u64, cost: u64, add_frag: u8) -> Going
        requires cost { 1 ≤ cost }
        requires most { cost ≤ 1000 }
        requires add_frag { add_frag ≤ 3 }
        requires waits { waits ≤ 10 ^ 18 }
        ensures { GoingTold self.waits self result waits cost add_frag }
    {
        if self.waits.is_some() {
            return self;
        }
        let Going {
            began,
            task,
            waits: _,
        } = self;
        Going {
            began,
            task: task_told(task, began, waits, cost, add_frag),
            waits: Some(waits),
        }
    }
}

// The same task, where an express frame waits from a tick on.
fn task_told(task: Task, began: u64, waits: u64, cost: u64, add_frag: u8) -> Task
    requires cost { 1 ≤ cost }
    requires cost_most { cost ≤ 1000 }
    requires add_frag { add_frag ≤ 3 }
    requires waits { waits ≤ 10 ^ 18 }
    requires size { 64 ≤ task_size task }
    requires most { task_size task ≤ GREATEST_FRAME }
    ensures told { TaskTold task result began waits cost add_frag }
    ensures size { 64 ≤ task_size result }
    ensures most { task_size result ≤ GREATEST_FRAME }
{
    match task {
        Task::Fragment(piece) => Task::Fragment(piece.told(began, waits, cost, add_frag)),
        Task::Frame(frame) => Task::Frame(frame),
        Task::Verify => Task::Verify,
        Task::Respond => Task::Respond,
        Task::Lldp => Task::Lldp,
    }
}

// A frame as one express mPacket.
fn in_one_piece(octets: &[u8]) -> (Kind, &[u8], [u8; 4])
    requires { 4 ≤ length octets.now }
    ensures { in_one_piece kind.Express (length octets.now) octets.now ≡ record { kind = result.0; mdata = result.1.now; check = result.2 } }
{
    let (mdata, check) = with_check(octets);
    (Kind::Express, mdata, check)
}

// A verify or respond out of its octets.
fn bare(kind: Kind, octets: &[u8]) -> (Kind, &[u8], [u8; 4])
    requires { octets.now ≡ replicate 60 0 }
    ensures { bare kind ≡ record { kind = result.0; mdata = result.1.now; check = result.2 } }
{
    let mut check = Running::new();
    check.add(octets);
    (kind, octets, check.mcrc())
}
