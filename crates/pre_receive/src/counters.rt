ghost use Rattle.std.specs.Prelude.{◌≡◌};
ghost use Rattle.pre_receive.specs.Counts.{is_frame, is_nothing, is_ass_error, is_smd_error, is_ass_ok, is_frag_rx, raised, Raises};

use crate::outcomes::Outcome;
use pre_mpacket::Kind;

/// The counters of a receiver (IEEE 802.3, 30.14.1). Each stays at the last value of u64.
#[derive(Clone, Copy, Debug, PartialEq, Eq)]
pub struct Counters {
    /// Starts and continuations that discarded an open frame, and starts that gave neither a frame nor a part.
    pub frame_ass_error: u64,
    /// Arrivals that spell no mPacket, and continuations that came while no frame was open.
    pub frame_smd_error: u64,
    /// Starts and continuations that gave a frame.
    pub frame_ass_ok: u64,
    /// Continuations that were accepted.
    pub frag_count_rx: u64,
}

/// The counters after an arrival of this kind, where it spelled an mPacket.
pub(crate) fn counted(
    counters: Counters,
    kind: Option<Kind>,
    was_open: bool,
    outcome: Outcome,
) -> Counters
    ensures { Raises kind was_open outcome counters result }
{
    Counters {
        frame_ass_error: raised(
            counters.frame_ass_error,
            is_ass_error(kind, was_open, outcome),
        ),
        frame_smd_error: raised(counters.frame_smd_error, is_smd_error(kind, was_open)),
        frame_ass_ok: raised(counters.frame_ass_ok, is_ass_ok(kind, outcome)),
        frag_count_rx: raised(counters.frag_count_rx, is_frag_rx(kind, outcome)),
    }
}

// The counter, raised by one where the test says so.
fn raised(counter: u64, by: bool) -> u64
    ensures { result ≡ raised counter by }
{
    if by {
        counter.saturating_add(1)
    } else {
        counter
    }
}

fn is_ass_error(kind: Option<Kind>, was_open: bool, outcome: Outcome) -> bool
    ensures { result ≡ is_ass_error kind was_open outcome }
{
    match kind {
        Some(Kind::Start(_)) => was_open || is_nothing(outcome),
        Some(Kind::Continue(_, _)) => was_open && is_nothing(outcome),
        _ => false,
    }
}

fn is_smd_error(kind: Option<Kind>, was_open: bool) -> bool
    ensures { result ≡ is_smd_error kind was_open }
{
    match kind {
        None => true,
        Some(Kind::Continue(_, _)) => !was_open,
        Some(_) => false,
    }
}

fn is_ass_ok(kind: Option<Kind>, outcome: Outcome) -> bool
    ensures { result ≡ is_ass_ok kind outcome }
{
    match kind {
        Some(Kind::Start(_)) | Some(Kind::Continue(_, _)) => is_frame(outcome),
        _ => false,
    }
}

fn is_frag_rx(kind: Option<Kind>, outcome: Outcome) -> bool
    ensures { result ≡ is_frag_rx kind outcome }
{
    match kind {
        Some(Kind::Continue(_, _)) => !is_nothing(outcome),
        _ => false,
    }
}

fn is_frame(outcome: Outcome) -> bool
    ensures { result ≡ is_frame outcome }
{
    matches!(outcome, Outcome::Express | Outcome::Joined)
}

fn is_nothing(outcome: Outcome) -> bool
    ensures { result ≡ is_nothing outcome }
{
    matches!(outcome, Outcome::Nothing(_))
}
