ghost use Rattle.std.specs.Prelude.{◌≡◌};
ghost use Rattle.pre_history.specs.Plain.{plain, IsEvent};
ghost use Rattle.pre_dissect.specs.Sendings.{IsChange};

use crate::newest::{Ending, Newest};
use pre_base::{ArcId, Tick};
use pre_history::Event;

/// What an event tells of one arc.
#[derive(Clone, Copy, Debug)]
pub(crate) enum Change {
    /// Nothing that is needed.
    Nothing,
    /// An mPacket began.
    Begun { tick: Tick, newest: Newest },
    /// The arc became active, or ceased to be.
    Active { value: bool },
    /// The newest mPacket ended.
    Ended { ending: Ending },
}

/// What the event tells of the arc.
pub(crate) fn change_of(e: &Event, watched: ArcId) -> Change
    requires { IsEvent (plain e.now) }
    ensures { IsChange watched.0 (plain e.now) result }
{
    match *e {
        Event::Begin {
            tick,
            arc,
            ord,
            kind,
            what,
            from,
        } if arc == watched => Change::Begun {
            tick,
            newest: Newest {
                ord,
                kind,
                what,
                from,
            },
        },
        Event::Active { arc, value, .. } if arc == watched => Change::Active { value },
        Event::Ended {
            tick,
            arc,
            size,
            check,
            ..
        } if arc == watched => Change::Ended {
            ending: Ending { tick, size, check },
        },
        Event::Begin { .. } => Change::Nothing,
        Event::Active { .. } => Change::Nothing,
        Event::Ended { .. } => Change::Nothing,
        Event::Set { .. } => Change::Nothing,
        Event::Arrive { .. } => Change::Nothing,
        Event::Deliver { .. } => Change::Nothing,
        Event::Enter { .. } => Change::Nothing,
        Event::Dropped { .. } => Change::Nothing,
        Event::Count { .. } => Change::Nothing,
        Event::Finish { .. } => Change::Nothing,
    }
}
