ghost use Rattle.std.specs.Prelude.{◌≡◌};
ghost use Rattle.pre_history.specs.Plain.{plain, IsEvent};
ghost use Rattle.pre_history.specs.Names.{IsOf};
ghost use Rattle.pre_sim.specs.Parts.{TellsOne};
ghost use Rattle.pre_sim.specs.Telling.{HasCause};

use crate::halts::Halt;
use pre_base::Failed;
use pre_topo::Network;
use pre_trace::{Event, Watcher, events_are_written};

/// Tells the watcher an event of the network.
pub(crate) fn tell<W: Watcher>(net: &Network, watcher: &mut W, event: &Event) -> Result<(), Halt>
    requires kind { IsEvent (plain event.now) }
    requires known { IsOf net.now (plain event.now) }
    ensures one { TellsOne net.now result (W.took watcher.old) (W.took watcher.new) (W.torn watcher.new) (plain event.now) }
    ensures cause { HasCause (W.faults watcher.old) (W.faults watcher.new) result }
    ensures same { W.same watcher.old watcher.new }
{
    events_are_written(net, event);
    match watcher.event(event) {
        Ok(()) => Ok(()),
        Err(Failed) => Err(Halt::Stopped),
    }
}
