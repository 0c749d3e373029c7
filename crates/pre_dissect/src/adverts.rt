ghost use Rattle.std.specs.Prelude.{◌≡◌, ◌↔◌, ◌<◌, length, IsTrue};
ghost use Rattle.pre_history.specs.declared.events.What.TheVariants as names;
ghost use Rattle.pre_history.specs.Queries.{SettingOf};
ghost use Rattle.pre_history.specs.Octets as octets;
ghost use Rattle.pre_history.specs.Scenario.{Scenario};
ghost use Rattle.pre_incoming.specs.Inputs.{scenario_of};
ghost use Rattle.pre_dissect.specs.Sendings.{advert_frame};

use pre_base::{ArcId, Tick};
use pre_history::What;
use pre_incoming::Inputs;
use pre_lldp::{Advert, write_lldp};
use pre_script::{Script, Setting};

// What the arc is set to at a tick: the value of its last `set` line up to then.
fn setting_of(script: &Script, arc: ArcId, tick: Tick) -> Setting
    ensures { (w : Scenario) → w.script ≡ script.now → result ≡ SettingOf w arc.0 tick.0 }
{
    let mut setting = Setting::On;
    for line in script.sets.as_slice() {
        if line.arc == arc && line.tick.0 <= tick.0 {
            setting = line.value;
        }
    }
    setting
}

fn is_on(setting: Setting) -> bool
    ensures { result ≡ octets.is_on setting }
{
    match setting {
        Setting::On => true,
        Setting::Off | Setting::Gone => false,
    }
}

// The time to live, in units, under a setting.
fn ttl_under(setting: Setting, ttl: u16) -> u16
    ensures { (w : Scenario) → w.net.timing.ttl ≡ ttl → result ≡ octets.ttl_under w setting }
{
    match setting {
        Setting::Gone => 0,
        Setting::On | Setting::Off => ttl,
    }
}

/// Whether an mPacket carries an LLDP frame.
pub(crate) fn is_lldp(what: What) -> bool
    ensures { IsTrue result ↔ what ≡ names.Lldp }
{
    match what {
        What::Lldp => true,
        What::Frame(_) | What::Nothing => false,
    }
}

/// The LLDP frame that begins on an arc at a tick, by whether the arc is active then; none where there is no such arc.
pub(crate) fn advert_at(inputs: &Inputs, arc: ArcId, tick: Tick, active: bool) -> [u8; 64]
    ensures { arc.0 < length inputs.now.net.now.arcs → result ≡ advert_frame (scenario_of inputs.now) arc.0 tick.0 active }
{
    let mut frame = [0; 64];
    let Some(link) = inputs.net.arcs.as_slice().get(usize::from(arc.0)) else {
        return frame;
    };
    let setting = setting_of(inputs.script, arc, tick);
    let advert = Advert {
        enabled: is_on(setting),
        active,
        add_frag: link.add_frag,
        ttl: ttl_under(setting, inputs.net.timing.ttl as u16),
    };
    write_lldp(&advert, link.from, arc, &mut frame);
    frame
}
