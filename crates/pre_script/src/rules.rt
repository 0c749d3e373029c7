ghost use Rattle.std.specs.Prelude.{◌≡◌};
ghost use Rattle.std.specs.List.{list_any};
ghost use Rattle.pre_script.specs.Rules.{horizon, is_negotiate, negotiates};
ghost use Rattle.pre_script.specs.Saying.{negotiates_at};

use pre_base::ArcId;
use pre_topo::{Arc, Mode, Network};

pub(crate) const WORD: u8 = 1;

pub(crate) const NUMBER: u8 = 2;

pub(crate) const NAME: u8 = 3;

pub(crate) const ORDER: u8 = 4;

pub(crate) const SIZE: u8 = 5;

pub(crate) const MODE: u8 = 6;

pub(crate) const END: u8 = 7;

pub(crate) const AFTER_END: u8 = 8;

pub(crate) const COUNT: u8 = 9;

pub(crate) const HORIZON: u8 = 10;

pub(crate) const MAX_SENDS: usize = 100_000;

pub(crate) const MAX_SETS: usize = 10_000;

pub(crate) const MAX_LOSSES: usize = 10_000;

pub(crate) const MAX_DAMAGES: usize = 10_000;

/// The octets of a damage.
pub(crate) const MAX_DAMAGED: usize = 32;

fn is_negotiating(mode: Mode) -> bool
    ensures { result ≡ is_negotiate mode }
{
    match mode {
        Mode::Negotiate => true,
        Mode::Off | Mode::On => false,
    }
}

fn has_negotiating(arcs: &[Arc]) -> bool
    ensures { result ≡ list_any negotiates arcs.now }
{
    arcs.iter().any(|arc| is_negotiating(arc.mode))
}

/// The last tick that a script may go to.
pub(crate) fn last_tick(net: &Network) -> u64
    ensures { result ≡ horizon net.now }
{
    let interval = net.timing.interval;
    if has_negotiating(net.arcs.as_slice()) {
        interval.saturating_mul(10_000).min(4_000_000_000_000)
    } else {
        4_000_000_000_000
    }
}

/// Whether the arc negotiates.
pub(crate) fn is_negotiating_at(net: &Network, arc: ArcId) -> bool
    ensures { result ≡ negotiates_at net.now arc.0 }
{
    match net.arcs.as_slice().get(arc.0 as usize) {
        Some(arc) => is_negotiating(arc.mode),
        None => false,
    }
}
