ghost use Rattle.std.specs.Prelude.{◌≡◌, ◌<◌, ◌≤◌, ◌^◌, length, map, IfOk, OnOk};
ghost use Rattle.std.specs.List.{range_with_len};
ghost use Rattle.pre_plant.specs.Lists.{list_of};
ghost use Rattle.pre_plant.specs.Scripts.{loss, damage, IsPlantScript};

use crate::draws::draw;
use crate::sends::ordered_sends;
use pre_base::{ArcId, Items, Send, Tick};
use pre_script::{Damage, Loss, Script, SendLine};
use std::alloc::{AllocError, Global};

/// The last tick.
const UNTIL: u64 = 10_000_000;

/// The arcs of the network.
const ARCS: u64 = 102;

/// How many losses there are.
const LOSSES: usize = 20;

/// The place of their first draw.
const LOSS_DRAWS: usize = 240;

/// How many damages there are.
const DAMAGES: usize = 20;

/// The place of their first draw.
const DAMAGE_DRAWS: usize = 280;

/// How many ordinals there are to be drawn from.
const ORDINALS: u64 = 100;

/// The least ordinal of a damage.
const LEAST_ORDINAL: u64 = 8;

/// The least offset of a damage.
const LEAST_OFFSET: u64 = 8;

/// How many offsets there are to be drawn from.
const OFFSETS: u64 = 32;

/// The octets that a damage may have: all but 0.
const OCTETS: u64 = 255;

/// The sends as the first lines of a script.
fn send_lines(alloc: Global, sends: &[Send]) -> Result<Items<SendLine>, AllocError>
    ensures sends { IfOk result (λ lines. map (λ s. s.send) lines ≡ sends.now) }
    ensures lines { IfOk result (λ lines. map (λ s. s.line) lines ≡ range_with_len 1 (length lines)) }
{
    let mut lines = Items::new(alloc);
    let mut line: u64 = 0;
    for send in sends {
        line += 1;
        lines.push(SendLine { send: *send, line })?;
    }
    Ok(lines)
}

fn loss(draws: &[u64], place: usize) -> Loss
    requires few { place < 20 }
    requires drawn { length draws.now ≡ 360 }
    ensures { result ≡ loss draws.now place }
{
    let from = LOSS_DRAWS + 2 * place;
    Loss {
        arc: ArcId(draw(draws, from, ARCS) as u16),
        ordinal: draw(draws, from + 1, ORDINALS),
    }
}

#[tactic(auto, using(crate::proofs::ListLaws::list_of_none, crate::proofs::ListLaws::list_of_more))]
fn losses(alloc: Global, draws: &[u64]) -> Result<Items<Loss>, AllocError>
    requires { length draws.now ≡ 360 }
    ensures { IfOk result (λ losses. losses ≡ list_of 20 (loss draws.now)) }
{
    let mut losses = Items::new(alloc);
    for place in 0..LOSSES {
        losses.push(loss(draws, place))?;
    }
    Ok(losses)
}

fn damage(alloc: Global, draws: &[u64], place: usize) -> Result<Damage, AllocError>
    requires few { place < 20 }
    requires drawn { length draws.now ≡ 360 }
    ensures { IfOk result (λ d. d ≡ damage draws.now place) }
{
    let from = DAMAGE_DRAWS + 4 * place;
    let octet = 1 + draw(draws, from + 3, OCTETS) as u8;
    Ok(Damage {
        arc: ArcId(draw(draws, from, ARCS) as u16),
        ordinal: LEAST_ORDINAL + draw(draws, from + 1, ORDINALS),
        offset: LEAST_OFFSET + draw(draws, from + 2, OFFSETS),
        octets: Items::from_vec([octet].to_vec(alloc)?),
    })
}

#[tactic(auto, using(crate::proofs::ListLaws::list_of_none, crate::proofs::ListLaws::list_of_more))]
fn damages(alloc: Global, draws: &[u64]) -> Result<Items<Damage>, AllocError>
    requires { length draws.now ≡ 360 }
    ensures { IfOk result (λ damages. damages ≡ list_of 20 (damage draws.now)) }
{
    let mut damages = Items::new(alloc);
    for place in 0..DAMAGES {
        damages.push(damage(alloc, draws, place)?)?;
    }
    Ok(damages)
}

/// The script of a plant, by its draws.
pub(crate) fn plant_script(alloc: Global, draws: &[u64]) -> Result<Script, AllocError>
    requires { length draws.now ≡ 360 }
    ensures { IfOk result (IsPlantScript draws.now) }
{
    let sends = ordered_sends(alloc, draws)?;
    Ok(Script {
        sends: send_lines(alloc, sends.as_slice())?,
        sets: Items::new(alloc),
        losses: losses(alloc, draws)?,
        damages: damages(alloc, draws)?,
        until: Tick(UNTIL),
    })
}
