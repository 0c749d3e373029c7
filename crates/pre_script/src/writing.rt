ghost use Rattle.std.specs.Prelude.{◌≡◌, IfOk, nat_le, position};
ghost use Rattle.pre_base.specs.Faults.{HasCause};
ghost use Rattle.pre_base.specs.Told.{WhereTold};
ghost use Rattle.pre_base.specs.Sinks.{TakesAll};
ghost use Rattle.pre_text.specs.Spelled.{spelled};
ghost use Rattle.pre_topo.specs.Named.{arc_name};
ghost use Rattle.pre_script.specs.Text.{damage_line, damage_lines, loss_line, loss_lines, row_name, script_text, send_line, set_line, set_lines};
ghost use Rattle.pre_script.specs.Text.{setting_word, sets_before, sets_since, timed_lines, until_line};

use crate::{Damage, Loss, Script, SendLine, SetLine, Setting};
use pre_base::{ArcId, Failed, Sink, StreamId, Tick};
use pre_streams::Streams;
use pre_text::{Word, put_line};
use pre_topo::Network;

fn arc_word(net: &Network, arc: ArcId) -> Word<'_, 'static>
    ensures { spelled result ≡ arc_name net.now arc.0 }
{
    match net.arcs.as_slice().get(arc.0 as usize) {
        Some(arc) => Word::Ends(net.node_name(arc.from), net.node_name(arc.to)),
        None => Word::Octets(b""),
    }
}

fn row_word(streams: &Streams, stream: StreamId) -> Word<'_, 'static>
    ensures { spelled result ≡ row_name streams.now stream.0 }
{
    match streams.rows.as_slice().get(stream.0 as usize) {
        Some(row) => Word::Octets(row.name.as_str().as_bytes()),
        None => Word::Octets(b""),
    }
}

fn setting_word(value: Setting) -> Word<'static, 'static>
    ensures { spelled result ≡ setting_word value }
{
    match value {
        Setting::On => Word::Octets(b"on"),
        Setting::Off => Word::Octets(b"off"),
        Setting::Gone => Word::Octets(b"gone"),
    }
}

fn put_send<S: Sink>(streams: &Streams, line: &SendLine, sink: &mut S) -> Result<(), Failed>
    ensures octets { WhereTold (S.tells sink.old) (S.tells sink.new) (TakesAll result (send_line streams.now line.now)) }
    ensures cause { HasCause (S.faults sink.old) (S.faults sink.new) result }
{
    let words = [
        Word::Number(line.send.tick.0),
        row_word(streams, line.send.stream),
        Word::Number(u64::from(line.send.size)),
    ];
    put_line(sink, &Word::Octets(b"send"), &words)
}

fn put_set<S: Sink>(net: &Network, line: &SetLine, sink: &mut S) -> Result<(), Failed>
    ensures octets { WhereTold (S.tells sink.old) (S.tells sink.new) (TakesAll result (set_line net.now line.now)) }
    ensures cause { HasCause (S.faults sink.old) (S.faults sink.new) result }
{
    let words = [
        Word::Number(line.tick.0),
        arc_word(net, line.arc),
        setting_word(line.value),
    ];
    put_line(sink, &Word::Octets(b"set"), &words)
}

fn put_sets<S: Sink>(net: &Network, sets: &[SetLine], sink: &mut S) -> Result<(), Failed>
    ensures octets { WhereTold (S.tells sink.old) (S.tells sink.new) (TakesAll result (set_lines net.now sets.now)) }
    ensures cause { HasCause (S.faults sink.old) (S.faults sink.new) result }
{
    for line in sets {
        put_set(net, line, sink)?;
    }
    Ok(())
}

fn first_since(sets: &[SetLine], tick: Tick) -> Option<usize>
    ensures { result ≡ position (λ s. nat_le tick.0 s.tick.0) sets.now }
{
    sets.iter().position(|line| line.tick.0 >= tick.0)
}

/// The first sets, as far as they are before the tick, and the others.
fn cut_at_tick(sets: &[SetLine], tick: Tick) -> (&[SetLine], &[SetLine])
    ensures { (result.0.now ≡ sets_before tick.0 sets.now) × (result.1.now ≡ sets_since tick.0 sets.now) }
{
    match first_since(sets, tick) {
        Some(count) => sets.split_at(count),
        None => sets.split_at(sets.len()),
    }
}

/// Writes the sets before the tick, and answers the others.
fn put_sets_before<'a, S: Sink>(
    net: &Network,
    sets: &'a [SetLine],
    tick: Tick,
    sink: &mut S,
) -> Result<&'a [SetLine], Failed>
    ensures octets { WhereTold (S.tells sink.old) (S.tells sink.new) (TakesAll result (set_lines net.now (sets_before tick.0 sets.now))) }
    ensures rest { IfOk result (λ rest. rest.now ≡ sets_since tick.0 sets.now) }
    ensures cause { HasCause (S.faults sink.old) (S.faults sink.new) result }
{
    let (before, rest) = cut_at_tick(sets, tick);
    put_sets(net, before, sink)?;
    Ok(rest)
}

/// Writes sends and sets by their ticks.
fn put_timed<S: Sink>(
    net: &Network,
    streams: &Streams,
    sends: &[SendLine],
    sets: &[SetLine],
    sink: &mut S,
) -> Result<(), Failed>
    ensures octets { WhereTold (S.tells sink.old) (S.tells sink.new) (TakesAll result (timed_lines net.now streams.now sends.now sets.now)) }
    ensures cause { HasCause (S.faults sink.old) (S.faults sink.new) result }
{
    let mut rest = sets;
    for line in sends {
        rest = put_sets_before(net, rest, line.send.tick, sink)?;
        put_send(streams, line, sink)?;
    }
    put_sets(net, rest, sink)
}

fn put_loss<S: Sink>(net: &Network, loss: &Loss, sink: &mut S) -> Result<(), Failed>
    ensures octets { WhereTold (S.tells sink.old) (S.tells sink.new) (TakesAll result (loss_line net.now loss.now)) }
    ensures cause { HasCause (S.faults sink.old) (S.faults sink.new) result }
{
    let words = [arc_word(net, loss.arc), Word::Number(loss.ordinal)];
    put_line(sink, &Word::Octets(b"lose"), &words)
}

fn put_losses<S: Sink>(net: &Network, losses: &[Loss], sink: &mut S) -> Result<(), Failed>
    ensures octets { WhereTold (S.tells sink.old) (S.tells sink.new) (TakesAll result (loss_lines net.now losses.now)) }
    ensures cause { HasCause (S.faults sink.old) (S.faults sink.new) result }
{
    for loss in losses {
        put_loss(net, loss, sink)?;
    }
    Ok(())
}

fn put_damage<S: Sink>(net: &Network, damage: &Damage, sink: &mut S) -> Result<(), Failed>
    ensures octets { WhereTold (S.tells sink.old) (S.tells sink.new) (TakesAll result (damage_line net.now damage.now)) }
    ensures cause { HasCause (S.faults sink.old) (S.faults sink.new) result }
{
    let words = [
        arc_word(net, damage.arc),
        Word::Number(damage.ordinal),
        Word::Number(damage.offset),
        Word::Hex(damage.octets.as_slice()),
    ];
    put_line(sink, &Word::Octets(b"damage"), &words)
}

fn put_damages<S: Sink>(net: &Network, damages: &[Damage], sink: &mut S) -> Result<(), Failed>
    ensures octets { WhereTold (S.tells sink.old) (S.tells sink.new) (TakesAll result (damage_lines net.now damages.now)) }
    ensures cause { HasCause (S.faults sink.old) (S.faults sink.new) result }
{
    for damage in damages {
        put_damage(net, damage, sink)?;
    }
    Ok(())
}

fn put_until<S: Sink>(tick: Tick, sink: &mut S) -> Result<(), Failed>
    ensures octets { WhereTold (S.tells sink.old) (S.tells sink.new) (TakesAll result (until_line tick)) }
    ensures cause { HasCause (S.faults sink.old) (S.faults sink.new) result }
{
    put_line(sink, &Word::Octets(b"until"), &[Word::Number(tick.0)])
}

/// Writes a script as a text that `read_script` reads as the same script, but for the numbers of the lines
/// (`script_reads_back`): sends and sets by their ticks, and behind them losses, damages and `until`.
///
/// # Errors
///
/// `Failed` only where the sink failed, which then took a front of the text.
pub fn put_script<S: Sink>(
    script: &Script,
    net: &Network,
    streams: &Streams,
    sink: &mut S,
) -> Result<(), Failed>
    ensures octets { WhereTold (S.tells sink.old) (S.tells sink.new) (TakesAll result (script_text net.now streams.now script.now)) }
    ensures cause { HasCause (S.faults sink.old) (S.faults sink.new) result }
{
    put_timed(
        net,
        streams,
        script.sends.as_slice(),
        script.sets.as_slice(),
        sink,
    )?;
    put_losses(net, script.losses.as_slice(), sink)?;
    put_damages(net, script.damages.as_slice(), sink)?;
    put_until(script.until, sink)
}
