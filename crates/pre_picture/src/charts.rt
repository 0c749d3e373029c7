ghost use Rattle.std.specs.Prelude.{◌≡◌, ◌≤◌, []};
ghost use Rattle.pre_base.specs.Faults.{HasCause};
ghost use Rattle.pre_base.specs.Told.{WhereTold};
ghost use Rattle.pre_base.specs.Sinks.{TakesAll};
ghost use Rattle.pre_picture.specs.Pieces.{shown};
ghost use Rattle.pre_picture.specs.Charts.{head, tail, text_of, grid_line, axis_label, axis_mark, axis_tick, axis};

use crate::pieces::{Label, Piece, Place, put_pieces, put_rect, put_text};
use crate::scales::Scale;
use pre_base::{Failed, Sink, write_all};

/// A label of one number or name.
pub(crate) fn label<'n>(piece: Piece<'n>) -> Label<'n>
    ensures first { result.first ≡ piece.entry }
    ensures middle { shown result.middle ≡ [] }
    ensures last { shown result.last ≡ [] }
{
    Label {
        first: piece,
        middle: Piece::Plain(b""),
        last: Piece::Plain(b""),
    }
}

/// Writes a text of one part.
pub(crate) fn put_word<S: Sink>(
    sink: &mut S,
    class: &'static [u8],
    x: u64,
    y: u64,
    word: Piece,
) -> Result<(), Failed>
    ensures octets { WhereTold (S.tells sink.old) (S.tells sink.new) (TakesAll result (text_of class.now x y (shown word.entry))) }
    ensures cause { HasCause (S.faults sink.old) (S.faults sink.new) result }
{
    put_text(sink, class, x, y, &label(word))
}

/// Writes the front of a picture of this height, with the forms of its classes.
#[tactic(auto, unfolding(crate::specs::Charts::head))]
pub(crate) fn put_head<S: Sink>(sink: &mut S, height: u64) -> Result<(), Failed>
    ensures octets { WhereTold (S.tells sink.old) (S.tells sink.new) (TakesAll result (head height)) }
    ensures cause { HasCause (S.faults sink.old) (S.faults sink.new) result }
{
    let pieces = [
        Piece::Plain(
            b"<svg xmlns=\"http://www.w3.org/2000/svg\" font-family=\"DejaVu Sans, Verdana, Arial, sans-serif\" font-size=\"140\" viewBox=\"0 0 10000 ",
        ),
        Piece::Number(height),
        Piece::Plain(
            b"\">\n<style>.paper{fill:#fff}.grid{fill:#d5d5d5}.base{fill:#888}.size{fill:#c00000}\n",
        ),
        Piece::Plain(
            b".name,.right{text-anchor:end}.tick,.on,.lost,.nothing{text-anchor:middle}.tick,.note,.right{fill:#333;font-size:125px}\n",
        ),
        Piece::Plain(
            b".on{font-size:120px;paint-order:stroke;stroke:#fff;stroke-width:34px}.express{fill:#1f4e79}\n",
        ),
        Piece::Plain(
            b".part{fill:url(#hatch);stroke:#9c4a00;stroke-width:10}.ask{fill:url(#dots);stroke:#5b2a86;stroke-width:10}\n",
        ),
        Piece::Plain(
            b".lldp{fill:#e3f1de;stroke:#2f6b2f;stroke-width:12;stroke-dasharray:36 24}.here{fill:#fff;stroke:#000;stroke-width:22}\n",
        ),
        Piece::Plain(
            b".lost,.nothing{font-weight:bold;font-size:250px;fill:#c00000;paint-order:stroke;stroke:#fff;stroke-width:40px}\n",
        ),
        Piece::Plain(
            b".bound{fill:#c9d9ea;stroke:#1f4e79;stroke-width:10}.delay{fill:#1f4e79;fill-opacity:.5}.queue{fill:#1f4e79;stroke:#1f4e79;stroke-width:8}\n",
        ),
        Piece::Plain(
            b"</style>\n<defs><pattern id=\"hatch\" width=\"60\" height=\"60\" patternUnits=\"userSpaceOnUse\" patternTransform=\"rotate(45)\">\n",
        ),
        Piece::Plain(
            b"<path fill=\"#ffe3c2\" d=\"M0 0h60v60H0z\"/><path fill=\"#e08a2e\" d=\"M0 0h18v60H0z\"/></pattern>\n",
        ),
        Piece::Plain(
            b"<pattern id=\"dots\" width=\"48\" height=\"48\" patternUnits=\"userSpaceOnUse\"><path fill=\"#efe4f7\" d=\"M0 0h48v48H0z\"/>\n",
        ),
        Piece::Plain(
            b"<path fill=\"#5b2a86\" d=\"M0 0h20v20H0z\"/></pattern></defs>\n<rect class=\"paper\" width=\"100%\" height=\"100%\"/>\n",
        ),
    ];
    put_pieces(sink, &pieces)
}

/// Writes the end of a picture.
pub(crate) fn put_tail<S: Sink>(sink: &mut S) -> Result<(), Failed>
    ensures octets { WhereTold (S.tells sink.old) (S.tells sink.new) (TakesAll result tail) }
    ensures cause { HasCause (S.faults sink.old) (S.faults sink.new) result }
{
    write_all(sink, b"</svg>\n")
}

/// The number at mark i of eleven, from 0.
fn axis_tick(scale: &Scale, mark: u32) -> u64
    requires { mark ≤ 10 }
    ensures { result ≡ axis_tick scale.now mark }
{
    let part = u128::from(scale.to.saturating_sub(scale.from)) * u128::from(mark) / 10;
    scale.from.saturating_add(part as u64)
}

// Writes the number of every second mark, so that they have room.
fn put_axis_label<S: Sink>(sink: &mut S, scale: &Scale, top: u64, mark: u32) -> Result<(), Failed>
    requires mark { mark ≤ 10 }
    requires top { 100 ≤ top }
    ensures octets { WhereTold (S.tells sink.old) (S.tells sink.new) (TakesAll result (axis_label scale.now top mark)) }
    ensures cause { HasCause (S.faults sink.old) (S.faults sink.new) result }
{
    if mark % 2 == 0 {
        let tick = axis_tick(scale, mark);
        put_word(
            sink,
            b"tick",
            scale.place(tick),
            top - 60,
            Piece::Number(tick),
        )
    } else {
        Ok(())
    }
}

fn put_grid_line<S: Sink>(
    sink: &mut S,
    scale: &Scale,
    top: u64,
    height: u64,
    mark: u32,
) -> Result<(), Failed>
    requires { mark ≤ 10 }
    ensures octets { WhereTold (S.tells sink.old) (S.tells sink.new) (TakesAll result (grid_line scale.now top height mark)) }
    ensures cause { HasCause (S.faults sink.old) (S.faults sink.new) result }
{
    let line = Place {
        x: scale.place(axis_tick(scale, mark)),
        y: top,
        width: 8,
        height,
    };
    put_rect(sink, b"grid", line)
}

#[tactic(auto, unfolding(crate::specs::Charts::axis_mark))]
fn put_axis_mark<S: Sink>(
    sink: &mut S,
    scale: &Scale,
    top: u64,
    height: u64,
    mark: u32,
) -> Result<(), Failed>
    requires mark { mark ≤ 10 }
    requires top { 100 ≤ top }
    ensures octets { WhereTold (S.tells sink.old) (S.tells sink.new) (TakesAll result (axis_mark scale.now top height mark)) }
    ensures cause { HasCause (S.faults sink.old) (S.faults sink.new) result }
{
    put_grid_line(sink, scale, top, height, mark)?;
    put_axis_label(sink, scale, top, mark)
}

/// Writes eleven lines through a chart at equal distances on its scale, and the numbers of every second one along the top.
#[tactic(auto, unfolding(crate::specs::Charts::axis))]
pub(crate) fn put_axis<S: Sink>(
    sink: &mut S,
    scale: &Scale,
    top: u64,
    height: u64,
) -> Result<(), Failed>
    requires { 100 ≤ top }
    ensures octets { WhereTold (S.tells sink.old) (S.tells sink.new) (TakesAll result (axis scale.now top height)) }
    ensures cause { HasCause (S.faults sink.old) (S.faults sink.new) result }
{
    for mark in 0..11u32 {
        put_axis_mark(sink, scale, top, height, mark)?;
    }
    Ok(())
}
