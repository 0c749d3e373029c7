ghost use Rattle.std.specs.Prelude.{◌≡◌};
ghost use Rattle.std.specs.List.{flat_map};
ghost use Rattle.pre_base.specs.Faults.{HasCause};
ghost use Rattle.pre_base.specs.Told.{WhereTold};
ghost use Rattle.pre_base.specs.Sinks.{TakesAll};
ghost use Rattle.pre_picture.specs.Escapes.{escape, escaped};
ghost use Rattle.pre_picture.specs.Pieces.{shown, rect, circle, text};

use pre_base::{Failed, Sink, write_all};
use pre_text::put_number;

/// A piece of a picture's text.
#[derive(Clone, Copy, Debug)]
pub enum Piece<'n> {
    /// A number in decimal digits.
    Number(u64),
    /// These octets as they stand.
    Plain(&'static [u8]),
    /// These octets as a text, escaped.
    Text(&'n [u8]),
}

fn put_escape<S: Sink>(sink: &mut S, octet: u8) -> Result<(), Failed>
    ensures octets { WhereTold (S.tells sink.old) (S.tells sink.new) (TakesAll result (escape octet)) }
    ensures cause { HasCause (S.faults sink.old) (S.faults sink.new) result }
{
    if octet == b'&' {
        write_all(sink, b"&amp;")
    } else if octet == b'<' {
        write_all(sink, b"&lt;")
    } else if octet == b'>' {
        write_all(sink, b"&gt;")
    } else if octet == b'"' {
        write_all(sink, b"&quot;")
    } else {
        write_all(sink, &[octet])
    }
}

fn put_escaped<S: Sink>(sink: &mut S, octets: &[u8]) -> Result<(), Failed>
    ensures octets { WhereTold (S.tells sink.old) (S.tells sink.new) (TakesAll result (escaped octets.now)) }
    ensures cause { HasCause (S.faults sink.old) (S.faults sink.new) result }
{
    for octet in octets {
        put_escape(sink, *octet)?;
    }
    Ok(())
}

fn put_piece<S: Sink>(sink: &mut S, piece: &Piece) -> Result<(), Failed>
    ensures octets { WhereTold (S.tells sink.old) (S.tells sink.new) (TakesAll result (shown piece.now)) }
    ensures cause { HasCause (S.faults sink.old) (S.faults sink.new) result }
{
    match *piece {
        Piece::Plain(octets) => write_all(sink, octets),
        Piece::Text(octets) => put_escaped(sink, octets),
        Piece::Number(n) => put_number(sink, n),
    }
}

/// Writes pieces, one behind another.
pub fn put_pieces<S: Sink>(sink: &mut S, pieces: &[Piece]) -> Result<(), Failed>
    ensures octets { WhereTold (S.tells sink.old) (S.tells sink.new) (TakesAll result (flat_map shown pieces.now)) }
    ensures cause { HasCause (S.faults sink.old) (S.faults sink.new) result }
{
    for piece in pieces {
        put_piece(sink, piece)?;
    }
    Ok(())
}

/// Where a rectangle is, and how large.
#[derive(Clone, Copy, Debug)]
pub struct Place {
    pub x: u64,
    pub y: u64,
    pub width: u64,
    pub height: u64,
}

/// Writes a rectangle.
#[tactic(auto, unfolding(crate::specs::Pieces::rect))]
pub fn put_rect<S: Sink>(sink: &mut S, class: &'static [u8], at: Place) -> Result<(), Failed>
    ensures octets { WhereTold (S.tells sink.old) (S.tells sink.new) (TakesAll result (rect class.now at.x at.y at.width at.height)) }
    ensures cause { HasCause (S.faults sink.old) (S.faults sink.new) result }
{
    let pieces = [
        Piece::Plain(b"<rect class=\""),
        Piece::Plain(class),
        Piece::Plain(b"\" x=\""),
        Piece::Number(at.x),
        Piece::Plain(b"\" y=\""),
        Piece::Number(at.y),
        Piece::Plain(b"\" width=\""),
        Piece::Number(at.width),
        Piece::Plain(b"\" height=\""),
        Piece::Number(at.height),
        Piece::Plain(b"\"/>\n"),
    ];
    put_pieces(sink, &pieces)
}

/// Writes a circle.
#[tactic(auto, unfolding(crate::specs::Pieces::circle))]
pub fn put_circle<S: Sink>(
    sink: &mut S,
    class: &'static [u8],
    x: u64,
    y: u64,
    radius: u64,
) -> Result<(), Failed>
    ensures octets { WhereTold (S.tells sink.old) (S.tells sink.new) (TakesAll result (circle class.now x y radius)) }
    ensures cause { HasCause (S.faults sink.old) (S.faults sink.new) result }
{
    let pieces = [
        Piece::Plain(b"<circle class=\""),
        Piece::Plain(class),
        Piece::Plain(b"\" cx=\""),
        Piece::Number(x),
        Piece::Plain(b"\" cy=\""),
        Piece::Number(y),
        Piece::Plain(b"\" r=\""),
        Piece::Number(radius),
        Piece::Plain(b"\"/>\n"),
    ];
    put_pieces(sink, &pieces)
}

/// A text in three parts.
#[derive(Clone, Copy, Debug)]
pub struct Label<'n> {
    pub first: Piece<'n>,
    pub middle: Piece<'n>,
    pub last: Piece<'n>,
}

/// Writes a text, at the point at which its class lets it begin, end or have its middle.
#[tactic(auto, unfolding(crate::specs::Pieces::text))]
pub fn put_text<S: Sink>(
    sink: &mut S,
    class: &'static [u8],
    x: u64,
    y: u64,
    label: &Label,
) -> Result<(), Failed>
    ensures octets { WhereTold (S.tells sink.old) (S.tells sink.new) (TakesAll result (text class.now x y (shown label.now.first) (shown label.now.middle) (shown label.now.last))) }
    ensures cause { HasCause (S.faults sink.old) (S.faults sink.new) result }
{
    let pieces = [
        Piece::Plain(b"<text class=\""),
        Piece::Plain(class),
        Piece::Plain(b"\" x=\""),
        Piece::Number(x),
        Piece::Plain(b"\" y=\""),
        Piece::Number(y),
        Piece::Plain(b"\">"),
        label.first,
        label.middle,
        label.last,
        Piece::Plain(b"</text>\n"),
    ];
    put_pieces(sink, &pieces)
}
