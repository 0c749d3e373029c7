ghost use Rattle.std.specs.Prelude.{◌≡◌, ◌<◌, ◌≤◌, ◌*◌, length, take, map};
ghost use Rattle.std.specs.Fmt.{decimal};
ghost use Rattle.pre_base.specs.Faults.{HasCause};
ghost use Rattle.pre_base.specs.Told.{WhereTold};
ghost use Rattle.pre_base.specs.Sinks.{TakesAll};
ghost use Rattle.pre_text.specs.Writing.{hex, hex_digit, line_of};
ghost use Rattle.pre_text.specs.Spelled.{spelled};

use itoa::Buffer;
use pre_base::{Failed, Sink, write_all};

/// Writes a number in decimal digits.
pub fn put_number<S: Sink>(sink: &mut S, n: u64) -> Result<(), Failed>
    ensures octets { WhereTold (S.tells sink.old) (S.tells sink.new) (TakesAll result (decimal n)) }
    ensures cause { HasCause (S.faults sink.old) (S.faults sink.new) result }
{
    let mut buffer = Buffer::new();
    write_all(sink, buffer.format(n).as_bytes())
}

fn digit_of(d: u8) -> u8
    requires { d < 16 }
    ensures { result ≡ hex_digit d }
{
    if d < 10 { b'0' + d } else { b'a' - 10 + d }
}

/// Writes a pair of lower-case hexadecimal digits for each octet.
pub fn put_hex<S: Sink>(sink: &mut S, octets: &[u8]) -> Result<(), Failed>
    ensures octets { WhereTold (S.tells sink.old) (S.tells sink.new) (TakesAll result (hex octets.now)) }
    ensures cause { HasCause (S.faults sink.old) (S.faults sink.new) result }
{
    let mut rest = octets;
    while !rest.is_empty() {
        let (few, further) = rest.split_at(rest.len().min(FEW));
        put_few(sink, few)?;
        rest = further;
    }
    Ok(())
}

/// How many octets are written as digits at once.
const FEW: usize = 256;

fn put_few<S: Sink>(sink: &mut S, octets: &[u8]) -> Result<(), Failed>
    requires { length octets.now ≤ 256 }
    ensures octets { WhereTold (S.tells sink.old) (S.tells sink.new) (TakesAll result (hex octets.now)) }
    ensures cause { HasCause (S.faults sink.old) (S.faults sink.new) result }
{
    let mut digits = [0; 2 * FEW];
    spell(octets, &mut digits);
    write_all(sink, &digits[..2 * octets.len()])
}

/// Writes the digits of the octets to the front of `into`.
fn spell(octets: &[u8], into: &mut [u8; 2 * FEW])
    requires { length octets.now ≤ 256 }
    ensures { take (2 * length octets.now) into.new ≡ hex octets.now }
{
    for (at, octet) in octets.iter().enumerate() {
        into[2 * at] = digit_of(*octet / 16);
        into[2 * at + 1] = digit_of(*octet % 16);
    }
}

fn put_check<S: Sink>(sink: &mut S, check: [u8; 4]) -> Result<(), Failed>
    ensures octets { WhereTold (S.tells sink.old) (S.tells sink.new) (TakesAll result (hex check)) }
    ensures cause { HasCause (S.faults sink.old) (S.faults sink.new) result }
{
    put_hex(sink, &check)
}

/// A word of a line that is to be written.
#[derive(Clone, Copy, Debug)]
pub enum Word<'n, 'e> {
    /// A number in decimal digits.
    Number(u64),
    /// These octets.
    Octets(&'n [u8]),
    /// A pair of hexadecimal digits for each octet.
    Hex(&'e [u8]),
    /// The two ends of an arc, with `>` between.
    Ends(&'n [u8], &'n [u8]),
    /// Four octets in hexadecimal digits.
    Check([u8; 4]),
    /// Two octets.
    Two(u8, u8),
    /// Four octets.
    Four(u8, u8, u8, u8),
}

/// Writes a word.
pub fn put_word<S: Sink>(sink: &mut S, word: &Word) -> Result<(), Failed>
    ensures octets { WhereTold (S.tells sink.old) (S.tells sink.new) (TakesAll result (spelled word.now)) }
    ensures cause { HasCause (S.faults sink.old) (S.faults sink.new) result }
{
    match *word {
        Word::Number(n) => put_number(sink, n),
        Word::Octets(octets) => write_all(sink, octets),
        Word::Check(check) => put_check(sink, check),
        Word::Two(a, b) => write_all(sink, &[a, b]),
        Word::Four(a, b, c, d) => write_all(sink, &[a, b, c, d]),
        Word::Hex(octets) => put_hex(sink, octets),
        Word::Ends(from, to) => {
            write_all(sink, from)?;
            write_all(sink, b">")?;
            write_all(sink, to)
        }
    }
}

/// Writes words with one space between them, and the end of the line.
pub fn put_line<S: Sink>(sink: &mut S, first: &Word, words: &[Word]) -> Result<(), Failed>
    ensures octets { WhereTold (S.tells sink.old) (S.tells sink.new) (TakesAll result (line_of (spelled first.now) (map spelled words.now))) }
    ensures cause { HasCause (S.faults sink.old) (S.faults sink.new) result }
{
    put_word(sink, first)?;
    for word in words {
        write_all(sink, b" ")?;
        put_word(sink, word)?;
    }
    write_all(sink, b"\n")
}
