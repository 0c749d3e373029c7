ghost use Rattle.std.specs.Prelude.{◌≡◌};
ghost use Rattle.std.specs.Option.{option_map};
ghost use Rattle.pre_script.specs.Saying.{two, three, four};
ghost use Rattle.pre_trace.specs.Values.{five, six, has_single_spaces};

use pre_text::LineWords;

/// Why a line is no event.
#[derive(Clone, Copy, Debug, PartialEq, Eq)]
pub enum EventFault {
    /// It isn't words with one space between, its kind is unknown, the count of words is another, or a value, result or
    /// kind of mPacket is none of the known ones.
    Word,
    /// A word isn't a plain number that fits.
    Number,
    /// An arc or node is unknown.
    Name,
    /// A check isn't four pairs of lower-case digits, or octets aren't 1 to 2,000 such pairs.
    Hex,
}

/// Whether words stand in the line with one space between.
pub(crate) fn has_single_spaces(line: &[u8]) -> bool
    ensures { result ≡ has_single_spaces line.now }
{
    let mut after = true;
    let mut rest = line;
    while let [c, further @ ..] = rest {
        if *c == b' ' {
            if after {
                return false;
            }
            after = true;
        } else {
            after = false;
        }
        rest = further;
    }
    !after
}

pub(crate) fn two_words<'a>(words: &mut LineWords<'a>) -> Option<(&'a [u8], &'a [u8])>
    ensures { option_map (λ w. (w.0.now, w.1.now)) result ≡ two words.old }
{
    let a = words.next_word()?;
    let b = words.next_word()?;
    match words.next_word() {
        None => Some((a, b)),
        Some(_) => None,
    }
}

pub(crate) fn three_words<'a>(words: &mut LineWords<'a>) -> Option<(&'a [u8], &'a [u8], &'a [u8])>
    ensures { option_map (λ w. (w.0.now, w.1.now, w.2.now)) result ≡ three words.old }
{
    let a = words.next_word()?;
    let b = words.next_word()?;
    let c = words.next_word()?;
    match words.next_word() {
        None => Some((a, b, c)),
        Some(_) => None,
    }
}

pub(crate) fn four_words<'a>(
    words: &mut LineWords<'a>,
) -> Option<(&'a [u8], &'a [u8], &'a [u8], &'a [u8])>
    ensures { option_map (λ w. (w.0.now, w.1.now, w.2.now, w.3.now)) result ≡ four words.old }
{
    let a = words.next_word()?;
    let b = words.next_word()?;
    let c = words.next_word()?;
    let d = words.next_word()?;
    match words.next_word() {
        None => Some((a, b, c, d)),
        Some(_) => None,
    }
}

pub(crate) fn five_words<'a>(
    words: &mut LineWords<'a>,
) -> Option<(&'a [u8], &'a [u8], &'a [u8], &'a [u8], &'a [u8])>
    ensures { option_map (λ w. (w.0.now, w.1.now, w.2.now, w.3.now, w.4.now)) result ≡ five words.old }
{
    let a = words.next_word()?;
    let b = words.next_word()?;
    let c = words.next_word()?;
    let d = words.next_word()?;
    let e = words.next_word()?;
    match words.next_word() {
        None => Some((a, b, c, d, e)),
        Some(_) => None,
    }
}

pub(crate) fn six_words<'a>(
    words: &mut LineWords<'a>,
) -> Option<(&'a [u8], &'a [u8], &'a [u8], &'a [u8], &'a [u8], &'a [u8])>
    ensures { option_map (λ w. (w.0.now, w.1.now, w.2.now, w.3.now, w.4.now, w.5.now)) result ≡ six words.old }
{
    let a = words.next_word()?;
    let b = words.next_word()?;
    let c = words.next_word()?;
    let d = words.next_word()?;
    let e = words.next_word()?;
    let f = words.next_word()?;
    match words.next_word() {
        None => Some((a, b, c, d, e, f)),
        Some(_) => None,
    }
}
