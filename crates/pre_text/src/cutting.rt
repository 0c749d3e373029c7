ghost use Rattle.std.specs.Prelude.{◌≡◌, ◌≢◌, ◌==◌, ◌+◌, ◌^◌, ◌<◌, ℕ, List, [], ◌∷◌, length, position, IfSome, MatchOption, slice_get};
ghost use Rattle.std.specs.List.{before_first, after_first};
ghost use Rattle.std.specs.Str.Lines.{strip_carriage_return};
ghost use Rattle.pre_text.specs.Lines.{numbered_lines, words_of};

use std::marker::Model;

/// A line of a text, without its end.
#[derive(Clone, Copy, Debug, PartialEq, Eq)]
pub struct Line<'a> {
    /// Its number, counted from 1.
    pub number: u64,
    /// Its octets.
    pub octets: &'a [u8],
}

/// The lines of a text that are still to be read. A line ends with 0A or with the end of the text, and one 0D before that is dropped.
///
/// Contracts see it as the list of these lines with their numbers.
#[derive(Debug, Drop)]
pub struct Lines<'a> {
    number: u64,
    rest: &'a [u8],
}

impl<'a> Model for Lines<'a> {
    ghost use Rattle.std.specs.Prelude.{ℕ, List, ◌+◌, ◌^◌, ◌<◌, length};
    ghost use Rattle.std.specs.List.{enumerate_from};
    ghost use Rattle.pre_text.specs.Lines.{lines_of};

    ghost Value = { List (ℕ × List ℕ) };

    ghost view = { λ l. enumerate_from l.number (lines_of l.rest.now) };

    ghost invariant = { λ l. l.number + length l.rest.now < 2 ^ 64 };
}

impl<'a> Lines<'a> {
    /// All lines of a text.
    pub fn of(text: &'a [u8]) -> Lines<'a>
        ensures { result ≡ numbered_lines text.now }
    {
        Lines {
            number: 1,
            rest: text,
        }
    }

    /// The next line, or None exactly at the end.
    pub fn next_line(&mut self) -> Option<Line<'a>>
        ensures next { MatchOption result ((self.old ≡ []) × (self.new ≡ [])) (λ line. self.old ≡ (line.number, line.octets.now) ∷ self.new) }
        ensures number { IfSome result (λ line. line.number + 1 < 2 ^ 64) }
    {
        if self.rest.is_empty() {
            return None;
        }
        let (octets, rest) = cut_first(self.rest, b'\n');
        let number = self.number;
        self.number += 1;
        self.rest = rest;
        Some(Line {
            number,
            octets: without_return(octets),
        })
    }
}

/// The words of a line that are still to be read. Spaces alone separate words: a tab is part of one.
///
/// Contracts see it as the list of these words.
#[derive(Debug, Drop)]
pub struct LineWords<'a> {
    rest: &'a [u8],
}

impl<'a> Model for LineWords<'a> {
    ghost use Rattle.std.specs.Prelude.{ℕ, List};
    ghost use Rattle.pre_text.specs.Lines.{words_of};

    ghost Value = { List (List ℕ) };

    ghost view = { λ w. words_of w.rest.now };
}

impl<'a> LineWords<'a> {
    /// All words of a line.
    pub fn of(octets: &'a [u8]) -> LineWords<'a>
        ensures { result ≡ words_of octets.now }
    {
        LineWords { rest: octets }
    }

    /// The next word, or None exactly where no word is left.
    pub fn next_word(&mut self) -> Option<&'a [u8]>
        ensures { MatchOption result ((self.old ≡ []) × (self.new ≡ [])) (λ word. self.old ≡ word.now ∷ self.new) }
    {
        let octets = without_spaces(self.rest);
        if octets.is_empty() {
            self.rest = octets;
            return None;
        }
        let (word, rest) = cut_first(octets, b' ');
        self.rest = rest;
        Some(word)
    }
}

// The octets before the first one that equals `stop`, and those behind it.
fn cut_first(octets: &[u8], stop: u8) -> (&[u8], &[u8])
    ensures before { result.0.now ≡ before_first (λ b. b == stop) octets.now }
    ensures after { result.1.now ≡ after_first (λ b. b == stop) octets.now }
{
    match place_of(octets, stop) {
        Some(at) => (&octets[..at], &octets[at + 1..]),
        None => (octets, &octets[octets.len()..]),
    }
}

fn place_of(octets: &[u8], stop: u8) -> Option<usize>
    ensures { result ≡ position (λ b. b == stop) octets.now }
{
    octets.iter().position(|b| *b == stop)
}

fn without_return(octets: &[u8]) -> &[u8]
    ensures { result.now ≡ strip_carriage_return octets.now }
{
    match octets {
        [front @ .., b'\r'] => front,
        _ => octets,
    }
}

// The rest of a line from its first word on.
fn without_spaces(octets: &[u8]) -> &[u8]
    ensures words { words_of result.now ≡ words_of octets.now }
    ensures begins { slice_get result.now 0 ≢ Some 32 }
{
    let mut rest = octets;
    while let [b' ', further @ ..] = rest {
        rest = further;
    }
    rest
}
