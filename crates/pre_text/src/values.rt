ghost use Rattle.std.specs.Prelude.{◌≡◌, ◌+◌, ◌*◌, ◌<◌, ◌++◌, Option, None, Some, IsTrue, length, drop};
ghost use Rattle.std.specs.Char.{digit_value, is_ascii_digit, is_ascii_hexdigit};
ghost use Rattle.std.specs.List.{list_all};
ghost use Rattle.std.specs.Option.{option_map, option_map_or};
ghost use Rattle.pre_text.specs.Words.{are_pairs, is_comment, is_name, is_name_octet, is_plain, number_of, pair_octets, pairs_within};

/// The number that a word spells: `0`, or digits that don't begin with 0. None exactly where it spells none that fits.
pub fn number(word: &[u8]) -> Option<u64>
    ensures { result ≡ number_of word.now }
{
    if !spells_number(word) {
        return None;
    }
    let mut value: u64 = 0;
    for digit in word {
        value = value.checked_mul(10)?.checked_add((*digit - b'0') as u64)?;
    }
    Some(value)
}

fn spells_number(word: &[u8]) -> bool
    ensures { result ≡ is_plain word.now }
{
    match word {
        [] => false,
        [b'0'] => true,
        [b'0', ..] => false,
        _ => has_digits_alone(word),
    }
}

fn has_digits_alone(word: &[u8]) -> bool
    ensures { result ≡ list_all is_ascii_digit word.now }
{
    word.iter().all(|c| c.is_ascii_digit())
}

/// Whether a word is a name: 1 to 32 letters, digits, `_`, `-` and `.`.
pub fn name(word: &[u8]) -> bool
    ensures { result ≡ is_name word.now }
{
    !word.is_empty() && word.len() <= 32 && has_name_octets_alone(word)
}

fn has_name_octets_alone(word: &[u8]) -> bool
    ensures { result ≡ list_all is_name_octet word.now }
{
    word.iter().all(|c| is_in_name(*c))
}

fn is_in_name(c: u8) -> bool
    ensures { result ≡ is_name_octet c }
{
    match c {
        b'a'..=b'z' | b'A'..=b'Z' | b'0'..=b'9' | b'-' | b'.' | b'_' => true,
        _ => false,
    }
}

/// Whether a word begins with `#`: what stands behind it in its line is a comment.
pub fn starts_comment(word: &[u8]) -> bool
    ensures { result ≡ is_comment word.now }
{
    match word {
        [b'#', ..] => true,
        _ => false,
    }
}

/// Writes the octets that a word of hexadecimal pairs spells to the front of `into`, and answers how many there are.
///
/// None exactly where the word isn't one or more pairs of digits, of either case, or they don't fit. Then `into` is unchanged.
pub fn hex_pairs(word: &[u8], into: &mut [u8]) -> Option<usize>
    ensures count { result ≡ option_map length (pairs_within (length into.old) word.now) }
    ensures written { into.new ≡ option_map_or (λ octets. octets ++ drop (length octets) into.old) (pairs_within (length into.old) word.now) into.old }
{
    if !spells_pairs(word) || into.len() < word.len() / 2 {
        return None;
    }
    let count = word.len() / 2;
    for i in 0..count {
        into[i] = 16 * hex_value(word[2 * i]) + hex_value(word[2 * i + 1]);
    }
    Some(count)
}

fn spells_pairs(word: &[u8]) -> bool
    ensures { result ≡ are_pairs word.now }
{
    !word.is_empty() && word.len() % 2 == 0 && has_hex_digits_alone(word)
}

fn has_hex_digits_alone(word: &[u8]) -> bool
    ensures { result ≡ list_all is_ascii_hexdigit word.now }
{
    word.iter().all(|c| c.is_ascii_hexdigit())
}

fn hex_value(digit: u8) -> u8
    requires { IsTrue (is_ascii_hexdigit digit) }
    ensures value { result ≡ digit_value digit }
    ensures within { result < 16 }
{
    match digit {
        b'0'..=b'9' => digit - b'0',
        b'A'..=b'F' => digit - b'A' + 10,
        _ => digit - b'a' + 10,
    }
}
