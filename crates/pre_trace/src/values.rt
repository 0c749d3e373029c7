ghost use Rattle.std.specs.Prelude.{◌≡◌, ◌<◌, ◌≤◌, ℕ, length, position, IfSome, Option};
ghost use Rattle.std.specs.Str.{bytes_eq};
ghost use Rattle.std.specs.List.{list_all};
ghost use Rattle.std.specs.Option.{option_map};
ghost use Rattle.pre_base.specs.declared.limits.TheConstants.{GREATEST_FRAME};
ghost use Rattle.pre_script.specs.Saying.{setting_of};
ghost use Rattle.pre_trace.specs.Values.{check_of, count_of, is_lower_case_digit, kind_of, lower_case_pairs, node_named, number_below, outcome_of, what_of, yes_of};

use crate::{Outcome, What};
use pre_base::{FrameNo, GREATEST_FRAME, NodeId};
use pre_mpacket::Kind;
use pre_script::Setting;
use pre_text::{hex_pairs, number};
use pre_topo::{Network, Node};

pub(crate) fn is(word: &[u8], text: &[u8]) -> bool
    ensures { result ≡ bytes_eq word.now text.now }
{
    word == text
}

/// The number that a word spells, where it is below the limit.
pub(crate) fn number_below(word: &[u8], limit: u64) -> Option<u64>
    ensures value { result ≡ number_below limit word.now }
    ensures within { IfSome result (λ n. n < limit) }
{
    let n = number(word)?;
    if n < limit { Some(n) } else { None }
}

pub(crate) fn setting_of(word: &[u8]) -> Option<Setting>
    ensures { result ≡ setting_of word.now }
{
    if is(word, b"on") {
        Some(Setting::On)
    } else if is(word, b"off") {
        Some(Setting::Off)
    } else if is(word, b"gone") {
        Some(Setting::Gone)
    } else {
        None
    }
}

pub(crate) fn yes_of(word: &[u8]) -> Option<bool>
    ensures { result ≡ yes_of word.now }
{
    if is(word, b"yes") {
        Some(true)
    } else if is(word, b"no") {
        Some(false)
    } else {
        None
    }
}

pub(crate) fn outcome_of(word: &[u8]) -> Option<Outcome>
    ensures { result ≡ outcome_of word.now }
{
    if is(word, b"lost") {
        Some(Outcome::Lost)
    } else if is(word, b"frame") {
        Some(Outcome::Frame)
    } else if is(word, b"lldp") {
        Some(Outcome::Lldp)
    } else if is(word, b"part") {
        Some(Outcome::Part)
    } else if is(word, b"verify") {
        Some(Outcome::Verify)
    } else if is(word, b"respond") {
        Some(Outcome::Respond)
    } else if is(word, b"nothing") {
        Some(Outcome::Nothing)
    } else {
        None
    }
}

/// A count of 0 to 3.
fn count_of(digit: u8) -> Option<u8>
    ensures { result ≡ count_of digit }
{
    match digit {
        b'0'..=b'3' => Some(digit - b'0'),
        _ => None,
    }
}

pub(crate) fn kind_of(word: &[u8]) -> Option<Kind>
    ensures { result ≡ kind_of word.now }
{
    match word {
        [b'E'] => Some(Kind::Express),
        [b'V'] => Some(Kind::Verify),
        [b'R'] => Some(Kind::Respond),
        [b'S', count] => Some(Kind::Start(count_of(*count)?)),
        [b'C', count, b'.', fragment] => {
            let count = count_of(*count)?;
            let fragment = count_of(*fragment)?;
            Some(Kind::Continue(count, fragment))
        }
        _ => None,
    }
}

pub(crate) fn what_of(word: &[u8]) -> Option<What>
    ensures { result ≡ what_of word.now }
{
    if is(word, b"lldp") {
        Some(What::Lldp)
    } else if is(word, b"-") {
        Some(What::Nothing)
    } else {
        let n = number_below(word, 4_294_967_296)?;
        Some(What::Frame(FrameNo(n as u32)))
    }
}

fn has_name(node: &Node, word: &[u8]) -> bool
    ensures { result ≡ bytes_eq node.now.name word.now }
{
    node.name.as_str().as_bytes() == word
}

fn place_of(nodes: &[Node], word: &[u8]) -> Option<usize>
    ensures { result ≡ position (λ n. bytes_eq n.name word.now) nodes.now }
{
    nodes.iter().position(|node| has_name(node, word))
}

/// The node with this name: None exactly where no node has it.
pub(crate) fn node_named(net: &Network, word: &[u8]) -> Option<NodeId>
    ensures { option_map (λ n. n.0) result ≡ node_named net.now word.now }
{
    let place = place_of(net.nodes.as_slice(), word)?;
    Some(NodeId(place as u16))
}

fn is_lower_case_digit(c: u8) -> bool
    ensures { result ≡ is_lower_case_digit c }
{
    match c {
        b'0'..=b'9' | b'a'..=b'f' => true,
        _ => false,
    }
}

fn has_lower_case_digits_alone(word: &[u8]) -> bool
    ensures { result ≡ list_all is_lower_case_digit word.now }
{
    word.iter().all(|c| is_lower_case_digit(*c))
}

/// The four octets of a check.
pub(crate) fn check_of(word: &[u8]) -> Option<[u8; 4]>
    ensures { result ≡ check_of word.now }
{
    if word.len() != 8 || !has_lower_case_digits_alone(word) {
        return None;
    }
    let mut check = [0u8; 4];
    let _count = hex_pairs(word, &mut check)?;
    Some(check)
}

/// The octets that a word of lower-case pairs spells, at the front of `into`.
pub(crate) fn octets_into<'a>(word: &[u8], into: &'a mut [u8]) -> Option<&'a [u8]>
    requires { GREATEST_FRAME ≤ length into.old }
    ensures { option_map (λ o. o.now) result ≡ lower_case_pairs GREATEST_FRAME word.now }
{
    if !has_lower_case_digits_alone(word) {
        return None;
    }
    let room = &mut into[..GREATEST_FRAME as usize];
    let count = hex_pairs(word, room)?;
    Some(&room[..count])
}
