ghost use Rattle.std.specs.Prelude.{◌≡◌, ◌+◌, ◌<◌, ◌≤◌, ◌^◌, ℕ, IfOk, IfErr, IsOkAnd, length, option_map};
ghost use Rattle.pre_lldp.specs.Tlvs.{has_place, has_length, is_capabilities, fault_of};
ghost use Rattle.pre_lldp.specs.Pdus.{Fields, IsPdu, IsFirstFault};
ghost use Rattle.pre_lldp.specs.PduReading.{next_at, pdu_of};
ghost use Rattle.pre_lldp.specs.Views.{fields_in, read_fields};
ghost use Rattle.pre_lldp.specs.Parts.{part, mapped, LeadsOn, GivesOptions, faulty};
ghost use Rattle.pre_lldp.specs.LldpLayout.{advert_in, is_lldp_frame, lldpdu_in};

use byteorder::{BigEndian, ByteOrder};
use thiserror::Error;

// The group address of the nearest bridge, and the type of LLDP frames.
pub(crate) const NEAREST_BRIDGE: [u8; 6] = [0x01, 0x80, 0xC2, 0x00, 0x00, 0x0E];

pub(crate) const LLDP_TYPE: [u8; 2] = [0x88, 0xCC];

// The organization of IEEE 802.3, and its subtype of Additional Ethernet Capabilities.
pub(crate) const CAPABILITIES: [u8; 4] = [0x00, 0x12, 0x0F, 0x07];

// Types of TLVs (IEEE 802.1AB clause 8.4).
const END: u16 = 0;

const TIME: u16 = 3;

const ORGANIZATION: u16 = 127;

/// The fields of an LLDPDU (IEEE 802.1AB clause 8), in the octets that were read.
#[derive(Clone, Copy, Debug, PartialEq, Eq)]
pub struct Pdu<'a> {
    /// The value of Chassis ID: a subtype and what names the chassis, 2 to 256 octets.
    pub chassis: &'a [u8],
    /// The value of Port ID: a subtype and what names the port, 2 to 256 octets.
    pub port: &'a [u8],
    /// The time to live, in units of time.
    pub ttl: u16,
    /// The bits of Additional Ethernet Capabilities (IEEE 802.3 clause 79.3.7), where there are any.
    pub caps: Option<u16>,
}

impl Pdu<'_> {
    // Whether it says that preemption is supported and enabled: bits 0 and 1 of the capabilities.
    pub(crate) fn is_enabled(&self) -> bool
        ensures { result ≡ (advert_in (fields_in self.now)).enabled }
    {
        let caps = self.caps.unwrap_or(0);
        caps % 2 == 1 && caps / 2 % 2 == 1
    }
}

/// Why octets are no LLDPDU: the first fault from left to right, and of one TLV the first of these.
#[derive(Clone, Copy, Debug, PartialEq, Eq, Error)]
pub enum LldpFault {
    #[error("a header or a value passes the last octet")]
    Short,
    #[error("Chassis ID, Port ID and Time To Live stand first, in this order, and once")]
    Order,
    #[error("a length that the type doesn't allow")]
    Length,
    #[error("a second capabilities TLV")]
    Repeat,
}

// One TLV.
#[derive(Clone, Copy, Debug)]
pub(crate) struct Tlv<'a> {
    pub(crate) kind: u16,
    pub(crate) value: &'a [u8],
}

impl Tlv<'_> {
    // Whether it is one of Additional Ethernet Capabilities.
    #[tactic(auto, unfolding(crate::specs::Tlvs::is_capabilities))]
    fn is_capabilities(&self) -> bool
        ensures { result ≡ is_capabilities (part self.now) }
    {
        self.kind == ORGANIZATION && self.value.starts_with(&CAPABILITIES)
    }

    // Whether its type may stand behind so many others.
    #[tactic(auto, unfolding(crate::specs::Tlvs::has_place))]
    fn has_place(&self, place: u16) -> bool
        requires { place < 2 ^ 15 }
        ensures { result ≡ has_place place (part self.now) }
    {
        if place < TIME {
            self.kind == place + 1
        } else {
            self.kind == END || self.kind > TIME
        }
    }

    // Whether its value has a length that its type allows.
    #[tactic(auto, unfolding(crate::specs::Tlvs::has_length))]
    fn has_length(&self) -> bool
        ensures { result ≡ has_length (part self.now) }
    {
        let length = self.value.len();
        if self.kind == END {
            return length == 0;
        }
        if self.kind < TIME {
            return (2..=256).contains(&length);
        }
        if self.kind == TIME {
            return length >= 2;
        }
        !self.is_capabilities() || length >= 6
    }

    // Its first fault behind so many others, where capabilities are known already or not.
    #[tactic(auto, unfolding(crate::specs::Tlvs::fault_of))]
    fn check(&self, place: u16, known: bool) -> Result<(), LldpFault>
        requires { place < 2 ^ 15 }
        ensures { faulty result ≡ fault_of place known (part self.now) }
    {
        if !self.has_place(place) {
            return Err(LldpFault::Order);
        }
        if !self.has_length() {
            return Err(LldpFault::Length);
        }
        if self.is_capabilities() && known {
            return Err(LldpFault::Repeat);
        }
        Ok(())
    }
}

/// Whether a frame with its check is an LLDP frame, by its destination and its type.
pub fn is_lldp(frame: &[u8]) -> bool
    requires { 18 ≤ length frame.now }
    ensures { result ≡ is_lldp_frame frame.now }
{
    frame.starts_with(&NEAREST_BRIDGE) && frame[12..].starts_with(&LLDP_TYPE)
}

/// What stands between the type and the check of an LLDP frame: the LLDPDU and its padding.
pub fn lldpdu(frame: &[u8]) -> &[u8]
    requires { 18 ≤ length frame.now }
    ensures { result.now ≡ lldpdu_in frame.now }
{
    &frame[14..frame.len() - 4]
}

/// Reads the LLDPDU (IEEE 802.1AB clause 8) at the front of octets. An End TLV ends it, or the last
/// octet.
pub fn read_lldpdu(octets: &[u8]) -> Result<Pdu<'_>, LldpFault>
    ensures pdu { IfOk result (λ pdu. IsPdu (fields_in pdu) octets.now) }
    ensures pdu_due { (fields : Fields) → IsPdu fields octets.now → IsOkAnd result (λ pdu. fields_in pdu ≡ fields) }
    ensures fault { IfErr result (λ fault. IsFirstFault fault octets.now) }
    ensures fault_due { (fault : LldpFault) → IsFirstFault fault octets.now → result ≡ Err fault }
    ensures read { read_fields result ≡ pdu_of octets.now }
{
    fields_at_front(octets)
}

// The fields of an LLDPDU, or its first fault.
fn fields_at_front(octets: &[u8]) -> Result<Pdu<'_>, LldpFault>
    ensures { read_fields result ≡ pdu_of octets.now }
{
    let (chassis, rest) = required(octets, 0)?;
    let (port, rest) = required(rest, 1)?;
    let (time, rest) = required(rest, 2)?;
    let caps = capabilities(rest)?;
    Ok(Pdu {
        chassis,
        port,
        ttl: BigEndian::read_u16(time),
        caps,
    })
}

// The value of the TLV of type place + 1 at the front, and what stands behind it.
fn required(octets: &[u8], place: u16) -> Result<(&[u8], &[u8]), LldpFault>
    requires { place < 3 }
    ensures leads { LeadsOn (mapped (λ x. (x.0.now, x.1.now)) result) place octets.now }
    ensures value { IfOk result (λ x. 2 ≤ length x.0.now) }
    ensures shorter { IfOk result (λ x. length x.1.now + 2 ≤ length octets.now) }
{
    match next_tlv(octets, place, false)? {
        Some((tlv, rest)) => Ok((tlv.value, rest)),
        None => Err(LldpFault::Order),
    }
}

// The capabilities among the TLVs behind the first three.
fn capabilities(octets: &[u8]) -> Result<Option<u16>, LldpFault>
    ensures { GivesOptions result octets.now }
{
    let mut caps = None;
    let mut rest = octets;
    while let Some((tlv, behind)) = next_tlv(rest, TIME, caps.is_some())? {
        if tlv.is_capabilities() {
            caps = Some(BigEndian::read_u16(&tlv.value[4..]));
        }
        rest = behind;
    }
    Ok(caps)
}

// The TLV at the front with what stands behind it, none at the end, or the fault of what stands there.
#[tactic(auto, unfolding(crate::specs::PduReading::next_at))]
fn next_tlv(octets: &[u8], place: u16, known: bool) -> Result<Option<(Tlv<'_>, &[u8])>, LldpFault>
    requires { place < 2 ^ 15 }
    ensures { mapped (option_map (λ x. (part x.0, x.1.now))) result ≡ next_at place known octets.now }
{
    if octets.is_empty() {
        return Ok(None);
    }
    if octets.len() < 2 {
        return Err(LldpFault::Short);
    }
    let header = BigEndian::read_u16(octets);
    let length = (header % 0x200) as usize;
    let rest = &octets[2..];
    if rest.len() < length {
        return Err(LldpFault::Short);
    }
    let (value, behind) = rest.split_at(length);
    let tlv = Tlv {
        kind: header / 0x200,
        value,
    };
    tlv.check(place, known)?;
    if tlv.kind == END {
        return Ok(None);
    }
    Ok(Some((tlv, behind)))
}
