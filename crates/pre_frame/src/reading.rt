ghost use Rattle.std.specs.Prelude.{◌≡◌, ◌↔◌, ◌+◌, ◌*◌, ◌/◌, ◌%◌, ◌^◌, ◌<◌, ◌≤◌, ◌==◌, Err, IfOk, IsOkAnd, length};
ghost use Rattle.pre_base.specs.declared.limits.TheConstants.{LEAST_FRAME, GREATEST_FRAME};
ghost use Rattle.pre_frame.specs.FrameFields.{Fields, HasFrameSize, EndsWithFcs, IsTagged, IsFrame, fields_at, number_at};
ghost use Rattle.pre_frame.specs.Views.{fields_of};

use byteorder::{BigEndian, ByteOrder};
use pre_base::{GREATEST_FRAME, LEAST_FRAME, Prio};
use pre_crc::fcs;
use thiserror::Error;

// The first two octets of a VLAN tag.
const TAG: [u8; 2] = [0x81, 0x00];

/// The fields of a user frame, in the octets that were read.
#[derive(Clone, Copy, Debug, PartialEq, Eq)]
pub struct FrameView<'a> {
    /// The address of the station that it is for, in six octets.
    pub destination: &'a [u8],
    /// The address of the station that sent it, in six octets.
    pub source: &'a [u8],
    /// What stands between the type and the check.
    pub payload: &'a [u8],
    /// The frame check sequence, in four octets.
    pub fcs: &'a [u8],
    /// The priority of the tag.
    pub prio: Prio,
    /// Whether it may be dropped before others (the drop eligible indicator).
    pub dei: bool,
    /// The VLAN identifier, of twelve bits.
    pub vid: u16,
    /// The type of the payload.
    pub ether: u16,
}

/// Why octets are no user frame.
#[derive(Clone, Copy, Debug, PartialEq, Eq, Error)]
pub enum FrameFault {
    /// Fewer than 64 octets.
    #[error("a frame has 64 octets at least")]
    Short,
    /// More than 2000 octets.
    #[error("a frame has 2000 octets at most")]
    Long,
    /// The last four octets are not the frame check sequence of those before them.
    #[error("the last four octets are not the check of the others")]
    Check,
    /// Octets 12 and 13 are not 81 00.
    #[error("no VLAN tag follows the addresses")]
    Tag,
}

/// Reads a user frame with its check (IEEE 802.3 clause 3, with the tag of IEEE 802.1Q clause 9). Of
/// several faults it answers the first, in the order of [`FrameFault`].
pub fn read_frame(octets: &[u8]) -> Result<FrameView<'_>, FrameFault>
    ensures view { IfOk result (λ view. IsFrame (fields_of view) octets.now) }
    ensures every { (fields : Fields) → IsFrame fields octets.now → IsOkAnd result (λ view. fields_of view ≡ fields) }

    ensures short { (result ≡ Err FrameFault.Short) ↔ (length octets.now < LEAST_FRAME) }
    ensures long { (result ≡ Err FrameFault.Long) ↔ (GREATEST_FRAME < length octets.now) }
    ensures check { (result ≡ Err FrameFault.Check) ↔ (HasFrameSize octets.now × (¬ EndsWithFcs octets.now)) }
    ensures tag { (result ≡ Err FrameFault.Tag) ↔ (HasFrameSize octets.now × EndsWithFcs octets.now × (¬ IsTagged octets.now)) }
{
    if octets.len() < usize::from(LEAST_FRAME) {
        return Err(FrameFault::Short);
    }
    if octets.len() > usize::from(GREATEST_FRAME) {
        return Err(FrameFault::Long);
    }
    let (data, check) = octets.split_at(octets.len() - 4);
    if check != fcs(data).as_slice() {
        return Err(FrameFault::Check);
    }
    if &octets[12..14] != TAG.as_slice() {
        return Err(FrameFault::Tag);
    }
    Ok(view_of(octets))
}

// The fields by their places.
fn view_of(octets: &[u8]) -> FrameView<'_>
    requires { 22 ≤ length octets.now }
    ensures { fields_of result ≡ fields_at octets.now }
{
    let end = octets.len() - 4;
    let control = BigEndian::read_u16(&octets[14..]);
    FrameView {
        destination: &octets[..6],
        source: &octets[6..12],
        payload: &octets[18..end],
        fcs: &octets[end..],
        prio: Prio((control >> 13) as u8),
        dei: (control >> 12) % 2 == 1,
        vid: control % 0x1000,
        ether: BigEndian::read_u16(&octets[16..]),
    }
}
