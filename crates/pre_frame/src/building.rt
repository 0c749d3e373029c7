ghost use Rattle.std.specs.Prelude.{◌≡◌, ◌↔◌, ℕ, ◌+◌, ◌-◌, ◌%◌, ◌<◌, ◌≤◌, ◌++◌, false, map, take, drop, length, IfOk, IsOk, IsErr, OnOk, OnErr};
ghost use Rattle.std.specs.List.{range_with_len};
ghost use Rattle.pre_frame.specs.Layout.{IsFrameSize, script_type, address_of, tag_control, header_of, payload_of, with_check, frame_of};

use byteorder::{BigEndian, ByteOrder};
use pre_base::{FrameNo, NodeId, Prio, Room};
use pre_crc::fcs;

// Octets before the payload, and of the check after it.
const HEADER: usize = 18;

const CHECK: usize = pre_base::CHECK as usize;

/// Writes the frame of this number, `size` octets with its check, at the front of `into`, and answers
/// `size`. Where `into` is shorter there is no room, and it stays as it was.
pub fn build(
    into: &mut [u8],
    destination: NodeId,
    source: NodeId,
    prio: Prio,
    vid: u16,
    number: FrameNo,
    size: u16,
) -> Result<usize, Room>
    requires size { IsFrameSize size }
    requires vid { (1 ≤ vid) × (vid ≤ 4094) }

    ensures fits { IsOk result ↔ (size ≤ length into.old) }
    ensures room { IsErr result ↔ (length into.old < size) }

    ensures size { IfOk result (λ n. n ≡ size) }
    ensures frame { OnOk result (into.new ≡ frame_of destination.0 source.0 prio vid number.0 size ++ drop size into.old) }
    // Without room nothing is written.
    ensures kept { OnErr result (into.new ≡ into.old) }
{
    let size = usize::from(size);
    if into.len() < size {
        return Err(Room);
    }
    let header = header(destination, source, prio, vid);
    put_frame(&mut into[..size], &header, number);
    Ok(size)
}

/// Writes the octets before the check of the same frame, `size - 4` of them, at the front of `into`, and answers how many they
/// are; the check isn't worked out. Where `into` is shorter there is no room, and it stays as it was.
pub fn build_unchecked(
    into: &mut [u8],
    destination: NodeId,
    source: NodeId,
    prio: Prio,
    vid: u16,
    number: FrameNo,
    size: u16,
) -> Result<usize, Room>
    requires size { IsFrameSize size }
    requires vid { (1 ≤ vid) × (vid ≤ 4094) }

    ensures fits { IsOk result ↔ (size - 4 ≤ length into.old) }
    ensures room { IsErr result ↔ (length into.old < size - 4) }

    ensures size { IfOk result (λ n. n ≡ size - 4) }
    ensures frame { OnOk result (with_check (take (size - 4) into.new) ≡ frame_of destination.0 source.0 prio vid number.0 size) }
    ensures rest { OnOk result (drop (size - 4) into.new ≡ drop (size - 4) into.old) }
    // Without room nothing is written.
    ensures kept { OnErr result (into.new ≡ into.old) }
{
    let end = usize::from(size) - CHECK;
    if into.len() < end {
        return Err(Room);
    }
    let header = header(destination, source, prio, vid);
    put_unchecked(&mut into[..end], &header, number);
    Ok(end)
}

// Writes a header, the payload of this number, and the check of both.
fn put_frame(frame: &mut [u8], header: &[u8; 18], number: FrameNo)
    requires { 26 ≤ length frame.old }
    ensures { frame.new ≡ with_check (header.now ++ payload_of number.0 (length frame.old - 22)) }
{
    let end = frame.len() - CHECK;
    let (unchecked, check) = frame.split_at_mut(end);
    put_unchecked(unchecked, header, number);
    check.copy_from_slice(&fcs(unchecked));
}

// Writes a header and the payload of this number.
fn put_unchecked(octets: &mut [u8], header: &[u8; 18], number: FrameNo)
    requires { 22 ≤ length octets.old }
    ensures { octets.new ≡ header.now ++ payload_of number.0 (length octets.old - 18) }
{
    let (front, payload) = octets.split_at_mut(HEADER);
    front.copy_from_slice(header);
    put_payload(payload, number);
}

// The octets before the payload.
fn header(destination: NodeId, source: NodeId, prio: Prio, vid: u16) -> [u8; 18]
    requires { vid < 4096 }
    ensures { result ≡ header_of (address_of destination.0) (address_of source.0) (tag_control prio false vid) script_type }
{
    let [to_high, to_low] = destination.0.to_be_bytes();
    let [from_high, from_low] = source.0.to_be_bytes();
    let control = u16::from(prio.number()) * 0x2000 + vid;
    let [tag_high, tag_low] = control.to_be_bytes();
    [
        0x02, 0, 0, 0, to_high, to_low, 0x02, 0, 0, 0, from_high, from_low, 0x81, 0x00, tag_high,
        tag_low, 0x88, 0xB5,
    ]
}

// Writes the frame's number, and after it the octets that count up from there.
fn put_payload(payload: &mut [u8], number: FrameNo)
    requires { 4 ≤ length payload.old }
    ensures { payload.new ≡ payload_of number.0 (length payload.old) }
{
    BigEndian::write_u32(payload, number.0);
    count_up(&mut payload[4..], number);
}

// Octet j of a payload is its frame's number plus j, mod 256: here from j = 4 on.
fn count_up(octets: &mut [u8], number: FrameNo)
    ensures { octets.new ≡ map (λ j. (number.0 + j) % 256) (range_with_len 4 (length octets.old)) }
{
    let mut next = ((number.0 % 256) as u8).wrapping_add(4);
    for octet in octets.iter_mut() {
        *octet = next;
        next = next.wrapping_add(1);
    }
}
