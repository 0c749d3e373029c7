//! The texts of a plant, by their CRC-32.

use pre_base::{Items, MemorySink};
use pre_crc::fcs;
use pre_plant::{plant, plants_are_one};
use pre_script::put_script;
use pre_streams::Row;
use pre_topo::put_network;
use std::alloc::Global;
use std::test::Fail;

/// What a row is: name, VID, priority, greatest frame and curve, then the nodes of its route by their places and its arcs.
fn put_row(alloc: Global, text: &mut String, row: &Row) -> Result<(), Fail> {
    let (name, prio) = (row.name.as_str(), row.prio.number());
    let head = format!(in alloc; "{name} {} {prio} {} ", row.vid, row.max)?;
    text.push_str(head.as_str())?;
    let curve = match row.curve {
        Some(curve) => format!(in alloc; "{} {} via", curve.burst, curve.rate)?,
        None => format!(in alloc; "- via")?,
    };
    text.push_str(curve.as_str())?;
    for node in row.route.as_slice() {
        text.push_str(format!(in alloc; " {}", node.0)?.as_str())?;
    }
    text.push_str(" by")?;
    for arc in row.arcs.as_slice() {
        text.push_str(format!(in alloc; " {}", arc.0)?.as_str())?;
    }
    text.push_str("\n")?;
    Ok(())
}

fn rows_text(alloc: Global, rows: &Items<Row>) -> Result<String, Fail> {
    let mut text = String::new(alloc);
    for row in rows.as_slice() {
        put_row(alloc, &mut text, row)?;
    }
    Ok(text)
}

/// The CRC-32 of the network's text, of the rows and of the script's text.
fn digests_of(alloc: Global, number: u64) -> Result<[[u8; 4]; 3], Fail> {
    let (network, streams, script) = plant(alloc, number)?;
    let mut sink = MemorySink::make(alloc, 16_384, 16_384, &[])?;
    put_network(&network, &mut sink).ok().ok_or("network")?;
    let network_digest = fcs(sink.octets());
    let rows = rows_text(alloc, &streams.rows)?;
    let mut sink = MemorySink::make(alloc, 300_000, 300_000, &[])?;
    put_script(&script, &network, &streams, &mut sink)
        .ok()
        .ok_or("script")?;
    Ok([network_digest, fcs(rows.as_bytes()), fcs(sink.octets())])
}

#[test]
fn texts_of_plant_1(rt: HostRuntime) -> Result<(), Fail> {
    let digests = [
        [0x2f, 0xcb, 0x1d, 0x35],
        [0x8a, 0xd9, 0xf5, 0x01],
        [0x3b, 0xad, 0xf5, 0x6c],
    ];
    assert_eq!(rt; digests_of(rt.alloc(), 1)?, digests);
    Ok(())
}

#[test]
fn texts_of_plant_999999999(rt: HostRuntime) -> Result<(), Fail> {
    let digests = [
        [0x2f, 0xcb, 0x1d, 0x35],
        [0x68, 0x8d, 0xe7, 0x3e],
        [0x3b, 0xf5, 0xa0, 0xc6],
    ];
    assert_eq!(rt; digests_of(rt.alloc(), 999_999_999)?, digests);
    Ok(())
}

#[test]
fn sizes_of_plant_1(rt: HostRuntime) -> Result<(), Fail> {
    plants_are_one();
    let (network, _, script) = plant(rt.alloc(), 1)?;
    assert_eq!(rt; (network.slots(), network.wires()), (49_328, 205_326));
    assert_eq!(rt; script.sends.len(), 12_227);
    Ok(())
}
