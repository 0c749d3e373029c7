//! What the examples share.

use pre_base::{MemoryShelf, MemorySink, Sink};
use pre_cli::{Status, preempt, put_status};
use std::alloc::{AllocError, Global};
use std::process::Abort;

/// One frame of the least size at tick 0.
pub const EXAMPLE: &str = "send 0 x 64\nuntil 5000\n";

/// The trace of the example. Its check octets are the CRC-32 of the frame's first 60 octets by another program.
pub const EXAMPLE_TRACE: &str = "0 enter a>b 6 0
0 begin a>b 0 E 0 0
72 ended a>b 0 64 d9064e6c
72 arrive a>b 0 frame
72 deliver b 0 0200000000010200000000008100c00a88b5000000000405060708090a0b0c0d0e0f101112131415161718191a1b1c1d1e1f20212223242526272829d9064e6c
5000 end 1 1 0
";

/// The words of a command, from a text that parts them by spaces.
pub fn words_of(alloc: Global, text: &str) -> Result<Vec<String>, AllocError> {
    let mut words = Vec::new(alloc);
    for word in text.split_whitespace() {
        words.push(String::from_str(alloc, word)?)?;
    }
    Ok(words)
}

/// The certificate of the built-in stream over the built-in link.
pub const CERTIFICATE: &str = "certificate 2
arc a>b 0 1522
port a>b 6 143 2000 0 2143 2214
hop x 0 2000
bound x 2131
end
";

/// A shelf that never fails, with a file `script` and the certificate of the built-in stream, `cert`.
pub fn shelf_with(alloc: Global, script: &[u8]) -> Result<MemoryShelf, AllocError> {
    let mut shelf = MemoryShelf::make(alloc, &[])?;
    shelf.put("script", script)?;
    shelf.put("cert", CERTIFICATE.as_bytes())?;
    Ok(shelf)
}

/// A sink with room for every example, that takes whole pieces and never fails.
pub fn wide_sink(alloc: Global) -> Result<MemorySink, AllocError> {
    MemorySink::make(alloc, 100_000, 100_000, &[])
}

/// Runs the script over the built-in network and streams.
pub fn replayed<S: Sink>(alloc: Global, script: &str, sink: &mut S) -> Result<Status, AllocError> {
    let mut shelf = shelf_with(alloc, script.as_bytes())?;
    let words = words_of(alloc, "replay pair pair cert script")?;
    Ok(preempt(alloc, words.as_slice(), &mut shelf, sink))
}

/// A shelf with a network and streams, in files `net` and `streams`, their least certificate in `cert`, which is empty where
/// there is none, and a script, in `script`.
pub fn shelf_over(
    alloc: Global,
    (net, streams): (&str, &str),
    script: &str,
) -> Result<MemoryShelf, AllocError> {
    let mut shelf = shelf_with(alloc, script.as_bytes())?;
    shelf.put("net", net.as_bytes())?;
    shelf.put("streams", streams.as_bytes())?;
    let certificate = certificate_of(alloc, &mut shelf)?;
    shelf.put("cert", certificate.octets())?;
    Ok(shelf)
}

/// A sink with the least certificate of the files `net` and `streams`.
pub fn certificate_of(alloc: Global, shelf: &mut MemoryShelf) -> Result<MemorySink, AllocError> {
    let mut certificate = wide_sink(alloc)?;
    let words = words_of(alloc, "certify net streams")?;
    let _ = preempt(alloc, words.as_slice(), shelf, &mut certificate);
    Ok(certificate)
}

/// Does a command over the network of a file `net`, the streams of a file `streams`, their least certificate in a file `cert`,
/// which is empty where there is none, and the script of a file `script`.
pub fn replayed_over<S: Sink>(
    alloc: Global,
    plant: (&str, &str),
    script: &str,
    words: &str,
    sink: &mut S,
) -> Result<Status, AllocError> {
    let mut shelf = shelf_over(alloc, plant, script)?;
    let words = words_of(alloc, words)?;
    Ok(preempt(alloc, words.as_slice(), &mut shelf, sink))
}

/// Asserts that the script runs to its end and leaves this trace.
pub fn assert_trace(
    rt: &impl Abort,
    alloc: Global,
    script: &str,
    trace: &str,
) -> Result<(), AllocError> {
    let mut sink = wide_sink(alloc)?;
    let status = replayed(alloc, script, &mut sink)?;
    assert_eq!(rt; status.number(), 0);
    assert_eq!(rt; sink.octets(), trace.as_bytes());
    Ok(())
}

/// Asserts that the script runs to its end over the network and the streams, and leaves this trace.
pub fn assert_trace_over(
    rt: &impl Abort,
    alloc: Global,
    plant: (&str, &str),
    script: &str,
    trace: &str,
) -> Result<(), AllocError> {
    let mut sink = wide_sink(alloc)?;
    let words = "replay net streams cert script";
    let status = replayed_over(alloc, plant, script, words, &mut sink)?;
    assert_eq!(rt; status.number(), 0);
    assert_eq!(rt; sink.octets(), trace.as_bytes());
    Ok(())
}

/// Asserts the number and the text of a status.
pub fn assert_status(
    rt: &impl Abort,
    alloc: Global,
    status: &Status,
    number: u8,
    text: &str,
) -> Result<(), AllocError> {
    let mut sink = wide_sink(alloc)?;
    assert!(rt; put_status(status, &mut sink).is_ok());
    assert_eq!(rt; status.number(), number, "where {text} is due");
    assert_eq!(rt; sink.octets(), text.as_bytes(), "where {text} is due");
    Ok(())
}
