//! What the examples share.

use pre_base::MemorySink;
use pre_cli::{Status, put_status};
use std::alloc::{AllocError, Global};
use std::process::Abort;

/// The words of a command, from a text that parts them by spaces.
pub fn words_of(alloc: Global, text: &str) -> Result<Vec<String>, AllocError> {
    let mut words = Vec::new(alloc);
    for word in text.split_whitespace() {
        words.push(String::from_str(alloc, word)?)?;
    }
    Ok(words)
}

/// A sink with room for every example, that takes whole pieces and never fails.
pub fn wide_sink(alloc: Global) -> Result<MemorySink, AllocError> {
    MemorySink::make(alloc, 100_000, 100_000, &[])
}

/// Asserts the number and the text of a status.
pub fn assert_status(
    rt: &impl Abort,
    alloc: Global,
    status: &Status,
    number: u8,
    text: &str,
) -> Result<(), AllocError> {
    let mut sink = wide_sink(alloc)?;
    assert!(rt; put_status(status, &mut sink).is_ok());
    assert_eq!(rt; status.number(), number, "where {text} is due");
    assert_eq!(rt; sink.octets(), text.as_bytes(), "where {text} is due");
    Ok(())
}
