use pre_crc::Running;

/// A frame that is open: some of its fragments came, and none was the last.
#[derive(Clone, Copy, Debug)]
pub(crate) struct Opened {
    pub frame_count: u8,
    /// The fragment count of its next continuation.
    pub next: u8,
    /// The check of its octets so far.
    pub check: Running,
}
