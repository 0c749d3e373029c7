/// What one end of a link says of its preemption in an LLDP frame (IEEE 802.3 clause 79.3.7).
#[derive(Clone, Copy, Debug, PartialEq, Eq)]
pub struct Advert {
    /// Whether preemption is enabled. What is sent always says that it is supported; what is read
    /// counts as enabled where both bits are set.
    pub enabled: bool,
    /// Whether preemption is active.
    pub active: bool,
    /// From 0 to 3: a fragment that isn't the last has 64 x (1 + add_frag) octets at least.
    pub add_frag: u8,
    /// How many units of time it counts; with 0 it never does.
    pub ttl: u16,
}
