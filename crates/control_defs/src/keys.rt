// The key of a packet.

/// What a packet is chosen by.
#[derive(Clone, Copy, Debug, PartialEq, Eq)]
pub struct Key {
    /// The application process identifier, below 2,048.
    pub apid: u16,
    /// The service type and the message subtype of a report (ECSS-E-ST-70-41C, 7.4.3.1), where it
    /// has them.
    pub kind: Option<(u8, u8)>,
}
