// Why octets are no packet.

use thiserror::Error;

/// The first reason, in this order, why octets are no packet. Lengths are in octets.
#[derive(Clone, Copy, Debug, PartialEq, Eq, Error)]
pub enum PacketFault {
    /// Fewer octets than the header needs (6), or than its length field says.
    #[error("packet short: have {have} need {need}")]
    Short { have: u32, need: u32 },
    /// A packet version number other than 0.
    #[error("packet version {found}")]
    Version { found: u8 },
    /// A length field that says more than 4,096 octets.
    #[error("packet too large: need {need}")]
    TooLarge { need: u32 },
    /// Octets behind the packet.
    #[error("packet long: have {have} need {need}")]
    Long { have: u32, need: u32 },
}
