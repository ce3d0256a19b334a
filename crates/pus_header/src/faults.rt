// Why a packet is no telecommand.

/// The first reason, in this order, why a packet is no telecommand with a header that is read here.
#[derive(Clone, Copy, Debug, PartialEq, Eq)]
pub enum TcFault {
    /// It is telemetry.
    NotCommand,
    /// Its secondary header flag is 0, or fewer than 5 octets follow the primary header.
    NoHeader,
    /// This PUS version number, which is not 2.
    WrongVersion(u8),
}
