// Why a line is bad, and why the data of a telecommand is no request.

use space_packet::PacketFault;
use thiserror::Error;

/// Why a line is bad: the first of these that holds, in this order.
#[derive(Clone, Copy, Debug, PartialEq, Eq, Error)]
pub enum LineFault {
    /// Among the first 131,201 octets of the line, its LF with them, there is one past the limit of
    /// the text.
    #[error("text too long")]
    TextLimit,
    /// The line has more than 131,200 octets without its LF.
    #[error("line too long")]
    LongLine,
    /// Its fields are those of none of the known forms.
    #[error("no known form")]
    Form,
    /// Its octets are no packet.
    #[error(transparent)]
    Packet(PacketFault),
}

/// The first reason, in this order, why a telecommand is no request.
#[derive(Clone, Copy, Debug, PartialEq, Eq)]
pub enum RequestFault {
    /// A service type that is not known.
    UnknownService(u8),
    /// A message subtype that is not known.
    UnknownSubtype(u8),
    /// The application data is malformed at this octet: a list has no count from 1 to 32 (`at` is
    /// 0), or the first octet that is missing or too many stands there, or the first that its field
    /// cannot have.
    Malformed { at: u16 },
}
