// Telecommands, as views of their packets.
ghost use Rattle.std.specs.Prelude.{◌≡◌, drop};
ghost use Rattle.space_packet.specs.View.{octets_of};
ghost use Rattle.pus_header.specs.Commands.{
  IsCommandPacket,
  acks_of,
  identifier_of,
  service_of,
  source_of,
  subtype_of,
};

use crate::numbers::TC_HEADERS;
use octet_fields::u16_at;
use space_packet::PacketView;

/// A telecommand packet with a whole secondary header of PUS version 2 (ECSS-E-ST-70-41C, 7.4.4).
#[derive(Clone, Copy)]
pub struct TcView<'a> {
    packet: PacketView<'a>,
    ghost header: { IsCommandPacket (octets_of packet) },
}

/// The request identifier of a packet, as reports of service 1 name a request (8.1.2.1): its first
/// four octets.
pub fn identifier_of(packet: PacketView<'_>) -> [u8; 4]
    ensures { result ≡ identifier_of (octets_of packet.entry) }
{
    let bytes = packet.bytes();
    [bytes[0], bytes[1], bytes[2], bytes[3]]
}

impl<'a> TcView<'a> {
    ghost use Rattle.pus_header.specs.View.{command_octets};

    /// The view of a packet that is known to be a telecommand.
    pub fn new(packet: PacketView<'a>) -> TcView<'a>
        requires { IsCommandPacket (octets_of packet) }
        ensures { command_octets result ≡ octets_of packet.entry }
    {
        TcView { packet }
    }

    /// The acknowledgement flags, below 16: of acceptance 1, start 2, progress 4, completion 8.
    pub fn acks(&self) -> u8
        ensures { result ≡ acks_of (command_octets self.now) }
    {
        self.packet.bytes()[6] % 16
    }

    /// The service type.
    pub fn service(&self) -> u8
        ensures { result ≡ service_of (command_octets self.now) }
    {
        self.packet.bytes()[7]
    }

    /// The message subtype.
    pub fn subtype(&self) -> u8
        ensures { result ≡ subtype_of (command_octets self.now) }
    {
        self.packet.bytes()[8]
    }

    /// The source identifier.
    pub fn source(&self) -> u16
        ensures { result ≡ source_of (command_octets self.now) }
    {
        u16_at(self.packet.bytes(), 9)
    }

    /// The request identifier of its packet.
    pub fn request_id(&self) -> [u8; 4]
        ensures { result ≡ identifier_of (command_octets self.now) }
    {
        identifier_of(self.packet)
    }

    /// The application data: what follows the secondary header, maybe nothing.
    pub fn body(&self) -> &'a [u8]
        ensures { result.now ≡ drop 11 (command_octets self.now) }
    {
        &self.packet.bytes()[TC_HEADERS..]
    }
}
