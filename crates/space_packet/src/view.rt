// A whole packet, as a view of the octets that it was read from.
ghost use Rattle.std.specs.Prelude.{◌≡◌, ◌==◌, ◌<◌, ◌≤◌, ◌^◌, ◌↔◌, Some, length, drop, IsTrue, IsOk, IfOk, IfErr};
ghost use Rattle.space_packet.specs.Packet.{IsPacket, apid_of, fault_of, has_secondary, is_command, sequence_count_of, sequence_flags_of};

use crate::fault::PacketFault;
use octet_fields::u16_at;

/// The APID of idle packets (CCSDS 133.0-B, 4.1.3.3.4.4).
const IDLE: u16 = 2047;

/// The octets of the primary header.
const HEADER: usize = 6;

/// The greatest length of a packet, in octets, that is taken here.
const LARGEST: u32 = 4096;

/// One whole packet of 7 to 4,096 octets (CCSDS 133.0-B, 4.1).
#[derive(Clone, Copy)]
pub struct PacketView<'a> {
    bytes: &'a [u8],
    ghost whole: { IsPacket bytes.now },
}

impl<'a> PacketView<'a> {
    ghost use Rattle.space_packet.specs.View.{octets_of};

    /// The view of octets that are known to be one whole packet.
    pub fn new(bytes: &'a [u8]) -> PacketView<'a>
        requires { IsPacket bytes.now }
        ensures { octets_of result ≡ bytes.now }
    {
        PacketView { bytes }
    }

    /// The packet that the octets are, or the first fault that they have. The slice is shorter than
    /// 2^32 octets.
    pub fn read(bytes: &'a [u8]) -> Result<PacketView<'a>, PacketFault>
        requires { length bytes.now < 2 ^ 32 }
        ensures packet { IsOk result ↔ IsPacket bytes.now }
        ensures view { IfOk result (λ packet. octets_of packet ≡ bytes.now) }
        ensures fault { IfErr result (λ fault. fault_of bytes.now ≡ Some fault) }
    {
        let have = bytes.len() as u32;
        if bytes.len() < HEADER {
            return Err(PacketFault::Short {
                have,
                need: HEADER as u32,
            });
        }
        let need = 7 + u32::from(u16_at(bytes, 4));
        let version = u16_at(bytes, 0) / 8192;
        if have < need {
            return Err(PacketFault::Short { have, need });
        }
        if version != 0 {
            return Err(PacketFault::Version {
                found: version as u8,
            });
        }
        if need > LARGEST {
            return Err(PacketFault::TooLarge { need });
        }
        if have > need {
            return Err(PacketFault::Long { have, need });
        }
        Ok(PacketView::new(bytes))
    }

    /// Whether it is a telecommand; else it is telemetry (4.1.3.3.2).
    pub fn is_command(&self) -> bool
        ensures { result ≡ is_command (octets_of self.now) }
    {
        u16_at(self.bytes, 0) / 4096 % 2 == 1
    }

    /// The secondary header flag (4.1.3.3.3).
    pub fn has_secondary(&self) -> bool
        ensures { result ≡ has_secondary (octets_of self.now) }
    {
        u16_at(self.bytes, 0) / 2048 % 2 == 1
    }

    /// Whether its APID is that of idle packets.
    pub fn is_idle(&self) -> bool
        ensures { result ≡ (apid_of (octets_of self.now) == 2047) }
    {
        self.apid() == IDLE
    }

    /// The application process identifier, below 2,048 (4.1.3.3.4).
    pub fn apid(&self) -> u16
        ensures { result ≡ apid_of (octets_of self.now) }
    {
        u16_at(self.bytes, 0) % 2048
    }

    /// The sequence flags, below 4 (4.1.3.4.2).
    pub fn sequence_flags(&self) -> u8
        ensures { result ≡ sequence_flags_of (octets_of self.now) }
    {
        (u16_at(self.bytes, 2) / 16384) as u8
    }

    /// The packet sequence count, below 16,384 (4.1.3.4.3).
    pub fn sequence_count(&self) -> u16
        ensures { result ≡ sequence_count_of (octets_of self.now) }
    {
        u16_at(self.bytes, 2) % 16384
    }

    /// The whole packet, 7 to 4,096 octets.
    pub fn bytes(&self) -> &'a [u8]
        ensures octets { result.now ≡ octets_of self.now }
        ensures packet { IsPacket result.now }
    {
        self.bytes
    }

    /// What follows the primary header, at least one octet.
    pub fn user(&self) -> &'a [u8]
        ensures { result.now ≡ drop 6 (octets_of self.now) }
    {
        &self.bytes[HEADER..]
    }
}
