// The primary header, as it is written.
ghost use Rattle.std.specs.Prelude.{◌≡◌, ◌++◌, ◌≤◌, length, drop};
ghost use Rattle.space_packet.specs.Header.{FieldsFit, header_of};

use octet_fields::put_u16;

/// The sequence flags of an unsegmented packet (4.1.3.4.2).
pub const UNSEGMENTED: u8 = 3;

/// The fields of a primary header of version 0 (CCSDS 133.0-B, 4.1.3).
#[derive(Clone, Copy, Debug, PartialEq, Eq)]
pub struct Primary {
    /// Whether it is a telecommand; else it is telemetry.
    pub command: bool,
    /// The secondary header flag.
    pub secondary: bool,
    /// The application process identifier, below 2,048.
    pub apid: u16,
    /// The sequence flags, below 4.
    pub flags: u8,
    /// The packet sequence count, below 16,384.
    pub count: u16,
    /// The packet data length: the octets behind the primary header, less one.
    pub length: u16,
}

/// Writes a primary header into the first 6 octets of `out`, and leaves the rest. `out` has at
/// least 6 octets.
pub fn write_primary(head: Primary, out: &mut [u8])
    requires fits { FieldsFit head }
    requires room { 6 ≤ length out.old }
    ensures { out.new ≡ header_of head ++ drop 6 out.old }
{
    let kind = u16::from(head.command) * 4096 + u16::from(head.secondary) * 2048;
    put_u16(out, 0, kind + head.apid);
    put_u16(out, 2, u16::from(head.flags) * 16384 + head.count);
    put_u16(out, 4, head.length);
}
