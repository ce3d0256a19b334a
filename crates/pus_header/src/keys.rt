// The key of a packet, from its headers.
ghost use Rattle.std.specs.Prelude.{◌≡◌};
ghost use Rattle.space_packet.specs.View.{octets_of};
ghost use Rattle.pus_header.specs.Keys.{key_of};

use crate::numbers::{PUS_VERSION, TM_HEADERS};
use control_defs::Key;
use space_packet::PacketView;

/// The key of a packet. It has a service and a subtype where the packet is telemetry, its secondary
/// header flag is set, at least 13 octets follow the primary header and the PUS version number is 2
/// (ECSS-E-ST-70-41C, 7.4.3.1).
pub fn key_of(packet: &PacketView<'_>) -> Key
    ensures { result ≡ key_of (octets_of packet.now) }
{
    let bytes = packet.bytes();
    let is_report = !packet.is_command()
        && packet.has_secondary()
        && bytes.len() >= TM_HEADERS
        && bytes[6] / 16 == PUS_VERSION;
    let kind = if is_report {
        Some((bytes[7], bytes[8]))
    } else {
        None
    };
    Key {
        apid: packet.apid(),
        kind,
    }
}
