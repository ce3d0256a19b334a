// A packet as a telecommand.
ghost use Rattle.std.specs.Prelude.{◌≡◌, ◌↔◌, Some, IsOk, IfOk, IfErr};
ghost use Rattle.space_packet.specs.View.{octets_of};
ghost use Rattle.pus_header.specs.Commands.{IsCommandPacket, tc_fault_of};
ghost use Rattle.pus_header.specs.View.{command_octets};

use crate::commands::TcView;
use crate::faults::TcFault;
use crate::numbers::{PUS_VERSION, TC_HEADERS};
use space_packet::PacketView;

/// The telecommand that a packet is, or the first fault that it has as one.
pub fn read_tc<'a>(packet: PacketView<'a>) -> Result<TcView<'a>, TcFault>
    ensures command { IsOk result ↔ IsCommandPacket (octets_of packet.entry) }
    ensures view { IfOk result (λ command. command_octets command ≡ octets_of packet.entry) }
    ensures fault { IfErr result (λ fault. tc_fault_of (octets_of packet.entry) ≡ Some fault) }
{
    if !packet.is_command() {
        return Err(TcFault::NotCommand);
    }
    if !packet.has_secondary() || packet.bytes().len() < TC_HEADERS {
        return Err(TcFault::NoHeader);
    }
    let version = packet.bytes()[6] / 16;
    if version != PUS_VERSION {
        return Err(TcFault::WrongVersion(version));
    }
    Ok(TcView::new(packet))
}
