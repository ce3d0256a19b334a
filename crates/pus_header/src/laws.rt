// Laws on headers.
ghost use Rattle.std.specs.Prelude.{◌≡◌, ◌↔◌, ◌<◌, ◌≤◌, ◌^◌, ◌++◌, ℕ, List, None, Some, IsSome, length};
ghost use Rattle.space_packet.specs.Packet.{IsPacket};
ghost use Rattle.pus_header.specs.Commands.{IsCommandPacket, tc_fault_of};
ghost use Rattle.pus_header.specs.Keys.{IsReport, key_of};
ghost use Rattle.pus_header.specs.Reports.{report_head};

/// A packet is a telecommand exactly where it has no fault as one.
pub fn command_or_fault()
    ensures { (octets : List ℕ) → (tc_fault_of octets ≡ None) ↔ IsCommandPacket octets }
{}

/// The key of a packet has a service and a subtype exactly where the packet is a report.
pub fn kind_or_none()
    ensures { (octets : List ℕ) → IsSome (key_of octets).kind ↔ IsReport octets }
{}

/// With as many octets behind it as it says, the head of a report makes a packet whose key is of
/// APID 10 and of the report's service and subtype.
pub fn report_reads_back()
    ensures packet { (count service subtype moment : ℕ) (content : List ℕ) → count < 16384
        → length content ≤ 4077
        → IsPacket (report_head count service subtype moment (length content) ++ content) }
    ensures key { (count service subtype moment : ℕ) (content : List ℕ) → count < 16384
        → length content ≤ 4077
        → key_of (report_head count service subtype moment (length content) ++ content)
        ≡ record { apid = 10; kind = Some (service, subtype) } }
{}
