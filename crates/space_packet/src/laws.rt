// Laws on packets.
ghost use Rattle.std.specs.Prelude.{◌≡◌, ◌↔◌, ◌<◌, ◌≤◌, ◌+◌, ◌++◌, ℕ, List, None, length};
ghost use Rattle.space_packet.specs.Header.{FieldsFit, HasFields, header_of};
ghost use Rattle.space_packet.specs.Packet.{IsPacket, fault_of};
ghost use Rattle.space_packet.specs.declared.header.Primary.{Primary};

/// Octets are a packet exactly where they have no fault.
pub fn fault_or_packet()
    ensures { (octets : List ℕ) → (fault_of octets ≡ None) ↔ IsPacket octets }
{}

/// A header that was written reads back as the fields that it was made of, whatever follows it.
/// With as many octets behind it as it says, it is a packet exactly where the whole has at most
/// 4,096.
pub fn header_reads_back()
    ensures fields { (head : Primary) (content : List ℕ) → FieldsFit head → head.length < 65536
        → HasFields (header_of head ++ content) head }
    ensures packet { (head : Primary) (content : List ℕ) → FieldsFit head
        → length content ≡ head.length + 1
        → IsPacket (header_of head ++ content) ↔ (7 + head.length ≤ 4096) }
{}
