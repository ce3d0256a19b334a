// Laws on records.
ghost use Rattle.std.specs.Prelude.{◌≡◌, ◌↔◌, ◌<◌, ◌≤◌, ◌+◌, ◌*◌, ◌^◌, ◌++◌, ℕ, List, Some, length};
ghost use Rattle.space_packet.specs.Charge.{charge_of};
ghost use Rattle.space_packet.specs.Packet.{IsPacket};
ghost use Rattle.record_view.specs.Records.{Meaning, Spells, record_at};
ghost use Rattle.record_view.specs.Written.{record_octets};

/// A page of a block spells a record if and only if its number, its four zeros, its length and its
/// stamp are there, the octets after them are its packet, a whole one of 7 to 4,096 octets, and its
/// pages lie in the block.
pub fn records_are_read()
    ensures { (block : List ℕ) (number page : ℕ) (meaning : Meaning) → length block ≡ 65536
        → (record_at block number page ≡ Some meaning) ↔ Spells block number page meaning }
{}

/// A record that was written at a page of a block is read there, whatever comes before and after
/// it.
pub fn written_records_are_read()
    ensures { (front rest packet : List ℕ) (number stamp page : ℕ) → number < 2 ^ 32
        → stamp < 2 ^ 48 → IsPacket packet → length front ≡ 256 * page
        → page + charge_of (length packet) ≤ 256
        → record_at (front ++ (record_octets number stamp packet ++ rest)) number page
        ≡ Some (record { number = number; stamp = stamp; packet = packet }) }
{}
