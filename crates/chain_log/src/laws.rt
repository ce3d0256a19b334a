// Laws on records on a flash.
ghost use Rattle.std.specs.Prelude.{◌≡◌, ◌<◌, ◌≤◌, ◌+◌, ◌*◌, ◌^◌, ℕ, List, Some, length};
ghost use Rattle.board.specs.Flash.{IsContent};
ghost use Rattle.space_packet.specs.Charge.{charge_of};
ghost use Rattle.space_packet.specs.Packet.{IsPacket};
ghost use Rattle.record_view.specs.Records.{Meaning, record_at};
ghost use Rattle.record_view.specs.Written.{record_pages};
ghost use Rattle.chain_log.specs.declared.place.Place.{Place};
ghost use Rattle.chain_log.specs.Loaded.{IsFound, IsPlace, octets_at};
ghost use Rattle.chain_log.specs.Pages.{AreWritten, block_octets};

/// A record at its place reads as it was written, on each content of a device whose pages there
/// hold it: after a barrier, in each image.
pub fn records_stand()
    ensures { (blocks : ℕ) (content : ℕ → List ℕ) (block page number stamp : ℕ) (packet : List ℕ)
        → IsContent blocks content → block < blocks
        → page + charge_of (length packet) ≤ 256
        → number < 2 ^ 32 → stamp < 2 ^ 48 → IsPacket packet
        → AreWritten content (256 * block + page) (charge_of (length packet))
        (record_pages number stamp packet)
        → record_at (block_octets content block) number page
        ≡ Some (record { number = number; stamp = stamp; packet = packet }) }
{}

/// A record is spelled at its place as long as its pages hold what they held, whatever becomes of
/// all others.
pub fn records_stay()
    ensures { (blocks : ℕ) (content other : ℕ → List ℕ) (block page number : ℕ) (meaning : Meaning)
        → IsContent blocks content → IsContent blocks other → block < blocks
        → record_at (block_octets content block) number page ≡ Some meaning
        → ((i : ℕ) → i < charge_of (length meaning.packet)
        → other (256 * block + page + i) ≡ content (256 * block + page + i))
        → record_at (block_octets other block) number page ≡ Some meaning }
{}

/// A record that is spelled at a place is what is loaded there, and no pair differs.
pub fn records_are_loaded()
    ensures { (blocks : ℕ) (content : ℕ → List ℕ) (place : Place) (number : ℕ) (meaning : Meaning)
        → IsContent blocks content → IsPlace blocks place
        → record_at (block_octets content place.block) number place.page ≡ Some meaning
        → length meaning.packet ≡ place.length
        → IsFound (octets_at content place) number place.length meaning }
{}
