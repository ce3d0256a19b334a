// What a packet takes of a store.
ghost use Rattle.std.specs.Prelude.{◌≡◌, ◌≤◌};
ghost use Rattle.space_packet.specs.Charge.{charge_of};

/// The pages of 256 octets that a packet of this length, in octets, takes with its 16 octets of
/// record head. The length is at most 65,542.
pub fn charge(length: u32) -> u32
    requires { length ≤ 65542 }
    ensures { result ≡ charge_of length }
{
    (length + 16).div_ceil(256)
}
