//! Number fields of octet slices, highest octet first, and what a write at a place leaves.
#![tactic(auto)]

ghost use Rattle.std.specs.Prelude.{◌≡◌, ◌+◌, ◌≤◌, ◌<◌, ◌^◌, ℕ, List, [], ◌∷◌, length};
ghost use Rattle.byteorder.specs.Endian.{big_bytes};
ghost use Rattle.octet_fields.specs.Fields.{Writes, field};

use byteorder::{BigEndian, ByteOrder};

/// The number in the two octets at `at`.
pub fn u16_at(bytes: &[u8], at: usize) -> u16
    requires { at + 2 ≤ length bytes.now }
    ensures { result ≡ field 2 at bytes.now }
{
    BigEndian::read_u16(&bytes[at..])
}

/// The number in the four octets at `at`.
pub fn u32_at(bytes: &[u8], at: usize) -> u32
    requires { at + 4 ≤ length bytes.now }
    ensures { result ≡ field 4 at bytes.now }
{
    BigEndian::read_u32(&bytes[at..])
}

/// The number in the six octets at `at`.
pub fn u48_at(bytes: &[u8], at: usize) -> u64
    requires { at + 6 ≤ length bytes.now }
    ensures value { result ≡ field 6 at bytes.now }
    ensures fits { result < 2 ^ 48 }
{
    BigEndian::read_u48(&bytes[at..])
}

/// The number in the eight octets at `at`.
pub fn u64_at(bytes: &[u8], at: usize) -> u64
    requires { at + 8 ≤ length bytes.now }
    ensures { result ≡ field 8 at bytes.now }
{
    BigEndian::read_u64(&bytes[at..])
}

/// Writes one octet at `at`, and leaves the rest.
pub fn put_u8(out: &mut [u8], at: usize, octet: u8)
    requires { at < length out.old }
    ensures { Writes out.old out.new at (octet ∷ []) }
{
    out[at] = octet;
}

/// Writes a number in two octets at `at`, and leaves the rest.
pub fn put_u16(out: &mut [u8], at: usize, number: u16)
    requires { at + 2 ≤ length out.old }
    ensures { Writes out.old out.new at (big_bytes 2 number) }
{
    BigEndian::write_u16(&mut out[at..], number);
}

/// Writes a number in four octets at `at`, and leaves the rest.
pub fn put_u32(out: &mut [u8], at: usize, number: u32)
    requires { at + 4 ≤ length out.old }
    ensures { Writes out.old out.new at (big_bytes 4 number) }
{
    BigEndian::write_u32(&mut out[at..], number);
}

/// Writes a number below 2^48 in six octets at `at`, and leaves the rest.
pub fn put_u48(out: &mut [u8], at: usize, number: u64)
    requires room { at + 6 ≤ length out.old }
    requires fits { number < 2 ^ 48 }
    ensures { Writes out.old out.new at (big_bytes 6 number) }
{
    BigEndian::write_u48(&mut out[at..], number);
}

/// Writes a number in eight octets at `at`, and leaves the rest.
pub fn put_u64(out: &mut [u8], at: usize, number: u64)
    requires { at + 8 ≤ length out.old }
    ensures { Writes out.old out.new at (big_bytes 8 number) }
{
    BigEndian::write_u64(&mut out[at..], number);
}

/// Writes octets at `at`, and leaves the rest.
pub fn put_octets(out: &mut [u8], at: usize, octets: &[u8])
    requires { at + length octets.now ≤ length out.old }
    ensures { Writes out.old out.new at octets.now }
{
    out[at..at + octets.len()].copy_from_slice(octets);
}

/// A number that was written at a place, in as many octets as hold it, is read back there.
pub fn written_reads_back()
    ensures { (old new : List ℕ) (at n number : ℕ) → number < 256 ^ n
        → Writes old new at (big_bytes n number) → field n at new ≡ number }
{}

#[cfg(test)]
mod tests {
    use super::*;

    #[test]
    fn the_highest_octet_comes_first(rt: HostRuntime) {
        let mut octets = [9u8; 24];
        put_u8(&mut octets, 0, 7);
        put_u16(&mut octets, 1, 300);
        put_u32(&mut octets, 3, 0x0102_0304);
        put_u48(&mut octets, 7, 0x0506_0708_090a);
        put_octets(&mut octets, 14, &[11]);
        put_u64(&mut octets, 15, 0x1112_1314_1516_1718);
        let written = [
            7u8, 1, 44, 1, 2, 3, 4, 5, 6, 7, 8, 9, 10, 9, 11, 17, 18, 19, 20, 21, 22, 23, 24, 9,
        ];
        assert!(rt; octets == written);
        assert_eq!(rt; u16_at(&written, 1), 300);
        assert_eq!(rt; u32_at(&written, 3), 0x0102_0304);
        assert_eq!(rt; u48_at(&written, 7), 0x0506_0708_090a);
        assert_eq!(rt; u64_at(&written, 15), 0x1112_1314_1516_1718);
    }
}
