// The payload pages of an entry.
ghost use Rattle.std.specs.Prelude.{◌≡◌, ◌<◌, ◌≤◌, ◌+◌, ◌^◌, length};
ghost use Rattle.byteorder.specs.Endian.{big_bytes};
ghost use Rattle.commit_gate.specs.Entries.{is_lawful, payload_pages};
ghost use Rattle.commit_gate.specs.Commits.{payload_octet, payload_page};

use byteorder::{BigEndian, ByteOrder};

/// How many pages a text of `length` octets fills, behind its length in four octets.
pub fn payload_pages(length: u32) -> u32
    requires { length ≤ 20476 }
    ensures { result ≡ payload_pages length }
{
    (length + 259) / 256
}

// An octet of the payload, whose first four are `head`.
fn payload_octet(head: &[u8], entry: &[u8], at: usize) -> u8
    requires { head.now ≡ big_bytes 4 (length entry.now) }
    ensures { result ≡ payload_octet entry.now at }
{
    if at < 4 {
        head[at]
    } else {
        entry.get(at - 4).copied().unwrap_or(0)
    }
}

/// Fills a page of 256 octets with its part of the payload.
pub fn fill_page(entry: &[u8], index: u32, page: &mut [u8])
    requires length { length page.old ≡ 256 }
    requires entry { length entry.now < 2 ^ 32 }
    ensures { page.new ≡ payload_page entry.now index }
{
    let mut head = [0; 4];
    BigEndian::write_u32(&mut head, entry.len() as u32);
    for (i, octet) in page.iter_mut().enumerate() {
        *octet = payload_octet(&head, entry, 256 * index as usize + i);
    }
}

/// Whether a text of `length` octets, at most `longest`, may stand from the page `first` of an area
/// on.
pub fn is_lawful(longest: u32, first: u32, length: u32) -> bool
    requires longest { longest ≤ 20476 }
    requires first { first ≤ 512 }
    ensures { result ≡ is_lawful longest first length }
{
    length >= 1 && length <= longest && first + payload_pages(length) <= 512
}
