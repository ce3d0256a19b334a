// Lines of a session text, written at a place.
ghost use Rattle.std.specs.Prelude.{◌≡◌, ◌+◌, ◌*◌, ◌≤◌, ◌<◌, ◌^◌, ◌∷◌, length};
ghost use Rattle.octet_fields.specs.Fields.{Writes, big_bytes};
ghost use Rattle.hex.specs.Hex.{encode_lower};
ghost use Rattle.traffic_gen.specs.Lines.{packet_line, timed_line};

use octet_fields::{put_u8, put_u48};

// Puts the text of the octets at `at`, in lower case.
fn put_hex(bytes: &[u8], out: &mut [u8], at: usize)
    requires { at + 2 * length bytes.now ≤ length out.old }
    ensures { Writes out.old out.new at (encode_lower bytes.now) }
{
    let end = at + 2 * bytes.len();
    hex::encode_to_slice(bytes, &mut out[at..end]).unwrap();
}

// Puts the letter, and the time behind a space, and answers the place behind them.
fn put_front(letter: u8, moment: u64, out: &mut [u8], at: usize) -> usize
    requires moment { moment < 2 ^ 48 }
    requires room { at + 14 ≤ length out.old }
    ensures end { result ≡ at + 14 }
    ensures front { Writes out.old out.new at (letter ∷ 32 ∷ encode_lower (big_bytes 6 moment)) }
{
    let mut time = [0; 6];
    put_u48(&mut time, 0, moment);
    put_u8(out, at, letter);
    put_u8(out, at + 1, b' ');
    put_hex(&time, out, at + 2);
    at + 14
}

/// Puts the line of a grant or an idle time at `at`, and answers the place behind it. The rest stays.
pub fn put_timed(letter: u8, moment: u64, out: &mut [u8], at: usize) -> usize
    requires moment { moment < 2 ^ 48 }
    requires room { at + 15 ≤ length out.old }
    ensures end { result ≡ at + length (timed_line letter moment) }
    ensures line { Writes out.old out.new at (timed_line letter moment) }
{
    let end = put_front(letter, moment, out, at);
    put_u8(out, end, b'\n');
    end + 1
}

/// Puts the line of an arrival or a request at `at`, and answers the place behind it. The rest stays.
pub fn put_packet(letter: u8, moment: u64, packet: &[u8], out: &mut [u8], at: usize) -> usize
    requires moment { moment < 2 ^ 48 }
    requires room { at + 16 + 2 * length packet.now ≤ length out.old }
    ensures end { result ≡ at + length (packet_line letter moment packet.now) }
    ensures line { Writes out.old out.new at (packet_line letter moment packet.now) }
{
    let front = put_front(letter, moment, out, at);
    put_u8(out, front, b' ');
    put_hex(packet, out, front + 1);
    let end = front + 1 + 2 * packet.len();
    put_u8(out, end, b'\n');
    end + 1
}
