// The lines that go out.
ghost use Rattle.std.specs.Prelude.{◌≡◌, ◌+◌, ◌*◌, ◌≤◌, ◌<◌, ◌++◌, length, drop};
ghost use Rattle.octet_fields.specs.Fields.{Writes};
ghost use Rattle.hex.specs.Hex.{encode_lower};
ghost use Rattle.pst_model.specs.Output.{output_line};

use octet_fields::put_u8;

/// Puts the text of the octets at `at`, in lower case.
fn put_hex(bytes: &[u8], out: &mut [u8], at: usize)
    requires { at + 2 * length bytes.now ≤ length out.old }
    ensures { Writes out.old out.new at (encode_lower bytes.now) }
{
    let end = at + 2 * bytes.len();
    hex::encode_to_slice(bytes, &mut out[at..end]).unwrap();
}

/// Writes the output line of a packet of at most 4,096 octets at the front of `out`, which has at
/// least 8,195 octets, and answers the line's length. The channel is below 8. The rest of `out` stays.
pub fn write_line(channel: u8, packet: &[u8], out: &mut [u8]) -> u32
    requires digit { channel < 8 }
    requires short { length packet.now ≤ 4096 }
    requires room { 8195 ≤ length out.old }
    ensures length { result ≡ length (output_line channel packet.now) }
    ensures few { result ≤ 8195 }
    ensures line { out.new ≡ output_line channel packet.now ++ drop (length (output_line channel packet.now)) out.old }
{
    let end = 2 + 2 * packet.len();
    put_u8(out, 0, b'0' + channel);
    put_u8(out, 1, b' ');
    put_hex(packet, out, 2);
    put_u8(out, end, b'\n');
    end as u32 + 1
}
