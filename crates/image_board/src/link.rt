// A writer as the link of a device.
ghost use Rattle.std.specs.Prelude.{◌≡◌, ◌<◌, ◌≤◌, length, take, IfOk, OnErr, OnOk};
ghost use Rattle.std.specs.Io.KnownBytes.{Appends, Keeps};
ghost use Rattle.image_board.specs.Writing.{AppendsFront};

use std::io::{self, ErrorKind, Write};

// Writes some of the octets and returns how many: none if a signal came before any. It is an error if the
// writer takes none without a signal.
fn write_some<W: Write>(out: &mut W, bytes: &[u8]) -> io::Result<usize>
    requires { 0 < length bytes.now }
    ensures count { IfOk result (λ count. count ≤ length bytes.now) }
    ensures ok { IfOk result (λ count. Appends (W.contents out.old) (W.contents out.new) (take count bytes.now)) }
    ensures err { OnErr result (Keeps (W.contents out.old) (W.contents out.new)) }
{
    match out.write(bytes) {
        Ok(0) => Err(ErrorKind::WriteZero.into()),
        Err(error) if error.kind() == ErrorKind::Interrupted => Ok(0),
        outcome => outcome,
    }
}

// Writes the octets, as many at a time as the writer takes.
fn write_all<W: Write>(out: &mut W, bytes: &[u8]) -> io::Result<()>
    ensures ok { OnOk result (Appends (W.contents out.old) (W.contents out.new) bytes.now) }
    ensures err { OnErr result (AppendsFront (W.contents out.old) (W.contents out.new) bytes.now) }
{
    let mut rest = bytes;
    for _ in 0..u64::MAX {
        if rest.is_empty() {
            return Ok(());
        }
        let count = write_some(out, rest)?;
        rest = &rest[count..];
    }
    Err(ErrorKind::TimedOut.into())
}

/// Writes the octets, and leaves none behind in a buffer of the writer.
pub fn send_all<W: Write>(out: &mut W, bytes: &[u8]) -> io::Result<()>
    ensures ok { OnOk result (Appends (W.contents out.old) (W.contents out.new) bytes.now) }
    ensures err { OnErr result (AppendsFront (W.contents out.old) (W.contents out.new) bytes.now) }
{
    write_all(out, bytes)?;
    out.flush()
}
