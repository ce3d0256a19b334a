// What holds the octets of a device.
ghost use Rattle.std.specs.Prelude.{◌≡◌, ◌<◌, Option, None, length, is_ok};
ghost use Rattle.image_board.specs.Medium.{Erase, Log, Logs, Read, Sync, Write};

use crate::image::erase_blocks;
use std::fs::File;
use std::io;
use std::os::unix::fs::FileExt;

/// Octets that are kept. What a clause can know of it is how often it was called, and by which call last.
pub trait Medium {
    /// The calls that were made, if they are observable.
    ghost log: { Self → Option Log };

    /// Fills `into`, a page of 256 octets, with the octets from this offset on.
    fn read_at_offset(&mut self, offset: u64, into: &mut [u8]) -> io::Result<()>
        requires { length into.old ≡ 256 }
        ensures { Logs (log self.old) (log self.new) (Read offset (is_ok result)) };

    /// Writes a page of 256 octets from this offset on.
    fn write_at_offset(&mut self, offset: u64, from: &[u8]) -> io::Result<()>
        requires { length from.now ≡ 256 }
        ensures { Logs (log self.old) (log self.new) (Write offset from.now (is_ok result)) };

    /// Writes 255 to the 65,536 octets from this offset on.
    fn erase_at_offset(&mut self, offset: u64) -> io::Result<()>
        requires { offset < 33554432 }
        ensures { Logs (log self.old) (log self.new) (Erase offset (is_ok result)) };

    /// Returns Ok once what was written is durable.
    fn sync(&mut self) -> io::Result<()>
        ensures { Logs (log self.old) (log self.new) (Sync (is_ok result)) };
}

/// No clause can observe a file. Each method is one call of the system, repeated after a signal and for
/// what a short answer left; an erase has one for each 4,096 octets.
impl Medium for File {
    ghost log = { λ file. None };

    fn read_at_offset(&mut self, offset: u64, into: &mut [u8]) -> io::Result<()> {
        self.read_exact_at(into, offset)
    }

    fn write_at_offset(&mut self, offset: u64, from: &[u8]) -> io::Result<()> {
        self.write_all_at(from, offset)
    }

    fn erase_at_offset(&mut self, offset: u64) -> io::Result<()> {
        erase_blocks(self, offset, 1)
    }

    fn sync(&mut self) -> io::Result<()> {
        self.sync_data()
    }
}
