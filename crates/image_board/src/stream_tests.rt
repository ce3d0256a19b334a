// What no clause says of readers and writers: which of their errors are taken up again.
ghost use Rattle.std.specs.Prelude.{◌≤◌, false, IfOk};

use crate::{FileBoard, Reader, StdSource};
use board::{Board, Failed, Source};
use std::fs::{self, File, OpenOptions};
use std::io::{self, BufWriter, Cursor, Error, ErrorKind, Read, Write};
use std::test::Fail;

/// What a call of a stream does: it moves this many octets, is interrupted, or fails.
#[derive(Clone, Copy)]
enum Act {
    Move(usize),
    Interrupt,
    Fail,
}

const ACTS: [Act; 7] = [
    Act::Move(1),
    Act::Interrupt,
    Act::Interrupt,
    Act::Move(3),
    Act::Fail,
    Act::Move(2),
    Act::Move(0),
];

/// A stream whose calls do these in turn, and then move nothing. It gives the octets 0, 1, 2 and on, and
/// keeps how many it was given.
#[derive(Drop)]
struct Halting {
    made: usize,
    next: u8,
}

impl Halting {
    fn new() -> Halting {
        Halting { made: 0, next: 0 }
    }

    // How many octets the next call moves, at most this many.
    fn act(&mut self, most: usize) -> io::Result<usize>
        ensures { IfOk result (λ count. count ≤ most) }
    {
        if self.made >= ACTS.len() {
            return Ok(0);
        }
        let act = ACTS[self.made];
        self.made += 1;
        match act {
            Act::Move(count) => Ok(count.min(most)),
            Act::Interrupt => Err(Error::from(ErrorKind::Interrupted)),
            Act::Fail => Err(Error::from(ErrorKind::Other)),
        }
    }
}

impl Reader for Halting {
    ghost tells = { false };

    ghost known = { λ reader told. told };
}

impl Read for Halting {
    fn read(&mut self, buf: &mut [u8]) -> io::Result<usize> {
        let count = self.act(buf.len())?;
        for octet in &mut buf[..count] {
            *octet = self.next;
            self.next = self.next.wrapping_add(1);
        }
        Ok(count)
    }
}

impl Write for Halting {
    fn write(&mut self, buf: &[u8]) -> io::Result<usize> {
        self.act(buf.len())
    }

    fn flush(&mut self) -> io::Result<()> {
        Ok(())
    }
}

#[test]
fn interrupted_reads_are_taken_up_again_and_others_are_faults(rt: HostRuntime) -> Result<(), Fail> {
    let mut source = StdSource::new(Halting::new());
    let mut octets = [255; 4];
    assert_eq!(rt; source.take(&mut octets), Ok(1));
    assert_eq!(rt; octets[0], 0);
    assert_eq!(rt; source.take(&mut octets), Ok(3));
    assert!(rt; octets.starts_with(&[1, 2, 3]));
    assert_eq!(rt; source.take(&mut octets), Err(Failed));
    assert_eq!(rt; source.take(&mut octets), Ok(2));
    assert!(rt; octets.starts_with(&[4, 5]));
    assert_eq!(rt; source.take(&mut octets), Ok(0));
    Ok(())
}

// A file to stand for the device, which no send touches.
fn no_device(rt: &HostRuntime) -> io::Result<File> {
    File::open(rt, "/dev/null")
}

#[test]
fn interrupted_writes_are_taken_up_again_and_others_are_faults(
    rt: HostRuntime,
) -> Result<(), Fail> {
    let mut board = FileBoard::new(no_device(&rt)?, 16, Halting::new());
    assert_eq!(rt; board.send(b""), Ok(()));
    assert_eq!(rt; board.send(b"four"), Ok(()));
    assert_eq!(rt; board.send(b"none"), Err(Failed));
    assert_eq!(rt; board.send(b"no"), Ok(()));
    // A writer that takes nothing.
    assert_eq!(rt; board.send(b"more"), Err(Failed));
    assert_eq!(rt; board.send(b""), Ok(()));
    Ok(())
}

#[test]
fn a_link_without_room_is_a_fault(rt: HostRuntime) -> Result<(), Fail> {
    let mut room = [0; 7];
    let mut board = FileBoard::new(no_device(&rt)?, 16, Cursor::new(room.as_mut_slice()));
    assert_eq!(rt; board.send(b"one, "), Ok(()));
    assert_eq!(rt; board.send(b"two"), Err(Failed));
    let full = OpenOptions::new().write(true).open(&rt, "/dev/full")?;
    let mut board = FileBoard::new(no_device(&rt)?, 16, full);
    assert_eq!(rt; board.send(b"one"), Err(Failed));
    Ok(())
}

#[test]
fn nothing_that_was_sent_waits_in_a_buffer(rt: HostRuntime) -> Result<(), Fail> {
    let path = "image_board_sent";
    let out = BufWriter::new(rt.alloc(), File::create(&rt, path)?)?;
    let mut board = FileBoard::new(no_device(&rt)?, 16, out);
    board.send(b"one, ")?;
    assert_eq!(rt; fs::read(&rt, path)?.as_slice(), b"one, ".as_slice());
    board.send(b"two")?;
    assert_eq!(rt; fs::read(&rt, path)?.as_slice(), b"one, two".as_slice());
    fs::remove_file(&rt, path)?;
    Ok(())
}
