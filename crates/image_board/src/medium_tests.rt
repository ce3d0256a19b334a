// A board over a medium whose calls are observable, and which fails where it is told to.
ghost use Rattle.std.specs.Prelude.{◌≡◌, Some, is_ok};
ghost use Rattle.board.specs.Kinds.{one_more};
ghost use Rattle.image_board.specs.Medium.{Erase, Read, Sync, Write};

use crate::{FileBoard, Medium};
use board::{Board, Failed};
use std::io::{self, ErrorKind};
use std::test::Fail;

/// A call of a medium, and whether it went well.
#[derive(Clone, Copy)]
enum Call {
    Read(u64, bool),
    Write(u64, [u8; 256], bool),
    Erase(u64, bool),
    Sync(bool),
}

/// A medium that holds nothing. It counts its calls, keeps the last one, and fails the call with this
/// number.
#[derive(Drop)]
struct Noting {
    count: u64,
    last: Call,
    fails_at: u64,
}

impl Noting {
    fn new(fails_at: u64) -> Noting {
        Noting {
            count: 0,
            last: Call::Sync(true),
            fails_at,
        }
    }

    // Whether the next call goes well.
    fn goes_well(&self) -> bool {
        self.count.saturating_add(1) != self.fails_at
    }

    fn note(&mut self, last: Call, ok: bool) -> io::Result<()>
        ensures count { self.new.count ≡ one_more self.old.count }
        ensures last { self.new.last ≡ last }
        ensures same { is_ok result ≡ ok }
    {
        self.count = self.count.saturating_add(1);
        self.last = last;
        if ok {
            Ok(())
        } else {
            Err(ErrorKind::Other.into())
        }
    }
}

impl Medium for Noting {
    ghost use Rattle.image_board.specs.declared.medium_tests.Call.TheVariants as it;

    ghost log = { λ medium. Some (record {
      count = medium.count;
      last = elim medium.last [
        | it.Read offset ok ↦ Read offset ok
        | it.Write offset octets ok ↦ Write offset octets ok
        | it.Erase offset ok ↦ Erase offset ok
        | it.Sync ok ↦ Sync ok
      ];
    }) };

    fn read_at_offset(&mut self, offset: u64, into: &mut [u8]) -> io::Result<()> {
        let ok = self.goes_well();
        into.fill(170);
        self.note(Call::Read(offset, ok), ok)
    }

    fn write_at_offset(&mut self, offset: u64, from: &[u8]) -> io::Result<()> {
        let ok = self.goes_well();
        let mut octets = [0; 256];
        octets.copy_from_slice(from);
        self.note(Call::Write(offset, octets, ok), ok)
    }

    fn erase_at_offset(&mut self, offset: u64) -> io::Result<()> {
        let ok = self.goes_well();
        self.note(Call::Erase(offset, ok), ok)
    }

    fn sync(&mut self) -> io::Result<()> {
        let ok = self.goes_well();
        self.note(Call::Sync(ok), ok)
    }
}

#[test]
fn a_call_fails_where_its_medium_does(rt: HostRuntime) -> Result<(), Fail> {
    for fails_at in 0..6u64 {
        let medium = Noting::new(fails_at);
        let mut board = FileBoard::new(medium, 16, Vec::new(rt.alloc()));
        let mut into = [0; 256];
        let page = [1; 256];
        let outcome = |number| {
            if number == fails_at {
                Err(Failed)
            } else {
                Ok(())
            }
        };
        assert_eq!(rt; board.program(0, 0, &page), outcome(1), "{fails_at}");
        assert_eq!(rt; board.erase(1), outcome(2), "{fails_at}");
        assert_eq!(rt; board.read_page(0, 0, &mut into), outcome(3), "{fails_at}");
        assert_eq!(rt; board.barrier(), outcome(4), "{fails_at}");
        assert_eq!(rt; board.is_broken(), fails_at == 4, "{fails_at}");
        assert_eq!(rt;
            board.program(0, 1, &page).is_err(),
            fails_at == 4 || fails_at == 5
        );
        assert_eq!(rt; board.barrier().is_err(), fails_at == 4);
    }
    Ok(())
}
