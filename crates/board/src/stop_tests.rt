// A script with failures, stopped at every moment, against a plain recomputation of a few pages.
ghost use Rattle.std.specs.Prelude.{◌<◌};

use crate::board::Board;
use crate::calls::CallKind;
use crate::memory::MemBoard;
use crate::script::{Act, clear, perform};
use crate::stop::Torn;
use std::alloc::Global;
use std::test::Fail;

// Each program is of the page of block 0 with its place in this list. The third program, erase and
// barrier fail, of which the first erase and barrier come before the list.
const SCRIPT: [Act; 12] = [
    Act::Program(1),
    Act::Barrier,
    Act::Program(2),
    Act::Erase(1),
    Act::Send,
    Act::Program(3),
    Act::Barrier,
    Act::Erase(2),
    Act::Program(4),
    Act::Barrier,
    Act::Erase(1),
    Act::Program(5),
];

const FAILS: [usize; 3] = [5, 6, 7];

// The pages that are looked at: those of the script, the first of block 1 and the last of block 2.
// Each holds one octet throughout.
#[derive(Clone, Copy)]
struct Model {
    now: [u8; 14],
    firm: [u8; 14],
    loose: [bool; 14],
}

impl Model {
    fn touch(&mut self, slot: usize, octet: Option<u8>) {
        if slot < 14 {
            self.loose[slot] = true;
            if let Some(octet) = octet {
                self.now[slot] = octet;
            }
        }
    }

    fn settle(&mut self) {
        self.firm = self.now;
        self.loose = [false; 14];
    }

    fn follow(&mut self, place: usize, act: Act, done: bool) {
        match act {
            Act::Program(octet) => self.touch(place, done.then_some(octet)),
            Act::Erase(1) => self.touch(12, done.then_some(255)),
            Act::Erase(_) => self.touch(13, done.then_some(255)),
            Act::Barrier if done => self.settle(),
            Act::Barrier | Act::Read | Act::Send => {}
        }
    }

    fn left(&self, slot: usize, torn: Torn) -> u8
        requires { slot < 14 }
    {
        if !self.loose[slot] {
            return self.now[slot];
        }
        match torn {
            Torn::Done => self.now[slot],
            Torn::Undone => self.firm[slot],
            Torn::Fill(octet) => octet,
        }
    }
}

fn place_of(slot: usize) -> (u32, u32)
    requires { slot < 14 }
    ensures block { result.0 < 16 }
    ensures page { result.1 < 256 }
{
    match slot {
        12 => (1, 0),
        13 => (2, 255),
        page => (0, page as u32),
    }
}

// The model at each moment, from an image of sevens on, whose block 0 is erased first.
fn run_script(alloc: Global, board: &mut MemBoard) -> Result<Option<Vec<Model>>, Fail> {
    let mut model = Model {
        now: [7; 14],
        firm: [7; 14],
        loose: [false; 14],
    };
    let mut models = Vec::new(alloc);
    models.push(model)?;
    if !clear(board) {
        return Ok(None);
    }
    for slot in 0..12 {
        model.touch(slot, Some(255));
    }
    models.push(model)?;
    model.settle();
    models.push(model)?;
    for place in 0..12 {
        let done = perform(board, place, SCRIPT[place as usize]);
        if done == FAILS.contains(&(place as usize)) {
            return Ok(None);
        }
        model.follow(place as usize, SCRIPT[place as usize], done);
        if board.moments() == models.len() as u64 {
            models.push(model)?;
        }
    }
    Ok(Some(models))
}

#[test]
fn a_stop_leaves_what_the_steps_say(rt: HostRuntime) -> Result<(), Fail> {
    let mut board = MemBoard::from_image(rt.alloc(), vec![in rt.alloc(); 7u8; 16 * 65_536]?)?;
    board.plan(CallKind::Program, 3)?;
    board.plan(CallKind::Erase, 3)?;
    board.plan(CallKind::Barrier, 3)?;
    let models = run_script(rt.alloc(), &mut board)?.unwrap_or(Vec::new(rt.alloc()));
    assert_eq!(rt; board.moments(), 13);
    assert_eq!(rt; models.len(), 14);
    for (moment, model) in models.iter().enumerate() {
        for torn in [Torn::Done, Torn::Undone, Torn::Fill(0x5a)] {
            if moment as u64 > board.moments() {
                continue;
            }
            let stopped = board.after_stop(rt.alloc(), moment as u64, torn)?;
            assert_eq!(rt; stopped.moments(), 0);
            for slot in 0..14 {
                let (block, page) = place_of(slot);
                let octet = model.left(slot, torn);
                assert_eq!(rt;
                    stopped.page(block, page),
                    [octet; 256].as_slice(),
                    "page {slot}, moment {moment}"
                );
            }
        }
    }
    Ok(())
}
