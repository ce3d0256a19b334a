// That the calls of the flash reach the other board, and no line does; and what a caller knows of the
// other board afterwards.
ghost use Rattle.std.specs.Prelude.{◌≡◌, true};
ghost use Rattle.board.specs.Flash.{firm};
ghost use Rattle.board.specs.Meaning.{TellsFlash, TellsLink};

use super::*;
use board::{Board, CallKind, MemBoard};
use std::test::Fail;

#[test]
fn the_flash_is_called_and_the_link_is_not(rt: HostRuntime) -> Result<(), Fail> {
    let mut inner = MemBoard::new(rt.alloc(), 16)?;
    let mut muted = MutedBoard::new(&mut inner);
    let erased = muted.erase(3).is_ok();
    let firm = muted.barrier().is_ok();
    let sent = muted.send(b"line\n").is_ok();
    assert!(rt; erased && firm && sent);
    assert_eq!(rt; inner.count(CallKind::Erase), 1);
    assert_eq!(rt; inner.count(CallKind::Barrier), 1);
    assert_eq!(rt; inner.count(CallKind::Send), 0);
    assert!(rt; inner.sent().is_empty());
    Ok(())
}

// Calls the flash of any board.
fn make_firm<B: Board>(board: &mut B) -> bool
    ensures same { B.means.device board.new ≡ B.means.device board.old }
    ensures firm { result ≡ true → TellsFlash B.means board.old → B.means.flash board.new ≡ firm (B.means.flash board.old) }
{
    board.barrier().is_ok()
}

// What a caller knows of the other board behind a function over any board.
fn make_firm_muted<B: Board>(board: &mut B) -> bool
    ensures same { B.means.device board.new ≡ B.means.device board.old }
    ensures firm { result ≡ true → TellsFlash B.means board.old → B.means.flash board.new ≡ firm (B.means.flash board.old) }
    ensures sent { TellsLink B.means board.old → B.means.sent board.new (B.means.moment board.new)
        ≡ B.means.sent board.old (B.means.moment board.old) }
    ensures sends { (B.means.counts board.new).sends ≡ (B.means.counts board.old).sends }
    ensures link_faults { (B.means.counts board.new).link_faults ≡ (B.means.counts board.old).link_faults }
{
    let mut muted = MutedBoard::new(board);
    make_firm(&mut muted)
}
