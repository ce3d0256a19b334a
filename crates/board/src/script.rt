// Calls of a board in memory, one after the other, for tests.
ghost use Rattle.std.specs.Prelude.{◌≡◌, ◌≤◌, ◌<◌, ℕ, IsTrue};
ghost use Rattle.board.specs.Flash.{IsClean};
ghost use Rattle.board.specs.Memory.{flash_of};

use crate::board::Board;
use crate::memory::MemBoard;

/// A call of a script.
#[derive(Clone, Copy)]
pub enum Act {
    Read,
    Program(u8),
    Erase(u32),
    Barrier,
    Send,
}

/// Makes one call, and answers whether it succeeded. A program fills that page of block 0 with its
/// octet, and an erase is of one of the other blocks.
pub fn perform(board: &mut MemBoard, page: u32, act: Act) -> bool
    requires page { page < 256 }
    requires clean { (p : ℕ) → page ≤ p → p < 256 → IsClean (flash_of board.old) p }
    ensures { (p : ℕ) → page < p → p < 256 → IsClean (flash_of board.new) p }
{
    match act {
        Act::Read => board.read_page(0, page, &mut [0; 256]).is_ok(),
        Act::Program(octet) => board.program(0, page, &[octet; 256]).is_ok(),
        Act::Erase(block) => (1..16).contains(&block) && board.erase(block).is_ok(),
        Act::Barrier => board.barrier().is_ok(),
        Act::Send => board.send(b"x").is_ok(),
    }
}

/// Erases block 0, and makes that firm: its pages are clean then.
pub fn clear(board: &mut MemBoard) -> bool
    ensures { IsTrue result → (p : ℕ) → p < 256 → IsClean (flash_of board.new) p }
{
    board.erase(0).is_ok() && board.barrier().is_ok()
}
