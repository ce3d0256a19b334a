// What the definitions say of a board in memory, as contracts of functions that do nothing.
ghost use Rattle.std.specs.Prelude.{◌≡◌, ◌≤◌, ◌↔◌, ℕ, List};
ghost use Rattle.board.specs.declared.memory.MemBoard.{MemBoard};
ghost use Rattle.board.specs.Flash.{IsImage};
ghost use Rattle.board.specs.Memory.{device_of, flash_at, flash_of, image_at, moment_of};

/// A stop at a moment may leave exactly the images of the flash as it was after that many steps, and
/// after all of them it is the flash as it is now.
pub fn images_are_of_the_flash()
    ensures images { (board : MemBoard) (t : ℕ) (image : ℕ → List ℕ) → t ≤ moment_of board
        → image_at board t image ↔ IsImage (device_of board).blocks (flash_at board t) image }
    ensures now { (board : MemBoard) → flash_at board (moment_of board) ≡ flash_of board }
{}
