// A device is formatted.
ghost use Rattle.std.specs.Prelude.{◌≡◌, ℕ, List, OnOk, OnErr};
ghost use Rattle.board.specs.Counts.{Rose};
ghost use Rattle.board.specs.Flash.{IsImage};
ghost use Rattle.board.specs.Meaning.{TellsFlash};
ghost use Rattle.board.specs.Touches.{Touches};
ghost use Rattle.image_table.specs.Standing.{HoldsTable};
ghost use Rattle.meta_journal.specs.Halves.{format_pages};
ghost use Rattle.meta_journal.specs.Standing.{AllFirm};
ghost use Rattle.pst_model.specs.Table.{after_format};

use crate::vault::Vault;
use board::{Board, Failed};

impl Vault {
    /// Formats a device, whatever it holds: its table is then that of one store, which takes every
    /// packet and holds none. It takes no memory and reads nothing. `Failed`: a call of the board
    /// failed, and the device may hold no table.
    pub fn format<B: Board>(board: &mut B) -> Result<(), Failed>
        // From `Ok` on each image holds the table after a format, and so does each that a later stop
        // leaves, as long as the flash stays.
        ensures holds { OnOk result (TellsFlash B.means board.old → (image : ℕ → List ℕ)
            → B.means.images board.new (B.means.moment board.new) image
            → HoldsTable (B.means.device board.old).blocks after_format image) }
        ensures later { OnOk result (TellsFlash B.means board.old → (image : ℕ → List ℕ)
            → IsImage (B.means.device board.old).blocks (B.means.flash board.new) image
            → HoldsTable (B.means.device board.old).blocks after_format image) }
        ensures seen { OnOk result (TellsFlash B.means board.old → B.means.images
            board.new (B.means.moment board.new) (B.means.flash board.new).content) }
        ensures firm { OnOk result (TellsFlash B.means board.old
            → AllFirm (B.means.flash board.new)) }

        ensures touches { Touches B.means format_pages 12 5 8 board.old board.new }
        ensures no_fault { OnOk result
            ((B.means.counts board.new).flash_faults ≡ (B.means.counts board.old).flash_faults) }
        ensures cause { OnErr result (Rose (B.means.counts board.old).flash_faults
            (B.means.counts board.new).flash_faults) }
    {
        meta_journal::format(board)
    }
}
