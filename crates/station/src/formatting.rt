// A format, and nothing else.
ghost use Rattle.std.specs.Prelude.{◌≡◌};
ghost use Rattle.station.specs.Station.{Formats, IsCaused};

use crate::ending::Ending;
use board::Board;
use vault::Vault;

/// Formats the flash.
pub fn format_only<B: Board>(board: &mut B) -> Ending
    ensures formats { Formats B.means board.old board.new result }
    ensures caused { IsCaused B.means board.old board.new result }
    ensures same { B.means.device board.new ≡ B.means.device board.old }
{
    match Vault::format(board) {
        Ok(()) => Ending::Done,
        Err(_) => Ending::FlashFault,
    }
}
