// What a session on a device in memory comes to: its output is printed when it has ended.
ghost use Rattle.std.specs.Prelude.{◌≡◌, ◌⊎◌, true, false, IsTrue};
ghost use Rattle.std.specs.Io.KnownBytes.{Appends};
ghost use Rattle.board.specs.Memory.{moment_of, sent_at};
ghost use Rattle.pusstore.specs.Printing.{IsOfDevice};

use board::MemBoard;
use station::Ending;
use std::io::Write;

/// Writes all that the link in memory was sent, and answers whether that went well.
pub fn print_sent<W: Write>(output: &mut W, board: &MemBoard) -> bool
    ensures printed { IsTrue result
        → Appends (W.contents output.old) (W.contents output.new) (sent_at board.now (moment_of board.now)) }
{
    output.write_all(board.sent()).is_ok() && output.flush().is_ok()
}

/// How the program ends, of how the session ended, whether its device found no memory, and whether its
/// output was printed.
pub fn outcome(ending: Ending, starved: bool, printed: bool) -> Ending
    ensures unprinted { printed ≡ false → result ≡ Ending.LinkFault }
    ensures no_memory { printed ≡ true → starved ≡ true → IsOfDevice ending
        → result ≡ Ending.NoMemory }
    ensures same { printed ≡ true → (starved ≡ false) ⊎ ¬ (IsOfDevice ending) → result ≡ ending }
{
    match ending {
        _ if !printed => Ending::LinkFault,
        Ending::LinkFault | Ending::FlashFault if starved => Ending::NoMemory,
        ending => ending,
    }
}
