// One output line on the link.
ghost use Rattle.std.specs.Prelude.{◌≡◌, ◌≤◌, ◌<◌, ◌∷◌, [], ℕ, length, IfOk, OnOk, OnErr};
ghost use Rattle.report_lines.specs.Sending.{BreaksIn, SendsLines};
ghost use Rattle.pst_model.specs.Output.{output_line};
ghost use Rattle.pst_model.specs.Rules.{OutputKind};

use board::{Board, Failed};
use session_text::write_line;

/// Sends the line of a packet of at most 4,096 octets on a channel below 8, which is written into `line`, of
/// at least 8,195 octets, and answers the octets of the line.
pub fn send_line<B: Board>(
    board: &mut B,
    channel: u8,
    packet: &[u8],
    line: &mut [u8],
) -> Result<u32, Failed>
    requires digit { channel < 8 }
    requires short { length packet.now ≤ 4096 }
    requires room { 8195 ≤ length line.old }
    ensures octets { IfOk result (λ octets. octets ≡ length (output_line channel packet.now)) }
    ensures few { IfOk result (λ octets. octets ≤ 8195) }
    ensures sends { OnOk result ((number : ℕ) (kind : OutputKind) → SendsLines B.means board.old board.new
        (record { command = number; kind = kind; channel = channel; packet = packet.now } ∷ [])) }
    ensures breaks { OnErr result ((number : ℕ) (kind : OutputKind) → BreaksIn B.means board.old board.new
        (record { command = number; kind = kind; channel = channel; packet = packet.now } ∷ [])) }
{
    let octets = write_line(channel, packet, line);
    board.send(&line[..octets as usize])?;
    Ok(octets)
}
