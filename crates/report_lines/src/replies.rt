// The reports that answer a request, one behind the other, and the report of a refused packet.
ghost use Rattle.std.specs.Prelude.{◌≡◌, ◌≤◌, ◌<◌, ◌^◌, ◌∷◌, ℕ, [], map, length, IfOk, OnOk, OnErr};
ghost use Rattle.pst_model.specs.Replies.{replies_from, reply};
ghost use Rattle.pst_model.specs.Reports.{count_behind, event_report, verdict_report};
ghost use Rattle.report_lines.specs.Counting.{IsCountOf, IsSmall};
ghost use Rattle.report_lines.specs.Sending.{BreaksIn, SendsLines};

use crate::buffers::Buffers;
use crate::sent::Sent;
use board::{Board, Failed};
use pus_report::{Head, Verdict};

/// The sequence counts of packets (CCSDS 133.0-B, 4.1.3.4.3).
const COUNTS: u16 = 16384;

// The sequence count of the next report.
fn next_count(count: u16) -> u16
    requires { count < 16384 }
    ensures next { result ≡ count_behind count 1 }
    ensures below { result < 16384 }
{
    (count + 1) % COUNTS
}

/// Sends the reports of at most 34 verdicts on the request with this identifier. The first one has
/// this sequence count, below 16,384, and each other one the next, modulo 16,384. The moment is
/// below 2^48. An error says that the link failed.
pub fn send_verdicts<B: Board>(
    board: &mut B,
    buffers: &mut Buffers,
    count: u16,
    moment: u64,
    request: [u8; 4],
    verdicts: &[Verdict],
) -> Result<Sent, Failed>
    requires count { count < 16384 }
    requires moment { moment < 2 ^ 48 }
    requires few { length verdicts.now ≤ 34 }
    ensures sends { OnOk result ((number : ℕ) → SendsLines B.means board.old board.new
        (replies_from number moment count (map (verdict_report request) verdicts.now))) }
    ensures counted { IfOk result (λ sent. (number : ℕ) → IsCountOf
        (replies_from number moment count (map (verdict_report request) verdicts.now)) sent) }
    ensures small { IfOk result IsSmall }
    ensures breaks { OnErr result ((number : ℕ) → BreaksIn B.means board.old board.new
        (replies_from number moment count (map (verdict_report request) verdicts.now))) }
{
    let mut sent = Sent::default();
    let mut next = count;
    for verdict in verdicts {
        let head = Head {
            count: next,
            moment,
        };
        let octets = buffers.send_verdict(board, head, *verdict, request)?;
        next = next_count(next);
        sent.replies += 1;
        sent.octets += u64::from(octets);
    }
    Ok(sent)
}

/// Sends the report that a store refused a packet for want of room, which needs `need` pages of 256
/// octets, of which `free` were free (the event 1 of ECSS-E-ST-70-41C, 6.5, of low severity). An
/// error says that the link failed.
pub fn send_event<B: Board>(
    board: &mut B,
    buffers: &mut Buffers,
    head: Head,
    store: u16,
    need: u32,
    free: u32,
) -> Result<Sent, Failed>
    requires count { head.count < 16384 }
    requires moment { head.moment < 2 ^ 48 }
    ensures sends { OnOk result ((number : ℕ) → SendsLines B.means board.old board.new
        (reply number head.moment head.count (event_report store need free) ∷ [])) }
    ensures counted { IfOk result (λ sent. (number : ℕ) → IsCountOf
        (reply number head.moment head.count (event_report store need free) ∷ []) sent) }
    ensures small { IfOk result IsSmall }
    ensures breaks { OnErr result ((number : ℕ) → BreaksIn B.means board.old board.new
        (reply number head.moment head.count (event_report store need free) ∷ [])) }
{
    let length = buffers.write_event(head, store, need, free);
    let octets = buffers.send_report(board, length)?;
    Ok(Sent {
        replies: 1,
        octets: u64::from(octets),
        ..Sent::default()
    })
}
