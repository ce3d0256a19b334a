// The reports that answer a request, one behind the other.
ghost use Rattle.std.specs.Prelude.{◌≡◌, ◌≤◌, ◌<◌, ◌^◌, ℕ, length, true, IfOk, OnOk, OnErr};
ghost use Rattle.handler.specs.Carrying.{IsReady, IsShownBy};
ghost use Rattle.handler.specs.Reporting.{reports_for};
ghost use Rattle.pst_model.specs.Contents.{content_report};
ghost use Rattle.pst_model.specs.Replies.{replies_from};
ghost use Rattle.pst_model.specs.Reports.{count_behind};
ghost use Rattle.pst_model.specs.Table.{Table};
ghost use Rattle.pus_request.specs.View.{listed};
ghost use Rattle.report_lines.specs.Counting.{IsCountOf, IsSmall};
ghost use Rattle.report_lines.specs.Sending.{BreaksIn, SendsLines};

use board::{Board, Failed};
use pus_report::Head;
use pus_request::Items;
use report_lines::{Buffers, Sent, completed, send_verdicts, verdicts_before};
use vault::Vault;

/// The sequence counts of packets (CCSDS 133.0-B, 4.1.3.4.3).
const COUNTS: u32 = 16384;

/// A request that was carried out.
#[derive(Clone, Copy)]
pub(crate) struct Carried<'a> {
    /// Its identifier.
    pub identifier: [u8; 4],
    /// Its acknowledgement flags.
    pub acks: u8,
    /// Its instructions.
    pub items: Items<'a>,
}

/// The sequence count behind so many reports.
pub(crate) fn count_after(count: u16, reports: u32) -> u16
    requires count { count < 16384 }
    requires reports { reports ≤ 1000 }
    ensures after { result ≡ count_behind count reports }
    ensures below { result < 16384 }
{
    ((u32::from(count) + reports) % COUNTS) as u16
}

// Sends the content report on instructions, if there is one.
fn send_content<B: Board>(
    vault: &Vault,
    buffers: &mut Buffers,
    board: &mut B,
    head: Head,
    items: &Items<'_>,
) -> Result<Sent, Failed>
    requires is_open { vault.now.is_open ≡ true }
    requires count { head.count < 16384 }
    requires moment { head.moment < 2 ^ 48 }
    ensures sends { OnOk result ((table : Table) (number : ℕ) → IsShownBy vault.now table
        → SendsLines B.means board.old board.new
        (replies_from number head.moment head.count (content_report (listed items.now) table))) }
    ensures counted { IfOk result (λ sent. (table : Table) (number : ℕ) → IsShownBy vault.now table
        → IsCountOf (replies_from number head.moment head.count
        (content_report (listed items.now) table)) sent) }
    ensures small { IfOk result IsSmall }
    ensures breaks { OnErr result ((table : Table) (number : ℕ) → IsShownBy vault.now table
        → BreaksIn B.means board.old board.new
        (replies_from number head.moment head.count (content_report (listed items.now) table))) }
{
    let view = vault.view();
    let Some(size) = buffers.write_content(&view, items, head) else {
        return Ok(Sent::default());
    };
    let octets = buffers.send_report(board, size)?;
    Ok(Sent {
        replies: 1,
        octets: u64::from(octets),
        ..Sent::default()
    })
}

/// Sends all that answers a request that was carried out, some of whose instructions failed: each
/// with its number, from 1, and its code. The first report has the count and the time of the head.
pub(crate) fn send_answer<B: Board>(
    vault: &Vault,
    buffers: &mut Buffers,
    board: &mut B,
    head: Head,
    request: &Carried<'_>,
    failures: &[(u8, u8)],
) -> Result<Sent, Failed>
    requires is_open { vault.now.is_open ≡ true }
    requires count { head.count < 16384 }
    requires moment { head.moment < 2 ^ 48 }
    requires few { length failures.now ≤ 32 }
    ensures sends { OnOk result ((table : Table) (number : ℕ) → IsShownBy vault.now table
        → SendsLines B.means board.old board.new (replies_from number head.moment head.count
        (reports_for request.now.identifier request.now.acks failures.now
        (listed request.now.items) table))) }
    ensures counted { IfOk result (λ sent. (table : Table) (number : ℕ) → IsShownBy vault.now table
        → IsCountOf (replies_from number head.moment head.count
        (reports_for request.now.identifier request.now.acks failures.now
        (listed request.now.items) table)) sent) }
    ensures breaks { OnErr result ((table : Table) (number : ℕ) → IsShownBy vault.now table
        → BreaksIn B.means board.old board.new (replies_from number head.moment head.count
        (reports_for request.now.identifier request.now.acks failures.now
        (listed request.now.items) table))) }
{
    let Head { count, moment } = head;
    let identifier = request.identifier;
    let before = verdicts_before(request.acks, failures);
    let first = send_verdicts(board, buffers, count, moment, identifier, before.as_slice())?;
    let count = count_after(count, before.len() as u32);
    let content = send_content(
        vault,
        buffers,
        board,
        Head { count, moment },
        &request.items,
    )?;
    let count = count_after(count, content.replies);
    let after = completed(request.acks, failures);
    let last = send_verdicts(board, buffers, count, moment, identifier, after.as_slice())?;
    Ok(first.and(content, last))
}
