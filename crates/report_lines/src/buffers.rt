// What reports and lines are written into before they are sent.
ghost use Rattle.std.specs.Prelude.{◌≡◌, ◌≤◌, ◌<◌, ◌^◌, ◌∷◌, [], ℕ, length, take, IfNone, IfSome, IfOk, OnOk, OnErr};
ghost use Rattle.report_lines.specs.Sending.{BreaksIn, SendsLines};
ghost use Rattle.pst_model.specs.Replies.{reply};
ghost use Rattle.pst_model.specs.Output.{output_line};
ghost use Rattle.pst_model.specs.Reports.{event_report, report_packet, verdict_report};
ghost use Rattle.pst_model.specs.Rules.{OutputKind, Reply};

use crate::content::write_content;
use crate::sending::send_line;
use board::{Board, Failed};
use pus_report::{Head, Verdict, write_event, write_verdict};
use pus_request::Items;
use std::alloc::{AllocError, Global};
use store_policy::View;

/// The octets of the longest report.
pub const LONGEST_REPORT: usize = 1024;

/// The octets of the longest output line.
const LONGEST_LINE: usize = 8195;

/// The channel of reports.
const REPORTS: u8 = 0;

/// Room for one report and one line.
#[derive(Drop)]
pub struct Buffers {
    report: Vec<u8>,
    line: Vec<u8>,
    ghost report_room: { length report.items ≡ 1024 },
    ghost line_room: { length line.items ≡ 8195 },
}

impl Buffers {
    ghost use Rattle.report_lines.specs.Content.{HoldsReport};
    ghost use Rattle.report_lines.specs.Times.{AllHaveTimes};
    ghost use Rattle.report_lines.specs.Written.{written_in};
    ghost use Rattle.pst_model.specs.Contents.{content_report};
    ghost use Rattle.pst_model.specs.Table.{Table};
    ghost use Rattle.pus_request.specs.View.{listed};
    ghost use Rattle.store_policy.specs.Shown.{IsTableShown};

    /// Empty buffers.
    pub fn new(alloc: Global) -> Result<Buffers, AllocError> {
        Ok(Buffers {
            report: vec![in alloc; 0; LONGEST_REPORT]?,
            line: vec![in alloc; 0; LONGEST_LINE]?,
        })
    }

    /// Sends the line of a packet of at most 4,096 octets on a channel below 8, and answers its octets.
    pub fn send<B: Board>(
        &mut self,
        board: &mut B,
        channel: u8,
        packet: &[u8],
    ) -> Result<u32, Failed>
        requires digit { channel < 8 }
        requires short { length packet.now ≤ 4096 }
        ensures octets { IfOk result (λ octets. octets ≡ length (output_line channel packet.now)) }
        ensures few { IfOk result (λ octets. octets ≤ 8195) }
        ensures sends { OnOk result ((number : ℕ) (kind : OutputKind) → SendsLines B.means board.old board.new
            (record { command = number; kind = kind; channel = channel; packet = packet.now } ∷ [])) }
        ensures breaks { OnErr result ((number : ℕ) (kind : OutputKind) → BreaksIn B.means board.old board.new
            (record { command = number; kind = kind; channel = channel; packet = packet.now } ∷ [])) }
    {
        send_line(board, channel, packet, &mut self.line)
    }

    /// Sends the report of so many octets, at most 1,024, that was written, and answers the octets of its line.
    pub fn send_report<B: Board>(&mut self, board: &mut B, size: u32) -> Result<u32, Failed>
        requires short { size ≤ 1024 }
        ensures octets { IfOk result (λ octets. octets ≡ length (output_line 0 (take size (written_in self.old)))) }
        ensures few { IfOk result (λ octets. octets ≤ 8195) }
        ensures sends { OnOk result ((number : ℕ) → SendsLines B.means board.old board.new
            (record { command = number; kind = Reply; channel = 0; packet = take size (written_in self.old) } ∷ [])) }
        ensures breaks { OnErr result ((number : ℕ) → BreaksIn B.means board.old board.new
            (record { command = number; kind = Reply; channel = 0; packet = take size (written_in self.old) } ∷ [])) }
    {
        send_line(
            board,
            REPORTS,
            &self.report[..size as usize],
            &mut self.line,
        )
    }

    // Writes the report of a verdict, and answers its length.
    fn write_verdict(&mut self, head: Head, verdict: Verdict, request: [u8; 4]) -> u32
        requires count { head.count < 16384 }
        requires moment { head.moment < 2 ^ 48 }
        ensures front { take result (written_in self.new) ≡ report_packet head.count head.moment (verdict_report request verdict) }
        ensures short { result ≤ 1024 }
    {
        write_verdict(head, verdict, request, &mut self.report)
    }

    /// Sends the report of a verdict on the request with this identifier, and answers the octets of its line.
    pub fn send_verdict<B: Board>(
        &mut self,
        board: &mut B,
        head: Head,
        verdict: Verdict,
        request: [u8; 4],
    ) -> Result<u32, Failed>
        requires count { head.count < 16384 }
        requires moment { head.moment < 2 ^ 48 }
        ensures octets { IfOk result (λ octets. octets ≡ length (output_line 0 (report_packet head.count head.moment (verdict_report request verdict)))) }
        ensures few { IfOk result (λ octets. octets ≤ 8195) }
        ensures sends { OnOk result ((number : ℕ) → SendsLines B.means board.old board.new
            (reply number head.moment head.count (verdict_report request verdict) ∷ [])) }
        ensures breaks { OnErr result ((number : ℕ) → BreaksIn B.means board.old board.new
            (reply number head.moment head.count (verdict_report request verdict) ∷ [])) }
    {
        let length = self.write_verdict(head, verdict, request);
        self.send_report(board, length)
    }

    /// Writes the report that a store refused a packet, which needs so many pages of which so many were
    /// free, and answers its length.
    pub(crate) fn write_event(&mut self, head: Head, store: u16, need: u32, free: u32) -> u32
        requires count { head.count < 16384 }
        requires moment { head.moment < 2 ^ 48 }
        ensures front { take result (written_in self.new) ≡ report_packet head.count head.moment (event_report store need free) }
        ensures short { result ≤ 1024 }
    {
        write_event(head, store, need, free, &mut self.report)
    }

    /// Writes the content report on instructions, by the stores that lie in memory, as `write_content`
    /// does, and returns its length, with which `send_report` sends it; None if there is no report.
    pub fn write_content(&mut self, view: &View<'_>, items: &Items<'_>, head: Head) -> Option<u32>
        requires count { head.count < 16384 }
        requires moment { head.moment < 2 ^ 48 }
        requires indexes { length view.now.indexes.now ≡ length view.now.directory.now.stores }
        requires timed { AllHaveTimes view.now.indexes.now }
        ensures none { IfNone result ((table : Table) → IsTableShown table view.now
            → content_report (listed items.now) table ≡ []) }
        ensures some { IfSome result (λ octets. (table : Table) → IsTableShown table view.now
            → HoldsReport (content_report (listed items.now) table) head (written_in self.new) octets) }
        ensures short { IfSome result (λ octets. octets ≤ 1024) }
    {
        write_content(view, items, head, &mut self.report)
    }
}
