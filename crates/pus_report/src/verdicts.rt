// Reports of request verification (ECSS-E-ST-70-41C, 8.1.2).
ghost use Rattle.std.specs.Prelude.{◌≡◌, ◌+◌, ◌<◌, ◌≤◌, ◌^◌, ◌∷◌, ◌++◌, length, drop};
ghost use Rattle.octet_fields.specs.Fields.{Writes, big_bytes};
ghost use Rattle.space_packet.specs.Packet.{IsPacket};
ghost use Rattle.pst_model.specs.Reports.{failure_octets, report_packet, verdict_report, verdict_subtype};

use crate::head::{Head, put_head};
use octet_fields::{put_octets, put_u8, put_u16};
use pst_model::Verdict;
use pus_header::TM_HEADERS;

/// The service of request verification.
const VERIFICATION: u8 = 1;

/// The octets of a request identifier.
const IDENTIFIER: u32 = 4;

// The message subtype of a verdict.
fn subtype_of(verdict: Verdict) -> u8
    ensures { result ≡ verdict_subtype verdict }
{
    match verdict {
        Verdict::Accepted => 1,
        Verdict::Refused { .. } => 2,
        Verdict::Started => 3,
        Verdict::StartFailed { .. } => 4,
        Verdict::Completed => 7,
        Verdict::CompletionFailed { .. } => 8,
    }
}

// How many octets say why a verdict is a failure, none of a success.
fn failure_length(verdict: Verdict) -> u32
    ensures { result ≡ length (failure_octets verdict) }
{
    match verdict {
        Verdict::Accepted | Verdict::Started | Verdict::Completed => 0,
        Verdict::Refused { .. } | Verdict::StartFailed { .. } | Verdict::CompletionFailed { .. } =>
            3,
    }
}

// Writes the code and the detail of a failure.
fn put_code(code: u8, detail: u16, out: &mut [u8], at: usize)
    requires { at + 3 ≤ length out.old }
    ensures { Writes out.old out.new at (code ∷ big_bytes 2 detail) }
{
    put_u8(out, at, code);
    put_u16(out, at + 1, detail);
}

// Writes what says why a verdict is a failure, nothing of a success.
fn put_failure(verdict: Verdict, out: &mut [u8], at: usize)
    requires { at + 3 ≤ length out.old }
    ensures { Writes out.old out.new at (failure_octets verdict) }
{
    match verdict {
        Verdict::Accepted | Verdict::Started | Verdict::Completed => {}
        Verdict::Refused { code, detail }
        | Verdict::StartFailed { code, detail }
        | Verdict::CompletionFailed { code, detail } => put_code(code, detail, out, at),
    }
}

/// Writes the report of a verdict on a request at the front of `out`, which has at least 1,024
/// octets, and answers the report's length: 23 octets of a success, 26 of a failure. The report is
/// of service 1; it names the request by its first four octets, and a failure by its code, one
/// octet, and its detail, two (ECSS-E-ST-70-41C, 8.1.2). The rest of `out` stays.
pub fn write_verdict(head: Head, verdict: Verdict, request: [u8; 4], out: &mut [u8]) -> u32
    requires count { head.count < 16384 }
    requires moment { head.moment < 2 ^ 48 }
    requires room { 1024 ≤ length out.old }
    ensures length { result ≡ length (report_packet head.count head.moment
        (verdict_report request verdict)) }
    ensures report { let packet = report_packet head.count head.moment
        (verdict_report request verdict)
        in out.new ≡ packet ++ drop (length packet) out.old }
    ensures short { result ≤ 1024 }
    ensures packet { IsPacket (report_packet head.count head.moment
        (verdict_report request verdict)) }
{
    let content = IDENTIFIER + failure_length(verdict);
    put_head(head, VERIFICATION, subtype_of(verdict), content, out);
    put_octets(out, TM_HEADERS, &request);
    put_failure(verdict, out, TM_HEADERS + IDENTIFIER as usize);
    TM_HEADERS as u32 + content
}
