// How many reports answer a request.
ghost use Rattle.std.specs.Prelude.{◌≡◌, ◌≤◌, length};
ghost use Rattle.request_laws.specs.Counting.{ask_content, reports_made};

use control_defs::Instruction;

// The acknowledgement flags, by their values (ECSS-E-ST-70-41C, 7.4.4.1).
const ACCEPTANCE: u8 = 1;

const START: u8 = 2;

const COMPLETION: u8 = 8;

// Whether a request for instructions of one kind is answered by a content report.
fn asks_content(items: &[Instruction]) -> bool
    ensures { result ≡ ask_content items.now }
{
    match items.first() {
        Some(
            Instruction::ForwardReport
            | Instruction::ReportTypes(_)
            | Instruction::Summary(_)
            | Instruction::Status
            | Instruction::Configuration,
        ) => true,
        _ => false,
    }
}

/// How many reports answer a request for at most 32 instructions of one kind with these
/// acknowledgement flags, if `failed` of them failed: of acceptance if asked; on each that failed,
/// or of the start if asked; what was asked for, if one did not fail; of completion if asked, or if
/// one failed.
pub(crate) fn reports_on(items: &[Instruction], acks: u8, failed: u16) -> u16
    requires { failed ≤ 32 }
    ensures reports { result ≡ reports_made acks items.now failed }
    ensures few { result ≤ 36 }
{
    let accepted = acks / ACCEPTANCE % 2 == 1;
    let started = failed == 0 && acks / START % 2 == 1;
    let content = asks_content(items) && usize::from(failed) < items.len();
    let completed = failed > 0 || acks / COMPLETION % 2 == 1;
    u16::from(accepted) + failed + u16::from(started) + u16::from(content) + u16::from(completed)
}
