// The verdicts on a request that is not refused.
ghost use Rattle.std.specs.Prelude.{◌≡◌, ◌==◌, ◌≤◌, ◌<◌, ◌+◌, ◌/◌, ◌%◌, ◌++◌, length, map};
ghost use Rattle.pst_model.specs.Answers.{completed, failed_start, if_asked, started, verdicts_before};

use arrayvec::ArrayVec;
use pst_model::Verdict;

/// The instructions that failed, at most 32: for each its number, from 1, and its code.
pub type Failures = ArrayVec<(u8, u8), 32>;

/// The verdicts on one request: of acceptance, on the instructions that failed, and of completion.
pub type Verdicts = ArrayVec<Verdict, 34>;

/// The code of a completion where some instructions failed.
const SOME_FAILED: u8 = 23;

// The acknowledgement flags, by their values (ECSS-E-ST-70-41C, 7.4.4.1).
const ACCEPTANCE: u8 = 1;

const START: u8 = 2;

const COMPLETION: u8 = 8;

// Adds the verdict where its flag is set.
fn push_asked(verdicts: &mut Verdicts, acks: u8, flag: u8, verdict: Verdict)
    requires room { length verdicts.old.items < 34 }
    requires flag { 0 < flag }
    ensures items { verdicts.new.items ≡ verdicts.old.items
        ++ if_asked (acks / flag % 2 == 1) verdict }
    ensures few { length verdicts.new.items ≤ length verdicts.old.items + 1 }
{
    if acks / flag % 2 == 1 {
        verdicts.push(verdict);
    }
}

// Adds a verdict on each instruction that failed.
fn push_failures(verdicts: &mut Verdicts, failures: &[(u8, u8)])
    requires { length verdicts.old.items + length failures.now < 34 }
    ensures { verdicts.new.items ≡ verdicts.old.items ++ map failed_start failures.now }
{
    for failure in failures {
        verdicts.push(Verdict::StartFailed {
            code: failure.1,
            detail: u16::from(failure.0),
        });
    }
}

/// The verdicts on a request with these acknowledgement flags, of which at most 32 instructions
/// failed, that stand in front of its content report: of acceptance, on each that failed, and of
/// the start.
pub fn verdicts_before(acks: u8, failures: &[(u8, u8)]) -> Verdicts
    requires { length failures.now ≤ 32 }
    ensures { result.items ≡ verdicts_before acks failures.now }
{
    let mut verdicts = Verdicts::new();
    push_asked(&mut verdicts, acks, ACCEPTANCE, Verdict::Accepted);
    push_failures(&mut verdicts, failures);
    if failures.is_empty() {
        push_asked(&mut verdicts, acks, START, Verdict::Started);
    }
    verdicts
}

/// The verdict of completion, where it is asked for or some instructions failed.
pub fn completed(acks: u8, failures: &[(u8, u8)]) -> Verdicts
    requires { length failures.now ≤ 32 }
    ensures { result.items ≡ completed acks failures.now }
{
    let mut verdicts = Verdicts::new();
    if failures.is_empty() {
        push_asked(&mut verdicts, acks, COMPLETION, Verdict::Completed);
    } else {
        verdicts.push(Verdict::CompletionFailed {
            code: SOME_FAILED,
            detail: failures.len() as u16,
        });
    }
    verdicts
}
