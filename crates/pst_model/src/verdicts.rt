// What a report of service 1 says of a request.

/// A report of request verification (ECSS-E-ST-70-41C, 6.1.4): of acceptance, of the start of one
/// instruction, and of completion, each with success or failure. A failure has a code, and a detail
/// that depends on it.
#[derive(Clone, Copy, Debug, Default, PartialEq, Eq)]
pub enum Verdict {
    /// Report [1,1]: the request is accepted.
    #[default]
    Accepted,
    /// Report [1,2]: the request is refused.
    Refused { code: u8, detail: u16 },
    /// Report [1,3]: all instructions took effect.
    Started,
    /// Report [1,4]: an instruction failed. The detail is its number, from 1.
    StartFailed { code: u8, detail: u16 },
    /// Report [1,7]: the request is completed.
    Completed,
    /// Report [1,8]: the request is completed, and some instructions failed. The detail is their
    /// number.
    CompletionFailed { code: u8, detail: u16 },
}
