// Reports as octets, worked out by hand.
ghost use Rattle.std.specs.Prelude.{◌≡◌};

mod events;
mod patterns;
mod stores;
mod verdicts;

use super::Head;

/// The headers' values at their greatest.
const LAST: Head = Head {
    count: 16383,
    moment: 0xffff_ffff_ffff,
};

// A head with a small count and a small moment.
fn head_of(count: u16, moment: u64) -> Head
    ensures { result ≡ record { count = count; moment = moment } }
{
    Head { count, moment }
}

// Whether a buffer that was full of 0xaa has these octets at its front, then a row of octets so
// many times, and is left as it was behind them.
fn has_rows(out: &[u8], front: &[u8], row: &[u8], times: usize) -> bool {
    let Some(mut rest) = out.strip_prefix(front) else {
        return false;
    };
    for _ in 0..times {
        let Some(behind) = rest.strip_prefix(row) else {
            return false;
        };
        rest = behind;
    }
    rest.iter().all(|octet| *octet == 0xaa)
}

// Whether a buffer that was full of 0xaa has these octets at its front, and is left as it was
// behind them.
fn has_front(out: &[u8], front: &[u8]) -> bool {
    has_rows(out, front, &[], 0)
}
