// The text of a checkpoint: now (6), reports (2), the forward patterns behind their number (1), the
// stores behind theirs (1), and the erase count (4) of each block of the device.
ghost use Rattle.std.specs.Prelude.{◌≡◌, ◌<◌, ◌≤◌, ◌+◌, ◌*◌, ◌^◌, ◌++◌, IfSome, MatchOption, None, Some, length};
ghost use Rattle.octet_fields.specs.Fields.{Writes, big_bytes};
ghost use Rattle.store_directory.specs.Checkpoints.{checkpoint_in, counts_in, counts_octets};

use crate::pattern_text::{PatternText, patterns_from};
use crate::store_text::{StoresText, stores_from};
use octet_fields::{put_u16, put_u32, put_u48, u16_at, u32_at, u48_at};
use std::marker::Model;

/// The octets of an erase count.
const COUNT: usize = 4;

/// Erase counts in a text.
#[derive(Drop)]
pub(crate) struct CountText<'a> {
    octets: &'a [u8],
    count: usize,
}

impl<'a> Model for CountText<'a> {
    ghost use Rattle.std.specs.Prelude.{◌≡◌, ◌*◌, ℕ, List, length};
    ghost use Rattle.store_directory.specs.Checkpoints.{counts_in};

    ghost Value = { List ℕ };

    ghost view = { λ counts. counts_in counts.count counts.octets.now };

    ghost invariant = { λ counts. length counts.octets.now ≡ 4 * counts.count };
}

impl<'a> CountText<'a> {
    /// How many counts there are.
    pub(crate) fn len(&self) -> usize
        ensures { result ≡ length self.now }
    {
        self.count
    }

    /// Writes the counts into a slice of as many.
    pub(crate) fn copy_into(&self, wear: &mut [u32])
        requires { length wear.old ≡ length self.now }
        ensures { wear.new ≡ self.now }
    {
        for (number, count) in wear.iter_mut().enumerate() {
            *count = u32_at(self.octets, COUNT * number);
        }
    }
}

/// A checkpoint that a text spells, lawful or not.
#[derive(Drop)]
pub(crate) struct CheckpointText<'a> {
    pub(crate) now: u64,
    pub(crate) reports: u16,
    pub(crate) forward: PatternText<'a>,
    pub(crate) stores: StoresText<'a>,
    pub(crate) wear: CountText<'a>,
}

impl<'a> CheckpointText<'a> {
    ghost use Rattle.store_directory.specs.Spelled.{checkpoint_of};

    /// The checkpoint that a text spells on a device of so many blocks. None where it spells none.
    #[tactic(auto, unfolding(crate::specs::Checkpoints::checkpoint_in))]
    pub(crate) fn read(text: &'a [u8], blocks: usize) -> Option<CheckpointText<'a>>
        ensures value { MatchOption result (checkpoint_in blocks text.now ≡ None)
            (λ read. checkpoint_in blocks text.now ≡ Some (checkpoint_of read)) }
        ensures now { IfSome result (λ read. read.now < 2 ^ 48) }
        ensures wear { IfSome result (λ read. length read.wear ≡ blocks) }
    {
        if text.len() < 8 {
            return None;
        }
        let now = u48_at(text, 0);
        let reports = u16_at(text, 6);
        let (forward, rest) = patterns_from(&text[8..])?;
        let (count, rest) = rest.split_first()?;
        let (stores, rest) = stores_from(rest, *count)?;
        let wear = counts_of(rest, blocks)?;
        Some(CheckpointText {
            now,
            reports,
            forward,
            stores,
            wear,
        })
    }
}

// The counts that a text is. None where it has not as many octets.
fn counts_of<'a>(text: &'a [u8], blocks: usize) -> Option<CountText<'a>>
    ensures counts { MatchOption result (length text.now ≡ 4 * blocks → ⊥)
        (λ counts. (length text.now ≡ 4 * blocks) × (counts ≡ counts_in blocks text.now)) }
    ensures many { IfSome result (λ counts. length counts ≡ blocks) }
{
    if text.len() % COUNT != 0 || text.len() / COUNT != blocks {
        return None;
    }
    Some(CountText {
        octets: text,
        count: blocks,
    })
}

/// Writes the last storage time, below 2^48, and the number of reports, and answers the place
/// behind them. The rest of `out` stays.
pub(crate) fn put_head(now: u64, reports: u16, out: &mut [u8], at: usize) -> usize
    requires fits { now < 2 ^ 48 }
    requires room { at + 8 ≤ length out.old }
    ensures place { result ≡ at + 8 }
    ensures written { Writes out.old out.new at (big_bytes 6 now ++ big_bytes 2 reports) }
{
    put_u48(out, at, now);
    put_u16(out, at + 6, reports);
    at + 8
}

/// Writes erase counts, and answers the place behind them. The rest of `out` stays.
pub(crate) fn put_counts(counts: &[u32], out: &mut [u8], at: usize) -> usize
    requires { at + 4 * length counts.now ≤ length out.old }
    ensures place { result ≡ at + 4 * length counts.now }
    ensures written { Writes out.old out.new at (counts_octets counts.now) }
{
    let mut place = at;
    for count in counts {
        put_u32(out, place, *count);
        place += COUNT;
    }
    place
}
