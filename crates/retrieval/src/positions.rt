// What becomes of the positions of a row.
ghost use Rattle.std.specs.Prelude.{◌≡◌, ◌<◌, ◌≤◌, ℕ, IfSome};
ghost use Rattle.pst_model.specs.Ranges.{range_between};
ghost use Rattle.pst_model.specs.Rules.{range_sent};
ghost use Rattle.pst_model.specs.Table.{range_behind};
ghost use Rattle.retrieval.specs.Picks.{IsPickOf, dropped_row, opened_row, ranged_row, sent_row};

use crate::pick::Pick;
use store_directory::Row;
use time_index::Index;

// The positions from the first one up to the second, where there are any.
fn positions(next: u32, end: u32) -> Option<(u32, u32)>
    ensures { result ≡ range_between next end }
{
    if next < end { Some((next, end)) } else { None }
}

// A range behind its first position.
fn behind_first(range: Option<(u32, u32)>) -> Option<(u32, u32)>
    requires { IfSome range (λ positions. positions.0 < positions.1) }
    ensures { result ≡ range_sent range }
{
    match range {
        Some((next, end)) => positions(next + 1, end),
        None => None,
    }
}

// A range where so many packets left the front.
fn moved_up(range: Option<(u32, u32)>, dropped: u32) -> Option<(u32, u32)>
    ensures { result ≡ range_behind dropped range }
{
    match range {
        Some((next, end)) => positions(next.saturating_sub(dropped), end.saturating_sub(dropped)),
        None => None,
    }
}

/// The row of a store behind a packet that was sent, which was the next one of it.
pub fn after_sent(row: &Row, pick: &Pick) -> Row
    requires { IsPickOf row.now pick.now }
    ensures { result ≡ sent_row pick.now.range row.now }
{
    if pick.range {
        Row {
            range: behind_first(row.range),
            ..*row
        }
    } else {
        Row {
            behind: row.behind + 1,
            ..*row
        }
    }
}

/// The row of a store without its first packets, at most all. The number of its first record rises
/// by as many, and goes on from 4,294,967,295 to 0.
pub fn after_drop(row: &Row, dropped: u32) -> Row
    requires { dropped ≤ row.now.count }
    ensures { result ≡ dropped_row dropped row.now }
{
    Row {
        first: row.first.wrapping_add(dropped),
        count: row.count - dropped,
        behind: row.behind.saturating_sub(dropped),
        range: moved_up(row.range, dropped),
        ..*row
    }
}

/// The row of a store with a range retrieval of its packets with storage times from `t1` to `t2`, in
/// 1/65,536 seconds; with none where it has no such packet. The index is that of the store.
pub fn with_range(row: &Row, index: &Index, t1: u64, t2: u64) -> Row
    ensures { result ≡ ranged_row t1 t2 index.now row.now }
{
    Row {
        range: positions(index.first_at(t1), index.first_after(t2)),
        ..*row
    }
}

/// The row of a store whose open retrieval goes on from the first packet with a storage time of `t`
/// or later, in 1/65,536 seconds. The index is that of the store.
pub fn open_from(row: &Row, index: &Index, t: u64) -> Row
    ensures { result ≡ opened_row t index.now row.now }
{
    Row {
        behind: index.first_at(t),
        ..*row
    }
}
