// The row of a store behind a put.
ghost use Rattle.std.specs.Prelude.{◌≡◌, ◌≤◌};
ghost use Rattle.put_laws.specs.Puts.{row_behind_put};

use retrieval::after_drop;
use store_directory::Row;

/// The row of a store of at most 100,000 packets, so many of which leave the front, with one record
/// more behind the last one. The store has then told no refusal.
pub fn row_behind_put(row: &Row, leaving: u32) -> Row
    requires within { leaving ≤ row.now.count }
    requires few { row.now.count ≤ 100000 }
    ensures { result ≡ row_behind_put leaving row.now }
{
    let left = after_drop(row, leaving);
    Row {
        count: left.count + 1,
        told: false,
        ..left
    }
}
