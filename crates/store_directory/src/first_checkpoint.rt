// The checkpoint that a format writes. It is made without a directory in memory, since a format takes
// no memory.
ghost use Rattle.std.specs.Prelude.{◌≡◌, ◌≤◌, ◌+◌, ◌*◌, length, replicate};
ghost use Rattle.octet_fields.specs.Fields.{Writes};
ghost use Rattle.store_directory.specs.Checkpoints.{checkpoint_octets};
ghost use Rattle.store_directory.specs.Format.{first_directory, first_row};

use crate::checkpoint_text::{put_counts, put_head};
use crate::pattern_text::put_patterns;
use crate::row::Row;
use crate::store_text::put_store;
use control_defs::{Pattern, StoreKind};
use octet_fields::put_u8;

// The row of the one store that stands after a format.
fn first_row() -> Row
    ensures { result ≡ first_row }
{
    Row {
        identifier: 1,
        kind: StoreKind::Circular,
        size: 64,
        channel: 1,
        storage: true,
        open_on: true,
        told: false,
        first: 0,
        count: 0,
        behind: 0,
        range: None,
    }
}

/// Writes the checkpoint of a device of at most 512 blocks after a format at the front of `out`, and
/// returns its length in octets: 47, and 4 for the erase count of each block, which is 0. The rest of
/// `out` stays.
pub fn write_first_checkpoint(blocks: u32, out: &mut [u8]) -> u32
    requires most { blocks ≤ 512 }
    requires room { 47 + 4 * blocks ≤ length out.old }
    ensures length { result ≡ 47 + 4 * blocks }
    ensures whole { result ≡ length (checkpoint_octets first_directory (replicate blocks 0)) }
    ensures written { Writes out.old out.new 0
        (checkpoint_octets first_directory (replicate blocks 0)) }
{
    let counts = [0; 512];
    let place = put_head(0, 0, out, 0);
    let place = put_patterns(&[], out, place);
    put_u8(out, place, 1);
    let place = put_store(&first_row(), &[Pattern::Every], &[], out, place + 1);
    put_counts(&counts[..blocks as usize], out, place) as u32
}
