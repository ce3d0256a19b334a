// A request, prepared in memory: its instructions are carried out, its reports are counted, and the
// text of its entry is written.
ghost use Rattle.std.specs.Prelude.{◌≡◌, ◌+◌, ◌≤◌, ◌<◌, ◌^◌, Some, length, take, true};
ghost use Rattle.octet_fields.specs.Fields.{Writes};
ghost use Rattle.image_table.specs.Granting.{counted};
ghost use Rattle.request_laws.specs.Counting.{CanBeCarried};
ghost use Rattle.store_directory.specs.Changes.{apply};
ghost use Rattle.store_directory.specs.Entries.{change_octets};
ghost use Rattle.store_load.specs.Claims.{may_share};
ghost use Rattle.vault.specs.Following.{Stores};
ghost use Rattle.vault.specs.Memory.{EachStore, IsSoundStore};
ghost use Rattle.vault.specs.Requests.{IsPrepared};

use crate::carrying_out::{Carried, carry_out_all};
use crate::last_block::LastBlock;
use crate::request_reports::reports_on;
use control_defs::Instruction;
use std::alloc::Global;
use store_directory::{Change, Directory, write_change};
use time_index::Index;

/// Reports are counted modulo this.
const REPORTS: u16 = 16_384;

// Counts reports, at most 36: makes the change, and writes it at `at`. Returns the place behind it.
fn count_reports(
    alloc: Global,
    directory: &mut Directory,
    made: u16,
    at: u32,
    out: &mut [u8],
) -> u32
    requires few { made ≤ 36 }
    requires room { at + 9 ≤ length out.old }
    requires short { at + 9 < 2 ^ 32 }
    ensures made { apply directory.old.directory (counted made directory.old.directory)
        ≡ Some directory.new.directory }
    ensures end { result ≡ at + 9 }
    ensures written { Writes out.old out.new at
        (change_octets (counted made directory.old.directory)) }
{
    let change = Change::Clock {
        now: directory.now(),
        reports: (directory.reports() + made) % REPORTS,
    };
    let _ = directory.apply(alloc, &change);
    write_change(&change, at, out)
}

/// Carries out the instructions of a request in memory, and counts its reports. The text of its
/// entry, which makes both durable, is written at the front of `out`.
pub(crate) fn prepare(
    alloc: Global,
    directory: &mut Directory,
    indexes: &mut Vec<Index>,
    lasts: &mut Vec<LastBlock>,
    blocks: u32,
    items: &[Instruction],
    acks: u8,
    out: &mut [u8],
) -> Carried
    requires stores { EachStore (IsSoundStore directory.old.now) directory.old.stores
        indexes.old.items lasts.old.items }
    requires share { may_share 240 blocks directory.old.stores ≡ true }
    requires least { 16 ≤ blocks }
    requires most { blocks ≤ 512 }
    requires carried { CanBeCarried items.now }
    requires room { length out.old ≡ 65536 }
    ensures prepared { IsPrepared blocks acks items.now
        (record {
          directory = directory.old.directory;
          indexes = indexes.old.items;
          lasts = lasts.old.items;
        })
        (record {
          directory = directory.new.directory;
          indexes = indexes.new.items;
          lasts = lasts.new.items;
        })
        result.refused.items (take result.size out.new) }
    ensures size { result.size ≤ 969 }
{
    // the number of stores is not used: with it comes what the directory keeps
    let _ = directory.len();
    let Carried { refused, size } = carry_out_all(
        alloc, directory, indexes, lasts, blocks, items, out,
    );
    let made = reports_on(items, acks, refused.len() as u16);
    let size = count_reports(alloc, directory, made, size, out);
    Carried { refused, size }
}
