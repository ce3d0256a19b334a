// How a change of the directory becomes durable: as an entry of the journal.
//
// Order: if the journal has no room for the longest entry, the directory from before the change is
// written as a checkpoint, and the other half counts; then the entry is added.
ghost use Rattle.std.specs.Prelude.{◌≡◌, ◌≤◌, ◌<◌, ◌+◌, Some, length, OnOk, OnErr};
ghost use Rattle.board.specs.Counts.{Rose};
ghost use Rattle.board.specs.Meaning.{TellsFlash};
ghost use Rattle.board.specs.Moments.{LeavesOnly};
ghost use Rattle.board.specs.Touches.{Touches};
ghost use Rattle.commit_gate.specs.Entries.{payload_pages};
ghost use Rattle.meta_journal.specs.Journals.{Holds, HoldsEither};
ghost use Rattle.meta_journal.specs.Standing.{AllFirm, StandsFor};
ghost use Rattle.store_directory.specs.Changes.{apply};
ghost use Rattle.store_directory.specs.Directory.{Directory as Kept, IsDirectory};
ghost use Rattle.store_directory.specs.Entries.{CanBeWritten, FitsChange, change_octets};
ghost use Rattle.store_directory.specs.Folds.{fold_entry};
ghost use Rattle.store_directory.specs.Kept.{change_of};
ghost use Rattle.vault.specs.Changing.{HoldsOne, IsKept, RoomAfter, if_short, journal_pages};

use board::{Board, Failed};
use meta_journal::Journal;
use store_directory::{Change, Directory, write_change};

// The pages of the longest entry: its gate, and 20 of its text.
const LONGEST: u32 = 21;

/// Makes room for the longest entry, if there is less: writes the directory, with the erase counts of
/// all blocks, as the checkpoint of the half that does not count, and makes it count.
pub(crate) fn make_room<B: Board>(
    board: &mut B,
    directory: &Directory,
    wear: &[u32],
    buffer: &mut [u8],
    journal: &mut Journal,
) -> Result<(), Failed>
    requires blocks { length wear.now ≡ (B.means.device board.old).blocks }
    requires kept { IsDirectory directory.now.directory }
    requires buffer { length buffer.old ≡ 65536 }
    requires stands { TellsFlash B.means board.old
        → StandsFor journal.old (B.means.flash board.old) }

    ensures room { OnOk result (21 ≤ journal.new.room) }
    ensures room_after { OnOk result (RoomAfter 0 journal.old.room journal.new.room) }
    ensures stands { OnOk result (TellsFlash B.means board.old
        → StandsFor journal.new (B.means.flash board.new)) }
    ensures holds { OnOk result (TellsFlash B.means board.old
        → IsKept (B.means.device board.old).blocks directory.now.directory
        (B.means.flash board.old)
        → IsKept (B.means.device board.old).blocks directory.now.directory
        (B.means.flash board.new)) }
    ensures any_moment { TellsFlash B.means board.old
        → IsKept (B.means.device board.old).blocks directory.now.directory
        (B.means.flash board.old)
        → LeavesOnly B.means board.old board.new
        (Holds (B.means.device board.old).blocks directory.now.directory) }
    ensures touches { Touches B.means journal_pages (if_short journal.old.room 85)
        (if_short journal.old.room 7) (if_short journal.old.room 13) board.old board.new }
    ensures no_fault { OnOk result
        ((B.means.counts board.new).flash_faults ≡ (B.means.counts board.old).flash_faults) }
    ensures cause { OnErr result
        (Rose (B.means.counts board.old).flash_faults (B.means.counts board.new).flash_faults) }
{
    if journal.room() >= LONGEST {
        return Ok(());
    }
    let size = directory.write_checkpoint(wear, &mut buffer[..20_476]) as usize;
    journal.switch(board, &buffer[..size])
}

/// Adds an entry to the journal, with the text of changes.
pub(crate) fn add_entry<B: Board>(
    board: &mut B,
    entry: &[u8],
    journal: &mut Journal,
) -> Result<(), Failed>
    requires shortest { 1 ≤ length entry.now }
    requires longest { length entry.now ≤ 5116 }
    requires room { 21 ≤ journal.old.room }
    requires stands { TellsFlash B.means board.old
        → StandsFor journal.old (B.means.flash board.old) }

    ensures stands { OnOk result (TellsFlash B.means board.old
        → StandsFor journal.new (B.means.flash board.new)) }
    ensures holds { OnOk result (TellsFlash B.means board.old → (before after : Kept)
        → IsKept (B.means.device board.old).blocks before (B.means.flash board.old)
        → fold_entry before entry.now ≡ Some after
        → IsKept (B.means.device board.old).blocks after (B.means.flash board.new)) }
    ensures any_moment { TellsFlash B.means board.old → (before after : Kept)
        → IsKept (B.means.device board.old).blocks before (B.means.flash board.old)
        → fold_entry before entry.now ≡ Some after
        → LeavesOnly B.means board.old board.new
        (HoldsOne (B.means.device board.old).blocks before after) }

    // An image with the directory from before has each other page that was firm as it was, and one
    // with the directory behind has each other page as it was written, also one that was loose.
    ensures either { TellsFlash B.means board.old → (before after : Kept)
        → IsKept (B.means.device board.old).blocks before (B.means.flash board.old)
        → fold_entry before entry.now ≡ Some after
        → LeavesOnly B.means board.old board.new
        (HoldsEither (B.means.device board.old).blocks journal_pages (B.means.flash board.old)
        before after) }
    ensures is_firm { OnOk result (TellsFlash B.means board.old → AllFirm (B.means.flash board.new)) }
    ensures room_after { OnOk result
        (RoomAfter (1 + payload_pages (length entry.now)) journal.old.room journal.new.room) }
    ensures touches { Touches B.means journal_pages (1 + payload_pages (length entry.now)) 0 2
        board.old board.new }
    ensures no_fault { OnOk result
        ((B.means.counts board.new).flash_faults ≡ (B.means.counts board.old).flash_faults) }
    ensures cause { OnErr result
        (Rose (B.means.counts board.old).flash_faults (B.means.counts board.new).flash_faults) }
{
    journal.commit(board, entry)
}

/// Adds a change to the journal, as an entry of its own.
pub(crate) fn add<B: Board>(
    board: &mut B,
    change: &Change<'_>,
    buffer: &mut [u8],
    journal: &mut Journal,
) -> Result<(), Failed>
    requires can_be_written { CanBeWritten (change_of change.now) }
    requires fits { FitsChange (change_of change.now) }
    requires shortest { 1 ≤ length (change_octets (change_of change.now)) }
    requires longest { length (change_octets (change_of change.now)) ≤ 5116 }
    requires buffer { length buffer.old ≡ 65536 }
    requires room { 21 ≤ journal.old.room }
    requires stands { TellsFlash B.means board.old
        → StandsFor journal.old (B.means.flash board.old) }

    ensures stands { OnOk result (TellsFlash B.means board.old
        → StandsFor journal.new (B.means.flash board.new)) }
    ensures holds { OnOk result (TellsFlash B.means board.old → (before after : Kept)
        → IsKept (B.means.device board.old).blocks before (B.means.flash board.old)
        → apply before (change_of change.now) ≡ Some after
        → IsKept (B.means.device board.old).blocks after (B.means.flash board.new)) }
    ensures any_moment { TellsFlash B.means board.old → (before after : Kept)
        → IsKept (B.means.device board.old).blocks before (B.means.flash board.old)
        → apply before (change_of change.now) ≡ Some after
        → LeavesOnly B.means board.old board.new
        (HoldsOne (B.means.device board.old).blocks before after) }
    ensures either { TellsFlash B.means board.old → (before after : Kept)
        → IsKept (B.means.device board.old).blocks before (B.means.flash board.old)
        → apply before (change_of change.now) ≡ Some after
        → LeavesOnly B.means board.old board.new
        (HoldsEither (B.means.device board.old).blocks journal_pages (B.means.flash board.old)
        before after) }
    ensures is_firm { OnOk result (TellsFlash B.means board.old → AllFirm (B.means.flash board.new)) }
    ensures room_after { OnOk result
        (RoomAfter (1 + payload_pages (length (change_octets (change_of change.now))))
        journal.old.room journal.new.room) }
    ensures touches { Touches B.means journal_pages
        (1 + payload_pages (length (change_octets (change_of change.now)))) 0 2
        board.old board.new }
    ensures no_fault { OnOk result
        ((B.means.counts board.new).flash_faults ≡ (B.means.counts board.old).flash_faults) }
    ensures cause { OnErr result
        (Rose (B.means.counts board.old).flash_faults (B.means.counts board.new).flash_faults) }
{
    let size = write_change(change, 0, buffer) as usize;
    add_entry(board, &buffer[..size], journal)
}

/// Makes a change of a directory durable, where the flash holds the directory from before it. The
/// journal gets room first, if it has less than 21 pages.
pub(crate) fn save<B: Board>(
    board: &mut B,
    change: &Change<'_>,
    directory: &Directory,
    wear: &[u32],
    buffer: &mut [u8],
    journal: &mut Journal,
) -> Result<(), Failed>
    requires can_be_written { CanBeWritten (change_of change.now) }
    requires fits { FitsChange (change_of change.now) }
    requires shortest { 1 ≤ length (change_octets (change_of change.now)) }
    requires longest { length (change_octets (change_of change.now)) ≤ 5116 }
    requires blocks { length wear.now ≡ (B.means.device board.old).blocks }
    requires kept { IsDirectory directory.now.directory }
    requires buffer { length buffer.old ≡ 65536 }
    requires stands { TellsFlash B.means board.old
        → StandsFor journal.old (B.means.flash board.old) }

    ensures stands { OnOk result (TellsFlash B.means board.old
        → StandsFor journal.new (B.means.flash board.new)) }
    ensures holds { OnOk result (TellsFlash B.means board.old → (after : Kept)
        → IsKept (B.means.device board.old).blocks directory.now.directory
        (B.means.flash board.old)
        → apply directory.now.directory (change_of change.now) ≡ Some after
        → IsKept (B.means.device board.old).blocks after (B.means.flash board.new)) }
    ensures any_moment { TellsFlash B.means board.old → (after : Kept)
        → IsKept (B.means.device board.old).blocks directory.now.directory
        (B.means.flash board.old)
        → apply directory.now.directory (change_of change.now) ≡ Some after
        → LeavesOnly B.means board.old board.new
        (HoldsOne (B.means.device board.old).blocks directory.now.directory after) }
    ensures either { TellsFlash B.means board.old → (after : Kept)
        → IsKept (B.means.device board.old).blocks directory.now.directory
        (B.means.flash board.old)
        → apply directory.now.directory (change_of change.now) ≡ Some after
        → LeavesOnly B.means board.old board.new
        (HoldsEither (B.means.device board.old).blocks journal_pages (B.means.flash board.old)
        directory.now.directory after) }
    ensures is_firm { OnOk result (TellsFlash B.means board.old → AllFirm (B.means.flash board.new)) }
    ensures room_after { OnOk result
        (RoomAfter (1 + payload_pages (length (change_octets (change_of change.now))))
        journal.old.room journal.new.room) }
    ensures touches { Touches B.means journal_pages
        (if_short journal.old.room 85
        + (1 + payload_pages (length (change_octets (change_of change.now)))))
        (if_short journal.old.room 7) (if_short journal.old.room 13 + 2) board.old board.new }
    ensures no_fault { OnOk result
        ((B.means.counts board.new).flash_faults ≡ (B.means.counts board.old).flash_faults) }
    ensures cause { OnErr result
        (Rose (B.means.counts board.old).flash_faults (B.means.counts board.new).flash_faults) }
{
    make_room(board, directory, wear, buffer, journal)?;
    add(board, change, buffer, journal)
}
