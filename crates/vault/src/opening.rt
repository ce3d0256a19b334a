// How a table is opened.
//
// Order: the roots, the journal's half or halves, then the blocks of each store in the order of the
// stores. Nothing is written.
ghost use Rattle.std.specs.Prelude.{◌≡◌, ◌*◌, ◌-◌, ◌≤◌, None, Some, length, true, IfOk, OnOk};
ghost use Rattle.board.specs.Counts.{Rose};
ghost use Rattle.board.specs.Meaning.{TellsFlash};
ghost use Rattle.board.specs.Reads.{ReadsOnly};
ghost use Rattle.image_table.specs.Table.{table_by, table_of};
ghost use Rattle.journal_reader.specs.Halves.{counts_of_half};
ghost use Rattle.meta_journal.specs.Directories.{directory_of, half_area};
ghost use Rattle.meta_journal.specs.Halves.{half_of};
ghost use Rattle.meta_journal.specs.Standing.{AllFirm};
ghost use Rattle.pst_model.specs.Table.{Table};
ghost use Rattle.vault.specs.Answers.{OnFlash, OnNotHeld, UnlessFlash};
ghost use Rattle.vault.specs.Memory.{IsFresh, IsSound};
ghost use Rattle.vault.specs.Opening.{IsLoadedVault};
ghost use Rattle.vault.specs.Standing.{StandsFor};

use crate::fault::{OpenFault, fault_of_read};
use crate::held_record::HeldRecord;
use crate::loading::{Stores, load_stores};
use crate::pool::{claimed, pool_of};
use crate::vault::Vault;
use block_pool::Pool;
use board::Board;
use journal_reader::{Opened, read_journal};
use std::alloc::{AllocError, Global};

// The octets of a block, the erase counts of a device of so many blocks, and a record.
fn room_for(alloc: Global, blocks: u32) -> Result<(Vec<u8>, Vec<u32>, HeldRecord), AllocError>
    ensures octets { IfOk result (λ room. length room.0.items ≡ 65536) }
    ensures counts { IfOk result (λ room. length room.1.items ≡ blocks) }
{
    let octets = vec![in alloc; 0; 65_536]?;
    let counts = vec![in alloc; 0; blocks as usize]?;
    Ok((octets, counts, HeldRecord::new(alloc)?))
}

// A vault of a journal that was read. `wear` has the erase count of each block, and `octets` and
// `held` are its buffers, of a block and of a record.
fn open_stores<B: Board>(
    alloc: Global,
    board: &mut B,
    opened: Opened,
    wear: &[u32],
    mut octets: Vec<u8>,
    held: HeldRecord,
) -> Result<Vault, OpenFault>
    requires blocks { length wear.now ≡ (B.means.device board.old).blocks }
    requires room { length octets.items ≡ 65536 }

    ensures loaded { IfOk result (IsLoadedVault (TellsFlash B.means board.old)
        (B.means.flash board.old).content (B.means.device board.old).blocks wear.now
        opened.directory opened.journal) }
    ensures unlawful { OnNotHeld result (TellsFlash B.means board.old
        → table_by (B.means.device board.old).blocks (B.means.flash board.old).content
        opened.directory.directory ≡ None) }
    ensures reads { ReadsOnly B.means (256 * ((B.means.device board.old).blocks - 8))
        board.old board.new }
    ensures no_fault { UnlessFlash result
        ((B.means.counts board.new).flash_faults ≡ (B.means.counts board.old).flash_faults) }
    ensures cause { OnFlash result
        (Rose (B.means.counts board.old).flash_faults (B.means.counts board.new).flash_faults) }
{
    let Opened { journal, directory } = opened;
    let Ok(pool) = pool_of(alloc, wear) else {
        return Err(OpenFault::NoMemory);
    };
    let Some(pool) = claimed(&directory, pool) else {
        return Err(OpenFault::NotHeld);
    };
    match load_stores(alloc, board, &directory, &mut octets) {
        Ok(stores) => Ok(Vault {
            directory,
            indexes: stores.indexes,
            lasts: stores.lasts,
            pool,
            journal,
            blocks: wear.len() as u32,
            buffer: octets,
            held,
            alloc,
            is_open: true,
        }),
        Err(fault) => Err(fault),
    }
}

impl Vault {
    /// Opens the table that a device holds. It reads each root page, each page of the journal's half
    /// (of both halves if the roots are split) and each page of the stores' blocks once at most, and
    /// writes nothing.
    ///
    /// `NotHeld`: the device holds no table. `Flash`: a read failed. `NoMemory`: an allocation
    /// failed.
    pub fn open<B: Board>(alloc: Global, board: &mut B) -> Result<Vault, OpenFault>
        // If the flash is told, it is opened exactly if it holds a table, and the vault then stands
        // for that table as long as no page is loose.
        ensures held { IfOk result (λ vault. TellsFlash B.means board.old → (table : Table)
            × (table_of (B.means.device board.old).blocks (B.means.flash board.old).content
            ≡ Some table)) }
        ensures stands { IfOk result (λ vault. TellsFlash B.means board.old
            → AllFirm (B.means.flash board.old)
            → (table : Table) × StandsFor vault (B.means.flash board.new) table) }
        ensures not_held { OnNotHeld result (TellsFlash B.means board.old
            → table_of (B.means.device board.old).blocks (B.means.flash board.old).content ≡ None) }
        ensures wear { IfOk result (λ vault. TellsFlash B.means board.old
            → counts_of_half (B.means.device board.old).blocks
            (half_area (half_of vault.journal.root) (B.means.flash board.old).content)
            ≡ Some vault.pool.wear) }

        // What holds on each board.
        ensures sound { IfOk result IsSound }
        ensures fresh { IfOk result IsFresh }
        ensures blocks { IfOk result (λ vault. vault.blocks ≡ (B.means.device board.old).blocks) }
        ensures reads { ReadsOnly B.means (512 * (B.means.device board.old).blocks)
            board.old board.new }
        ensures no_fault { UnlessFlash result
            ((B.means.counts board.new).flash_faults ≡ (B.means.counts board.old).flash_faults) }
        ensures cause { OnFlash result (Rose (B.means.counts board.old).flash_faults
            (B.means.counts board.new).flash_faults) }
    {
        let blocks = board.blocks();
        let Ok((mut octets, mut counts, held)) = room_for(alloc, blocks) else {
            return Err(OpenFault::NoMemory);
        };
        match read_journal(alloc, board, &mut octets, &mut counts) {
            Ok(Some(opened)) => open_stores(alloc, board, opened, &counts, octets, held),
            Ok(None) => Err(OpenFault::NotHeld),
            Err(stop) => Err(fault_of_read(stop)),
        }
    }
}
