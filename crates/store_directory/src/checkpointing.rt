// The directory as the text of a checkpoint.
ghost use Rattle.std.specs.Prelude.{◌≡◌, ◌≤◌, ◌+◌, Some, length, IfErr, IfOk};
ghost use Rattle.octet_fields.specs.Fields.{Writes};
ghost use Rattle.store_directory.specs.Checkpoints.{checkpoint_octets, read_checkpoint, stores_octets};
ghost use Rattle.store_directory.specs.Folds.{IsNoCheckpoint};
ghost use Rattle.store_directory.specs.Slots.{HasOwnSizes};

use crate::checkpoint_text::{CheckpointText, put_counts, put_head};
use crate::directory::Directory;
use crate::fault::{ApplyFault, FoldFault};
use crate::pattern_text::put_patterns;
use crate::store_text::put_store;
use octet_fields::put_u8;
use std::alloc::Global;

impl Directory {
    // Writes the stores, and answers the place behind them. The rest of `out` stays.
    fn put_stores(&self, out: &mut [u8], at: usize) -> usize
        requires { at + length (stores_octets self.now.stores) ≤ length out.old }
        ensures place { result ≡ at + length (stores_octets self.now.stores) }
        ensures written { Writes out.old out.new at (stores_octets self.now.stores) }
    {
        let mut place = at;
        for number in 0..self.len() {
            let patterns = self.patterns(number).list();
            place = put_store(self.row(number), patterns, self.links(number), out, place);
        }
        place
    }

    /// Writes the text of a checkpoint at the front of at least 20,476 octets, with the erase counts of
    /// 16 to 512 blocks, and answers its length. The rest of `out` stays.
    #[tactic(auto, unfolding(crate::specs::Checkpoints::checkpoint_octets))]
    pub fn write_checkpoint(&self, wear: &[u32], out: &mut [u8]) -> u32
        requires blocks { length wear.now ≤ 512 }
        requires room { 20476 ≤ length out.old }
        ensures length { result ≡ length (checkpoint_octets self.now.directory wear.now) }
        ensures written { Writes out.old out.new 0 (checkpoint_octets self.now.directory wear.now) }
    {
        let place = put_head(self.now(), self.reports(), out, 0);
        let place = put_patterns(self.forward().list(), out, place);
        put_u8(out, place, self.len() as u8);
        let place = self.put_stores(out, place + 1);
        put_counts(wear, out, place) as u32
    }

    /// Reads a directory and the erase counts of all blocks, as many as `wear` has, from the text of a
    /// checkpoint. `Spelling` where the text spells none, else `Unfit` where it is not lawful, both at
    /// 0. After an error `wear` may hold other numbers than before.
    #[tactic(auto, unfolding(crate::specs::Checkpoints::read_checkpoint))]
    pub fn read_checkpoint(
        alloc: Global,
        text: &[u8],
        wear: &mut [u32],
    ) -> Result<Directory, FoldFault>
        ensures ok { IfOk result (λ d. read_checkpoint (length wear.old) text.now
            ≡ Some (record { directory = d.directory; wear = wear.new })) }
        ensures own { IfOk result (λ d. HasOwnSizes (record { stores = d.stores; sizes = d.sizes })) }
        ensures stops { IfErr result (λ fault. IsNoCheckpoint fault (length wear.old) text.now) }
    {
        let Some(mut checkpoint) = CheckpointText::read(text, wear.len()) else {
            return Err(FoldFault::Spelling { at: 0 });
        };
        match Directory::of_text(alloc, &mut checkpoint) {
            Ok(directory) => {
                checkpoint.wear.copy_into(wear);
                Ok(directory)
            }
            Err(ApplyFault::Unfit) => Err(FoldFault::Unfit { at: 0 }),
            Err(ApplyFault::NoMemory) => Err(FoldFault::NoMemory),
        }
    }
}
