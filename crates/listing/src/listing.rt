// The listing of the table for which a vault stands.
ghost use Rattle.std.specs.Prelude.{◌≡◌, ◌≤◌, true, length, IfErr, OnOk};
ghost use Rattle.board.specs.Meaning.{TellsFlash};
ghost use Rattle.listing.specs.Faults.{IsAfter, TellsDifference};
ghost use Rattle.listing.specs.Lists.{Breaks, Lists, ToldTable};
ghost use Rattle.listing.specs.Parts.{all_pages, lines_in};
ghost use Rattle.pst_model.specs.Listing.{listing_of};
ghost use Rattle.pst_model.specs.Table.{Table};
ghost use Rattle.vault.specs.Standing.{StandsFor};

use crate::fault::ListingFault;
use crate::sending::send_head;
use crate::stores::send_stores;
use board::Board;
use vault::{Vault, fetches_keep_the_table};

/// Sends the listing of the table, a line a call: the clock, the forward patterns, then each store
/// with its patterns and its packets, in the order of creation. Each packet is read once, and none
/// is kept. It changes nothing on the flash and takes no memory.
///
/// The device is the one that the vault was opened from. Each line is written into `buffer`, of at
/// least 8,213 octets: the longest line is that of a packet of 4,096 octets, with 20 octets in front
/// of its digits and the line end.
///
/// After a fault a prefix of the listing was sent. `Flash`: a read failed. `Mismatch`: what is found
/// is not the record that was kept. The vault is closed after these. `Link`: a line was not sent.
/// The vault is open then, as after `Ok`.
pub fn send_listing<B: Board>(
    vault: &mut Vault,
    board: &mut B,
    buffer: &mut [u8],
) -> Result<(), ListingFault>
    requires is_open { vault.old.is_open ≡ true }
    requires blocks { vault.old.blocks ≡ (B.means.device board.old).blocks }
    requires room { 8213 ≤ length buffer.old }

    // The whole listing was sent, or a prefix of it, and the flash is as it was. It reads at most as
    // many pages as the packets cost, and sends a line a call.
    ensures ok { OnOk result (Lists B.means (ToldTable B.means vault.old board.old) listing_of
        (all_pages vault.old.indexes) (lines_in vault.old) board.old board.new) }
    ensures err { IfErr result (λ fault. Breaks B.means (ToldTable B.means vault.old board.old)
        listing_of (all_pages vault.old.indexes) (lines_in vault.old) fault board.old board.new) }

    // The vault stands for what it stood for, whatever the answer.
    ensures stands { TellsFlash B.means board.old → (table : Table)
        → StandsFor vault.old (B.means.flash board.old) table
        → StandsFor vault.new (B.means.flash board.new) table }
    ensures after { IsAfter vault.old vault.new result }
    ensures difference { IfErr result (TellsDifference vault.old) }
{
    fetches_keep_the_table();
    match send_head(vault, board, buffer) {
        Ok(()) => {
            let count = vault.view().directory.len();
            send_stores(vault, board, buffer, count)
        }
        Err(_) => Err(ListingFault::Link),
    }
}
