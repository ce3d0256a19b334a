// The listing of the table that the flash holds is sent.
ghost use Rattle.std.specs.Prelude.{◌≡◌, ◌≤◌, ◌+◌, true};
ghost use Rattle.board.specs.Meaning.{TellsFlash};
ghost use Rattle.handler.specs.Carrying.{IsBoardOf};
ghost use Rattle.station.specs.Endings.{IsListed, IsOfListing, ending_by};
ghost use Rattle.station.specs.Station.{IsCaused, Lists, SendsListing};
ghost use Rattle.listing.specs.Lists.{ToldTable};
ghost use Rattle.meta_journal.specs.Standing.{AllFirm};

use crate::ending::Ending;
use board::Board;
use listing::{ListingFault, send_listing};
use std::alloc::Global;
use vault::{OpenFault, Vault};

/// The octets of the longest line of a listing.
const LONGEST: usize = 8_213;

// How a session ends where a listing was not sent to its end.
fn ending_of(fault: ListingFault) -> Ending
    ensures { result ≡ ending_by fault }
{
    match fault {
        ListingFault::Flash => Ending::FlashFault,
        ListingFault::Link => Ending::LinkFault,
        ListingFault::Mismatch {
            block,
            page,
            kept,
            found,
        } => Ending::Mismatch {
            block,
            page,
            kept,
            found,
        },
    }
}

// Sends the listing of the table for which an open vault stands, if the board tells its flash.
fn send_opened<B: Board>(alloc: Global, mut vault: Vault, board: &mut B) -> Ending
    requires is_open { vault.is_open ≡ true }
    requires board { IsBoardOf B.means vault board.old }
    ensures listing { SendsListing B.means (ToldTable B.means vault board.old) board.old board.new result }
    ensures caused { IsCaused B.means board.old board.new result }
    ensures ends { IsListed result }
    ensures barriers { (B.means.counts board.new).barriers ≡ (B.means.counts board.old).barriers }
    ensures same { B.means.device board.new ≡ B.means.device board.old }
{
    let Ok(mut buffer) = vec![in alloc; 0u8; LONGEST] else {
        return Ending::NoMemory;
    };
    match send_listing(&mut vault, board, &mut buffer) {
        Ok(()) => Ending::Done,
        Err(fault) => ending_of(fault),
    }
}

// Opens the table that the flash holds, of which nothing is loose, and sends its listing.
fn open_listing<B: Board>(alloc: Global, board: &mut B) -> Ending
    requires firm { TellsFlash B.means board.old → AllFirm (B.means.flash board.old) }
    ensures lists { Lists B.means board.old board.new result }
    ensures caused { IsCaused B.means board.old board.new result }
    ensures ends { IsOfListing result }
    ensures barriers { (B.means.counts board.new).barriers ≡ (B.means.counts board.old).barriers }
    ensures same { B.means.device board.new ≡ B.means.device board.old }
{
    match Vault::open(alloc, board) {
        Ok(vault) => send_opened(alloc, vault, board),
        Err(OpenFault::NotHeld) => Ending::NotHeld,
        Err(OpenFault::Flash) => Ending::FlashFault,
        Err(OpenFault::NoMemory) => Ending::NoMemory,
    }
}

/// Sends the listing of the table that the flash holds. A barrier goes before, so that what is listed
/// is durable.
pub fn send_held<B: Board>(alloc: Global, board: &mut B) -> Ending
    ensures lists { Lists B.means board.old board.new result }
    ensures caused { IsCaused B.means board.old board.new result }
    ensures ends { IsOfListing result }
    ensures barriers { (B.means.counts board.new).barriers ≤ (B.means.counts board.old).barriers + 1 }
    ensures same { B.means.device board.new ≡ B.means.device board.old }
{
    match board.barrier() {
        Ok(()) => open_listing(alloc, board),
        Err(_) => Ending::FlashFault,
    }
}
